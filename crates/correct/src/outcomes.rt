// How the work ends: by what became of the pictures, and whether something of them is left in the output.
ghost use Rattle.std.specs.Prelude.{◌≡◌, true};
ghost use Rattle.correct.specs.Outcomes.{ended, fate_of, fate_without, is_left, outcome_of, refusal};

use crate::headers::NoHeader;
use crate::pieces::Stop;
use desk::Outcome;

// What became of a picture that is not written whole: there is none, since the input ends where its header would begin; its header or a maxval is wrong,
// and nothing of it is written; it stops at a pixel, and what stands before that is written; or the system could not read or write.
#[derive(Clone, Copy, Debug, PartialEq, Eq)]
pub enum Fate {
    Missing,
    Unfit,
    Stopped,
    Broken,
}

// How many pictures were written whole, and what became of the last.
#[derive(Clone, Copy)]
pub struct Story {
    pub whole: u64,
    pub last: Result<(), Fate>,
}

// A picture whose header is written.
#[tactic(auto, unfolding(crate::specs::Outcomes::fate_of))]
pub fn fate_of(passed: Result<(), Stop>) -> Result<(), Fate>
    ensures { result ≡ fate_of passed }
{
    match passed {
        Ok(()) => Ok(()),
        Err(Stop::Cut(_)) => Err(Fate::Stopped),
        Err(Stop::TooGreat { .. }) => Err(Fate::Stopped),
        Err(Stop::Unread { .. } | Stop::Unwritten(_)) => Err(Fate::Broken),
    }
}

// One that has no header.
pub fn fate_without(none: NoHeader) -> Fate
    ensures { result ≡ fate_without none }
{
    match none {
        NoHeader::Wrong(_) | NoHeader::TooLong => Fate::Unfit,
        NoHeader::Empty => Fate::Missing,
        NoHeader::Unread(_) => Fate::Broken,
    }
}

// Whether something of the pictures is left in the output, which stays as it is or is taken away.
#[tactic(auto, unfolding(crate::specs::Outcomes::is_left))]
fn is_left(stays: bool, story: Story) -> bool
    ensures { result ≡ is_left stays story }
{
    stays && (story.whole > 0 || matches!(story.last, Err(Fate::Stopped)))
}

// Of pictures that are wrong.
#[tactic(auto, unfolding(crate::specs::Outcomes::refusal))]
fn refusal(stays: bool, story: Story) -> Outcome
    ensures { result ≡ refusal stays story }
{
    if is_left(stays, story) {
        return Outcome::Failed;
    }
    Outcome::Refused
}

// Where the input ends after so many whole pictures.
#[tactic(auto, unfolding(crate::specs::Outcomes::ended))]
fn ended(whole: u64) -> Outcome
    ensures { result ≡ ended whole }
{
    if whole > 0 {
        return Outcome::Done;
    }
    Outcome::Refused
}

// By whether the output stays as it is where the work stops.
#[tactic(auto, unfolding(crate::specs::Outcomes::outcome_of))]
pub fn outcome_of(stays: bool, story: Story) -> Outcome
    ensures { result ≡ outcome_of stays story }
{
    match story.last {
        Ok(()) | Err(Fate::Broken) => Outcome::Failed,
        Err(Fate::Missing) => ended(story.whole),
        Err(Fate::Unfit | Fate::Stopped) => refusal(stays, story),
    }
}

// What was written on standard output stays.
pub fn outcome_on_output(story: Story) -> Outcome
    ensures { result ≡ outcome_of true story }
{
    outcome_of(true, story)
}
