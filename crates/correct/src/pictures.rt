// Pictures, one after another: each with its own header, until the input ends.
ghost use Rattle.std.specs.Prelude.{◌≡◌, Ok};
ghost use Rattle.ppm.specs.Header.{SizedFrame};
ghost use Rattle.correct.specs.Headers.{SizedHeading};
ghost use Rattle.correct.specs.Jobs.{Agrees, job_of};
ghost use Rattle.correct.specs.Outcomes.{Becomes, BecomesOf};

use crate::call::Wanted;
use crate::ends::Ends;
use crate::headers::NoHeader;
use crate::jobs::{Job, NoDepth, depths_in, job_of};
use crate::outcomes::{Fate, Story, fate_of, fate_without};
use crate::pieces::pass_all;
use crate::space::{Space, Table};
use crate::{headers, words};
use colour::plan_of;
use desk::Host;
use ppm::Frame;

// More pictures than this are not counted.
const MOST_PICTURES: u64 = 1_000_000_000_000_000_000;

// A picture whose maxval and the output's are known: its header is written, and then its pixels.
fn pass_job(
    host: &mut Host,
    ends: &mut Ends,
    number: u64,
    table: Table<'_>,
    job: Job,
    space: &mut Space<'_>,
) -> Result<(), Fate>
    requires agrees { Agrees job }
    ensures { BecomesOf (Ok job) result }
{
    if let Err(error) = headers::write(&mut ends.to, job) {
        words::say_unwritten(host, ends, number, error);
        return Err(Fate::Broken);
    }
    let plan = plan_of(table.description, depths_in(job.scales));
    let passed = pass_all(ends, plan, table.places, job, space);
    if let Err(stop) = passed {
        words::say_stop(host, ends, number, stop, job.frame);
    }
    fate_of(passed)
}

// A picture whose header stands; nothing is written before both depths are known, the picture's and the output's.
fn pass_frame(
    host: &mut Host,
    ends: &mut Ends,
    number: u64,
    table: Table<'_>,
    frame: Frame,
    wanted: Wanted,
    space: &mut Space<'_>,
) -> Result<(), Fate>
    requires sized_frame { SizedFrame frame }
    ensures { BecomesOf (job_of frame wanted) result }
{
    match job_of(frame, wanted) {
        Err(NoDepth::Picture) => {
            words::say_maxval(host, number, frame.maxval);
            Err(Fate::Unfit)
        }
        Err(NoDepth::Output) => {
            words::say_wanted(host);
            Err(Fate::Unfit)
        }
        Ok(job) => pass_job(host, ends, number, table, job, space),
    }
}

// A picture of whose header this is known.
fn pass_headed(
    host: &mut Host,
    ends: &mut Ends,
    number: u64,
    table: Table<'_>,
    heading: Result<Frame, NoHeader>,
    wanted: Wanted,
    space: &mut Space<'_>,
) -> Result<(), Fate>
    requires sized_heading { SizedHeading heading }
    ensures { Becomes wanted heading result }
{
    match heading {
        Ok(frame) => pass_frame(host, ends, number, table, frame, wanted, space),
        Err(none) => {
            words::say_no_header(host, ends, number, none);
            Err(fate_without(none))
        }
    }
}

// The next picture, which is the first, the second and so on by its number.
fn pass_picture(
    host: &mut Host,
    ends: &mut Ends,
    number: u64,
    table: Table<'_>,
    wanted: Wanted,
    space: &mut Space<'_>,
) -> Result<(), Fate> {
    let heading = headers::read(&mut ends.from);
    pass_headed(host, ends, number, table, heading, wanted, space)
}

// All pictures, up to the end of the input or the first that is not whole.
pub fn pass_pictures(
    host: &mut Host,
    ends: &mut Ends,
    table: Table<'_>,
    wanted: Wanted,
    space: &mut Space<'_>,
) -> Story {
    for whole in 0..MOST_PICTURES {
        let last = pass_picture(host, ends, whole + 1, table, wanted, space);
        if last.is_err() {
            return Story { whole, last };
        }
    }
    words::say_uncounted(host);
    Story {
        whole: MOST_PICTURES,
        last: Ok(()),
    }
}
