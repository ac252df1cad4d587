// What the arguments ask for.
ghost use Rattle.std.specs.Prelude.{◌≡◌};
ghost use Rattle.correct.specs.Calls.{begins_as_option};

use desk::{Host, Unfit, argument, optional_number};
use rules::Depth;

// The maxval that is wanted of the output, if one is. One that is too great is of no depth, which is said with the first picture.
pub type Wanted = Result<Option<u64>, Unfit>;

// Whether the files IN and OUT are named, and the maxval that is wanted of the output.
#[derive(Clone, Copy)]
pub struct Call {
    pub named: bool,
    pub wanted: Wanted,
}

// Whether a word begins with two hyphens.
#[tactic(auto, unfolding(crate::specs::Calls::begins_as_option))]
fn begins_as_option(word: &[u8]) -> bool
    ensures { result ≡ begins_as_option word.now }
{
    matches!(word, [b'-', b'-', ..])
}

fn is_option_at(host: &Host, place: usize) -> bool {
    let mut text = io::buffer();
    let n = argument(host, place, &mut text);
    begins_as_option(&text[..n])
}

// Whether the arguments from the table's name on are three names.
fn are_names(host: &Host) -> bool {
    !is_option_at(host, 2) && !is_option_at(host, 3) && !is_option_at(host, 4)
}

// What stands last, from a place on.
fn maxval_at(host: &Host, place: usize) -> Wanted {
    optional_number(host, place, b"--maxval", Depth::BITS_16 as u64)
}

// After the table's name IN and OUT, or neither, and then perhaps the option. With them no name may look like an option.
pub fn asked_for(host: &Host) -> Option<Call> {
    let unnamed = maxval_at(host, 3);
    let Err(Unfit::Unclear) = unnamed else {
        return Some(Call {
            named: false,
            wanted: unnamed,
        });
    };
    let wanted = maxval_at(host, 5);
    if matches!(wanted, Err(Unfit::Unclear)) || !are_names(host) {
        return None;
    }
    Some(Call {
        named: true,
        wanted,
    })
}
