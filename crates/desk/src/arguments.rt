// An argument as a number: digits alone, up to a limit; and an option with a number, last on the command line.
ghost use Rattle.std.specs.Prelude.{◌≡◌, ◌≤◌};
ghost use Rattle.numbers.specs.Cuts.{most_limit};
ghost use Rattle.desk.specs.Arguments.{argument_of, UpTo, OptionUpTo};

use crate::host::{Host, argument, argument_count};
use numbers::{is_digits, spelt};
use text::is_named;

// Why an argument is no number up to the limit: it is a greater one, or not understood.
#[derive(Clone, Copy, Debug, PartialEq, Eq)]
pub enum Unfit {
    TooGreat,
    Unclear,
}

// The number that digits spell, where it is at most `most`.
pub fn number_in(text: &[u8], most: u64) -> Result<u64, Unfit>
    requires { most ≤ most_limit }
    ensures { result ≡ argument_of most text.now }
{
    if !is_digits(text) {
        return Err(Unfit::Unclear);
    }
    let n = spelt(text, 0, most);
    if n > most {
        return Err(Unfit::TooGreat);
    }
    Ok(n)
}

// The argument at a place of the command line; one that is missing, empty or longer than a path is no number.
fn number_at(host: &Host, place: usize, most: u64) -> Result<u64, Unfit>
    requires { most ≤ most_limit }
    ensures { UpTo most result }
{
    // Stays: here and where else an argument is read, fixed memory of the longest name. `Vec::new(host.alloc())` would be one more call that can fail.
    let mut text = io::buffer();
    let n = argument(host, place, &mut text);
    number_in(&text[..n], most)
}

// Whether the argument at a place is this word.
pub fn is_word_at(host: &Host, place: usize, word: &[u8]) -> bool {
    let mut text = io::buffer();
    let n = argument(host, place, &mut text);
    is_named(&text[..n], word)
}

// What stands from a place on: nothing, or the option of this name and its number up to the limit, and nothing more.
pub fn optional_number(
    host: &Host,
    place: usize,
    name: &[u8],
    most: u64,
) -> Result<Option<u64>, Unfit>
    requires { most ≤ most_limit }
    ensures { OptionUpTo most result }
{
    let count = argument_count(host);
    if count == place {
        return Ok(None);
    }
    if count < place || count - place != 2 || !is_word_at(host, place, name) {
        return Err(Unfit::Unclear);
    }
    let n = number_at(host, place + 1, most)?;
    Ok(Some(n))
}
