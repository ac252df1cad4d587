// A title's line: TITLE, blanks, then a quote, text, a quote.
ghost use Rattle.std.specs.Prelude.{◌≡◌, ◌+◌, ◌≤◌, length};
ghost use Rattle.rules.specs.Reading.Contents.{closes, quoted, title_of};

use crate::runs::{after, every};
use rules::{Item, Refusal, Title};
use scan::{ByteKind, run_length};

// The title of a line that begins at a place of the file.
pub fn title_of(l: &[u8], place: usize) -> Result<Item, Refusal>
    requires { place + length l.now ≤ 18_446_744_073_709_551_615 }
    ensures { result ≡ title_of place l.now }
{
    let word = after(l, ByteKind::Blank);
    let gap = after(word, ByteKind::InWord);
    quoted(after(gap, ByteKind::Blank), place + l.len())
}

// From the opening quote on, in a line that ends at place `end`.
fn quoted(s: &[u8], end: usize) -> Result<Item, Refusal>
    requires { length s.now ≤ end }
    ensures { result ≡ quoted end s.now }
{
    if s.len() == 0 {
        return Err(Refusal::ParametersWrong);
    }
    if s[0] != b'"' {
        return Err(Refusal::ParametersWrong);
    }
    let rest = &s[1..];
    let length = run_length(rest, ByteKind::InTitle);
    if !closes(&rest[length..]) {
        return Err(Refusal::ParametersWrong);
    }
    Ok(Item::OfTitle(Title {
        there: true,
        place: end - rest.len(),
        length,
    }))
}

// Whether a quote stands first, and blanks alone after it.
fn closes(s: &[u8]) -> bool
    ensures { result ≡ closes s.now }
{
    s.len() != 0 && s[0] == b'"' && every(&s[1..], ByteKind::Blank)
}
