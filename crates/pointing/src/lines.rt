// A line of a file by its number, and whether it is a row's.
ghost use Rattle.std.specs.Prelude.{◌≡◌, ◌+◌, ◌≤◌, length};
ghost use Rattle.rules.specs.Demands.{is_data};
ghost use Rattle.rules.specs.Reading.Lines.{lines_of};
ghost use Rattle.rules.specs.Reading.Contents.{form_of};
ghost use Rattle.pointing.specs.Pointing.{line_from};

use crate::spots::Spot;
use rules::Form;
use text::{Cursor, Line, form_of};

// Whether a line is a row's.
pub fn is_data(l: &[u8]) -> bool
    ensures { result ≡ is_data (form_of l.now) }
{
    matches!(form_of(l), Form::Data)
}

// The line past so many others; where there is none, no bytes at the file's start.
pub fn line_past(file: &[u8], others: usize) -> Spot
    ensures is { result ≡ line_from 0 others (lines_of file.now) }
    ensures within { result.place + result.length ≤ length file.now }
{
    let mut c = Cursor::new();
    let mut left = others;
    while let Some(
        Line {
            start,
            end,
            next,
            ..
        },
    ) = c.next_line(file)
    {
        if left == 0 {
            return Spot {
                place: start,
                length: end - start,
            };
        }
        left -= 1;
        c = next;
    }
    Spot {
        place: 0,
        length: 0,
    }
}
