// Where a row stands in the file.
ghost use Rattle.std.specs.Prelude.{◌≡◌};
ghost use Rattle.rules.specs.Reading.Contents.{form_of};
ghost use Rattle.rules.specs.Demands.{is_data};
ghost use Rattle.explain.specs.RowLines.{line_of_row};

use rules::Form;
use text::{Cursor, Line, form_of};

fn is_data(l: &[u8]) -> bool
    ensures { result ≡ is_data (form_of l.now) }
{
    matches!(form_of(l), Form::Data)
}

// The number of the line on which a row stands; 0 if the file has no such row.
pub fn line_of(file: &[u8], row: usize) -> usize
    ensures { result ≡ line_of_row file.now row }
{
    let mut c = Cursor::new();
    let mut rows_before = row;
    while let Some(
        Line {
            start,
            end,
            line,
            next,
        },
    ) = c.next_line(file)
    {
        if is_data(&file[start..end]) {
            if rows_before == 0 {
                return line;
            }
            rows_before -= 1;
        }
        c = next;
    }
    0
}
