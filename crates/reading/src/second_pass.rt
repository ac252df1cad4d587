// The second pass: the samples of an accepted file into the table. Nothing is refused here any more.
ghost use Rattle.std.specs.Prelude.{◌≡◌, ◌+◌, ◌≤◌, length};
ghost use Rattle.rules.specs.Memory.{spliced};
ghost use Rattle.rules.specs.Reading.Lines.{lines_of};
ghost use Rattle.rules.specs.Reading.Contents.{content_of};
ghost use Rattle.rules.specs.Reading.{samples_in, samples_of};
ghost use Rattle.reading.specs.Tables.{LineKeeps, Accepts};

use crate::runs::{Pause, cursor_past, pause_after, unless_paused};
use content::row_on;
use plain::fill_rows;
use rules::Form;
use text::{Cursor, Line, form_of};

// The samples of a line from a place on; the place past them.
fn put_line(l: &[u8], table: &mut [i64], at: usize) -> usize
    requires line_keeps { LineKeeps l.now }
    requires l_in_bounds { at + length (samples_in (content_of 0 l.now)) ≤ length table.old }
    ensures next { result ≡ at + length (samples_in (content_of 0 l.now)) }
    ensures puts { table.new ≡ spliced table.old at (samples_in (content_of 0 l.now)) }
{
    let Form::Data = form_of(l) else {
        return at;
    };
    let Ok(row) = row_on(l) else {
        return at;
    };
    let red = row.red.0;
    let green = row.green.0;
    let blue = row.blue.0;
    table[at] = red;
    table[at + 1] = green;
    table[at + 2] = blue;
    at + 3
}

// The samples of a file from the table's start on.
pub fn fill(file: &[u8], table: &mut [i64])
    requires { Accepts file.now (length table.old) }
    ensures { table.new ≡ spliced table.old 0 (samples_of (lines_of file.now)) }
{
    let mut c = Cursor::new();
    let mut at = 0;
    let mut pause = Pause::default();
    // Stays: as in the first pass, the run of plain rows comes before the line in each turn, and `while let` would need it twice.
    loop {
        let most = (table.len() - at) / 3;
        let run = fill_rows(file, c.at, unless_paused(pause, most), &mut *table, at);
        let rows = run.rows;
        pause = pause_after(pause, rows);
        at = at + 3 * rows;
        c = cursor_past(c, run);
        let Some(
            Line {
                start,
                end,
                next,
                ..
            },
        ) = c.next_line(file)
        else {
            return;
        };
        at = put_line(&file[start..end], &mut *table, at);
        c = next;
    }
}
