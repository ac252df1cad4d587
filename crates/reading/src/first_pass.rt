// The first pass: the whole file judged, line by line, and plain rows many at a time. Nothing is written.
ghost use Rattle.std.specs.Prelude.{◌≡◌};
ghost use Rattle.rules.specs.Reading.{read};

use crate::checks::conclude;
use crate::lines::judge_line;
use crate::runs::{Pause, cursor_past, pause_after, unless_paused};
use crate::state::State;
use plain::pass_rows;
use rules::{Description, Refused};
use text::{Cursor, Line};

// What reading a file into a table of so many places answers.
pub fn judge_file(file: &[u8], places: usize) -> Result<Description, Refused>
    ensures { result ≡ read file.now places }
{
    let mut st = State::new();
    let mut c = Cursor::new();
    let mut pause = Pause::default();
    // Stays: in `while let Some(..) = c.next_line(file)` the run of plain rows, which comes before the line in each turn, would stand twice: before the
    // loop and at the end of its body.
    loop {
        let run = pass_rows(file, c.at, unless_paused(pause, st.left()));
        pause = pause_after(pause, run.rows);
        st = st.with_rows(run.rows);
        c = cursor_past(c, run);
        let Some(
            Line {
                start,
                end,
                line,
                next,
            },
        ) = c.next_line(file)
        else {
            return conclude(st, c.line, places);
        };
        let judged = judge_line(st, &file[start..end], start, places);
        // Stays: `let else` and no `?`, the form that document 01 names for this place (docs/DECISIONS.md).
        let Err(reason) = judged else {
            st = judged.unwrap_or(st);
            c = next;
            continue;
        };
        return Err(Refused { reason, line });
    }
}
