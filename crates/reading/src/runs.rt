// Runs of plain rows in the two passes: where they are looked for, and the cursor past one.
ghost use Rattle.std.specs.Prelude.{◌≡◌, ◌+◌, ◌≤◌};
ghost use Rattle.reading.specs.Runs.{past};

use plain::Run;
use text::Cursor;

// How many lines go by before plain rows are looked for again, and how long the last such pause was. A line that starts no plain row is most often
// followed by others like it: each time none is found the pause is longer, so that a file of other rows is read as fast as if none were looked for.
#[derive(Clone, Copy, Default)]
pub struct Pause {
    pub left: usize,
    pub last: usize,
}

// The longest pause.
const LONGEST: usize = 63;

// At most so many rows are looked for, and none in a pause.
pub fn unless_paused(pause: Pause, most: usize) -> usize
    ensures { result ≤ most }
{
    if pause.left == 0 { most } else { 0 }
}

// The pause after so many rows were found.
pub fn pause_after(pause: Pause, rows: usize) -> Pause {
    if pause.left != 0 {
        return Pause {
            left: pause.left - 1,
            last: pause.last,
        };
    }
    if rows != 0 {
        return Pause::default();
    }
    let longer = if pause.last < LONGEST {
        2 * pause.last + 1
    } else {
        pause.last
    };
    Pause {
        left: longer,
        last: longer,
    }
}

// The cursor past a run: each row is a line.
pub fn cursor_past(c: Cursor, run: Run) -> Cursor
    requires { c.line + run.rows ≤ 18_446_744_073_709_551_615 }
    ensures { result ≡ past c run }
{
    Cursor {
        at: run.at,
        line: c.line + run.rows,
    }
}
