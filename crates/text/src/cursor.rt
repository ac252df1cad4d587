// A line cursor by value: each step hands back the next cursor, place and line number together.
ghost use Rattle.std.specs.Prelude.{◌≡◌, ◌+◌, ◌≤◌};
ghost use Rattle.text.specs.LinesFrom.{step_at};

use scan::{ByteKind, run_end};

// A place in a file and the number of its line.
#[derive(Clone, Copy)]
pub struct Cursor {
    pub at: usize,
    pub line: usize,
}

// A line: where it starts and ends, its number, and the cursor past it.
#[derive(Clone, Copy)]
pub struct Line {
    pub start: usize,
    pub end: usize,
    pub line: usize,
    pub next: Cursor,
}

impl Cursor {
    // At the first byte, on line 1.
    pub fn new() -> Cursor
        ensures { (result.at ≡ 0) × (result.line ≡ 1) }
    {
        Cursor { at: 0, line: 1 }
    }

    // The line at the cursor, or none at the end of the file. Only a newline begins another line; past the last line the number stays.
    pub fn next_line(self, s: &[u8]) -> Option<Line>
        requires { self.line ≤ self.at + 1 }
        ensures { result ≡ step_at s.now self.at self.line }
    {
        let start = self.at;
        let line = self.line;
        if start > s.len() {
            return None;
        }
        let end = run_end(s, start, ByteKind::InLine);
        let below = if end < s.len() { line + 1 } else { line };
        Some(Line {
            start,
            end,
            line,
            next: Cursor {
                at: end + 1,
                line: below,
            },
        })
    }
}
