// The words of a line, one at a time, by their places.
ghost use Rattle.std.specs.Prelude.{◌≡◌, ◌≤◌, length};
ghost use Rattle.text.specs.WordsFrom.{word_at};

use scan::{ByteKind, run_end};

// Where a word starts and ends.
#[derive(Clone, Copy)]
pub struct Word {
    pub start: usize,
    pub end: usize,
}

// The first word from a place on, or none where none is left.
pub fn next_word(l: &[u8], from: usize) -> Option<Word>
    requires { from ≤ length l.now }
    ensures { result ≡ word_at l.now from }
{
    let start = run_end(l, from, ByteKind::Blank);
    if start == l.len() {
        return None;
    }
    let end = run_end(l, start, ByteKind::InWord);
    Some(Word { start, end })
}
