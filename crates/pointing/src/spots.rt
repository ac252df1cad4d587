// Parts of a line, as a place and a length.
ghost use Rattle.std.specs.Prelude.{◌≡◌, ◌≤◌, length};
ghost use Rattle.pointing.specs.Pointing.{rest_from, word_spot, byte_spot};

use scan::{ByteKind, run_end, run_length};

// A part of a line or of a file: so many bytes from a place on.
#[derive(Clone, Copy)]
pub struct Spot {
    pub place: usize,
    pub length: usize,
}

// From a place on to the end.
pub fn rest_from(l: &[u8], place: usize) -> Spot
    requires { place ≤ length l.now }
    ensures { result ≡ rest_from l.now place }
{
    Spot {
        place,
        length: l.len() - place,
    }
}

// The first word from a place on; where there is none, the line's end.
pub fn word_from(l: &[u8], place: usize) -> Spot
    requires { place ≤ length l.now }
    ensures { result ≡ word_spot l.now place }
{
    let start = run_end(l, place, ByteKind::Blank);
    let end = run_end(l, start, ByteKind::InWord);
    Spot {
        place: start,
        length: end - start,
    }
}

// The first byte that is not permitted; where all are, the line's end.
pub fn byte_spot(l: &[u8]) -> Spot
    ensures { result ≡ byte_spot l.now }
{
    let place = run_length(l, ByteKind::Permitted);
    Spot {
        place,
        length: (l.len() - place).min(1),
    }
}
