// The header: P6 and a whitespace byte, then width, height and maxval. Each number stands after whitespace and comments, if any, and is ended by
// one whitespace byte; the one after maxval is the last byte before the pixels.
ghost use Rattle.std.specs.Prelude.{◌≡◌, false, ◌≤◌, length};
ghost use Rattle.ppm.specs.Header.{whitespace, goes_on, comment_after, gap_end, starts_p6, most_of, field_between, field_at, EndsWithin, header_of};

use crate::kinds::{Kind, kind_of};
use numbers::spelt;
use rules::Depth;
use scan::{ByteKind, run_end};

// The numbers of a header, in their order.
#[derive(Clone, Copy, Debug, PartialEq, Eq)]
pub enum Part {
    Width,
    Height,
    Maxval,
}

// What is wrong with a header; the bytes that end early may be only the first of the header's.
#[derive(Clone, Copy, Debug, PartialEq, Eq)]
pub enum Fault {
    NotP6(Kind),
    EndsEarly,
    Malformed(Part),
    Beyond(Part),
}

// What a header says, and the place where the pixels begin.
#[derive(Clone, Copy, Debug, PartialEq, Eq)]
pub struct Frame {
    pub width: u64,
    pub height: u64,
    pub maxval: u64,
    pub pixels: usize,
}

// A number of the header, and the place after the whitespace byte that ends it.
#[derive(Clone, Copy)]
struct Count {
    value: u64,
    next: usize,
}

const MOST_SIZE: u64 = 2_147_483_647;

impl Part {
    // The greatest number that may stand there.
    pub fn most(self) -> u64
        ensures { result ≡ most_of self }
    {
        match self {
            Part::Width | Part::Height => MOST_SIZE,
            Part::Maxval => Depth::BITS_16 as u64,
        }
    }
}

// ---- whitespace and comments

// Space, tab, newline, vertical tab, form feed or carriage return.
fn is_whitespace(b: u8) -> bool
    ensures { result ≡ whitespace b }
{
    b == b' ' || b >= b'\t' && b <= b'\r'
}

// Whether a byte belongs to the whitespace and comments before a number.
fn goes_on(comment: bool, b: u8) -> bool
    ensures { result ≡ goes_on comment b }
{
    comment || b == b'#' || is_whitespace(b)
}

// Whether a comment goes on after a byte: it starts at # and ends with its line.
fn comment_after(comment: bool, b: u8) -> bool
    ensures { result ≡ comment_after comment b }
{
    if comment {
        b != b'\n' && b != b'\r'
    } else {
        b == b'#'
    }
}

// Where the whitespace and comments from a place on end.
fn gap_end(s: &[u8], from: usize) -> usize
    requires { from ≤ length s.now }
    ensures ends { result ≡ gap_end false s.now from }
    ensures within { result ≤ length s.now }
{
    let mut comment = false;
    for i in from..s.len() {
        if !goes_on(comment, s[i]) {
            return i;
        }
        comment = comment_after(comment, s[i]);
    }
    s.len()
}

// ---- a number

// The number whose digits stand from a start to an end: a whitespace byte ends it, and it is within the limit.
fn field_between(s: &[u8], start: usize, end: usize, part: Part) -> Result<Count, Fault>
    requires { (start ≤ end) × (end ≤ length s.now) }
    ensures says { result ≡ field_between part (most_of part) s.now start end }
    ensures within { EndsWithin s.now result }
{
    if end == s.len() {
        return Err(Fault::EndsEarly);
    }
    if end == start || !is_whitespace(s[end]) {
        return Err(Fault::Malformed(part));
    }
    let limit = part.most();
    let value = spelt(&s[start..end], 0, limit);
    if value > limit {
        return Err(Fault::Beyond(part));
    }
    let next = end + 1;
    Ok(Count { value, next })
}

// The number from a place on.
fn field_at(s: &[u8], from: usize, part: Part) -> Result<Count, Fault>
    requires { from ≤ length s.now }
    ensures says { result ≡ field_at part (most_of part) s.now from }
    ensures within { EndsWithin s.now result }
{
    let start = gap_end(s, from);
    let end = run_end(s, start, ByteKind::Digit);
    field_between(s, start, end, part)
}

// ---- the header

// Whether the bytes start with P6 and whitespace.
#[tactic(auto, unfolding(crate::specs::Header::starts_p6))]
fn starts_p6(s: &[u8]) -> bool
    requires { 3 ≤ length s.now }
    ensures { result ≡ starts_p6 s.now }
{
    s[0] == b'P' && s[1] == b'6' && is_whitespace(s[2])
}

// What the header at the start of the bytes says; the first four tell what they begin.
pub fn header_of(s: &[u8]) -> Result<Frame, Fault>
    ensures { result ≡ header_of s.now }
{
    if s.len() < 4 {
        return Err(Fault::EndsEarly);
    }
    if !starts_p6(s) {
        return Err(Fault::NotP6(kind_of(s)));
    }
    let width = field_at(s, 3, Part::Width)?;
    let height = field_at(s, width.next, Part::Height)?;
    let maxval = field_at(s, height.next, Part::Maxval)?;
    Ok(Frame {
        width: width.value,
        height: height.value,
        maxval: maxval.value,
        pixels: maxval.next,
    })
}
