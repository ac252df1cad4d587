// Kinds of bytes, and where a run of one kind ends: blanks, words, digits, a line, a title's text. One loop serves them all.
#![tactic(auto)]

ghost use Rattle.std.specs.Prelude.{◌≡◌, ◌≤◌, length};
ghost use Rattle.rules.specs.Reading.Lines.{permitted, blank, digit, in_title, number_byte, run};
ghost use Rattle.scan.specs.Kinds.{kind_of};
ghost use Rattle.scan.specs.RunEnds.{run_end};

// The kinds of bytes that runs are made of.
// Stays: with a closure, as in `run_end(s, from, is_blank)`, each of run_end, run_length, after and every would ask that
// `F.post f b (kind b)` for every byte b, and name `kind` beside f; an enum says both in one word, `kind_of k`.
#[derive(Clone, Copy)]
pub enum ByteKind {
    InLine,
    Permitted,
    Blank,
    InWord,
    Digit,
    InTitle,
}

// 0x20 to 0x7E, or tab.
fn is_permitted(b: u8) -> bool
    ensures { result ≡ permitted b }
{
    matches!(b, b'\t' | b' '..=b'~')
}

// Space or tab.
fn is_blank(b: u8) -> bool
    ensures { result ≡ blank b }
{
    matches!(b, b' ' | b'\t')
}

// 0 to 9.
pub fn is_digit(b: u8) -> bool
    ensures { result ≡ digit b }
{
    b.is_ascii_digit()
}

// A byte of a title: neither quote nor tab.
fn is_in_title(b: u8) -> bool
    ensures { result ≡ in_title b }
{
    !matches!(b, b'"' | b'\t')
}

// A byte that begins a data line: a digit, +, - or a point.
pub fn is_number_byte(b: u8) -> bool
    ensures { result ≡ number_byte b }
{
    matches!(b, b'0'..=b'9' | b'+' | b'-' | b'.')
}

// Whether a byte is of a kind.
fn is_kind(k: ByteKind, b: u8) -> bool
    ensures { result ≡ kind_of k b }
{
    match k {
        ByteKind::InLine => b != b'\n',
        ByteKind::Permitted => is_permitted(b),
        ByteKind::Blank => is_blank(b),
        ByteKind::InWord => !is_blank(b),
        ByteKind::Digit => is_digit(b),
        ByteKind::InTitle => is_in_title(b),
    }
}

// Where the run of bytes of a kind from a place on ends.
pub fn run_end(s: &[u8], from: usize, k: ByteKind) -> usize
    requires { from ≤ length s.now }
    ensures ends { result ≡ run_end (kind_of k) s.now from }
    ensures within { result ≤ length s.now }
{
    // Stays: as `for i in from..s.len()`, 33 × 33 × 33 rows with two spaces between numbers were read in 12.5 ms; as it is, in 10.7 ms.
    let mut i = from;
    while i < s.len() {
        if !is_kind(k, s[i]) {
            return i;
        }
        i += 1;
    }
    i
}

// How long the longest first run of bytes of a kind is.
pub fn run_length(s: &[u8], k: ByteKind) -> usize
    ensures counts { result ≡ length (run (kind_of k) s.now) }
    ensures within { result ≤ length s.now }
{
    run_end(s, 0, k)
}
