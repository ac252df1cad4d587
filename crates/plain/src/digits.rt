// Digits from a place on, at most so many, and the number that they spell. A byte after them may be a digit too: it is for the caller to look.
ghost use Rattle.std.specs.Prelude.{◌≡◌, true, [], ◌∷◌, ◌+◌, ◌-◌, ◌≤◌, length};
ghost use Rattle.rules.specs.Reading.Lines.{digit, every};
ghost use Rattle.rules.specs.Reading.Numerals.{spell};
ghost use Rattle.plain.specs.Shapes.{Spelt};

use scan::is_digit;

#[derive(Clone, Copy)]
pub struct Digits {
    pub value: u64,
    pub next: usize,
}

// What a digit counts.
fn digit_value(b: u8) -> u64
    requires { digit b ≡ true }
    ensures counts { result ≡ b - 48 }
    ensures few { result ≤ 9 }
{
    b as u64 - 48
}

// At most three digits, spelt after m.
pub fn three_at_most(s: &[u8], from: usize, m: u64) -> Digits
    requires { (from + 3 ≤ length s.now) × (m ≤ 9_999) }
    ensures { Spelt s.now from m 3 result }
{
    let mut value = m;
    for k in 0..3 {
        let b = s[from + k];
        if !is_digit(b) {
            return Digits {
                value,
                next: from + k,
            };
        }
        value = value * 10 + digit_value(b);
    }
    Digits {
        value,
        next: from + 3,
    }
}

// Whether four bytes are digits: all are looked at, so that they can be looked at together.
fn are_digits(a: u8, b: u8, c: u8, d: u8) -> bool
    ensures { result ≡ every digit (a ∷ b ∷ c ∷ d ∷ []) }
{
    is_digit(a) & is_digit(b) & is_digit(c) & is_digit(d)
}

// The number that four digits spell.
fn four_spelt(a: u8, b: u8, c: u8, d: u8) -> u64
    requires { every digit (a ∷ b ∷ c ∷ d ∷ []) ≡ true }
    ensures { result ≡ spell 0 (a ∷ b ∷ c ∷ d ∷ []) }
{
    let two = digit_value(a) * 10 + digit_value(b);
    (two * 10 + digit_value(c)) * 10 + digit_value(d)
}

// At most seven digits: four at once, where four stand there.
pub fn seven_at_most(s: &[u8], from: usize) -> Digits
    requires { from + 7 ≤ length s.now }
    ensures { Spelt s.now from 0 7 result }
{
    let a = s[from];
    let b = s[from + 1];
    let c = s[from + 2];
    let d = s[from + 3];
    if are_digits(a, b, c, d) {
        return three_at_most(s, from + 4, four_spelt(a, b, c, d));
    }
    three_at_most(s, from, 0)
}
