// Document 01, "Lines": a word as a number. The grammar finds where its parts stand, and their digits, cut at the unit's point, give its exact value.
#![tactic(auto)]

ghost use Rattle.std.specs.Prelude.{◌≡◌, ◌++◌, ◌+◌, ◌-◌, ◌*◌, ◌^◌, ◌≤◌, eqb, length, drop, IfSome, Some};
ghost use Rattle.rules.specs.Reading.Lines.{line_limit, e_byte, starts};
ghost use Rattle.rules.specs.Reading.Numerals.{digits, spell};
ghost use Rattle.rules.specs.Reading.Numbers.{exponent_of, number_of, numeral_of, unsigned, value_of};
ghost use Rattle.numbers.specs.Cuts.{Served, answer, cut_of, exponent_cap, kept, most_limit, most_places};
ghost use Rattle.numbers.specs.Parts.{Placed, exponent_at, numeral, numeral_at};

use rules::NumberFault;
use scan::{ByteKind, run_end};

// ---- digits

// Digits alone, at least one.
pub fn is_digits(w: &[u8]) -> bool
    ensures { result ≡ digits w.now }
{
    let n = scan::run_length(w, ByteKind::Digit);
    n != 0 && n == w.len()
}

// What a byte counts as a digit.
fn digit_value(b: u8) -> u64
    ensures { result ≡ b - 48 }
{
    b.saturating_sub(b'0') as u64
}

// One digit more, kept at limit + 1 once it is past the limit.
// Stays: `limit ≤ most_limit` is asked here and in five contracts below; a struct Limit with that as a ghost field would be made in number_of and in spelt,
// which take a u64 from other crates, and each contract would say `kept limit.0` for `kept limit`.
fn one_more(m: u64, b: u8, limit: u64) -> u64
    requires { (m ≤ limit + 1) × (limit ≤ most_limit) }
    ensures { result ≡ kept limit (m * 10 + (b - 48)) }
{
    let n = m * 10 + digit_value(b);
    n.min(limit + 1)
}

// The number that digits spell after m, kept at limit + 1 once it is past the limit.
pub fn spelt(s: &[u8], m: u64, limit: u64) -> u64
    requires { (m ≤ limit + 1) × (limit ≤ most_limit) }
    ensures { result ≡ kept limit (spell m s.now) }
{
    let mut n = m;
    for b in s {
        n = one_more(n, *b, limit);
    }
    n
}

// ---- the grammar

// Where an exponent's digits start in its text, to the end of which they go, and whether its sign is a minus.
#[derive(Clone, Copy)]
struct PowerParts {
    down: bool,
    start: usize,
}

// Where the parts of a number stand in its word: whole digits up to the point's place, digits after it up to an end, and those of the exponent
// from its start to the end of the word.
#[derive(Clone, Copy)]
struct Parts {
    negative: bool,
    whole: usize,
    point: usize,
    fraction: usize,
    end: usize,
    down: bool,
    power: usize,
}

// Whether a word starts with a byte.
fn starts_with(w: &[u8], b: u8) -> bool
    ensures { result ≡ starts (λ c. eqb c b) w.now }
{
    w.first().copied() == Some(b)
}

// e or E.
fn is_e(b: u8) -> bool
    ensures { result ≡ e_byte b }
{
    matches!(b, b'e' | b'E')
}

// How long an optional sign is.
fn sign_length(w: &[u8]) -> usize
    ensures skips { drop result w.now ≡ unsigned w.now }
    ensures within { result ≤ length w.now }
{
    (starts_with(w, b'+') || starts_with(w, b'-')) as usize
}

// Nothing; or e or E, an optional sign, digits.
fn power_in(e: &[u8]) -> Option<PowerParts>
    ensures says { exponent_at e.now result ≡ exponent_of e.now }
    ensures within { IfSome result (λ p. p.start ≤ length e.now) }
{
    if e.len() == 0 {
        return Some(PowerParts {
            down: false,
            start: 0,
        });
    }
    if !is_e(e[0]) {
        return None;
    }
    let signed = &e[1..];
    let down = starts_with(signed, b'-');
    let sign = sign_length(signed);
    if !is_digits(&signed[sign..]) {
        return None;
    }
    Some(PowerParts {
        down,
        start: 1 + sign,
    })
}

// An optional sign; digits, or digits with a point before, among or after them; and an exponent or none.
fn numeral_in(w: &[u8]) -> Option<Parts>
    ensures says { numeral_at w.now result ≡ numeral_of w.now }
    ensures within { IfSome result (λ p. Placed w.now p) }
{
    let negative = starts_with(w, b'-');
    let whole = sign_length(w);
    let point = run_end(w, whole, ByteKind::Digit);
    let pointed = starts_with(&w[point..], b'.');
    let fraction = point + pointed as usize;
    let end = run_end(w, fraction, ByteKind::Digit);
    // a digit stands before the point or after it
    let there = whole < point || fraction < end;
    if !there {
        return None;
    }
    let PowerParts { down, start } = power_in(&w[end..])?;
    Some(Parts {
        negative,
        whole,
        point,
        fraction,
        end,
        down,
        power: end + start,
    })
}

// ---- the value

// Past it a greater exponent changes no answer.
const EXPONENT_CAP: u64 = 2000;

// How many digits stand before the unit's point.
fn cut_at(whole: usize, places: usize, down: bool, x: usize) -> usize
    requires { (whole ≤ line_limit) × (places ≤ most_places) × (x ≤ exponent_cap + 1) }
    ensures { result ≡ cut_of whole places down x }
{
    let n = whole + places;
    if down { n.saturating_sub(x) } else { n + x }
}

// The number that the digits of two parts spell, kept at limit + 1 once it is past the limit.
fn spelt_both(a: &[u8], b: &[u8], limit: u64) -> u64
    requires { limit ≤ most_limit }
    ensures { result ≡ kept limit (spell 0 (a.now ++ b.now)) }
{
    spelt(b, spelt(a, 0, limit), limit)
}

// m with so many zeros after it, kept at limit + 1 once it is past the limit.
fn padded(m: u64, zeros: usize, limit: u64) -> u64
    requires { (m ≤ limit + 1) × (limit ≤ most_limit) }
    ensures { result ≡ kept limit (m * 10 ^ zeros) }
{
    let mut n = m;
    for _ in 0..zeros {
        n = one_more(n, b'0', limit);
    }
    n
}

// What a quotient and a rest say.
fn conclude(negative: bool, q: u64, r: u64, limit: u64) -> Result<i64, NumberFault>
    requires { limit ≤ most_limit }
    ensures { result ≡ answer limit negative q r }
{
    if limit < q {
        return Err(NumberFault::Beyond);
    }
    if r == 0 {
        let v = q as i64;
        if negative {
            return Ok(-v);
        }
        return Ok(v);
    }
    if q == limit {
        Err(NumberFault::Beyond)
    } else {
        Err(NumberFault::Finer)
    }
}

// The value of a number's parts.
fn value(
    whole: &[u8],
    fraction: &[u8],
    power: &[u8],
    negative: bool,
    down: bool,
    places: usize,
    limit: u64,
) -> Result<i64, NumberFault>
    requires { Served whole.now fraction.now places limit }
    ensures { result ≡ value_of places limit (Some (numeral negative whole.now fraction.now down power.now)) }
{
    let x = spelt(power, 0, EXPONENT_CAP);
    let cut = cut_at(whole.len(), places, down, x as usize);
    let a = cut.min(whole.len());
    let b = (cut - a).min(fraction.len());
    let front = spelt_both(&whole[..a], &fraction[..b], limit);
    let quotient = padded(front, cut - a - b, limit);
    let rest = spelt_both(&whole[a..], &fraction[b..], limit);
    conclude(negative, quotient, rest, limit)
}

// What a word says as a number, in units of 10 to the -places, within a limit.
pub fn number_of(w: &[u8], places: usize, limit: u64) -> Result<i64, NumberFault>
    requires { (length w.now ≤ line_limit) × (places ≤ most_places) × (limit ≤ most_limit) }
    ensures { result ≡ number_of places limit w.now }
{
    let Some(p) = numeral_in(w) else {
        return Err(NumberFault::Malformed);
    };
    value(
        &w[p.whole..p.point],
        &w[p.fraction..p.end],
        &w[p.power..],
        p.negative,
        p.down,
        places,
        limit,
    )
}
