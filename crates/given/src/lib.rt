// What arguments give as numbers. Each is a number, or none. One past a limit counts as the next after it, and what judges a question refuses all of those alike.
#![tactic(auto)]

ghost use Rattle.std.specs.Prelude.{◌≡◌, Some, suc, ◌≤◌, ◌<◌};
ghost use Rattle.rules.specs.Reading.Numerals.{signed};
ghost use Rattle.rules.specs.Units.{row_limit};
ghost use Rattle.colour.specs.Limits.{den_limit};
ghost use Rattle.desk.specs.Arguments.{argument_of};
ghost use Rattle.given.specs.Written.{value_by, weight_by, weight_of};

use desk::{Host, Unfit, argument, number_in, optional_number};
use rules::Depth;

// The greatest code of any depth. No depth has more bits either.
pub const MOST: u32 = Depth::BITS_16 as u32;

// The last row of the largest table, 256 * 256 * 256 rows.
pub const MOST_ROW: u32 = 16_777_215;

// The greatest that weights can add up to: 65,535 codes in a domain of 10,000 thousandths.
const MOST_WEIGHT: u64 = 655_350_000;

// Digits.
// Stays: the number past a limit is no error, since `value_by` and `weight_by` (specs/Written.antt) give the next one after it, which is then judged.
fn value_in(text: &[u8], most: u32) -> Option<u32>
    requires { most < row_limit }
    ensures { result ≡ value_by most (argument_of most text.now) }
{
    match number_in(text, most as u64) {
        Ok(n) => Some(n as u32),
        Err(Unfit::TooGreat) => Some(most + 1),
        Err(Unfit::Unclear) => None,
    }
}

// The argument at a place; one that is missing, empty or longer than a path is no number.
pub fn value_at(host: &Host, place: usize, most: u32) -> Option<u32>
    requires { most < row_limit }
{
    let mut text = io::buffer();
    let n = argument(host, place, &mut text);
    value_in(&text[..n], most)
}

// The depth of the corrected codes: the raw one, where nothing more is given from a place on.
pub fn corrected_width(host: &Host, place: usize, raw: u32) -> Option<u32> {
    match optional_number(host, place, b"--corrected-bits", MOST as u64) {
        Ok(None) => Some(raw),
        Ok(Some(n)) => Some(n as u32),
        Err(Unfit::TooGreat) => Some(MOST + 1),
        Err(Unfit::Unclear) => None,
    }
}

// The weight of this size, below 0 if it is negative.
fn signed_weight(negative: bool, size: u64) -> Option<i64>
    requires { size ≤ suc den_limit }
    ensures { result ≡ Some (signed negative size) }
{
    let weight = size as i64;
    if negative {
        return Some(-weight);
    }
    Some(weight)
}

fn weight_by(negative: bool, digits: &[u8]) -> Option<i64>
    ensures { result ≡ weight_by negative (argument_of den_limit digits.now) }
{
    match number_in(digits, MOST_WEIGHT) {
        Ok(n) => signed_weight(negative, n),
        Err(Unfit::TooGreat) => signed_weight(negative, MOST_WEIGHT + 1),
        Err(Unfit::Unclear) => None,
    }
}

// Digits, and perhaps a minus before them.
fn weight_in(text: &[u8]) -> Option<i64>
    ensures { result ≡ weight_of text.now }
{
    if text.len() == 0 {
        return None;
    }
    if text[0] == b'-' {
        return weight_by(true, &text[1..]);
    }
    weight_by(false, text)
}

// The weight at a place; an argument that is missing, empty or longer than a path is none.
pub fn weight_at(host: &Host, place: usize) -> Option<i64> {
    let mut text = io::buffer();
    let n = argument(host, place, &mut text);
    weight_in(&text[..n])
}
