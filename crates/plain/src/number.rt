// A number in the plain shape, by the place where it ends; its value goes to a place of the caller's, so that the next number need not wait for it.
ghost use Rattle.std.specs.Prelude.{◌≡◌, ◌+◌, ◌-◌, ◌^◌, ◌≤◌, length};
ghost use Rattle.plain.specs.Shapes.{Found, NumberAt, UnsignedAt};

use crate::digits::{seven_at_most, three_at_most};

// What one unit of the last of so many decimals counts, in ten-millionths.
fn unit_of(decimals: usize) -> u64
    requires { decimals ≤ 7 }
    ensures { result ≡ 10 ^ (7 - decimals) }
{
    match decimals {
        0 => 10_000_000,
        1 => 1_000_000,
        2 => 100_000,
        3 => 10_000,
        4 => 1_000,
        5 => 100,
        6 => 10,
        _ => 1,
    }
}

// A number without its sign, in ten-millionths: the place past it, or the place itself where there is none.
fn unsigned_end(s: &[u8], at: usize, value: &mut i64) -> usize
    requires { at + 11 ≤ length s.now }
    ensures { Found at result (UnsignedAt s.now at result value.new) }
{
    let whole = three_at_most(s, at, 0);
    let point = whole.next;
    if point == at {
        return at;
    }
    let units = whole.value * 10_000_000;
    if s[point] != b'.' {
        *value = units as i64;
        return point;
    }
    let first = point + 1;
    let fraction = seven_at_most(s, first);
    let next = fraction.next;
    *value = (units + fraction.value * unit_of(next - first)) as i64;
    next
}

// A number: the place past it, or the place itself where there is none.
pub fn number_end(s: &[u8], at: usize, value: &mut i64) -> usize
    requires { at + 12 ≤ length s.now }
    ensures { Found at result (NumberAt s.now at result value.new) }
{
    if s[at] == b'-' {
        let start = at + 1;
        let next = unsigned_end(s, start, &mut *value);
        if next == start {
            return at;
        }
        *value = -*value;
        return next;
    }
    unsigned_end(s, at, &mut *value)
}
