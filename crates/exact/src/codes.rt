// The exact value as a code, M·S / E, with what is left of the unit between two codes.
ghost use Rattle.std.specs.Prelude.{◌≡◌, ◌+◌, ◌*◌, ◌≤◌, ◌<◌, nat_abs};
ghost use Rattle.exact.specs.Values.{CodeValue};

use crate::floor::rounded_down;
use whole::{Whole, common_divisor};

// whole + rest / unit.
#[derive(Clone, Copy)]
pub struct InCodes {
    pub whole: Whole,
    pub rest: u64,
    pub unit: u64,
}

// M·S does not fit 64 bits. But S is a·E + b with b from 0 to E, so that M·S / E is M·a + p·b / unit, p / unit being M / E.
pub fn in_codes(s: Whole, e: u64, p: u64, unit: u64, m: u16) -> InCodes
    requires s_bound { nat_abs s.0 < 9_223_372_036_854_775_808 }
    requires s_bound_2 { nat_abs s.0 ≤ 1000 * e }
    requires e_nonzero { 0 < e }
    requires unit_nonzero { 0 < unit }
    requires e_value { p * e ≡ m * unit }
    requires unit_bound { 2 * (p * e) + unit < 4_611_686_018_427_387_904 }
    ensures { CodeValue s.0 e m result }
{
    let parts = rounded_down(s, e);
    let product = p * parts.rest;
    let more = Whole::of(product / unit);
    let rest = product % unit;
    let common = common_divisor(rest, unit);
    let times = Whole::of(m as u64);
    let whole = times.times(parts.quotient);
    InCodes {
        whole: whole.plus(more),
        rest: rest / common,
        unit: unit / common,
    }
}
