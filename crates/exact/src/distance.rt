// How far a code is from the exact value.
ghost use Rattle.std.specs.Prelude.{◌≤◌, ◌<◌, nat_abs};
ghost use Rattle.exact.specs.Values.{Apart};

use crate::codes::InCodes;
use whole::Whole;

// whole + rest / unit, over the unit of the exact value.
#[derive(Clone, Copy)]
pub struct Distance {
    pub whole: u64,
    pub rest: u64,
}

// From a code above the exact value, the rest counts down from the next whole number.
pub fn distance_of(code: u16, v: InCodes) -> Distance
    requires rest_lt_unit { v.rest < v.unit }
    requires whole_bound { nat_abs v.whole.0 ≤ 1_099_511_627_776 }
    ensures { Apart code v result }
{
    let rest = v.rest;
    let back = v.whole.times(Whole(-1));
    let ahead = back.plus(Whole::of(code as u64));
    let whole = ahead.size();
    if rest == 0 {
        return Distance { whole, rest };
    }
    if ahead.above() == 0 {
        return Distance { whole, rest };
    }
    Distance {
        whole: whole - 1,
        rest: v.unit - rest,
    }
}
