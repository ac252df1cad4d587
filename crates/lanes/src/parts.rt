// An axis in greater parts: what is counted in parts of its span, divided by a number that goes into all of it. The value of a sum over D is the same in
// any parts, and small numbers can be divided by one product.
ghost use Rattle.std.specs.Prelude.{◌≡◌, true, ◌<◌};
ghost use Rattle.colour.specs.Places.{AxisFits};
ghost use Rattle.lanes.specs.Parts.{GoesInto, PartedIf};

use colour::{Axis, Plan};
use rules::TenMillionths;
use whole::{Divisor, Whole, common_divisor};

fn common_with(g: u64, axis: Axis) -> u64 {
    let low = axis.low;
    let inner = common_divisor(axis.each, low.size());
    common_divisor(g, inner)
}

// A number that goes into all three axes, or 1.
pub fn common_parts(plan: Plan) -> u64
    ensures { 0 < result }
{
    let axis = plan.red;
    let first = common_with(axis.den, axis);
    let second = common_with(first, plan.green);
    let g = common_with(second, plan.blue);
    if g == 0 { 1 } else { g }
}

// Into one.
pub fn common_in(axis: Axis) -> u64
    ensures { 0 < result }
{
    let g = common_with(axis.den, axis);
    if g == 0 { 1 } else { g }
}

// Whether a number goes into all of an axis that is counted in parts.
fn goes_into(g: u64, axis: Axis) -> bool
    requires { 0 < g }
    ensures { result ≡ true → GoesInto g axis }
{
    let low = axis.low;
    if g > axis.den {
        return false;
    }
    if axis.each % g != 0 {
        return false;
    }
    if low.size() % g != 0 {
        return false;
    }
    if axis.den % g != 0 {
        return false;
    }
    axis.unit % g == 0
}

// The least number that every kind of reciprocal is kept of, 2^23 and 1.
const LEAST_UNIT: u64 = 8_388_609;

// The axis in parts of g each, if g goes into it and no code is below its lower bound.
pub fn parted(axis: Axis, g: u64) -> Option<Axis>
    requires axis_fits { AxisFits axis }
    requires g_nonzero { 0 < g }
    requires unit_bound { axis.unit < 9_223_372_036_854_775_808 }
    ensures { PartedIf g axis result }
{
    let low = axis.low;
    if low.above() > 0 {
        return None;
    }
    if !goes_into(g, axis) {
        return None;
    }
    let den = axis.den / g;
    let unit = axis.unit / g;
    if unit < LEAST_UNIT {
        return None;
    }
    Some(Axis {
        each: axis.each / g,
        low: low.over(g),
        den,
        full: den * TenMillionths::ONE,
        unit,
        divisor: Divisor::of(2 * unit),
        stride: axis.stride,
    })
}
