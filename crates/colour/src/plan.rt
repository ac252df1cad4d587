// A plan: what of a description and the depths is the same for every pixel, made once.
ghost use Rattle.std.specs.Prelude.{◌≡◌, ◌≤◌, ◌<◌, pos, nat_abs, ◌*ℤ◌};
ghost use Rattle.std.specs.Int.Signed.{quot_z};
ghost use Rattle.rules.specs.Units.{sample_limit, bound_one, bound_limit, width_limit};
ghost use Rattle.rules.specs.Descriptions.{domain, span, DomainFits};
ghost use Rattle.colour.specs.Limits.{each_limit, bottom_limit};
ghost use Rattle.colour.specs.Ratios.{ratio_of, InTerms};
ghost use Rattle.colour.specs.Plans.{axis_of, plan_of, Readable};

use crate::ratio::ratio_of;
use crate::span::{domain_of, span_of, width_of};
use rules::{Colour, Depths, Description, Domain, Kind, TenMillionths, Thousandths};
use whole::{Divisor, Whole};

// One colour's axis.
// Stays: no invariant in the type, since the definitions `axis_of` and `plan_of` (specs/Plans.antt) give an axis and a plan of any domain, also of one that
// could not have been read, and have to keep their meaning.
#[derive(Clone, Copy)]
pub struct Axis {
    // One unit of the colour's domain is so many parts of its span: 1000 where the span is in thousandths.
    pub each: u64,
    // The lower bound in those parts, times the M of raw codes.
    pub low: Whole,
    // D, over which the colour's fraction is: M times the span.
    pub den: u64,
    // D·10,000,000: an S so great is the value 1.
    pub full: u64,
    // q·span·10,000,000, over which p·S is the corrected code, p / q being the ratio of the two M.
    pub unit: u64,
    // Twice the unit, which the nearest code of every colour of every pixel is divided by.
    pub divisor: Divisor,
    // One index up is so many rows up.
    pub stride: usize,
}

#[derive(Clone, Copy)]
pub struct Plan {
    pub kind: Kind,
    // N − 1, from one row to the next along an axis.
    pub cells: usize,
    pub red: Axis,
    pub green: Axis,
    pub blue: Axis,
    // p.
    pub times: u64,
}

// M times a bound or a sample.
pub fn times_m(m: u16, value: Whole) -> Whole
    requires { nat_abs value.0 ≤ sample_limit }
    ensures { result.0 ≡ pos m *ℤ value.0 }
{
    Whole::of(m as u64).times(value)
}

// The lower bound in parts of a span, of which a unit has so many.
fn low_in(lower: Thousandths, each: u64) -> Whole
    requires lower_bound { nat_abs lower.0 ≤ bound_limit }
    requires each_le_each_limit { each ≤ each_limit }
    ensures { result.0 ≡ quot_z (pos each *ℤ lower.0) (pos bound_one) }
{
    let parts = Whole::of(each).times(Whole(lower.0));
    parts.over(Thousandths::ONE)
}

fn axis_of(dom: Domain, span: u64, m: u16, q: u64, stride: usize) -> Axis
    requires domain_fits { DomainFits dom }
    requires span_nonzero { 0 < span }
    requires span_le_width_limit { span ≤ width_limit }
    requires q_nonzero { 0 < q }
    requires q_le_bottom_limit { q ≤ bottom_limit }
    ensures { result ≡ axis_of dom span m q stride }
{
    let each = Thousandths::ONE * span / width_of(dom);
    let den = m as u64 * span;
    let unit = q * (span * TenMillionths::ONE);
    Axis {
        each,
        low: times_m(m, low_in(dom.lower, each)),
        den,
        full: den * TenMillionths::ONE,
        unit,
        divisor: Divisor::of(2 * unit),
        stride,
    }
}

// A colour's axis: its own domain, and its span.
fn colour_axis(d: Description, c: Colour, m: u16, q: u64, stride: usize) -> Axis
    requires readable { Readable d }
    requires q_nonzero { 0 < q }
    requires q_le_bottom_limit { q ≤ bottom_limit }
    ensures { result ≡ axis_of (domain d c) (span d c) m q stride }
{
    axis_of(domain_of(d, c), span_of(d, c), m, q, stride)
}

pub fn plan_of(d: Description, depths: Depths) -> Plan
    requires readable { Readable d }
    requires in_terms { InTerms (ratio_of depths) depths }
    ensures { result ≡ plan_of d depths }
{
    let n = d.n;
    let square = n * n;
    let m = depths.raw.greatest();
    let ratio = ratio_of(depths);
    let q = ratio.bottom;
    Plan {
        kind: d.kind,
        cells: n - 1,
        red: colour_axis(d, Colour::Red, m, q, 1),
        green: colour_axis(d, Colour::Green, m, q, n),
        blue: colour_axis(d, Colour::Blue, m, q, square),
        times: ratio.top,
    }
}
