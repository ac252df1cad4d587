// Where a code stands between two rows (document 01, "Interpolation").
ghost use Rattle.std.specs.Prelude.{◌≡◌, ◌*◌, ◌≤◌, pos, nat_abs, ◌-ℤ◌};
ghost use Rattle.whole.specs.Integers.{up};
ghost use Rattle.colour.specs.Limits.{each_limit, low_limit};
ghost use Rattle.colour.specs.Places.{AxisFits, CellsFit, place_of};

use crate::plan::Axis;
use whole::Whole;

// The index i and the fraction f of one colour's code.
#[derive(Clone, Copy)]
pub struct Place {
    pub index: usize,
    pub fraction: u64,
}

// 1000·c − lo·M, in thousandths or as many parts of a span as a unit has; moved to 0 if less.
fn above_lower(each: u64, low: Whole, code: u16) -> u64
    requires each_le_each_limit { each ≤ each_limit }
    requires low_bound { nat_abs low.0 ≤ low_limit }
    ensures { result ≡ up (pos (each * code) -ℤ low.0) }
{
    let parts = each * code as u64;
    Whole(parts as i64 - low.0).above()
}

// p = a·(N−1), i the smaller of p div D and N−2, f = p − i·D.
pub fn place_of(axis: Axis, cells: usize, code: u16) -> Place
    requires axis_fits { AxisFits axis }
    requires cells_fit { CellsFit cells }
    ensures { result ≡ place_of axis cells code }
{
    let den = axis.den;
    let above = above_lower(axis.each, axis.low, code);
    let a = den.min(above);
    let p = a * cells as u64;
    let i = (p / den).min(cells as u64 - 1);
    Place {
        index: i as usize,
        fraction: p - i * den,
    }
}
