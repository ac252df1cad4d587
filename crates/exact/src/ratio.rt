// S / E in lowest terms.
ghost use Rattle.std.specs.Prelude.{◌<◌, nat_abs};
ghost use Rattle.exact.specs.Values.{LowestTerms};

use whole::{Whole, common_divisor};

#[derive(Clone, Copy)]
pub struct Ratio {
    pub top: Whole,
    pub bottom: u64,
}

pub fn lowest(s: Whole, e: u64) -> Ratio
    requires s_bound { nat_abs s.0 < 9_223_372_036_854_775_808 }
    requires e_nonzero { 0 < e }
    requires e_bound { e < 9_223_372_036_854_775_808 }
    ensures { LowestTerms s.0 e result }
{
    let common = common_divisor(s.size(), e);
    Ratio {
        top: s.over(common),
        bottom: e / common,
    }
}
