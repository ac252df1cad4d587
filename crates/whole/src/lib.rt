// Whole numbers held in 64 bits: sums of weight times value, and the nearest code, exact over ℤ; the greatest common divisor of two numbers; the upper half of
// a product; division by a number that stays the same.
#![tactic(auto)]

ghost use Rattle.std.specs.Prelude.{◌≡◌, ◌+◌, ◌*◌, ◌≤◌, ◌<◌, max, pos, nat_abs, ◌+ℤ◌, ◌*ℤ◌};
ghost use Rattle.std.specs.Int.Signed.{quot_z};
ghost use Rattle.whole.specs.Integers.{up, dn};
ghost use Rattle.whole.specs.Nearest.{rounded, code};

pub use divisor::common_divisor;
pub use product::upper_half;
pub use reciprocal::{Divisor, Reciprocal, WideReciprocal};

mod divisor;
mod product;
mod reciprocal;

#[derive(Clone, Copy, Debug, PartialEq, Eq, PartialOrd, Ord)]
pub struct Whole(pub i64);

impl Whole {
    // A number that is not negative.
    pub fn of(n: u64) -> Whole
        requires { n < 9_223_372_036_854_775_808 }
        ensures { result.0 ≡ pos n }
    {
        Whole(n as i64)
    }

    // A weight times a value.
    // Stays: in `impl Mul for Whole`, and `Add`, what is asked would stand in std's ghost members (`can_mul`, `mul_gives`) and not beside the function.
    pub fn times(self, value: Whole) -> Whole
        requires { nat_abs self.0 * nat_abs value.0 < 9_223_372_036_854_775_808 }
        ensures { result.0 ≡ self.0 *ℤ value.0 }
    {
        Whole(self.0 * value.0)
    }

    pub fn plus(self, other: Whole) -> Whole
        requires { nat_abs self.0 + nat_abs other.0 < 9_223_372_036_854_775_808 }
        ensures { result.0 ≡ self.0 +ℤ other.0 }
    {
        Whole(self.0 + other.0)
    }

    // How often a number goes into it, towards 0.
    // Stays: the bound is asked here and of exact's functions, and is no invariant of the type, since `above` and `size` promise of the least i64 too.
    pub fn over(self, by: u64) -> Whole
        requires self_bound { nat_abs self.0 < 9_223_372_036_854_775_808 }
        requires by_nonzero { 0 < by }
        requires by_bound { by < 9_223_372_036_854_775_808 }
        ensures { result.0 ≡ quot_z self.0 (pos by) }
    {
        Whole(self.0 / by as i64)
    }

    // How far it is above 0.
    pub fn above(self) -> u64
        ensures { result ≡ up self.0 }
    {
        self.0.max(0) as u64
    }

    // How far it is from 0; the least i64 too.
    pub fn size(self) -> u64
        ensures { result ≡ nat_abs self.0 }
    {
        self.0.unsigned_abs()
    }

    // The lesser of two is as far below 0 as the farther of them.
    pub fn lesser(self, other: Whole) -> Whole
        ensures { dn result.0 ≡ max (dn self.0) (dn other.0) }
    {
        self.min(other)
    }

    // The greater of two is as far above 0 as the farther of them.
    pub fn greater(self, other: Whole) -> Whole
        ensures { up result.0 ≡ max (up self.0) (up other.0) }
    {
        self.max(other)
    }

    // The code from 0 to m that is nearest to self / den, the greater of two equally near.
    #[tactic(auto, unfolding(crate::specs::Nearest::code))]
    pub fn nearest(self, den: u64, m: u64) -> u64
        requires den_nonzero { 0 < den }
        requires den_bound { 2 * nat_abs self.0 + 2 * den ≤ 18_446_744_073_709_551_615 }
        ensures { result ≡ code self.0 den m }
    {
        m.min(rounded(self.above(), den))
    }
}

// The whole number nearest to n / den, the greater of two equally near.
fn rounded(n: u64, den: u64) -> u64
    requires den_nonzero { 0 < den }
    requires den_bound { 2 * n + 2 * den ≤ 18_446_744_073_709_551_615 }
    ensures { result ≡ rounded n den }
{
    (2 * n + den) / (2 * den)
}
