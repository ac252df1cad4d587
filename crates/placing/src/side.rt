// On which side of its domain a code lies (document 01, "Interpolation"): whether the number that the position is made of was moved, and which way.
ghost use Rattle.std.specs.Prelude.{◌≡◌, ◌≤◌, nat_abs};
ghost use Rattle.rules.specs.Units.{bound_limit};
ghost use Rattle.rules.specs.Looking.Interpolation.{den};
ghost use Rattle.placing.specs.Sides.{unmoved, side_of};

use colour::times_m;
use rules::{Domain, Thousandths};
use whole::Whole;

// Below and above are beyond a bound; a code that lies on one was not moved.
#[derive(Clone, Copy)]
pub enum Side {
    Below,
    Within,
    Above,
}

// 1000·c − lo·M, as it is before it is moved.
// Stays: the limit is asked of a domain in the functions of this file alone; a type for it, `Limited(Domain)`, would be made for `side_of` and be read as
// `domain.0.lower` here.
fn from_lower(domain: Domain, m: u16, code: u16) -> Whole
    requires { nat_abs domain.lower.0 ≤ bound_limit }
    ensures { result.0 ≡ unmoved m domain code }
{
    let lower = domain.lower;
    let low = times_m(m, Whole(lower.0));
    let parts = Thousandths::ONE * code as u64;
    Whole(parts as i64 - low.0)
}

// D = M·w of the domain.
fn own_den(domain: Domain, m: u16) -> u64
    requires lower_bound { nat_abs domain.lower.0 ≤ bound_limit }
    requires upper_bound { nat_abs domain.upper.0 ≤ bound_limit }
    ensures { result ≡ den m domain }
{
    let lower = domain.lower;
    let upper = domain.upper;
    let width = Whole(upper.0 - lower.0);
    m as u64 * width.above()
}

pub fn side_of(domain: Domain, m: u16, code: u16) -> Side
    requires lower_bound { nat_abs domain.lower.0 ≤ bound_limit }
    requires upper_bound { nat_abs domain.upper.0 ≤ bound_limit }
    ensures { result ≡ side_of m domain code }
{
    let from = from_lower(domain, m, code);
    if from.0 < 0 {
        return Side::Below;
    }
    if from.above() > own_den(domain, m) {
        return Side::Above;
    }
    Side::Within
}
