// How the code nearest to an exact value was settled.
ghost use Rattle.std.specs.Prelude.{◌≡◌, ◌*◌, eqb};
ghost use Rattle.exact.specs.Values.{settled_as};

use crate::codes::InCodes;
use whole::Whole;

#[derive(Clone, Copy)]
pub enum Settled {
    // The exact value is the code.
    Exactly,
    // One code is nearer than the others.
    Nearest,
    // Two are equally near, and the greater was given.
    TieUpward,
    // The exact value is below 0.
    ClippedAtZero,
    // The exact value is above 1, and so above the greatest code.
    ClippedAtMost,
}

// Whether twice the rest, which may not fit, is the unit.
fn is_half(rest: u64, unit: u64) -> bool
    ensures { result ≡ eqb (2 * rest) unit }
{
    if unit % 2 == 1 {
        return false;
    }
    rest == unit / 2
}

pub fn how_settled(s: Whole, e: u64, v: InCodes) -> Settled
    ensures { result ≡ settled_as s.0 e v.rest v.unit }
{
    let sum = s.0;
    if sum < 0 {
        return Settled::ClippedAtZero;
    }
    if e < s.above() {
        return Settled::ClippedAtMost;
    }
    if v.rest == 0 {
        return Settled::Exactly;
    }
    if is_half(v.rest, v.unit) {
        return Settled::TieUpward;
    }
    Settled::Nearest
}
