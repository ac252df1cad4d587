// The two M in lowest terms. M·S does not fit 64 bits, but p·S does once S is moved into its range, p / q being the M of corrected codes over that of raw codes.
ghost use Rattle.std.specs.Prelude.{◌≡◌};
ghost use Rattle.colour.specs.Ratios.{ratio_of, InTerms};

use rules::Depths;
use whole::common_divisor;

// p / q.
#[derive(Clone, Copy)]
pub struct Ratio {
    pub top: u64,
    pub bottom: u64,
}

pub fn ratio_of(depths: Depths) -> Ratio
    requires { InTerms (ratio_of depths) depths }
    ensures { result ≡ ratio_of depths }
{
    let above = depths.corrected.greatest() as u64;
    let below = depths.raw.greatest() as u64;
    let common = common_divisor(above, below);
    Ratio {
        top: above / common,
        bottom: below / common,
    }
}
