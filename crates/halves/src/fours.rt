// The rows and weights of a colour, of the six that a look has.
ghost use Rattle.std.specs.Prelude.{◌≡◌, [], ◌∷◌};
ghost use Rattle.rules.specs.Looking.Interpolation.{share};
ghost use Rattle.halves.specs.Listed.{listed, four_of};

use rules::{Colour, Kind, Share, Shares};

// A colour's rows and weights: in 1D two, and two that carry nothing.
#[derive(Clone, Copy)]
pub struct Four {
    pub first: Share,
    pub second: Share,
    pub third: Share,
    pub fourth: Share,
}

fn two(first: Share, second: Share) -> Four
    ensures { listed result ≡ first ∷ second ∷ share 0 0 ∷ share 0 0 ∷ [] }
{
    let idle = Share { row: 0, weight: 0 };
    Four {
        first,
        second,
        third: idle,
        fourth: idle,
    }
}

// Those of a colour, of the six.
pub fn four_of(kind: Kind, c: Colour, shares: Shares) -> Four
    ensures { listed result ≡ four_of kind c shares }
{
    let first = shares.first;
    let second = shares.second;
    let third = shares.third;
    let fourth = shares.fourth;
    let fifth = shares.fifth;
    let sixth = shares.sixth;
    let Kind::OneD = kind else {
        return Four {
            first,
            second,
            third,
            fourth,
        };
    };
    match c {
        Colour::Red => two(first, second),
        Colour::Green => two(third, fourth),
        Colour::Blue => two(fifth, sixth),
    }
}
