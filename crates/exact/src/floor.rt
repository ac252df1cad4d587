// Division rounded down, so that what is left is not negative.
ghost use Rattle.std.specs.Prelude.{◌<◌, nat_abs};
ghost use Rattle.exact.specs.Values.{RoundedDown};

use whole::Whole;

#[derive(Clone, Copy)]
pub struct Floor {
    pub quotient: Whole,
    pub rest: u64,
}

// Below 0 the quotient is one less than that of the sizes turned round, unless nothing is left.
pub fn rounded_down(s: Whole, e: u64) -> Floor
    requires s_bound { nat_abs s.0 < 9_223_372_036_854_775_808 }
    requires e_nonzero { 0 < e }
    ensures { RoundedDown s.0 e result }
{
    let size = s.size();
    let quotient = Whole::of(size / e);
    let rest = size % e;
    let sum = s.0;
    if sum < 0 {
        let turned = quotient.times(Whole(-1));
        if rest > 0 {
            return Floor {
                quotient: turned.plus(Whole(-1)),
                rest: e - rest,
            };
        }
        return Floor {
            quotient: turned,
            rest,
        };
    }
    Floor { quotient, rest }
}
