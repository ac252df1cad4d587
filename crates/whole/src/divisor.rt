// The greatest common divisor, by Euclid.
ghost use Rattle.std.specs.Prelude.{◌≡◌};
ghost use Rattle.whole.specs.Divisors.{gcd};

pub fn common_divisor(a: u64, b: u64) -> u64
    ensures { result ≡ gcd a b }
{
    let mut x = a;
    let mut y = b;
    // Stays: no index is counted here, the loop ends where nothing is left; an iterator would be `successors(Some((a, b)), ..)` with the same step in a closure.
    while y > 0 {
        let rest = x % y;
        x = y;
        y = rest;
    }
    x
}
