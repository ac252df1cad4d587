// Division by a number that stays the same, without dividing: its reciprocal, rounded down, gives a guess, which is at most one too small; rounded up, and
// with the upper half of a product, it gives the quotient itself, of greater numbers where it has more bits.
ghost use Rattle.std.specs.Prelude.{◌≡◌, ◌+◌, ◌*◌, ◌/◌, ◌<◌, leb};
ghost use Rattle.whole.specs.Reciprocals.{divisor_of, Dividable, reciprocal_of, excess, Divides, two_to87, wide_of, WideDivides};

use crate::product::upper_half;

// The number, and how often it goes into 2^63.
#[derive(Clone, Copy)]
pub struct Divisor {
    pub by: u64,
    pub reciprocal: u64,
}

impl Divisor {
    pub fn of(by: u64) -> Divisor
        requires { 0 < by }
        ensures { result ≡ divisor_of by }
    {
        Divisor {
            by,
            reciprocal: 9_223_372_036_854_775_808 / by,
        }
    }

    // How often it goes into n. The constants are 2^23 and 2^40, so that the compiler shifts.
    pub fn quotient(self, n: u64) -> u64
        requires { Dividable n self }
        ensures { result ≡ n / self.by }
    {
        let by = self.by;
        let guess = n / 8_388_608 * self.reciprocal / 1_099_511_627_776;
        let rest = n - guess * by;
        if rest < by { guess } else { guess + 1 }
    }
}

// A number, and 2^64 over it, rounded up: the upper half of one product is the quotient, as long as what rounding up adds does not come to a whole.
#[derive(Clone, Copy)]
pub struct Reciprocal {
    pub by: u64,
    pub times: u64,
}

impl Reciprocal {
    // Of 1 it would be 2^64, which does not fit.
    pub fn of(by: u64) -> Reciprocal
        requires { 1 < by }
        ensures { result ≡ reciprocal_of by }
    {
        Reciprocal {
            by,
            times: 18_446_744_073_709_551_615 / by + 1,
        }
    }

    // Whether it divides every number up to most. Most times the excess may not fit, so the excess is held to a quotient.
    pub fn divides(self, most: u64) -> bool
        requires lt_by { 1 < self.by }
        requires self_value { self ≡ reciprocal_of self.by }
        ensures { result ≡ leb (most * excess self.by) 18_446_744_073_709_551_615 }
    {
        if most == 0 {
            return true;
        }
        let by = self.by;
        let excess = by - 1 - 18_446_744_073_709_551_615 % by;
        excess <= 18_446_744_073_709_551_615 / most
    }

    // How often it goes into n.
    pub fn quotient(self, n: u64) -> u64
        requires { Divides self n }
        ensures { result ≡ n / self.by }
    {
        upper_half(n, self.times)
    }
}

// A number above 2^23, and 2^87 over it, rounded down, and 1: the upper half of one product, without its last 23 bits, is the quotient.
// Stays: it is no `Reciprocal<87>`, as 2^87 does not fit the numbers that 2^64 is rounded with, so both are made, asked and divided by in ways of their own.
#[derive(Clone, Copy)]
pub struct WideReciprocal {
    pub by: u64,
    pub times: u64,
}

impl WideReciprocal {
    // 2^64 is q·by + rest, and 2^23 times the rest still fits.
    pub fn of(by: u64) -> WideReciprocal
        requires lt_by { 8_388_608 < by }
        requires by_bound { by < 2_199_023_255_552 }
        ensures { result ≡ wide_of by }
    {
        let q = 18_446_744_073_709_551_615 / by;
        let rest = 18_446_744_073_709_551_615 % by + 1;
        WideReciprocal {
            by,
            times: q * 8_388_608 + rest * 8_388_608 / by + 1,
        }
    }

    // Whether it surely divides every number up to most: what is added is at most the number itself.
    pub fn divides(self, most: u64) -> bool
        requires by_nonzero { 0 < self.by }
        requires self_value { self ≡ wide_of self.by }
        ensures { result ≡ leb ((most + 1) * self.by) two_to87 }
    {
        most < self.times - 1
    }

    // How often it goes into n.
    pub fn quotient(self, n: u64) -> u64
        requires { WideDivides self n }
        ensures { result ≡ n / self.by }
    {
        upper_half(n, self.times) / 8_388_608
    }
}
