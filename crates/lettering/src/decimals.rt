// A number of ten-millionths in plain decimals, as `-0.5`, `1000` or `0.0000001`, and how long that text is.
ghost use Rattle.std.specs.Prelude.{◌≡◌, ◌^◌, ◌<◌, length};
ghost use Rattle.rules.specs.Units.{sample_places};
ghost use Rattle.rules.specs.Decimals.{places_of, after_point, decimals_of};
ghost use Rattle.lettering.specs.Pens.{HasRoom, Adds};
ghost use Rattle.lettering.specs.Digits.{last_digits};

use crate::Pen;
use crate::digits::count_digits;
use crate::signs::count_sign;
use rules::TenMillionths;
use whole::Whole;

// What stands after a point: so many digits, the last ones of a number.
#[derive(Clone, Copy)]
struct Fraction {
    digits: u64,
    places: usize,
}

// Zeros at the end are left out.
fn fraction_of(units: u64) -> Fraction
    requires units_nonzero { 0 < units }
    requires units_bound { units < 10 ^ sample_places }
    ensures { places_of sample_places units ≡ last_digits result.places result.digits }
{
    let mut digits = units;
    let mut places = TenMillionths::PLACES;
    while digits % 10 == 0 {
        digits /= 10;
        places -= 1;
    }
    Fraction { digits, places }
}

fn count_fraction(units: u64) -> usize
    requires { units < 10 ^ sample_places }
    ensures { result ≡ length (after_point sample_places units) }
{
    if units == 0 {
        return 0;
    }
    let fraction = fraction_of(units);
    fraction.places + 1
}

// How many bytes the text has.
pub fn count_decimals(n: Whole) -> usize
    ensures { result ≡ length (decimals_of sample_places n.0) }
{
    let size = n.size();
    let before_point = count_sign(n) + count_digits(size / TenMillionths::ONE);
    before_point + count_fraction(size % TenMillionths::ONE)
}

impl Pen<'_> {
    // The point and the digits after it, where there are any.
    fn put_fraction(&mut self, units: u64)
        requires units_bound { units < 10 ^ sample_places }
        requires room { HasRoom self.old (after_point sample_places units) }
        ensures { Adds self.old (after_point sample_places units) self.new }
    {
        if units == 0 {
            return;
        }
        self.put_byte(b'.');
        let fraction = fraction_of(units);
        self.put_last(fraction.places, fraction.digits);
    }

    // Never an exponent, and no zero at the end of what stands after the point.
    pub fn put_decimals(&mut self, n: Whole)
        requires { HasRoom self.old (decimals_of sample_places n.0) }
        ensures { Adds self.old (decimals_of sample_places n.0) self.new }
    {
        let size = n.size();
        self.put_sign(n);
        self.put_decimal(size / TenMillionths::ONE);
        self.put_fraction(size % TenMillionths::ONE);
    }
}
