// A number that may be below 0.
ghost use Rattle.std.specs.Prelude.{◌≡◌, length};
ghost use Rattle.rules.specs.Decimals.{sign, signed_decimal};
ghost use Rattle.lettering.specs.Pens.{HasRoom, Adds};

use crate::Pen;
use whole::Whole;

pub fn count_sign(n: Whole) -> usize
    ensures { result ≡ length (sign n.0) }
{
    let number = n.0;
    if number < 0 {
        return 1;
    }
    0
}

impl Pen<'_> {
    // The sign of a number below 0, and nothing of another.
    pub(crate) fn put_sign(&mut self, n: Whole)
        requires { HasRoom self.old (sign n.0) }
        ensures { Adds self.old (sign n.0) self.new }
    {
        let z = n.0;
        if z < 0 {
            self.put_byte(b'-');
        }
    }

    // A whole number, the least of 64 bits too.
    pub fn put_signed(&mut self, n: Whole)
        requires { HasRoom self.old (signed_decimal n.0) }
        ensures { Adds self.old (signed_decimal n.0) self.new }
    {
        self.put_sign(n);
        self.put_decimal(n.size());
    }
}
