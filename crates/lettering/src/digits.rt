// The decimal digits of a number: how many there are, and the last of them.
ghost use Rattle.std.specs.Prelude.{◌≡◌, length};
ghost use Rattle.rules.specs.Decimals.{decimal};
ghost use Rattle.lettering.specs.Putting.{Room, Puts};
ghost use Rattle.lettering.specs.Pens.{HasRoom, Adds};
ghost use Rattle.lettering.specs.Digits.{last_digits};

use crate::Pen;

// How many digits a number has.
// Stays: no index is counted but divisions, and `n.checked_ilog10().map_or(1, |log| log as usize + 1)` is no plainer.
pub fn count_digits(n: u64) -> usize
    ensures { result ≡ length (decimal n) }
{
    let mut left = n;
    let mut count = 1;
    while left >= 10 {
        left /= 10;
        count += 1;
    }
    count
}

// So many digits, the last of them first: each needs only a tenth of what is left.
// Stays: by places, since after `iter_mut().rev()` nothing is known of what was written.
fn put_last(out: &mut [u8], at: usize, count: usize, n: u64) -> usize
    requires { Room out.old at (last_digits count n) }
    ensures { Puts out.old at (last_digits count n) result out.new }
{
    let mut left = n;
    for i in (0..count).rev() {
        out[at + i] = b'0' + (left % 10) as u8;
        left /= 10;
    }
    at + count
}

impl Pen<'_> {
    // The last digits of a number, so many of them.
    pub(crate) fn put_last(&mut self, count: usize, n: u64)
        requires { HasRoom self.old (last_digits count n) }
        ensures { Adds self.old (last_digits count n) self.new }
    {
        self.at = put_last(self.bytes, self.at, count, n);
    }

    // A number, without leading zeros.
    pub(crate) fn put_decimal(&mut self, n: u64)
        requires { HasRoom self.old (decimal n) }
        ensures { Adds self.old (decimal n) self.new }
    {
        if n < 10 {
            return self.put_byte(b'0' + n as u8);
        }
        self.put_last(count_digits(n), n);
    }
}
