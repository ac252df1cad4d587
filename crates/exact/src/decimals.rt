// Decimals by long division.
ghost use Rattle.std.specs.Prelude.{◌≤◌, ◌<◌};
ghost use Rattle.exact.specs.Decimals.{LongDivision};

// So many digits after the point, as one number, and whether more would follow.
#[derive(Clone, Copy)]
pub struct Places {
    pub digits: u64,
    pub count: usize,
    pub more: bool,
}

pub fn decimals_of(rest: u64, unit: u64, most: usize) -> Places
    requires rest_lt_unit { rest < unit }
    requires unit_bound { unit < 1_152_921_504_606_846_976 }
    requires most_bound { most ≤ 15 }
    ensures { LongDivision rest unit most result }
{
    let mut left = rest;
    let mut digits: u64 = 0;
    for count in 0..most {
        if left == 0 {
            return Places {
                digits,
                count,
                more: false,
            };
        }
        let tenfold = left * 10;
        digits = digits * 10 + tenfold / unit;
        left = tenfold % unit;
    }
    Places {
        digits,
        count: most,
        more: left > 0,
    }
}
