// The size of a ratio as a whole and what is left, for its decimals.
ghost use Rattle.std.specs.Prelude.{◌<◌};
ghost use Rattle.facts.specs.Told.{Parted};

use exact::Ratio;

// whole + rest / bottom.
#[derive(Clone, Copy)]
pub struct Parts {
    pub whole: u64,
    pub rest: u64,
}

pub fn parts_of(r: Ratio) -> Parts
    requires { 0 < r.bottom }
    ensures { Parted r result }
{
    let size = r.top.size();
    let bottom = r.bottom;
    Parts {
        whole: size / bottom,
        rest: size % bottom,
    }
}
