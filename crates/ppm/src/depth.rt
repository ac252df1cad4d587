// What a maxval says of the codes: the depth whose greatest code it is, and one or two bytes for each code.
ghost use Rattle.std.specs.Prelude.{◌≡◌};
ghost use Rattle.ppm.specs.Scales.{scale_of};

use rules::Depth;

// The depth whose greatest code a maxval is, and whether a code is two bytes.
#[derive(Clone, Copy, Debug, PartialEq, Eq)]
pub struct Scale {
    pub depth: Depth,
    pub wide: bool,
}

// The greatest code that one byte holds.
const BYTE_GREATEST: u16 = 255;

pub fn scale_of(maxval: u64) -> Option<Scale>
    ensures { result ≡ scale_of maxval }
{
    let Some(depth) = Depth::with_greatest(maxval) else {
        return None;
    };
    let wide = depth.greatest() > BYTE_GREATEST;
    Some(Scale { depth, wide })
}
