// The nearest code of a sum, by a product in place of a division. Whatever S is, it is that of S moved into 0 to D·10,000,000.
ghost use Rattle.std.specs.Prelude.{◌≡◌, true, pos, ◌*ℤ◌};
ghost use Rattle.whole.specs.Nearest.{code};
ghost use Rattle.colour.specs.Adding.{Codable};
ghost use Rattle.lanes.specs.Cubes.{Wide, Nearby};

use crate::cube::Cube;
use whole::Whole;

// Near, where p is 1, the unit's shorter reciprocal is exact up to the greatest sum; else the wide one is, up to p times that.
pub fn code_by<const NEAR: bool>(cube: Cube, sum: Whole) -> u16
    requires wide { Wide cube }
    requires codable { Codable cube.times cube.axis cube.most }
    requires nearby { NEAR ≡ true → Nearby cube }
    ensures { result ≡ code (pos cube.most *ℤ sum.0) cube.axis.full cube.most }
{
    let s = sum.0;
    if s < 0 {
        return 0;
    }
    let above = s as u64;
    let axis = cube.axis;
    if above > axis.full {
        return cube.most;
    }
    if NEAR {
        return cube.unit.quotient(above + cube.half) as u16;
    }
    cube.wide.quotient(cube.times * above + cube.half) as u16
}
