// A cube: the three lanes of a 3D table, and the two halves of the way from a pixel to its codes over them. The lanes give keys and a start; these give
// rows and weights, and rows and weights the codes.
ghost use Rattle.std.specs.Prelude.{◌≡◌, true, List, ◌*◌, ◌≤◌, ◌<◌, ℤ, nat_abs};
ghost use Rattle.rules.specs.Units.{raw_m};
ghost use Rattle.rules.specs.Looking.{correct};
ghost use Rattle.colour.specs.Limits.{each_limit, low_limit};
ghost use Rattle.colour.specs.Places.{AxisFits, CellsFit, three};
ghost use Rattle.lanes.specs.Lanes.{RunsIf};
ghost use Rattle.lanes.specs.Paths.{Keyed, Climbs};
ghost use Rattle.lanes.specs.Cubes.{LaneIf, Cuboid, LanesIf, Halved, NearOrFar, CubedIf, Nearby, Placed};

use crate::lane::{Lane, lane_of};
use crate::nearest::code_by;
use crate::parts::{common_parts, parted};
use crate::path::{Spot, path_of, path_sum};
use colour::{Axis, Plan};
use rules::{Codes, Colour, Depths};
use whole::{Reciprocal, WideReciprocal};

#[derive(Clone, Copy)]
pub struct Lanes {
    pub red: Lane,
    pub green: Lane,
    pub blue: Lane,
}

#[derive(Clone, Copy)]
pub struct Cube {
    pub lanes: Lanes,
    // The three strides together.
    pub across: u64,
    // The red axis in greater parts; the three colours have one D.
    pub axis: Axis,
    // p, of the ratio p / q of the two M.
    pub times: u64,
    // Half the unit and its reciprocals, the shorter for sums where p is 1.
    pub half: u64,
    pub unit: Reciprocal,
    pub wide: WideReciprocal,
    // The M of corrected codes.
    pub most: u16,
}

// How a cube makes codes of its sums. Near: p is 1, as at equal depths, and the unit's shorter reciprocal is exact. Far: the wide one is.
#[derive(Clone, Copy)]
pub enum Way {
    Near(Cube),
    Far(Cube),
}

// ---- the lanes

// The lane of an axis in parts, for codes up to m.
pub fn lane_along(parts: Axis, m: u16, cells: usize, stride: u32) -> Option<Lane>
    requires m_nonzero { 0 < m }
    requires cells_bound { cells ≤ 65535 }
    requires den_nonzero { 0 < parts.den }
    requires each_le_each_limit { parts.each ≤ each_limit }
    requires low_bound { nat_abs parts.low.0 ≤ low_limit }
    ensures { RunsIf m cells parts.den (parts.each * cells) (nat_abs parts.low.0 * cells) stride result }
{
    let low = parts.low;
    let many = cells as u64;
    let a = parts.each * many;
    let b = low.size() * many;
    lane_of(m as u64, many, parts.den, a, b, stride)
}

// A colour's lane, from its axis in parts of g each.
fn lane_in(axis: Axis, g: u64, m: u16, cells: usize) -> Option<Lane>
    requires axis_fits { AxisFits axis }
    requires stride_bound { axis.stride ≤ 65536 }
    requires g_nonzero { 0 < g }
    requires m_nonzero { 0 < m }
    requires cells_fit { CellsFit cells }
    requires unit_bound { axis.unit < 9_223_372_036_854_775_808 }
    ensures { LaneIf g m cells axis result }
{
    let parts = parted(axis, g)?;
    let places = 3 * axis.stride;
    lane_along(parts, m, cells, places as u32)
}

fn lanes_of(plan: Plan, g: u64, m: u16) -> Option<Lanes>
    requires m_value { (table : List ℤ) × ((p : Cuboid plan table) × (m ≡ raw_m p.planned.depths)) }
    requires g_nonzero { 0 < g }
    ensures { LanesIf g m plan result }
{
    let cells = plan.cells;
    let red = lane_in(plan.red, g, m, cells)?;
    let green = lane_in(plan.green, g, m, cells)?;
    let blue = lane_in(plan.blue, g, m, cells)?;
    Some(Lanes { red, green, blue })
}

// ---- the cube

// Near where p is 1 and the shorter reciprocal of the unit is exact up to the greatest sum. None where the wide one is not, p times that.
fn near_or_far(cube: Cube) -> Option<Way>
    requires { Halved cube }
    ensures { NearOrFar cube result }
{
    let axis = cube.axis;
    let unit = cube.unit;
    let wide = cube.wide;
    if !wide.divides(cube.times * axis.full + cube.half) {
        return None;
    }
    if cube.times == 1 {
        if unit.divides(axis.full + cube.half) {
            return Some(Way::Near(cube));
        }
    }
    Some(Way::Far(cube))
}

// The wide reciprocal is kept of numbers below 2^41.
const UNIT_END: u64 = 2_199_023_255_552;

pub fn cube_of(plan: Plan, depths: Depths) -> Option<Way>
    requires { (table : List ℤ) × ((p : Cuboid plan table) × (p.planned.depths ≡ depths)) }
    ensures { (table : List ℤ) (p : Cuboid plan table) → p.planned.depths ≡ depths → CubedIf p.planned.d depths table result }
{
    let raw = depths.raw;
    let corrected = depths.corrected;
    let g = common_parts(plan);
    let lanes = lanes_of(plan, g, raw.greatest())?;
    let axis = parted(plan.red, g)?;
    let unit = axis.unit;
    if unit >= UNIT_END {
        return None;
    }
    let red = lanes.red;
    let green = lanes.green;
    let blue = lanes.blue;
    near_or_far(Cube {
        lanes,
        across: red.stride as u64 + green.stride as u64 + blue.stride as u64,
        axis,
        times: plan.times,
        half: unit / 2,
        unit: Reciprocal::of(unit),
        wide: WideReciprocal::of(unit),
        most: corrected.greatest(),
    })
}

// ---- the two halves

// Both: from the path to its three sums, and to their codes by one product each where they are near, else by p and another product each.
pub fn codes_by<const NEAR: bool>(cube: Cube, table: &[i64], spot: Spot) -> Codes
    requires placed { Placed cube table.now spot }
    requires nearby { NEAR ≡ true → Nearby cube }
    ensures { (p : Placed cube table.now spot) → result ≡ correct p.cubed.planned.d table.now p.cubed.planned.depths p.pixel }
{
    let path = path_of(cube.axis.den, cube.across, spot);
    Codes {
        red: code_by::<NEAR>(cube, path_sum(table, path, Colour::Red)),
        green: code_by::<NEAR>(cube, path_sum(table, path, Colour::Green)),
        blue: code_by::<NEAR>(cube, path_sum(table, path, Colour::Blue)),
    }
}
