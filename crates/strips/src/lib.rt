// 1D: one colour's codes as pieces of straight lines, a piece for each cell. In a cell the sum over D grows evenly with the code, so that a slope and a
// base are all that a code needs, and they are worked out once.
#![tactic(auto)]

ghost use Rattle.std.specs.Prelude.{◌≡◌, List, ◌≤◌, ◌<◌, ℤ, length};
ghost use Rattle.rules.specs.Units.{raw_m, corrected_m};
ghost use Rattle.rules.specs.Looking.{line_code};
ghost use Rattle.strips.specs.Strips.{LineAt, Stripped, StrippedIf, PieceOf, LaidOut, StripAt};

use colour::{Axis, Line, colour_place};
use lanes::{Lane, WHOLE, common_in, lane_along, parted};
use rules::{Colour, Depths};
use whole::{Reciprocal, Whole};

#[derive(Clone, Copy)]
pub struct Strip {
    pub colour: Colour,
    pub cells: usize,
    pub lane: Lane,
    // The axis in greater parts.
    pub axis: Axis,
    // Half the unit of a code, and the unit with its reciprocal.
    pub half: u64,
    // D·10,000,000 and half the unit: nothing above it has another code than M.
    pub top: u64,
    pub unit: Reciprocal,
    // The M of corrected codes.
    pub most: u16,
}

// The slope and the base of a cell.
#[derive(Clone, Copy)]
pub struct Piece {
    pub slope: Whole,
    pub base: Whole,
}

impl Strip {
    // So many cells are kept at most.
    pub const MOST_CELLS: usize = 1024;

    // D times the cells is at most so great that slopes and bases are numbers of 64 bits.
    pub const MOST_PARTS: u64 = 100_000_000;
}

// The strip of a colour, if there are not too many cells, p of the ratio p / q of the two M is 1, as at equal depths, and all is exact.
pub fn strip_of(line: Line, depths: Depths) -> Option<Strip>
    requires { (table : List ℤ) × LineAt line table (raw_m depths) (corrected_m depths) }
    ensures { (table : List ℤ) (l : LineAt line table (raw_m depths) (corrected_m depths)) → StrippedIf l.lined.planned.d l.lined.planned.depths line.colour table result }
{
    let axis = line.axis;
    let cells = line.cells;
    if line.times != 1 {
        return None;
    }
    if cells > Strip::MOST_CELLS {
        return None;
    }
    let parts = parted(axis, common_in(axis))?;
    if parts.den * cells as u64 > Strip::MOST_PARTS {
        return None;
    }
    let lane = lane_along(parts, depths.raw.greatest(), cells, 3)?;
    let half = parts.unit / 2;
    let unit = Reciprocal::of(parts.unit);
    let top = parts.full + half;
    if !unit.divides(top) {
        return None;
    }
    let colour = line.colour;
    Some(Strip {
        colour,
        cells,
        lane,
        axis: parts,
        half,
        top,
        unit,
        most: depths.corrected.greatest(),
    })
}

// The piece of a cell, from its two rows.
fn piece_at(strip: Strip, table: &[i64], i: usize) -> Piece
    requires stripped { Stripped strip table.now }
    requires i_lt_cells { i < strip.cells }
    ensures { PieceOf strip table.now i result }
{
    let axis = strip.axis;
    let low = axis.low;
    let many = strip.cells as u64;
    let colour = strip.colour;
    let at = 3 * i + colour_place(colour);
    let lower = table[at];
    let step = table[at + 3] - lower;
    let slope = (axis.each * many) as i64 * step;
    let start = (low.size() * many) as i64 - (i as u64 * axis.den) as i64;
    let base = axis.den as i64 * lower + start * step + strip.half as i64;
    Piece {
        slope: Whole(slope),
        base: Whole(base),
    }
}

// The pieces of all cells.
pub fn lay_pieces(strip: Strip, table: &[i64], slopes: &mut [i64], bases: &mut [i64])
    requires stripped { Stripped strip table.now }
    requires cells_in_bounds { strip.cells ≤ length slopes.old }
    requires cells_in_bounds_2 { strip.cells ≤ length bases.old }
    ensures { LaidOut strip table.now slopes.new bases.new }
{
    for i in 0..strip.cells {
        let piece = piece_at(strip, table, i);
        slopes[i] = piece.slope.0;
        bases[i] = piece.base.0;
    }
}

// The corrected code of a raw code, by the piece of its cell.
pub fn strip_code(strip: Strip, slopes: &[i64], bases: &[i64], code: u16) -> u16
    requires { (table : List ℤ) × StripAt strip table slopes.now bases.now code }
    ensures { (table : List ℤ) (s : StripAt strip table slopes.now bases.now code) → result ≡ line_code s.stripped.lined.planned.d table s.stripped.lined.planned.depths strip.colour code }
{
    let lane = strip.lane;
    let spot = code as u64 * lane.times as u64 + lane.from;
    let i = (spot / WHOLE) as usize;
    let n = slopes[i] * code as i64 + bases[i];
    if n < 0 {
        return 0;
    }
    let above = n as u64;
    if above > strip.top {
        return strip.most;
    }
    let unit = strip.unit;
    unit.quotient(above) as u16
}
