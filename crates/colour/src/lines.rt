// One colour of a 1D table by itself (document 01, "Interpolation"): both halves of the way from a raw code of that colour to its corrected code.
ghost use Rattle.std.specs.Prelude.{◌≡◌};
ghost use Rattle.rules.specs.Looking.{line_code};
ghost use Rattle.colour.specs.Plans.{axis_in};
ghost use Rattle.colour.specs.Lines.{line_of, Lined};

use crate::codes::pair_code;
use crate::plan::{Axis, Plan};
use crate::shares::pair_of;
use rules::Colour;

// What of a plan one colour is a matter of.
#[derive(Clone, Copy)]
pub struct Line {
    pub colour: Colour,
    pub cells: usize,
    pub axis: Axis,
    // p.
    pub times: u64,
}

// Stays: `plan.axes[colour_place(c)]`, of an array of three, would say no more, ask for a bound, and take the three names from the fields.
fn axis_in(plan: Plan, c: Colour) -> Axis
    ensures { result ≡ axis_in plan c }
{
    match c {
        Colour::Red => plan.red,
        Colour::Green => plan.green,
        Colour::Blue => plan.blue,
    }
}

pub fn line_of(plan: Plan, c: Colour) -> Line
    ensures { result ≡ line_of plan c }
{
    Line {
        colour: c,
        cells: plan.cells,
        axis: axis_in(plan, c),
        times: plan.times,
    }
}

// The first half finds the two rows of a code and their weights, the second the code that they make.
pub fn line_code(line: Line, table: &[i64], code: u16) -> u16
    requires { Lined line table.now }
    ensures { (l : Lined line table.now) → result ≡ line_code l.planned.d table.now l.planned.depths line.colour code }
{
    let pair = pair_of(line.axis, line.cells, code);
    pair_code(line.times, line.axis, table, line.colour, pair)
}
