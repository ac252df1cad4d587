// The rows and weights of a pixel (document 01, "Interpolation").
ghost use Rattle.std.specs.Prelude.{◌≡◌, ◌+◌, ◌≤◌};
ghost use Rattle.rules.specs.Units.{row_limit};
ghost use Rattle.rules.specs.Looking.Interpolation.{share, climb};
ghost use Rattle.rules.specs.Looking.{six};
ghost use Rattle.colour.specs.Limits.{den_limit};
ghost use Rattle.colour.specs.Plans.{Made};
ghost use Rattle.colour.specs.Places.{AxisFits, CellsFit, of_pair, pair_of, three, along, step_of, steps_of, StepsFit, path_by_steps, shown_by};

use crate::place::place_of;
use crate::plan::{Axis, Plan};
use rules::{Codes, Kind, Share, Shares};

fn share_of(row: usize, weight: u64) -> Share
    requires { weight ≤ den_limit }
    ensures { result ≡ share row weight }
{
    Share {
        row,
        weight: weight as i64,
    }
}

// ---- 1D

// The two rows of a colour.
#[derive(Clone, Copy)]
pub struct Pair {
    pub low: Share,
    pub high: Share,
}

// Rows i and i+1, weights D−f and f: a matter of the colour's own axis and code.
pub fn pair_of(axis: Axis, cells: usize, code: u16) -> Pair
    requires axis_fits { AxisFits axis }
    requires cells_fit { CellsFit cells }
    ensures { of_pair result ≡ pair_of axis cells code }
{
    let at = place_of(axis, cells, code);
    let i = at.index;
    let f = at.fraction;
    let rest = axis.den - f;
    Pair {
        low: share_of(i, rest),
        high: share_of(i + 1, f),
    }
}

// Two rows and weights for each colour.
pub fn line(plan: Plan, pixel: Codes) -> Shares
    requires { Made plan }
    ensures { result ≡ shown_by plan pixel Kind.OneD }
{
    let cells = plan.cells;
    let red = pair_of(plan.red, cells, pixel.red);
    let green = pair_of(plan.green, cells, pixel.green);
    let blue = pair_of(plan.blue, cells, pixel.blue);
    Shares {
        first: red.low,
        second: red.high,
        third: green.low,
        fourth: green.high,
        fifth: blue.low,
        sixth: blue.high,
    }
}

// ---- 3D

// A step along one axis: the index that it starts from, its fraction, and the rows that one index up is.
#[derive(Clone, Copy)]
pub struct Step {
    pub index: usize,
    pub fraction: u64,
    pub stride: usize,
}

fn step_of(axis: Axis, cells: usize, code: u16) -> Step
    requires axis_fits { AxisFits axis }
    requires cells_fit { CellsFit cells }
    ensures { result ≡ step_of axis cells code }
{
    let at = place_of(axis, cells, code);
    Step {
        index: at.index,
        fraction: at.fraction,
        stride: axis.stride,
    }
}

// Four rows from a start, by three steps: weights D − f1, f1 − f2, f2 − f3, f3.
fn climbed(start: usize, den: u64, one: Step, two: Step, three: Step) -> Shares
    requires stride_bound { start + one.stride + two.stride + three.stride ≤ row_limit }
    requires den_le_den_limit { den ≤ den_limit }
    requires fraction_le_den { one.fraction ≤ den }
    requires fraction_le_fraction { two.fraction ≤ one.fraction }
    requires fraction_le_fraction_2 { three.fraction ≤ two.fraction }
    ensures { result ≡ six (climb start den one.fraction two.fraction three.fraction one.stride two.stride three.stride) }
{
    let a = start + one.stride;
    let b = a + two.stride;
    let c = b + three.stride;
    let f1 = one.fraction;
    let f2 = two.fraction;
    let f3 = three.fraction;
    Shares {
        first: share_of(start, den - f1),
        second: share_of(a, f1 - f2),
        third: share_of(b, f2 - f3),
        fourth: share_of(c, f3),
        fifth: share_of(0, 0),
        sixth: share_of(0, 0),
    }
}

// The wall chart (docs/WALL-CHART.md): a line for each order of the three fractions, with its whole condition. The greatest stands first, equal ones
// stand red, green, blue.
fn path_along(start: usize, den: u64, red: Step, green: Step, blue: Step) -> Shares
    requires stride_bound { start + red.stride + green.stride + blue.stride ≤ row_limit }
    requires den_le_den_limit { den ≤ den_limit }
    requires fraction_le_den { red.fraction ≤ den }
    requires fraction_le_den_2 { green.fraction ≤ den }
    requires fraction_le_den_3 { blue.fraction ≤ den }
    ensures { result ≡ six (along start den (three red.fraction green.fraction blue.fraction) (three red.stride green.stride blue.stride)) }
{
    let fr = red.fraction;
    let fg = green.fraction;
    let fb = blue.fraction;
    if fr >= fg && fg >= fb {
        return climbed(start, den, red, green, blue);
    }
    if fr >= fb && fb > fg {
        return climbed(start, den, red, blue, green);
    }
    if fg > fr && fr >= fb {
        return climbed(start, den, green, red, blue);
    }
    if fg >= fb && fb > fr {
        return climbed(start, den, green, blue, red);
    }
    if fb > fr && fr >= fg {
        return climbed(start, den, blue, red, green);
    }
    if fb > fg && fg > fr {
        return climbed(start, den, blue, green, red);
    }
    // No three fractions come here (`none-missed`), but a function has to end with an answer. Where that is the sixth line's, the compiler need not
    // work out a condition that always holds by then.
    climbed(start, den, blue, green, red)
}

// The three steps of a pixel, with the one D of their fractions.
#[derive(Clone, Copy)]
pub struct Steps {
    pub den: u64,
    pub red: Step,
    pub green: Step,
    pub blue: Step,
}

pub fn steps_of(plan: Plan, pixel: Codes) -> Steps
    requires { Made plan }
    ensures { result ≡ steps_of plan pixel }
{
    let cells = plan.cells;
    Steps {
        den: plan.red.den,
        red: step_of(plan.red, cells, pixel.red),
        green: step_of(plan.green, cells, pixel.green),
        blue: step_of(plan.blue, cells, pixel.blue),
    }
}

// From the row of the three i, one index up along each axis: four rows and weights for the pixel.
pub fn path_by(steps: Steps) -> Shares
    requires { StepsFit steps }
    ensures { result ≡ six (path_by_steps steps) }
{
    let red = steps.red;
    let green = steps.green;
    let blue = steps.blue;
    let start = red.index + green.stride * green.index + blue.stride * blue.index;
    path_along(start, steps.den, red, green, blue)
}
