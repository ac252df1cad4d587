// One pixel to three corrected codes, with the rows and weights used: a plan, the two halves of the way over it, and both in one.
#![tactic(auto)]

ghost use Rattle.std.specs.Prelude.{◌≡◌, List, ℤ};
ghost use Rattle.rules.specs.Units.{raw_m};
ghost use Rattle.rules.specs.Looking.{shown, used, codes_by, correct};
ghost use Rattle.colour.specs.Plans.{axis_in, rows_in, Planned, Made};
ghost use Rattle.rules.specs.Demands.{Weighable};

use codes::{codes_by, line_codes};
pub use lines::{Line, line_code, line_of};
pub use place::{Place, place_of};
pub use plan::{Axis, Plan, plan_of, times_m};
pub use rows::{den_of, row_code};
use rules::{Codes, Colour, Kind, Shares};
use shares::{line, path_by, steps_of};
use sums::cube_sums;
pub use sums::{colour_place, row_part, sample_of, with_term};

mod codes;
mod lines;
mod place;
mod plan;
mod ratio;
mod rows;
mod shares;
mod span;
mod sums;

// The first half: the rows and weights of a pixel, two for each colour in 1D, four for the pixel in 3D.
pub fn shares_of(plan: Plan, pixel: Codes) -> Shares
    requires { Made plan }
    ensures { (table : List ℤ) (p : Planned plan table) → result ≡ shown p.d (raw_m p.depths) pixel p.d.kind }
{
    match plan.kind {
        Kind::OneD => line(plan, pixel),
        Kind::ThreeD => path_by(steps_of(plan, pixel)),
    }
}

// The second half: the codes that rows and weights make, whoever wrote them.
pub fn codes_of(plan: Plan, table: &[i64], shares: Shares) -> Codes
    requires planned { Planned plan table.now }
    requires weighable { (c : Colour) → Weighable (rows_in plan) (axis_in plan c).den (used plan.kind c shares) }
    ensures { (p : Planned plan table.now) → result ≡ codes_by p.d table.now p.depths shares }
{
    match plan.kind {
        Kind::OneD => line_codes(plan, table, shares),
        Kind::ThreeD => codes_by(plan.times, plan.red, cube_sums(table, shares)),
    }
}

// Both halves, for a pixel of a picture. The kind is asked for once, and what follows are the halves' own parts: each is small enough that the
// compiler takes it into the picture's loop, which it does not do with a half.
pub fn correct(plan: Plan, table: &[i64], pixel: Codes) -> Codes
    requires { Planned plan table.now }
    ensures { (p : Planned plan table.now) → result ≡ correct p.d table.now p.depths pixel }
{
    match plan.kind {
        Kind::OneD => line_codes(plan, table, line(plan, pixel)),
        Kind::ThreeD => {
            let sums = cube_sums(table, path_by(steps_of(plan, pixel)));
            codes_by(plan.times, plan.red, sums)
        }
    }
}
