// The place of one colour's code between two rows (document 01, "Interpolation").
ghost use Rattle.std.specs.Prelude.{◌≡◌, ◌<◌};
ghost use Rattle.colour.specs.Plans.{Readable};
ghost use Rattle.placing.specs.Shown.{place_at};

use colour::{Place, line_of, place_of, plan_of};
use rules::{Colour, Depth, Depths, Description};

// The index i and the fraction f, over the D of the weights. No corrected depth plays a part, so the plan is made with the raw one for both.
pub fn place_at(d: Description, raw: Depth, c: Colour, code: u16) -> Place
    requires readable { Readable d }
    requires greatest_nonzero { 0 < raw.greatest }
    ensures { result ≡ place_at d raw.greatest c code }
{
    let depths = Depths {
        raw,
        corrected: raw,
    };
    let line = line_of(plan_of(d, depths), c);
    place_of(line.axis, line.cells, code)
}
