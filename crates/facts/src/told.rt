// The facts of one colour (document 01, "Interpolation"): S is the sum of its rows, E is D·10,000,000, and S / E the exact value.
ghost use Rattle.std.specs.Prelude.{◌*◌, ◌≤◌, nat_abs};
ghost use Rattle.colour.specs.Places.{AxisFits};
ghost use Rattle.colour.specs.Adding.{Codable};
ghost use Rattle.placing.specs.Shown.{Summed};
ghost use Rattle.facts.specs.Told.{KnownDepths, Told, FactsOf};

use colour::{Line, line_of, plan_of};
use exact::{Distance, InCodes, Ratio, Settled, distance_of, how_settled, in_codes, lowest};
use placing::total_of;
use rules::{Colour, Depths, Description, Shares};
use whole::Whole;

#[derive(Clone, Copy)]
pub struct Facts {
    // S.
    pub sum: Whole,
    // E.
    pub over: u64,
    // S / E in lowest terms.
    pub lowest: Ratio,
    // M·S / E.
    pub value: InCodes,
    // How the nearest code was settled.
    pub settled: Settled,
    // From a code to the exact value.
    pub distance: Distance,
}

// Of a sum over what is full on a colour's line; m is the M of corrected codes.
fn facts_by(sum: Whole, line: Line, m: u16, code: u16) -> Facts
    requires axis_fits { AxisFits line.axis }
    requires codable { Codable line.times line.axis m }
    requires sum_bound { nat_abs sum.0 ≤ 1000 * line.axis.full }
    ensures { Told sum.0 line.axis.full m code result }
{
    let axis = line.axis;
    let over = axis.full;
    let value = in_codes(sum, over, line.times, axis.unit, m);
    Facts {
        sum,
        over,
        lowest: lowest(sum, over),
        value,
        settled: how_settled(sum, over, value),
        distance: distance_of(code, value),
    }
}

pub fn facts_of(
    d: Description,
    table: &[i64],
    depths: Depths,
    shares: Shares,
    c: Colour,
    code: u16,
) -> Facts
    requires summed { Summed d table.now depths shares }
    requires known_depths { KnownDepths depths }
    ensures { FactsOf d table.now depths shares c code result }
{
    let sum = total_of(d, table, depths, shares, c);
    let line = line_of(plan_of(d, depths), c);
    let corrected = depths.corrected;
    facts_by(sum, line, corrected.greatest(), code)
}
