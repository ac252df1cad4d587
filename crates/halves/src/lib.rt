// The two halves of a look (document 02, Req 09), and look, which joins them.
#![tactic(auto)]

ghost use Rattle.std.specs.Prelude.{◌≡◌, List, ℤ};
ghost use Rattle.rules.specs.Units.{raw_m};
ghost use Rattle.rules.specs.Looking.{within, rows_with};
ghost use Rattle.rules.specs.Promises.{FindsRows, GivesCodes, Looks};
ghost use Rattle.colour.specs.Plans.{Planned, Made};

use colour::{Plan, codes_of, plan_of, shares_of};
pub use fours::{Four, four_of};
use judge::could_be_read;
pub use judging::judged_shares;
use rules::{Bits, Codes, Depth, Depths, Description, Looked, Refusal, Shares};

mod fours;
mod judging;

// No code above M.
#[tactic(auto, unfolding(rules::specs::Looking::within))]
fn codes_within(m: u16, pixel: Codes) -> bool
    ensures { result ≡ within m pixel }
{
    pixel.red <= m && pixel.green <= m && pixel.blue <= m
}

// The first half past 24 and 20, by a plan and its raw M: 23, or the rows and weights.
fn rows_by(plan: Plan, m: u16, pixel: Codes) -> Result<Shares, Refusal>
    requires { Made plan }
    ensures { (table : List ℤ) (p : Planned plan table) → m ≡ raw_m p.depths → result ≡ rows_with p.d m pixel }
{
    if !codes_within(m, pixel) {
        return Err(Refusal::CodeTooGreat);
    }
    Ok(shares_of(plan, pixel))
}

// From a pixel to rows and weights. The checks run 24, 20, 23. No corrected depth plays a part, so the plan is made with the raw one for both.
pub fn first_half(d: Description, table: &[i64], raw: u32, pixel: Codes) -> Result<Shares, Refusal>
    ensures { FindsRows d table.now raw pixel result }
{
    if !could_be_read(d, table) {
        return Err(Refusal::CouldNotBeRead);
    }
    let depth = Depth::of(raw).ok_or(Refusal::DepthUnknown)?;
    let depths = Depths {
        raw: depth,
        corrected: depth,
    };
    rows_by(plan_of(d, depths), depth.greatest(), pixel)
}

// From rows and weights to codes. The checks run 24, 20 for the raw depth and then for the corrected one, 26.
pub fn second_half(
    d: Description,
    table: &[i64],
    bits: Bits,
    shares: Shares,
) -> Result<Codes, Refusal>
    ensures { GivesCodes d table.now bits shares result }
{
    if !could_be_read(d, table) {
        return Err(Refusal::CouldNotBeRead);
    }
    let depths = Depths::of(bits).ok_or(Refusal::DepthUnknown)?;
    if judged_shares(d, depths.raw.greatest(), shares).is_err() {
        return Err(Refusal::RowsOrWeightsWrong);
    }
    Ok(codes_of(plan_of(d, depths), table, shares))
}

// Both, with one plan; the table is judged once. The checks run 24, 20 for the raw depth and then for the corrected one, 23.
pub fn look(d: Description, table: &[i64], bits: Bits, pixel: Codes) -> Result<Looked, Refusal>
    ensures { Looks d table.now bits pixel result }
{
    if !could_be_read(d, table) {
        return Err(Refusal::CouldNotBeRead);
    }
    let depths = Depths::of(bits).ok_or(Refusal::DepthUnknown)?;
    let plan = plan_of(d, depths);
    let shares = rows_by(plan, depths.raw.greatest(), pixel)?;
    let codes = codes_of(plan, table, shares);
    Ok(Looked { codes, shares })
}
