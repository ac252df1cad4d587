// Rows and weights that anybody may have written, judged (document 02, number 26).
ghost use Rattle.std.specs.Prelude.{◌≡◌, suc, min, ◌≤◌};
ghost use Rattle.whole.specs.Integers.{up};
ghost use Rattle.rules.specs.Looking.{judged_for, judged_all};
ghost use Rattle.rules.specs.Looking.Judging.{share_judged, each_judged, sum_judged, judged};
ghost use Rattle.colour.specs.Limits.{den_limit};
ghost use Rattle.colour.specs.Plans.{Readable};
ghost use Rattle.halves.specs.Listed.{listed, NotNegative};

use crate::fours::{Four, four_of};
use colour::den_of;
use judge::count_rows;
use rules::{Colour, Description, Misfit, Share, Shares};
use whole::Whole;

// ---- what is found first of them

// A row below the count, and a weight that is not negative.
fn share_judged(count: usize, share: Share) -> Result<(), Misfit>
    ensures { result ≡ share_judged count share }
{
    if share.row >= count {
        return Err(Misfit::RowBeyond);
    }
    if share.weight < 0 {
        return Err(Misfit::NegativeWeight);
    }
    Ok(())
}

fn each_judged(count: usize, four: Four) -> Result<(), Misfit>
    ensures { result ≡ each_judged count (listed four) }
{
    share_judged(count, four.first)?;
    share_judged(count, four.second)?;
    share_judged(count, four.third)?;
    share_judged(count, four.fourth)
}

// A weight as a part of D. One above D counts as D + 1: the sum is as wrong, and four such parts can be added whatever was written.
fn part_of(den: u64, share: Share) -> u64
    requires { den ≤ den_limit }
    ensures { result ≡ min (suc den) (up share.weight) }
{
    let weight = Whole(share.weight);
    (den + 1).min(weight.above())
}

// Weights that are not negative add up to D.
fn sum_judged(den: u64, four: Four) -> Result<(), Misfit>
    requires den_le_den_limit { den ≤ den_limit }
    requires not_negative { NotNegative (listed four) }
    ensures { result ≡ sum_judged den (listed four) }
{
    let first = part_of(den, four.first);
    let second = part_of(den, four.second);
    let third = part_of(den, four.third);
    let fourth = part_of(den, four.fourth);
    if first + second + third + fourth == den {
        return Ok(());
    }
    Err(Misfit::WrongSum)
}

fn four_judged(count: usize, den: u64, four: Four) -> Result<(), Misfit>
    requires { den ≤ den_limit }
    ensures { result ≡ judged count den (listed four) }
{
    each_judged(count, four)?;
    sum_judged(den, four)
}

// ---- of a colour, and of all three

fn colour_judged(d: Description, m: u16, shares: Shares, c: Colour) -> Result<(), Misfit>
    requires { Readable d }
    ensures { result ≡ judged_for d m shares c }
{
    let kind = d.kind;
    let count = count_rows(kind, d.n);
    four_judged(count, den_of(d, m, c), four_of(kind, c, shares))
}

// What six rows and weights are found to be, where raw codes have the greatest code m.
pub fn judged_shares(d: Description, m: u16, shares: Shares) -> Result<(), Misfit>
    requires { Readable d }
    ensures { result ≡ judged_all d m shares }
{
    colour_judged(d, m, shares, Colour::Red)?;
    colour_judged(d, m, shares, Colour::Green)?;
    colour_judged(d, m, shares, Colour::Blue)
}
