// S, the exact sum of weight times sample that a colour's code is made of (document 01, "Interpolation").
ghost use Rattle.std.specs.Prelude.{◌≡◌, ◌*◌, ◌≤◌, nat_abs};
ghost use Rattle.rules.specs.Units.{raw_m, sample_at};
ghost use Rattle.rules.specs.Looking.Interpolation.{den_of, total, denominator};
ghost use Rattle.rules.specs.Looking.{used};
ghost use Rattle.colour.specs.Adding.{RowAt, Room, Added, SharesFit, Totalled};
ghost use Rattle.halves.specs.Listed.{listed};
ghost use Rattle.placing.specs.Shown.{Summed};

use colour::{row_part, sample_of, with_term};
use halves::{Four, four_of};
use rules::{Colour, Depths, Description, Share, Shares};
use whole::Whole;

// With one row more in front.
fn with_share(sum: Whole, table: &[i64], share: Share, c: Colour) -> Whole
    requires room { Room sum.0 share.weight }
    requires row_at { RowAt table.now (3 * share.row) }
    ensures { Added (sample_at table.now share.row c) share.weight sum.0 result.0 }
{
    let weight = Whole(share.weight);
    with_term(sum, weight, sample_of(row_part(table, share.row), c))
}

// Of the four; the last is added first.
fn four_total(table: &[i64], four: Four, c: Colour) -> Whole
    requires { SharesFit table.now (listed four) }
    ensures { Totalled table.now c (listed four) result.0 }
{
    let last = with_share(Whole(0), table, four.fourth, c);
    let last_two = with_share(last, table, four.third, c);
    let last_three = with_share(last_two, table, four.second, c);
    with_share(last_three, table, four.first, c)
}

// Of the rows that the colour's code is made of. Samples are at most 1000 in size, and so is the sum over D·10,000,000.
pub fn total_of(d: Description, table: &[i64], depths: Depths, shares: Shares, c: Colour) -> Whole
    requires { Summed d table.now depths shares }
    ensures result_value { result.0 ≡ total table.now c (used d.kind c shares) }
    ensures result_bound { nat_abs result.0 ≤ 1000 * denominator (den_of d (raw_m depths) c) }
{
    let kind = d.kind;
    four_total(table, four_of(kind, c, shares), c)
}
