// Rows of the table, weighed and added up (document 01, "Interpolation").
ghost use Rattle.std.specs.Prelude.{◌≡◌, ◌*◌, ◌≤◌, nat_abs};
ghost use Rattle.rules.specs.Units.{sample_limit, colour_place, sample_at};
ghost use Rattle.rules.specs.Looking.{used};
ghost use Rattle.colour.specs.Places.{of_pair};
ghost use Rattle.colour.specs.Adding.{RowAt, Starts, Room, Added, sum_in, SharesFit, Totalled};

use crate::shares::Pair;
use rules::{Colour, Kind, Share, Shares, TenMillionths};
use whole::Whole;

// A sum of weight times sample for each colour.
// Stays: `Three<Whole>` of a generic struct, with `Three<Lane>` for the lanes, would share the names of three fields and no function: nothing is done with
// lanes that is done with sums.
#[derive(Clone, Copy)]
pub struct Sums {
    pub red: Whole,
    pub green: Whole,
    pub blue: Whole,
}

// ---- one term more

// Stays: `c as usize` would say it by the order alone in which rules declares the colours.
pub fn colour_place(c: Colour) -> usize
    ensures { result ≡ colour_place c }
{
    match c {
        Colour::Red => 0,
        Colour::Green => 1,
        Colour::Blue => 2,
    }
}

// The number of a colour in the row that this part of the table starts at.
pub fn sample_of(part: &[i64], c: Colour) -> TenMillionths
    requires { RowAt part.now 0 }
    ensures { result.0 ≡ sample_at part.now 0 c }
{
    TenMillionths(part[colour_place(c)])
}

// The sum with one term more in front.
pub fn with_term(sum: Whole, weight: Whole, sample: TenMillionths) -> Whole
    requires room { Room sum.0 weight.0 }
    requires sample_bound { nat_abs sample.0 ≤ sample_limit }
    ensures { Added sample.0 weight.0 sum.0 result.0 }
{
    weight.times(Whole(sample.0)).plus(sum)
}

// The number of one colour, weighed.
fn with_number(sum: Whole, weight: Whole, part: &[i64], c: Colour) -> Whole
    requires room { Room sum.0 weight.0 }
    requires row_at { RowAt part.now 0 }
    ensures { Added (sample_at part.now 0 c) weight.0 sum.0 result.0 }
{
    with_term(sum, weight, sample_of(part, c))
}

// The three numbers of a row at once.
fn with_row(sums: Sums, weight: Whole, part: &[i64]) -> Sums
    requires room { (c : Colour) → Room (sum_in sums c) weight.0 }
    requires row_at { RowAt part.now 0 }
    ensures { (c : Colour) → Added (sample_at part.now 0 c) weight.0 (sum_in sums c) (sum_in result c) }
{
    Sums {
        red: with_number(sums.red, weight, part, Colour::Red),
        green: with_number(sums.green, weight, part, Colour::Green),
        blue: with_number(sums.blue, weight, part, Colour::Blue),
    }
}

// ---- the numbers of row n begin at place 3n

// The part of the table that starts at a row.
pub fn row_part(table: &[i64], row: usize) -> &[i64]
    requires { RowAt table.now (3 * row) }
    ensures { Starts table.now row result.now }
{
    &table[3 * row..]
}

// 1D: only the number that is wanted.
fn add_number(table: &[i64], share: Share, c: Colour, sum: Whole) -> Whole
    requires room { Room sum.0 share.weight }
    requires row_at { RowAt table.now (3 * share.row) }
    ensures { Added (sample_at table.now share.row c) share.weight sum.0 result.0 }
{
    with_number(sum, Whole(share.weight), row_part(table, share.row), c)
}

// 3D: all three.
fn add_row(table: &[i64], share: Share, sums: Sums) -> Sums
    requires room { (c : Colour) → Room (sum_in sums c) share.weight }
    requires row_at { RowAt table.now (3 * share.row) }
    ensures { (c : Colour) → Added (sample_at table.now share.row c) share.weight (sum_in sums c) (sum_in result c) }
{
    with_row(sums, Whole(share.weight), row_part(table, share.row))
}

// ---- S

// 1D: of the two rows of a colour.
pub fn pair_sum(table: &[i64], pair: Pair, c: Colour) -> Whole
    requires { SharesFit table.now (of_pair pair) }
    ensures { Totalled table.now c (of_pair pair) result.0 }
{
    add_number(
        table,
        pair.low,
        c,
        add_number(table, pair.high, c, Whole(0)),
    )
}

// 3D: the four rows of the path for all colours.
pub fn cube_sums(table: &[i64], shares: Shares) -> Sums
    requires { (c : Colour) → SharesFit table.now (used Kind.ThreeD c shares) }
    ensures { (c : Colour) → Totalled table.now c (used Kind.ThreeD c shares) (sum_in result c) }
{
    let first = shares.first;
    let second = shares.second;
    let third = shares.third;
    let fourth = shares.fourth;
    let none = Sums {
        red: Whole(0),
        green: Whole(0),
        blue: Whole(0),
    };
    let last = add_row(table, fourth, none);
    let last_two = add_row(table, third, last);
    let last_three = add_row(table, second, last_two);
    add_row(table, first, last_three)
}
