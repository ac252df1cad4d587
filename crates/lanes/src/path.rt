// The path of a pixel from its keys: four places of the table and their weights, and the sum over them.
ghost use Rattle.std.specs.Prelude.{◌≡◌, ◌≤◌};
ghost use Rattle.colour.specs.Limits.{den_limit};
ghost use Rattle.colour.specs.Places.{three};
ghost use Rattle.colour.specs.Adding.{RowAt, Room, Added};
ghost use Rattle.lanes.specs.Paths.{Keyed, CornerIs, Climbs, sample_from, path_total, PathFits};

use crate::lane::WHOLE;
use colour::{colour_place, with_term};
use rules::{Colour, TenMillionths};
use whole::Whole;

// A row by the place of its first number, with its weight.
#[derive(Clone, Copy)]
pub struct Corner {
    pub place: usize,
    pub weight: Whole,
}

// Where a pixel begins, and its three keys.
#[derive(Clone, Copy)]
pub struct Spot {
    pub start: u64,
    pub red: u64,
    pub green: u64,
    pub blue: u64,
}

#[derive(Clone, Copy)]
pub struct Path {
    pub first: Corner,
    pub second: Corner,
    pub third: Corner,
    pub fourth: Corner,
}

fn corner_of(place: u64, weight: u64) -> Corner
    requires { weight ≤ den_limit }
    ensures { CornerIs place weight result }
{
    Corner {
        place: place as usize,
        weight: Whole::of(weight),
    }
}

// From a start, one stride along each axis, the greatest fraction first; in which order equal ones stand is left to their strides, as it gives the same
// sum. The three strides together lead across.
pub fn path_of(den: u64, across: u64, spot: Spot) -> Path
    requires { Keyed den across spot.start (three spot.red spot.green spot.blue) }
    ensures { Climbs spot.start den (three spot.red spot.green spot.blue) result }
{
    let start = spot.start;
    let upper = spot.red.max(spot.green);
    let lower = spot.red.min(spot.green);
    let one = upper.max(spot.blue);
    let middle = upper.min(spot.blue);
    let two = lower.max(middle);
    let last = lower.min(middle);
    let f1 = one / WHOLE;
    let f2 = two / WHOLE;
    let f3 = last / WHOLE;
    let end = start + across;
    Path {
        first: corner_of(start, den - f1),
        second: corner_of(start + one % WHOLE, f1 - f2),
        third: corner_of(end - last % WHOLE, f2 - f3),
        fourth: corner_of(end, f3),
    }
}

// The number of a colour at a corner, weighed, in front of a sum.
fn with_corner(table: &[i64], corner: Corner, c: Colour, sum: Whole) -> Whole
    requires room { Room sum.0 corner.weight.0 }
    requires row_at { RowAt table.now corner.place }
    ensures { Added (sample_from table.now corner.place c) corner.weight.0 sum.0 result.0 }
{
    let at = corner.place + colour_place(c);
    with_term(sum, corner.weight, TenMillionths(table[at]))
}

pub fn path_sum(table: &[i64], path: Path, c: Colour) -> Whole
    requires { PathFits table.now path }
    ensures { result.0 ≡ path_total table.now c path }
{
    let first = path.first;
    let second = path.second;
    let third = path.third;
    let fourth = path.fourth;
    let last = with_corner(table, fourth, c, Whole(0));
    let last_two = with_corner(table, third, c, last);
    let last_three = with_corner(table, second, c, last_two);
    with_corner(table, first, c, last_three)
}
