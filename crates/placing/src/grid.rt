// Where a row stands in the cube of a 3D table (document 01, "Units and places"): red is fastest.
ghost use Rattle.std.specs.Prelude.{◌≡◌, true, ◌<◌};
ghost use Rattle.rules.specs.Units.{in_range, rows_of};
ghost use Rattle.placing.specs.Grids.{StandsAt};

use rules::Kind;

// The index of a row along each axis.
#[derive(Clone, Copy)]
pub struct Grid {
    pub red: usize,
    pub green: usize,
    pub blue: usize,
}

pub fn grid_of(n: usize, row: usize) -> Grid
    requires n_value { in_range Kind.ThreeD n ≡ true }
    requires row_bound { row < rows_of Kind.ThreeD n }
    ensures { StandsAt n row result }
{
    let line = row / n;
    let red = row % n;
    let green = line % n;
    let blue = line / n;
    Grid { red, green, blue }
}
