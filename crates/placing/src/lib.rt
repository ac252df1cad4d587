// What is shown of one colour of a pixel: on which side of its domain the code lies, its place between two rows, the exact sum of its rows, and where a
// row stands in the cube.
#![tactic(auto)]

pub use grid::{Grid, grid_of};
pub use place::place_at;
pub use side::{Side, side_of};
pub use total::total_of;

mod grid;
mod place;
mod side;
mod total;
