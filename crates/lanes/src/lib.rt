// Pictures by the shortest way that is exact. A lane takes the codes of one colour to places of the table by one product and no division; a cube is
// three lanes and what makes codes of the sums. Where the numbers are too great for it there is none, and a picture goes the way of look.
#![tactic(auto)]

mod cube;
mod lane;
mod nearest;
mod parts;
mod path;
mod spots;

pub use cube::{Cube, Lanes, Way, codes_by, cube_of, lane_along};
pub use lane::{Lane, WHOLE};
pub use parts::{common_in, parted};
pub use path::Spot;
pub use spots::{find_spots, lay_lanes};
