// The exact value S / E that a colour is interpolated to: in lowest terms, as a code, how the nearest code was settled and how far it is, in decimals.
#![tactic(auto)]

pub use codes::{InCodes, in_codes};
pub use decimals::{Places, decimals_of};
pub use distance::{Distance, distance_of};
pub use ratio::{Ratio, lowest};
pub use settled::{Settled, how_settled};

mod codes;
mod decimals;
mod distance;
mod floor;
mod ratio;
mod settled;
