// All that is told of the exact value of one colour of a pixel: its sum, in lowest terms, as a code, how the nearest code was settled and how far a code is.
#![tactic(auto)]

pub use parts::{Parts, parts_of};
pub use told::{Facts, facts_of};

mod parts;
mod told;
