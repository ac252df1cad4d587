// Binary PPM pictures: what the header says and where it ends, what else the bytes are, the header that is written, what maxval says of the codes, and
// pixels as bytes and as codes, and a code that is too great.
#![tactic(auto)]

mod depth;
mod excess;
mod header;
mod kinds;
mod raster;
mod words;
mod written;

pub use depth::{Scale, scale_of};
pub use excess::{Excess, excess_at};
pub use header::{Fault, Frame, Part, header_of};
pub use kinds::Kind;
pub use raster::{bytes_from, codes_from, count_within};
pub use written::put_header;
