// What crosses the C boundary: descriptions, colours, pixels, codes, rows and weights as the numbers that C lends, and an answer's number and values.
#![tactic(auto)]

pub use answers::{
    description_of, first_shares, inverse_code, inverse_count, inverse_number, look_codes,
    look_shares, number_of, places_needed, read_line, read_number, second_codes, written_length,
};
pub use layout::{
    codes_laid, colour_of, described, eleven_of, pixel_of, rows_laid, shares_in, weights_laid,
};

mod answers;
mod layout;
