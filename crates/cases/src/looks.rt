// Pixels looked at: the number, three codes, six rows and six weights, all of which held what is no answer.
use crate::print;
use erythmoda::erythmoda_look;

// What a look answers.
// Stays: here and in the other files the arguments lie apart, as the C interface takes them; a struct would be taken apart at once.
pub(crate) fn looked(
    name: &[u8],
    description: &[i64; 11],
    table: &[i64],
    raw_bits: u32,
    corrected_bits: u32,
    pixel: &[u16; 3],
) {
    let mut codes = [777u16; 3];
    let mut rows = [777u32; 6];
    let mut weights = [-7i64; 6];
    let number = erythmoda_look(
        description,
        table,
        raw_bits,
        corrected_bits,
        pixel,
        &mut codes,
        &mut rows,
        &mut weights,
    );
    print::raw(name);
    print::count(number as u64);
    print::counts(&codes);
    print::counts(&rows);
    print::numbers(&weights);
    print::raw(b"\n");
}

// 1D, N = 2, all colours alike: the depths, a domain in thousandths, and a table that goes from 0 to `last`.
fn show(
    name: &[u8],
    raw_bits: u32,
    corrected_bits: u32,
    lower: i64,
    upper: i64,
    last: i64,
    code: u16,
) {
    looked(
        name,
        &[1, 2, lower, lower, lower, upper, upper, upper, 0, 0, 0],
        &[0, 0, 0, last, last, last],
        raw_bits,
        corrected_bits,
        &[code, code, code],
    );
}

fn one_depth() {
    show(b"look-half-3", 8, 8, 0, 1000, 5_000_000, 3);
    show(b"look-quarter-255", 8, 8, 250, 750, 10_000_000, 255);
    show(b"look-code-256", 8, 8, 0, 1000, 5_000_000, 256);
}

// Codes of another depth than the pixel's: of a fifth and of a value that is moved to 1; half way between two codes, and with a pixel one code less.
fn two_depths() {
    show(b"look-8-to-16-fifth", 8, 16, 0, 1000, 10_000_000, 51);
    show(b"look-8-to-16-above-1", 8, 16, 0, 1000, 20_000_000, 200);
    show(b"look-12-to-16-tie", 12, 16, 0, 1000, 5_000_000, 273);
    show(b"look-12-to-16-below-tie", 12, 16, 0, 1000, 5_000_000, 272);
    show(b"look-16-to-8-tie", 16, 8, 0, 1000, 5_000_000, 257);
    show(b"look-16-to-8-below-tie", 16, 8, 0, 1000, 5_000_000, 256);
}

// A code above the M of raw codes alone, and an unknown depth, which goes first.
fn refused_depths() {
    show(b"look-8-to-16-code-256", 8, 16, 0, 1000, 5_000_000, 256);
    show(b"look-8-to-9-code-256", 8, 9, 0, 1000, 5_000_000, 256);
    show(b"look-9-to-8-code-3", 9, 8, 0, 1000, 5_000_000, 3);
}

pub(crate) fn run() {
    one_depth();
    two_depths();
    refused_depths();
}
