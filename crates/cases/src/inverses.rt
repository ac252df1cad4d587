// The inverse: the number, the raw code and the count of codes tried, all of which held what is no answer.
use crate::{pictures, print, two_halves};
use erythmoda::erythmoda_inverse;

// Two rows in 1D, from 0 to 1.
const LINE: [i64; 11] = [1, 2, 0, 0, 0, 1000, 1000, 1000, 0, 0, 0];

// Red rises from 0 to 1, green falls from 1 to 0, and blue is 0.5 everywhere.
const SLOPES: [i64; 6] = [0, 10_000_000, 5_000_000, 10_000_000, 0, 5_000_000];

const RED: u32 = 0;

const GREEN: u32 = 1;

const BLUE: u32 = 2;

fn inverted(
    name: &[u8],
    description: &[i64; 11],
    table: &[i64],
    raw_bits: u32,
    corrected_bits: u32,
    colour: u32,
    wanted: u16,
    tolerance: u32,
) {
    let mut code = 777u16;
    let mut count = 777u64;
    let number = erythmoda_inverse(
        description,
        table,
        raw_bits,
        corrected_bits,
        colour,
        wanted,
        tolerance,
        &mut code,
        &mut count,
    );
    print::raw(name);
    print::count(number as u64);
    print::count(code as u64);
    print::count(count);
    print::raw(b"\n");
}

// Through the slopes.
fn slope(name: &[u8], raw: u32, corrected: u32, colour: u32, wanted: u16, tolerance: u32) {
    inverted(
        name, &LINE, &SLOPES, raw, corrected, colour, wanted, tolerance,
    );
}

fn hits() {
    slope(b"inverse-rising", 8, 8, RED, 51, 0);
    slope(b"inverse-falling", 8, 8, GREEN, 51, 0);
    slope(b"inverse-first", 8, 8, RED, 0, 0);
    slope(b"inverse-last", 8, 8, GREEN, 0, 0);
    slope(b"inverse-flat", 8, 8, BLUE, 128, 0);
    slope(b"inverse-16-to-8", 16, 8, RED, 100, 0);
    slope(b"inverse-16-bits", 16, 16, GREEN, 0, 0);
}

// The whole range is searched.
fn misses() {
    slope(b"inverse-near", 8, 16, RED, 1000, 28);
    slope(b"inverse-not-near", 8, 16, RED, 1000, 27);
    slope(b"inverse-lowest-of-all", 8, 8, BLUE, 127, 1);
    slope(b"inverse-out-of-reach", 16, 8, BLUE, 0, 127);
    slope(b"inverse-any", 16, 8, BLUE, 0, 4_294_967_295);
}

// Where more than one is refused, the first check decides.
fn refused() {
    let cube = [3i64, 2, 0, 0, 0, 1000, 1000, 1000, 0, 0, 0];
    inverted(b"inverse-cube", &cube, &pictures::cube(), 9, 8, RED, 256, 0);
    inverted(
        b"inverse-kind-2",
        &two_halves::KIND_2,
        &SLOPES,
        9,
        8,
        RED,
        256,
        0,
    );
    slope(b"inverse-colour-3", 9, 8, 3, 256, 0);
    slope(b"inverse-9-to-8", 9, 8, RED, 256, 0);
    slope(b"inverse-8-to-9", 8, 9, RED, 256, 0);
    slope(b"inverse-code-256", 16, 8, BLUE, 256, 0);
}

pub(crate) fn run() {
    hits();
    misses();
    refused();
}
