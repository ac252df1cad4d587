// The two halves of a look: of the first the number, six rows and six weights, of the second the number and three codes, all of which held what is no answer.
use crate::{mixed, pictures, print};
use erythmoda::{erythmoda_codes, erythmoda_rows};

// Sample A.3: three rows in 1D, and domains from 0 to 1, 2 and 3.
const LINES: [i64; 11] = [1, 3, 0, 0, 0, 1000, 2000, 3000, 0, 0, 0];

const LINES_TABLE: [i64; 9] = [
    0, 0, 0, 5_000_000, 10_000_000, 15_000_000, 10_000_000, 10_000_000, 10_000_000,
];

const CUBE: [i64; 11] = [3, 2, 0, 0, 0, 1000, 1000, 1000, 0, 0, 0];

pub(crate) const KIND_2: [i64; 11] = [2, 2, 0, 0, 0, 1000, 1000, 1000, 0, 0, 0];

const RED_TO_2: [i64; 11] = [3, 2, 0, 0, 0, 2000, 1000, 1000, 0, 0, 0];

// ---- the first half

fn found(name: &[u8], description: &[i64; 11], table: &[i64], raw_bits: u32, pixel: &[u16; 3]) {
    let mut rows = [777u32; 6];
    let mut weights = [-7i64; 6];
    let number = erythmoda_rows(description, table, raw_bits, pixel, &mut rows, &mut weights);
    print::raw(name);
    print::count(number as u64);
    print::counts(&rows);
    print::numbers(&weights);
    print::raw(b"\n");
}

fn rows() {
    found(b"rows-lines", &LINES, &LINES_TABLE, 8, &[51, 102, 255]);
    found(b"rows-cube", &CUBE, &pictures::cube(), 8, &[51, 102, 204]);
    found(
        b"rows-mixed",
        &RED_TO_2,
        &mixed::stair(),
        12,
        &[819, 1638, 3276],
    );
    let above = [0, 0, 256];
    found(b"rows-kind-2", &KIND_2, &pictures::cube(), 9, &above);
    found(b"rows-9-bits", &CUBE, &pictures::cube(), 9, &above);
    found(b"rows-code-256", &CUBE, &pictures::cube(), 8, &above);
}

// ---- the second half

fn given(
    name: &[u8],
    description: &[i64; 11],
    table: &[i64],
    raw_bits: u32,
    corrected_bits: u32,
    rows: &[u32; 6],
    weights: &[i64; 6],
) {
    let mut codes = [777u16; 3];
    let number = erythmoda_codes(
        description,
        table,
        raw_bits,
        corrected_bits,
        rows,
        weights,
        &mut codes,
    );
    print::raw(name);
    print::count(number as u64);
    print::counts(&codes);
    print::raw(b"\n");
}

// At 8 bits through sample A.3.
fn lines(name: &[u8], rows: &[u32; 6], weights: &[i64; 6]) {
    given(name, &LINES, &LINES_TABLE, 8, 8, rows, weights);
}

// Through document 01's 3D file.
fn cube(name: &[u8], raw_bits: u32, corrected_bits: u32, rows: &[u32; 6], weights: &[i64; 6]) {
    given(
        name,
        &CUBE,
        &pictures::cube(),
        raw_bits,
        corrected_bits,
        rows,
        weights,
    );
}

// Those that the first half finds.
fn joined() {
    let rows = [0u32, 4, 6, 7, 0, 0];
    cube(
        b"codes-cube",
        8,
        16,
        &rows,
        &[51_000, 102_000, 51_000, 51_000, 0, 0],
    );
    given(
        b"codes-mixed",
        &RED_TO_2,
        &mixed::stair(),
        12,
        16,
        &rows,
        &[1638, 3276, 2457, 819, 0, 0],
    );
    lines(
        b"codes-lines",
        &[0, 1, 0, 1, 0, 1],
        &[153_000, 102_000, 306_000, 204_000, 255_000, 510_000],
    );
}

// Those that no pixel has: how the rows lie is not asked, nor what stands in places that are not used.
fn others() {
    lines(
        b"codes-any-rows",
        &[2, 0, 1, 1, 0, 2],
        &[51_000, 204_000, 510_000, 0, 459_000, 306_000],
    );
    cube(
        b"codes-unused-places",
        8,
        8,
        &[7, 0, 0, 7, 8, 4_294_967_295],
        &[51_000, 204_000, 0, 0, -9_223_372_036_854_775_808, -1],
    );
}

// 24 and 20, where the first row is 26 too.
fn refused_first() {
    let rows = [8u32, 0, 0, 0, 0, 0];
    let weights = [255_000i64, 0, 0, 0, 0, 0];
    given(
        b"codes-kind-2",
        &KIND_2,
        &pictures::cube(),
        9,
        9,
        &rows,
        &weights,
    );
    cube(b"codes-9-to-8", 9, 8, &rows, &weights);
    cube(b"codes-8-to-9", 8, 9, &rows, &weights);
}

// A row that is not there, with no weight.
fn refused_rows() {
    cube(
        b"codes-row-8",
        8,
        8,
        &[0, 0, 0, 8, 0, 0],
        &[255_000, 0, 0, 0, 0, 0],
    );
    lines(
        b"codes-row-greatest",
        &[0, 0, 0, 4_294_967_295, 0, 0],
        &[255_000, 0, 510_000, 0, 765_000, 0],
    );
}

fn refused_weights() {
    let rows = [0u32; 6];
    cube(b"codes-negative", 8, 8, &rows, &[255_001, -1, 0, 0, 0, 0]);
    lines(
        b"codes-one-less",
        &rows,
        &[255_000, 0, 509_999, 0, 765_000, 0],
    );
    lines(
        b"codes-one-more",
        &rows,
        &[255_000, 0, 510_000, 0, 765_000, 1],
    );
    // 2 to the 64th more than they should be
    let greatest = 9_223_372_036_854_775_807i64;
    cube(
        b"codes-sum-wraps",
        8,
        8,
        &rows,
        &[greatest, greatest, 2, 255_000, 0, 0],
    );
    lines(b"codes-all-least", &rows, &[-9_223_372_036_854_775_808; 6]);
}

pub(crate) fn run() {
    rows();
    joined();
    others();
    refused_first();
    refused_rows();
    refused_weights();
}
