// Pictures: the number, and every place of an output that held 7s.
use crate::print;
use erythmoda::erythmoda_picture;

pub(crate) fn through(
    name: &[u8],
    description: &[i64; 11],
    table: &[i64],
    raw_bits: u32,
    corrected_bits: u32,
    src: &[u16],
    dst: &mut [u16],
) {
    let number = erythmoda_picture(description, table, raw_bits, corrected_bits, src, &mut *dst);
    print::raw(name);
    print::count(number as u64);
    print::counts(dst);
    print::raw(b"\n");
}

// The numbers of document 01's 3D file.
pub(crate) fn cube() -> [i64; 24] {
    let mut table = [0; 24];
    table[21] = 10_000_000;
    table[22] = 10_000_000;
    table[23] = 10_000_000;
    table
}

// Through that file.
fn into(name: &[u8], raw_bits: u32, corrected_bits: u32, src: &[u16], dst: &mut [u16]) {
    through(
        name,
        &[3, 2, 0, 0, 0, 1000, 1000, 1000, 0, 0, 0],
        &cube(),
        raw_bits,
        corrected_bits,
        src,
        dst,
    );
}

fn one_depth() {
    let pixels = [51u16, 102, 204, 255, 0, 255];
    let mut eight = [7u16; 8];
    into(b"picture-two-pixels", 8, 8, &pixels, &mut eight);
    let mut two = [7u16; 2];
    into(b"picture-of-none", 8, 8, &pixels[..0], &mut two);
    let mut six = [7u16; 6];
    into(b"picture-of-five-codes", 8, 8, &pixels[..5], &mut six);
    let mut five = [7u16; 5];
    into(b"picture-into-five-places", 8, 8, &pixels, &mut five);
    let mut three = [7u16; 3];
    into(b"picture-code-256", 8, 8, &[0, 0, 256], &mut three);
}

// Codes of another depth than the picture's: of 12 bits to 16, and with a raw code above the M of corrected codes.
fn two_depths() {
    let pixels = [819u16, 1638, 3276, 4095, 1, 4095];
    let mut eight = [7u16; 8];
    into(b"picture-12-to-16-two-pixels", 12, 16, &pixels, &mut eight);
    let mut three = [7u16; 3];
    into(
        b"picture-16-to-8-code-256",
        16,
        8,
        &[65535, 256, 257],
        &mut three,
    );
}

// A code above the M of raw codes alone, and an unknown depth, which goes first.
fn refused_depths() {
    let above = [0u16, 0, 256];
    let mut three = [7u16; 3];
    into(b"picture-8-to-16-code-256", 8, 16, &above, &mut three);
    let mut other = [7u16; 3];
    into(b"picture-8-to-9-code-256", 8, 9, &above, &mut other);
    let mut six = [7u16; 6];
    into(
        b"picture-9-to-8-of-five-codes",
        9,
        8,
        &[51, 102, 204, 255, 0],
        &mut six,
    );
}

pub(crate) fn run() {
    one_depth();
    two_depths();
    refused_depths();
}
