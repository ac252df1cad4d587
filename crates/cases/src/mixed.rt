// Mixed domains, in 3D with N = 2: files read and checked, pixels looked at, pictures.
use crate::{checks, looks, pictures, reads};

// All rows are 0 but for 1 in red in row 4, in green in row 6 and in blue in row 7: a colour's code is the weight of its row.
const RED_TO_2: [u8; 96] =
    *b"LUT_3D_SIZE 2\nDOMAIN_MIN 0 0 0\nDOMAIN_MAX 2 1 1\n0 0 0\n0 0 0\n0 0 0\n0 0 0\n1 0 0\n0 0 0\n0 1 0\n0 0 1\n";

fn read(name: &[u8], file: &[u8]) {
    let mut table = [7i64; 24];
    reads::into(name, file, &mut table);
}

fn reads() {
    read(b"domain-mixed", &RED_TO_2);
    let mut short = [7i64; 23];
    reads::into(b"domain-mixed-23-places", &RED_TO_2, &mut short);
    read(
        b"domain-mixed-not-whole",
        b"LUT_3D_SIZE 2\nDOMAIN_MIN 0 0 0\nDOMAIN_MAX 2 1.5 1\n0 0 0\n",
    );
    read(
        b"domain-mixed-shared-not-whole",
        b"LUT_3D_SIZE 2\nDOMAIN_MIN 0 -1 0\nDOMAIN_MAX 1.5 1.5 1.5\n0 0 0\n",
    );
    read(
        b"domain-one-not-whole",
        b"LUT_3D_SIZE 2\nDOMAIN_MIN 0 0 0\nDOMAIN_MAX 1.5 1.5 1.5\n0 0 0\n0 0 0\n0 0 0\n0 0 0\n0 0 0\n0 0 0\n0 0 0\n1 1 1\n",
    );
    checks::show(b"check-domain-mixed", &RED_TO_2);
}

// The numbers of those rows.
pub(crate) fn stair() -> [i64; 24] {
    let mut table = [0; 24];
    table[12] = 10_000_000;
    table[19] = 10_000_000;
    table[23] = 10_000_000;
    table
}

// Lower and upper bounds in thousandths.
fn described(r: i64, g: i64, b: i64, to_r: i64, to_g: i64, to_b: i64) -> [i64; 11] {
    [3, 2, r, g, b, to_r, to_g, to_b, 0, 0, 0]
}

fn look(name: &[u8], description: &[i64; 11], pixel: &[u16; 3]) {
    looks::looked(name, description, &stair(), 8, 8, pixel);
}

fn looks() {
    let red_to_2 = described(0, 0, 0, 2000, 1000, 1000);
    let pixel = [51u16, 102, 204];
    look(b"look-mixed", &red_to_2, &pixel);
    look(b"look-mixed-order", &red_to_2, &[120, 100, 200]);
    looks::looked(
        b"look-mixed-12-to-16",
        &red_to_2,
        &stair(),
        12,
        16,
        &[819, 1638, 3276],
    );
    let green_to_2 = described(0, 0, 0, 1000, 2000, 1000);
    look(b"look-mixed-tie", &green_to_2, &[50, 100, 25]);
    let beyond = described(0, -1000, 1000, 2000, 0, 2000);
    look(b"look-mixed-beyond", &beyond, &pixel);
    let higher = described(0, 0, 1000, 1000, 1000, 2000);
    look(b"look-mixed-equal-widths", &higher, &pixel);
    let one = described(0, 0, 0, 2000, 2000, 2000);
    look(b"look-one-to-two", &one, &pixel);
    let uneven = described(0, 0, 0, 2000, 1500, 1000);
    look(b"look-mixed-not-whole", &uneven, &pixel);
}

fn picture(name: &[u8], description: &[i64; 11], dst: &mut [u16]) {
    let pixels = [51u16, 102, 204, 120, 100, 200];
    pictures::through(name, description, &stair(), 8, 8, &pixels, dst);
}

fn pictures() {
    let mut eight = [7u16; 8];
    picture(
        b"picture-mixed",
        &described(0, 0, 0, 2000, 1000, 1000),
        &mut eight,
    );
    let mut six = [7u16; 6];
    picture(
        b"picture-mixed-not-whole",
        &described(0, 0, 0, 2000, 1500, 1000),
        &mut six,
    );
}

pub(crate) fn run() {
    reads();
    looks();
    pictures();
}
