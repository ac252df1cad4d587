// The longest table of 1D, N = 65536, read whole. Of its places it is printed how many hold 0, and how many still hold a 7: one, past the last row.
use crate::{print, reads};

const SIZE_LINE: [u8; 18] = *b"LUT_1D_SIZE 65536\n";

const ROW: [u8; 6] = *b"0 0 0\n";

// The size line, then rows; it is as long as three rows.
fn byte_at(i: usize) -> u8 {
    if i < 18 { SIZE_LINE[i] } else { ROW[i % 6] }
}

fn fill(file: &mut [u8]) {
    for (i, byte) in file.iter_mut().enumerate() {
        *byte = byte_at(i);
    }
}

// How many places hold a number.
pub(crate) fn places_with<T: Eq>(list: &[T], n: &T) -> u64 {
    list.iter().filter(|&x| x == n).count() as u64
}

fn show(name: &[u8], file: &[u8], table: &mut [i64]) {
    reads::answered(name, file, &mut *table);
    print::count(places_with(table, &0));
    print::count(places_with(table, &7));
    print::raw(b"\n");
}

pub(crate) fn run(name: &[u8]) {
    let mut file = [0u8; 393_234];
    fill(&mut file);
    let mut table = [7i64; 196_609];
    show(name, &file, &mut table);
}
