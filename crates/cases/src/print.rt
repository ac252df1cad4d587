// What is printed: names, and fields with a tab before each.
use whole::Whole;

pub(crate) fn raw(text: &[u8]) {
    io::write_all(1, text);
}

pub(crate) fn count(n: u64) {
    raw(b"\t");
    io::print_decimal(1, n);
}

fn signed(n: i64) {
    raw(b"\t");
    if n < 0 {
        raw(b"-");
    }
    io::print_decimal(1, Whole(n).size());
}

pub(crate) fn numbers(list: &[i64]) {
    for &n in list {
        signed(n);
    }
}

// Codes, or rows.
pub(crate) fn counts<T: Copy + Into<u64>>(list: &[T]) {
    for &n in list {
        count(n.into());
    }
}

pub(crate) fn description(eleven: &[i64; 11]) {
    numbers(eleven);
}
