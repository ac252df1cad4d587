// Writes: the number, the length, how many of the lent bytes still hold a 7, and the text on one line, a bar for each newline.
use crate::{longest, mixed, print};
use erythmoda::erythmoda_write;

// Two rows: zeros, then a half, 1 and 2.
const HALF: [i64; 6] = [0, 0, 0, 5_000_000, 10_000_000, 20_000_000];

fn shown(byte: u8) {
    if byte == b'\n' {
        print::raw(b"|");
        return;
    }
    print::raw(&[byte]);
}

// The first bytes, so many of them.
fn text(bytes: &[u8], length: u64) {
    for &byte in bytes.iter().take(length as usize) {
        shown(byte);
    }
}

// All but the text; the answer is its length.
fn answered(
    name: &[u8],
    description: &[i64; 11],
    table: &[i64],
    title: &[u8],
    out: &mut [u8],
) -> u64 {
    let mut length = 77u64;
    let number = erythmoda_write(description, table, title, &mut *out, &mut length);
    print::raw(name);
    print::count(number as u64);
    print::count(length);
    print::count(longest::places_with(out, &7));
    length
}

fn into(name: &[u8], description: &[i64; 11], table: &[i64], title: &[u8], out: &mut [u8]) {
    let length = answered(name, description, table, title, &mut *out);
    if length > 0 {
        print::raw(b"\t");
        text(out, length);
    }
    print::raw(b"\n");
}

// A 1D description with a mark.
fn line(mark: i64) -> [i64; 11] {
    [1, 2, 0, 0, 0, 1000, 1000, 1000, mark, 0, 0]
}

fn titled(name: &[u8], title: &[u8], out: &mut [u8]) {
    into(name, &line(1), &HALF, title, out);
}

fn titles() {
    let mut first = [7u8; 80];
    titled(b"write-titled", b"smoke", &mut first);
    let mut second = [7u8; 80];
    titled(b"write-title-empty", b"", &mut second);
    let below_0 = [1, 2, 0, 0, 0, 1000, 1000, 1000, -1, 5000, -3];
    let mut third = [7u8; 80];
    into(b"write-mark-below-0", &below_0, &HALF, b"smoke", &mut third);
    let mut fourth = [7u8; 80];
    into(
        b"write-unmarked",
        &line(0),
        &HALF,
        &[b'"', b'\n', 0x80],
        &mut fourth,
    );
}

fn refused_kind() {
    let mut none = [7u8; 0];
    let kind_2 = [2, 2, 0, 0, 0, 1000, 1000, 1000, 1, 0, 0];
    into(b"write-kind-2", &kind_2, &HALF, b"\"", &mut none);
}

fn refused_titles() {
    let mut none = [7u8; 0];
    titled(b"write-title-243", &[b'x'; 243], &mut none);
    let mut other = [7u8; 0];
    titled(b"write-title-quote", b"a\"b", &mut other);
    let mut low = [7u8; 80];
    titled(b"write-title-1f", &[b'a', 0x1F], &mut low);
    let mut high = [7u8; 80];
    titled(b"write-title-7f", &[0x7F, b'a'], &mut high);
}

// The longest title; its text is not shown.
fn longest_title() {
    let mut out = [7u8; 320];
    answered(b"write-title-242", &line(1), &HALF, &[b'x'; 242], &mut out);
    print::raw(b"\n");
}

fn rooms() {
    let mut short = [7u8; 75];
    titled(b"write-one-byte-short", b"smoke", &mut short);
    let mut just = [7u8; 76];
    titled(b"write-just-the-text", b"smoke", &mut just);
}

fn numbers() {
    let later = [0, 0, 0, 5_000_000, 10_000_000, 20_000_000, 10_000_000_001];
    let mut first = [7u8; 80];
    into(b"write-later-place", &line(0), &later, b"", &mut first);
    let table = [0, -5_000_000, 10_000_000, 1, -10_000_000_000, 9_999_999_999];
    let mut second = [7u8; 100];
    into(b"write-numbers", &line(0), &table, b"", &mut second);
    let bounds = [1, 2, -10_000, 250, 9999, -9999, 750, 10_000, 0, 0, 0];
    let mut third = [7u8; 100];
    into(b"write-bounds", &bounds, &HALF, b"", &mut third);
}

fn mixed_domains() {
    let description = [3, 2, 0, -1000, 1000, 2000, 0, 2000, 1, 0, 0];
    let mut out = [7u8; 120];
    into(
        b"write-mixed",
        &description,
        &mixed::stair(),
        b"mixed",
        &mut out,
    );
}

pub(crate) fn run() {
    titles();
    refused_kind();
    refused_titles();
    longest_title();
    rooms();
    numbers();
    mixed_domains();
}
