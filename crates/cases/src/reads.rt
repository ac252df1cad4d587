// Files read: the number, the line, the description, and every place of a table that held 7s. The line and the description held what is no answer.
use crate::{longest, print};
use erythmoda::erythmoda_read;

// What a read answers, without the table.
pub(crate) fn answered(name: &[u8], file: &[u8], table: &mut [i64]) {
    let mut description = [-7i64; 11];
    let mut line = 777u64;
    let number = erythmoda_read(file, table, &mut description, &mut line);
    print::raw(name);
    print::count(number as u64);
    print::count(line);
    print::description(&description);
}

pub(crate) fn into(name: &[u8], file: &[u8], table: &mut [i64]) {
    answered(name, file, &mut *table);
    print::numbers(table);
    print::raw(b"\n");
}

fn into_six(name: &[u8], file: &[u8]) {
    let mut table = [7i64; 6];
    into(name, file, &mut table);
}

fn into_none(name: &[u8], file: &[u8]) {
    let mut table = [7i64; 1];
    into(name, file, &mut table[..0]);
}

pub(crate) fn words() {
    into_six(b"word-0e999", b"LUT_1D_SIZE 2\n0e999 0 0\n0 0 0\n");
    into_six(b"word-10000e-1", b"LUT_1D_SIZE 2\n10000e-1 0 0\n0 0 0\n");
    into_six(
        b"word-1e-thirty-nines",
        b"LUT_1D_SIZE 2\n1e999999999999999999999999999999 0 0\n0 0 0\n",
    );
    into_six(
        b"word-1e-minus-thirty-nines",
        b"LUT_1D_SIZE 2\n1e-999999999999999999999999999999 0 0\n0 0 0\n",
    );
    into_six(b"word-5-point", b"LUT_1D_SIZE 2\n5. 0 0\n0 0 0\n");
    into_six(
        b"word-7-point-e-minus-2",
        b"LUT_1D_SIZE 2\n7.E-2 0 0\n0 0 0\n",
    );
    into_six(b"word-point", b"LUT_1D_SIZE 2\n. 0 0\n0 0 0\n");
    into_six(b"word-plus", b"LUT_1D_SIZE 2\n+ 0 0\n0 0 0\n");
}

// A table whose last line is a comment of 250 bytes, or of 251.
fn long_comment() {
    let mut file = [b'x'; 277];
    file[..27].copy_from_slice(b"LUT_1D_SIZE 2\n0 0 0\n1 1 1\n#");
    into_six(b"line-250", &file[..276]);
    into_six(b"line-251", &file);
    file[276] = b'\r';
    into_six(b"line-251-cr", &file);
}

pub(crate) fn lines() {
    long_comment();
    let mut first = [b'x'; 251];
    first[0] = b'#';
    first[249] = b'\r';
    first[250] = b'\n';
    into_none(b"line-249-crlf", &first);
    into_none(b"line-1-crlf", b"#\r\n");
    into_none(b"blank-before-comment", b" #\n");
}

pub(crate) fn sizes() {
    into_none(b"size-1d-1", b"LUT_1D_SIZE 1\n");
    into_none(b"size-3d-1", b"LUT_3D_SIZE 1\n");
    longest::run(b"size-1d-65536");
    into_none(b"size-1d-65537", b"LUT_1D_SIZE 65537\n");
    into_none(b"size-3d-256", b"LUT_3D_SIZE 256\n");
    into_none(b"size-3d-257", b"LUT_3D_SIZE 257\n");
    into_none(b"size-plus-2", b"LUT_1D_SIZE +2\n");
    into_none(b"size-2-point", b"LUT_1D_SIZE 2.\n");
}

fn cube(name: &[u8], table: &mut [i64]) {
    into(
        name,
        b"LUT_3D_SIZE 2\n0 0 0\n0 0 0\n0 0 0\n0 0 0\n0 0 0\n0 0 0\n0 0 0\n1 1 1\n",
        table,
    );
}

pub(crate) fn cubes() {
    let mut enough = [7i64; 24];
    cube(b"cube-24-places", &mut enough);
    let mut short = [7i64; 23];
    cube(b"cube-23-places", &mut short);
}

// Sample A.2 is the program's input. A.4 is made by its stated function.
pub(crate) fn samples() {
    let mut input = io::buffer();
    let n = io::read_full(0, &mut input);
    let mut a2 = [7i64; 96];
    into(b"sample-a2", &input[..n], &mut a2);
    let mut a3 = [7i64; 9];
    into(
        b"sample-a3",
        b"TITLE \"Demo\"\nLUT_1D_SIZE 3\nDOMAIN_MIN 0 0 0\nDOMAIN_MAX 1 2 3\n0 0 0\n# Comments can go anywhere\n0.5 1 1.5\n1 1 1\n",
        &mut a3,
    );
    let mut a4 = [7i64; 24];
    into(
        b"sample-a4",
        b"# Created Tue 19 Mar 2013\nLUT_3D_SIZE 2\n0 0 0\n1 0 0\n0 0.75 0\n1 0.75 0\n0 0.25 1\n1 0.25 1\n0 1 1\n1 1 1\n",
        &mut a4,
    );
}

// One line of the domain without the other: at the first data line, and at the end without data.
pub(crate) fn half_domains() {
    into_six(
        b"domain-lower-only",
        b"DOMAIN_MIN -1 -1 -1\nLUT_1D_SIZE 2\n0 0 0\n1 1 1\n",
    );
    into_six(
        b"domain-upper-only-no-data",
        b"LUT_1D_SIZE 2\nDOMAIN_MAX 2 2 2\n",
    );
}
