// Files judged with no table: the number, the line, the description, and the places that a table needs. A size line alone ends with too few rows, so that 18
// there says that N was taken.
use crate::print;
use erythmoda::erythmoda_check;

pub(crate) fn show(name: &[u8], file: &[u8]) {
    let mut description = [7i64; 11];
    let mut line = 7u64;
    let mut places = 7u64;
    let number = erythmoda_check(file, &mut description, &mut line, &mut places);
    print::raw(name);
    print::count(number as u64);
    print::count(line);
    print::description(&description);
    print::count(places);
    print::raw(b"\n");
}

pub(crate) fn run() {
    show(b"check-size-1d-65536", b"LUT_1D_SIZE 65536\n");
    show(b"check-size-1d-65537", b"LUT_1D_SIZE 65537\n");
    show(b"check-size-3d-256", b"LUT_3D_SIZE 256\n");
    show(b"check-size-3d-257", b"LUT_3D_SIZE 257\n");
    show(b"check-empty", b"");
    show(
        b"check-cube",
        b"LUT_3D_SIZE 2\n0 0 0\n0 0 0\n0 0 0\n0 0 0\n0 0 0\n0 0 0\n0 0 0\n1 1 1\n",
    );
    show(
        b"check-sample-a3",
        b"TITLE \"Demo\"\nLUT_1D_SIZE 3\nDOMAIN_MIN 0 0 0\nDOMAIN_MAX 1 2 3\n0 0 0\n# Comments can go anywhere\n0.5 1 1.5\n1 1 1\n",
    );
}
