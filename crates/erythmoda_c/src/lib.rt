// The C boundary's archive: each call of the library `erythmoda` under the name that loggers link (include/erythmoda.h), with its promise. A crate is a library
// or a static library, so the calls are written there, and here they are given to C.
// Stays: what goes together (the widths, rows and weights, the eleven numbers) comes apart here, as the C interface has it.
#![tactic(auto)]

ghost use Rattle.rules.specs.Units.{bits_of};
ghost use Rattle.rules.specs.Boundary.{ReadsC, ChecksC, LooksC, FindsRowsC, GivesCodesC, PicturesC, WritesC, InvertsC};

// Reads a file into the lent table; the description as eleven numbers, and the line of a refusal.
#[unsafe(no_mangle)]
pub extern "C" fn erythmoda_read(
    file: &[u8],
    table: &mut [i64],
    description: &mut [i64; 11],
    line: &mut u64,
) -> u32
    ensures { ReadsC file.now table.old result table.new description.new line.new }
{
    erythmoda::erythmoda_read(file, table, description, line)
}

// Judges a file with no table; the description, the line of a refusal, and the places that a table needs.
#[unsafe(no_mangle)]
pub extern "C" fn erythmoda_check(
    file: &[u8],
    description: &mut [i64; 11],
    line: &mut u64,
    places: &mut u64,
) -> u32
    ensures { ChecksC file.now result description.new line.new places.new }
{
    erythmoda::erythmoda_check(file, description, line, places)
}

// One pixel to three corrected codes, with the six rows and weights; the widths in bits are those of raw and of corrected codes.
#[unsafe(no_mangle)]
pub extern "C" fn erythmoda_look(
    description: &[i64; 11],
    table: &[i64],
    raw: u32,
    corrected: u32,
    pixel: &[u16; 3],
    codes: &mut [u16; 3],
    rows: &mut [u32; 6],
    weights: &mut [i64; 6],
) -> u32
    ensures { LooksC description.now table.now (bits_of raw corrected) pixel.now result codes.new rows.new weights.new }
{
    erythmoda::erythmoda_look(
        description,
        table,
        raw,
        corrected,
        pixel,
        codes,
        rows,
        weights,
    )
}

// One pixel to six rows and weights: the first half of a look.
#[unsafe(no_mangle)]
pub extern "C" fn erythmoda_rows(
    description: &[i64; 11],
    table: &[i64],
    raw: u32,
    pixel: &[u16; 3],
    rows: &mut [u32; 6],
    weights: &mut [i64; 6],
) -> u32
    ensures { FindsRowsC description.now table.now raw pixel.now result rows.new weights.new }
{
    erythmoda::erythmoda_rows(description, table, raw, pixel, rows, weights)
}

// Six rows and weights to three corrected codes: the second half of a look.
#[unsafe(no_mangle)]
pub extern "C" fn erythmoda_codes(
    description: &[i64; 11],
    table: &[i64],
    raw: u32,
    corrected: u32,
    rows: &[u32; 6],
    weights: &[i64; 6],
    codes: &mut [u16; 3],
) -> u32
    ensures { GivesCodesC description.now table.now (bits_of raw corrected) rows.now weights.now result codes.new }
{
    erythmoda::erythmoda_codes(description, table, raw, corrected, rows, weights, codes)
}

// A run of pixels to corrected codes.
#[unsafe(no_mangle)]
pub extern "C" fn erythmoda_picture(
    description: &[i64; 11],
    table: &[i64],
    raw: u32,
    corrected: u32,
    src: &[u16],
    dst: &mut [u16],
) -> u32
    ensures { PicturesC description.now table.now (bits_of raw corrected) src.now dst.old result dst.new }
{
    erythmoda::erythmoda_picture(description, table, raw, corrected, src, dst)
}

// A table as the bytes of a file, and their length.
#[unsafe(no_mangle)]
pub extern "C" fn erythmoda_write(
    description: &[i64; 11],
    table: &[i64],
    title: &[u8],
    out: &mut [u8],
    length: &mut u64,
) -> u32
    ensures { WritesC description.now table.now title.now out.old result out.new length.new }
{
    erythmoda::erythmoda_write(description, table, title, out, length)
}

// The raw code of a colour whose corrected code is nearest to a wanted one, and the count of codes tried. The colour is 0 for red, 1 for green, 2 for blue.
#[unsafe(no_mangle)]
pub extern "C" fn erythmoda_inverse(
    description: &[i64; 11],
    table: &[i64],
    raw: u32,
    corrected: u32,
    colour: u32,
    wanted: u16,
    tolerance: u32,
    code: &mut u16,
    count: &mut u64,
) -> u32
    ensures { InvertsC description.now table.now (bits_of raw corrected) colour wanted tolerance result code.new count.new }
{
    erythmoda::erythmoda_inverse(
        description,
        table,
        raw,
        corrected,
        colour,
        wanted,
        tolerance,
        code,
        count,
    )
}
