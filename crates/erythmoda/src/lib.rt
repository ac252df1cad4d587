// The C boundary: what loggers link, by way of erythmoda_c. Each call asks the proved call behind it and lays the answer out in lent memory.
// Stays: what goes together (the widths, rows and weights, the eleven numbers) comes apart in the calls, as the C interface has it.
#![tactic(auto)]

ghost use Rattle.std.specs.Prelude.{◌≡◌, ok_or};
ghost use Rattle.rules.specs.Units.{bits_of};
ghost use Rattle.rules.specs.declared.Refusal.TheVariants.{CouldNotBeRead};
ghost use Rattle.rules.specs.Boundary.{described_in, ReadsC, ChecksC, LooksC, FindsRowsC, GivesCodesC, PicturesC, WritesC, InvertsC};
ghost use Rattle.erythmoda.specs.Described.{LooksIn, FindsRowsIn, GivesCodesIn, PicturesIn, WritesIn, InvertsIn};

use crossing::{
    codes_laid, colour_of, described, description_of, eleven_of, first_shares, inverse_code,
    inverse_count, inverse_number, look_codes, look_shares, number_of, pixel_of, places_needed,
    read_line, read_number, rows_laid, second_codes, shares_in, weights_laid, written_length,
};
use halves::{first_half, look, second_half};
use inverse::inverse;
use picture::picture;
use reading::{check, read};
use rules::{Aim, Bits, Codes, Description, Inverted, Looked, NotInverted, Refusal, Shares};
use writing::write;

// What eleven numbers describe, or 24.
fn described_as(eleven: &[i64; 11]) -> Result<Description, Refusal>
    ensures { result ≡ ok_or (described_in eleven.now) CouldNotBeRead }
{
    described(eleven).ok_or(Refusal::CouldNotBeRead)
}

// Reads a file into the lent table; the description as eleven numbers, and the line of a refusal.
pub fn erythmoda_read(
    file: &[u8],
    table: &mut [i64],
    description: &mut [i64; 11],
    line: &mut u64,
) -> u32
    ensures { ReadsC file.now table.old result table.new description.new line.new }
{
    let answer = read(file, table);
    *description = eleven_of(description_of(answer));
    *line = read_line(answer);
    read_number(answer)
}

// Judges a file with no table; the description, the line of a refusal, and the places that a table needs.
pub fn erythmoda_check(
    file: &[u8],
    description: &mut [i64; 11],
    line: &mut u64,
    places: &mut u64,
) -> u32
    ensures { ChecksC file.now result description.new line.new places.new }
{
    let answer = check(file);
    *description = eleven_of(description_of(answer));
    *line = read_line(answer);
    *places = places_needed(answer);
    read_number(answer)
}

// Look, of a description as eleven numbers.
fn look_in(
    description: &[i64; 11],
    table: &[i64],
    bits: Bits,
    pixel: Codes,
) -> Result<Looked, Refusal>
    ensures { LooksIn description.now table.now bits pixel result }
{
    look(described_as(description)?, table, bits, pixel)
}

// One pixel to three corrected codes, with the six rows and weights; the widths in bits are those of raw and of corrected codes.
pub fn erythmoda_look(
    description: &[i64; 11],
    table: &[i64],
    raw: u32,
    corrected: u32,
    pixel: &[u16; 3],
    codes: &mut [u16; 3],
    rows: &mut [u32; 6],
    weights: &mut [i64; 6],
) -> u32
    ensures { LooksC description.now table.now (bits_of raw corrected) pixel.now result codes.new rows.new weights.new }
{
    let bits = Bits { raw, corrected };
    let answer = look_in(description, table, bits, pixel_of(pixel));
    let shares = look_shares(answer);
    *codes = codes_laid(look_codes(answer));
    *rows = rows_laid(shares);
    *weights = weights_laid(shares);
    number_of(answer)
}

// The first half, of a description as eleven numbers.
fn rows_in(
    description: &[i64; 11],
    table: &[i64],
    raw: u32,
    pixel: Codes,
) -> Result<Shares, Refusal>
    ensures { FindsRowsIn description.now table.now raw pixel result }
{
    first_half(described_as(description)?, table, raw, pixel)
}

// One pixel to six rows and weights: the first half of a look.
pub fn erythmoda_rows(
    description: &[i64; 11],
    table: &[i64],
    raw: u32,
    pixel: &[u16; 3],
    rows: &mut [u32; 6],
    weights: &mut [i64; 6],
) -> u32
    ensures { FindsRowsC description.now table.now raw pixel.now result rows.new weights.new }
{
    let answer = rows_in(description, table, raw, pixel_of(pixel));
    let shares = first_shares(answer);
    *rows = rows_laid(shares);
    *weights = weights_laid(shares);
    number_of(answer)
}

// The second half, of a description as eleven numbers.
fn codes_in(
    description: &[i64; 11],
    table: &[i64],
    bits: Bits,
    shares: Shares,
) -> Result<Codes, Refusal>
    ensures { GivesCodesIn description.now table.now bits shares result }
{
    second_half(described_as(description)?, table, bits, shares)
}

// Six rows and weights to three corrected codes: the second half of a look.
pub fn erythmoda_codes(
    description: &[i64; 11],
    table: &[i64],
    raw: u32,
    corrected: u32,
    rows: &[u32; 6],
    weights: &[i64; 6],
    codes: &mut [u16; 3],
) -> u32
    ensures { GivesCodesC description.now table.now (bits_of raw corrected) rows.now weights.now result codes.new }
{
    let bits = Bits { raw, corrected };
    let answer = codes_in(description, table, bits, shares_in(rows, weights));
    *codes = codes_laid(second_codes(answer));
    number_of(answer)
}

// Picture, of a description as eleven numbers.
fn picture_in(
    description: &[i64; 11],
    table: &[i64],
    bits: Bits,
    src: &[u16],
    dst: &mut [u16],
) -> Result<(), Refusal>
    ensures { PicturesIn description.now table.now bits src.now dst.old result dst.new }
{
    picture(described_as(description)?, table, bits, src, dst)
}

// A run of pixels to corrected codes.
pub fn erythmoda_picture(
    description: &[i64; 11],
    table: &[i64],
    raw: u32,
    corrected: u32,
    src: &[u16],
    dst: &mut [u16],
) -> u32
    ensures { PicturesC description.now table.now (bits_of raw corrected) src.now dst.old result dst.new }
{
    let bits = Bits { raw, corrected };
    number_of(picture_in(description, table, bits, src, dst))
}

// Write, of a description as eleven numbers.
fn write_in(
    description: &[i64; 11],
    table: &[i64],
    title: &[u8],
    out: &mut [u8],
) -> Result<usize, Refusal>
    ensures { WritesIn description.now table.now title.now out.old result out.new }
{
    write(described_as(description)?, table, title, out)
}

// A table as the bytes of a file, and their length.
pub fn erythmoda_write(
    description: &[i64; 11],
    table: &[i64],
    title: &[u8],
    out: &mut [u8],
    length: &mut u64,
) -> u32
    ensures { WritesC description.now table.now title.now out.old result out.new length.new }
{
    let answer = write_in(description, table, title, out);
    *length = written_length(answer);
    number_of(answer)
}

// The inverse, of a description as eleven numbers and a colour as one.
fn inverse_in(
    description: &[i64; 11],
    table: &[i64],
    bits: Bits,
    colour: u32,
    wanted: u16,
    tolerance: u32,
) -> Result<Inverted, NotInverted>
    ensures { InvertsIn description.now table.now bits colour wanted tolerance result }
{
    let none = NotInverted {
        reason: Refusal::CouldNotBeRead,
        count: 0,
    };
    let d = described(description).ok_or(none)?;
    let colour = colour_of(colour).ok_or(none)?;
    let aim = Aim {
        colour,
        wanted,
        tolerance,
    };
    inverse(d, table, bits, aim)
}

// The raw code of a colour whose corrected code is nearest to a wanted one, and the count of codes tried. The colour is 0 for red, 1 for green, 2 for blue.
pub fn erythmoda_inverse(
    description: &[i64; 11],
    table: &[i64],
    raw: u32,
    corrected: u32,
    colour: u32,
    wanted: u16,
    tolerance: u32,
    code: &mut u16,
    count: &mut u64,
) -> u32
    ensures { InvertsC description.now table.now (bits_of raw corrected) colour wanted tolerance result code.new count.new }
{
    let bits = Bits { raw, corrected };
    let answer = inverse_in(description, table, bits, colour, wanted, tolerance);
    *code = inverse_code(answer);
    *count = inverse_count(answer);
    inverse_number(answer)
}
