// What is shown of a look: the table, the codes, and for each colour the rows that made its code.
ghost use Rattle.std.specs.Prelude.{◌≡◌, true, ◌*◌};
ghost use Rattle.colour.specs.Adding.{RowAt};
ghost use Rattle.explain.specs.Spans.{Seen};

use crate::lines::line_of;
use crate::rows::{Span, carries, span_shown};
use colour::{den_of, row_code};
use desk::{Output, write_sample, write_size};
use halves::four_of;
use rules::{Codes, Colour, Depths, Description, Share, Shares, TenMillionths};
use std::io;
use std::io::Write;

fn show_codes(out: &mut Output, codes: Codes) -> io::Result<()> {
    write!(out, "{} {} {}", codes.red, codes.green, codes.blue)
}

// As `pixel  51 102 204 at 8 bits`.
fn show_pixel(out: &mut Output, raw: Codes, bits: u32) -> io::Result<()> {
    write!(out, "pixel  ")?;
    show_codes(out, raw)?;
    writeln!(out, " at {bits} bits")
}

// The three numbers of a row, in plain decimals.
fn show_samples(out: &mut Output, table: &[i64], row: usize) -> io::Result<()>
    requires { RowAt table.now (3 * row) }
{
    let at = 3 * row;
    write_sample(out, TenMillionths(table[at]))?;
    write!(out, " ")?;
    write_sample(out, TenMillionths(table[at + 1]))?;
    write!(out, " ")?;
    write_sample(out, TenMillionths(table[at + 2]))
}

// As `       row 4 on line 6: 0 0 0, weight 102000 of 255000, code 0`; nothing of a row that carries no weight.
fn show_row(
    out: &mut Output,
    file: &[u8],
    table: &[i64],
    m: u16,
    c: Colour,
    den: u64,
    share: Share,
) -> io::Result<()>
    requires { RowAt table.now (3 * share.row) }
{
    if !carries(share) {
        return Ok(());
    }
    let row = share.row;
    let line = line_of(file, row);
    let code = row_code(table, m, c, row);
    write!(out, "       row {row} on line {line}: ")?;
    show_samples(out, table, row)?;
    writeln!(out, ", weight {} of {den}, code {code}", share.weight)
}

// As `red    51, its rows have codes from 0 to 255`.
fn show_span(out: &mut Output, c: Colour, codes: Codes, span: Span) -> io::Result<()> {
    let least = span.least;
    let greatest = span.greatest;
    match c {
        Colour::Red => write!(out, "red    {}", codes.red)?,
        Colour::Green => write!(out, "green  {}", codes.green)?,
        Colour::Blue => write!(out, "blue   {}", codes.blue)?,
    }
    writeln!(out, ", its rows have codes from {least} to {greatest}")
}

// A colour's code, and the rows that carried its weight.
fn show_colour(
    out: &mut Output,
    d: Description,
    file: &[u8],
    table: &[i64],
    depths: Depths,
    codes: Codes,
    shares: Shares,
    c: Colour,
) -> io::Result<()>
    requires { Seen d table.now depths shares }
{
    let raw = depths.raw;
    let corrected = depths.corrected;
    let m = corrected.greatest();
    let four = four_of(d.kind, c, shares);
    let den = den_of(d, raw.greatest(), c);
    let span = span_shown(d, table, depths, shares, c);
    show_span(out, c, codes, span)?;
    show_row(out, file, table, m, c, den, four.first)?;
    show_row(out, file, table, m, c, den, four.second)?;
    show_row(out, file, table, m, c, den, four.third)?;
    show_row(out, file, table, m, c, den, four.fourth)
}

// As `codes  51 51 51`; with their depth, where it is not the pixel's.
fn show_corrected(out: &mut Output, codes: Codes, depths: Depths) -> io::Result<()> {
    let raw = depths.raw;
    let corrected = depths.corrected;
    let width = corrected.bits();
    write!(out, "codes  ")?;
    show_codes(out, codes)?;
    if width != raw.bits() {
        write!(out, " at {width} bits")?;
    }
    writeln!(out)
}

// Everything of an accepted look but the pixel, which a line doesn't tell.
pub fn show_look(
    out: &mut Output,
    d: Description,
    file: &[u8],
    table: &[i64],
    depths: Depths,
    codes: Codes,
    shares: Shares,
) -> io::Result<()>
    requires { Seen d table.now depths shares }
{
    write!(out, "table  ")?;
    write_size(out, d.kind, d.n)?;
    writeln!(out)?;
    show_corrected(out, codes, depths)?;
    show_colour(out, d, file, table, depths, codes, shares, Colour::Red)?;
    show_colour(out, d, file, table, depths, codes, shares, Colour::Green)?;
    show_colour(out, d, file, table, depths, codes, shares, Colour::Blue)
}

// The pixel before it.
pub fn show_pixel_look(
    out: &mut Output,
    raw: Codes,
    bits: u32,
    d: Description,
    file: &[u8],
    table: &[i64],
    depths: Depths,
    codes: Codes,
    shares: Shares,
) -> io::Result<()>
    requires { Seen d table.now depths shares }
{
    show_pixel(out, raw, bits)?;
    show_look(out, d, file, table, depths, codes, shares)
}
