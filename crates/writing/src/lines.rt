// The lines of the text, put one after another by a pen that has room for them.
ghost use Rattle.std.specs.Prelude.{◌≡◌, true, [], ◌∷◌, ◌++◌, ◌*◌, ◌≤◌, length, take};
ghost use Rattle.rules.specs.Units.{sample_places};
ghost use Rattle.rules.specs.Decimals.{decimal, decimals_of};
ghost use Rattle.rules.specs.Descriptions.{could_be_read};
ghost use Rattle.rules.specs.Writing.{title_text, size_text, bounds_text, rows_text, head_text, file_text, title_fits};
ghost use Rattle.rules.specs.Reading.Grammar.{lowers, uppers};
ghost use Rattle.rules.specs.declared.Keyword.TheVariants.{ALower, AnUpper};
ghost use Rattle.lettering.specs.Putting.{Room, Puts};
ghost use Rattle.lettering.specs.Pens.{HasRoom, Adds};
ghost use Rattle.writing.specs.Rows.{BoundsFit, Headed, finer, text_of};

use crate::rows::{finer, lowers, row_at, uppers};
use judge::count_rows;
use lettering::Pen;
use rules::{Bounds, Description, Kind, Row, TenMillionths};
use whole::Whole;

// ---- the head

// TITLE, and the title's bytes between quotes, where there is one.
fn put_title(pen: &mut Pen, there: bool, title: &[u8])
    requires { HasRoom pen.old (title_text there title.now) }
    ensures { Adds pen.old (title_text there title.now) pen.new }
{
    if there {
        pen.put_between(b"TITLE \"", title, b"\"\n");
    }
}

// A keyword with a space, and N.
fn put_n(pen: &mut Pen, start: &[u8], n: u64)
    requires { HasRoom pen.old (start.now ++ (decimal n ++ (10 ∷ []))) }
    ensures { Adds pen.old (start.now ++ (decimal n ++ (10 ∷ []))) pen.new }
{
    pen.put(start);
    pen.put_count(n, b'\n');
}

fn put_size(pen: &mut Pen, kind: Kind, n: usize)
    requires { HasRoom pen.old (size_text kind n) }
    ensures { Adds pen.old (size_text kind n) pen.new }
{
    match kind {
        Kind::OneD => put_n(pen, b"LUT_1D_SIZE ", n as u64),
        Kind::ThreeD => put_n(pen, b"LUT_3D_SIZE ", n as u64),
    }
}

// ---- three numbers

// A number with the byte that ends it.
fn put_number(pen: &mut Pen, n: TenMillionths, end: u8)
    requires { HasRoom pen.old (decimals_of sample_places n.0 ++ (end ∷ [])) }
    ensures { Adds pen.old (decimals_of sample_places n.0 ++ (end ∷ [])) pen.new }
{
    pen.put_decimals(Whole(n.0));
    pen.put_byte(end);
}

fn put_row(pen: &mut Pen, row: Row)
    requires { HasRoom pen.old (text_of row) }
    ensures { Adds pen.old (text_of row) pen.new }
{
    put_number(pen, row.red, b' ');
    put_number(pen, row.green, b' ');
    put_number(pen, row.blue, b'\n');
}

// A keyword with a space, and three bounds.
fn put_bounds(pen: &mut Pen, start: &[u8], bounds: Bounds)
    requires bounds_fit { BoundsFit bounds }
    requires room { HasRoom pen.old (start.now ++ text_of (finer bounds)) }
    ensures { Adds pen.old (start.now ++ text_of (finer bounds)) pen.new }
{
    pen.put(start);
    put_row(pen, finer(bounds));
}

// Both lines of the domain, the lower bounds first.
fn put_domain(pen: &mut Pen, d: Description)
    requires bounds_fit { BoundsFit (lowers d) × BoundsFit (uppers d) }
    requires room { HasRoom pen.old (bounds_text ALower (lowers d) ++ bounds_text AnUpper (uppers d)) }
    ensures { Adds pen.old (bounds_text ALower (lowers d) ++ bounds_text AnUpper (uppers d)) pen.new }
{
    put_bounds(pen, b"DOMAIN_MIN ", lowers(d));
    put_bounds(pen, b"DOMAIN_MAX ", uppers(d));
}

// The first rows of a table.
fn put_rows(pen: &mut Pen, table: &[i64], rows: usize)
    requires rows_in_bounds { 3 * rows ≤ length table.now }
    requires room { HasRoom pen.old (rows_text (take (3 * rows) table.now)) }
    ensures { Adds pen.old (rows_text (take (3 * rows) table.now)) pen.new }
{
    for i in 0..rows {
        put_row(pen, row_at(table, i));
    }
}

// ---- the text

// Title, size, both lines of the domain.
fn put_head(pen: &mut Pen, d: Description, title: &[u8])
    requires headed { Headed d title.now }
    requires room { HasRoom pen.old (head_text d title.now) }
    ensures { Adds pen.old (head_text d title.now) pen.new }
{
    put_title(pen, d.title.there, title);
    put_size(pen, d.kind, d.n);
    put_domain(pen, d);
}

// From the first byte on; the answer is how many there are.
pub fn put_text(out: &mut [u8], d: Description, table: &[i64], title: &[u8]) -> usize
    requires table_value { could_be_read d table.now ≡ true }
    requires title_value { title_fits d.title.there title.now ≡ true }
    requires room { Room out.old 0 (file_text d table.now title.now) }
    ensures { Puts out.old 0 (file_text d table.now title.now) result out.new }
{
    let mut pen = Pen { bytes: out, at: 0 };
    put_head(&mut pen, d, title);
    put_rows(&mut pen, table, count_rows(d.kind, d.n));
    pen.at
}
