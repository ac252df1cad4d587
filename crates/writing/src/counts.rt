// How many bytes the text has: its lines are counted as they will be put.
ghost use Rattle.std.specs.Prelude.{◌≡◌, true, ◌+◌, ◌*◌, ◌≤◌, length, take};
ghost use Rattle.rules.specs.Units.{in_range, row_limit};
ghost use Rattle.rules.specs.Descriptions.{could_be_read};
ghost use Rattle.rules.specs.Writing.{title_text, size_text, rows_text, head_text, file_text, title_fits};
ghost use Rattle.writing.specs.Rows.{BoundsFit, Headed, finer, text_of};

use crate::rows::{finer, lowers, row_at, uppers};
use judge::count_rows;
use lettering::{count_decimals, count_digits};
use rules::{Bounds, Description, Kind, Row};
use whole::Whole;

// TITLE, a space, two quotes and a newline.
const BESIDE_TITLE: usize = 9;

// The size's keyword, a space and a newline.
const BESIDE_SIZE: usize = 13;

// A keyword of the domain, and a space.
const BEFORE_BOUNDS: usize = 11;

fn count_title(there: bool, title: &[u8]) -> usize
    requires { title_fits there title.now ≡ true }
    ensures counts { result ≡ length (title_text there title.now) }
    ensures few { result ≤ 251 }
{
    if !there {
        return 0;
    }
    title.len() + BESIDE_TITLE
}

fn count_size(kind: Kind, n: usize) -> usize
    requires { in_range kind n ≡ true }
    ensures counts { result ≡ length (size_text kind n) }
    ensures few { result ≤ 18 }
{
    count_digits(n as u64) + BESIDE_SIZE
}

// Three numbers, a space after two of them and a newline after the last.
fn count_row(row: Row) -> usize
    ensures counts { result ≡ length (text_of row) }
    ensures few { result ≤ 66 }
{
    let first = count_decimals(Whole(row.red.0));
    let second = count_decimals(Whole(row.green.0));
    let third = count_decimals(Whole(row.blue.0));
    first + second + third + 3
}

fn count_bounds(bounds: Bounds) -> usize
    requires { BoundsFit bounds }
    ensures counts { result ≡ 11 + length (text_of (finer bounds)) }
    ensures few { result ≤ 77 }
{
    BEFORE_BOUNDS + count_row(finer(bounds))
}

// The first rows of a table.
fn count_lines(table: &[i64], rows: usize) -> usize
    requires rows_le_row_limit { rows ≤ row_limit }
    requires rows_in_bounds { 3 * rows ≤ length table.now }
    ensures counts { result ≡ length (rows_text (take (3 * rows) table.now)) }
    ensures few { result ≤ 66 * rows }
{
    let mut total = 0;
    for i in 0..rows {
        total += count_row(row_at(table, i));
    }
    total
}

// Title, size and both lines of the domain.
fn count_head(d: Description, title: &[u8]) -> usize
    requires { Headed d title.now }
    ensures counts { result ≡ length (head_text d title.now) }
    ensures few { result ≤ 423 }
{
    let titled = count_title(d.title.there, title);
    let sized = count_size(d.kind, d.n);
    let lower = count_bounds(lowers(d));
    let upper = count_bounds(uppers(d));
    titled + sized + lower + upper
}

pub fn count_text(d: Description, table: &[i64], title: &[u8]) -> usize
    requires table_value { could_be_read d table.now ≡ true }
    requires title_value { title_fits d.title.there title.now ≡ true }
    ensures { result ≡ length (file_text d table.now title.now) }
{
    let rows = count_rows(d.kind, d.n);
    count_head(d, title) + count_lines(table, rows)
}
