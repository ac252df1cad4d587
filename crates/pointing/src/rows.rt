// How many rows a file has, and the size that it gives.
ghost use Rattle.std.specs.Prelude.{◌≡◌};
ghost use Rattle.rules.specs.Reading.Lines.{lines_of};
ghost use Rattle.pointing.specs.Counts.{rows_in, size_on, first_size, size_said};

use crate::lines::is_data;
use content::content_by;
use rules::{Item, Refusal, Size};
use text::{Cursor, Line, form_of};

// A line has at most so many bytes.
const LINE_LIMIT: usize = 250;

// How many data lines a file has.
pub fn rows_in(file: &[u8]) -> usize
    ensures { result ≡ rows_in file.now }
{
    let mut c = Cursor::new();
    let mut rows = 0;
    while let Some(
        Line {
            start,
            end,
            next,
            ..
        },
    ) = c.next_line(file)
    {
        if is_data(&file[start..end]) {
            rows += 1;
        }
        c = next;
    }
    rows
}

// The size among what a line says.
fn size_said(content: Result<Item, Refusal>) -> Option<Size>
    ensures { result ≡ size_said content }
{
    match content {
        Ok(Item::OfSize(size)) => Some(size),
        _ => None,
    }
}

// The size that a line gives.
fn size_on(l: &[u8]) -> Option<Size>
    ensures { result ≡ size_on l.now }
{
    if l.len() > LINE_LIMIT {
        return None;
    }
    size_said(content_by(form_of(l), l, 0))
}

// The first size that a file gives.
pub fn size_in(file: &[u8]) -> Option<Size>
    ensures { result ≡ first_size (lines_of file.now) }
{
    let mut c = Cursor::new();
    while let Some(
        Line {
            start,
            end,
            next,
            ..
        },
    ) = c.next_line(file)
    {
        if let Some(size) = size_on(&file[start..end]) {
            return Some(size);
        }
        c = next;
    }
    None
}
