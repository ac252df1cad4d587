// A table as the bytes of a file: all is judged and the text's length counted before a byte is written.
#![tactic(auto)]

mod counts;
mod lines;
mod rows;

ghost use Rattle.std.specs.Prelude.{◌≡◌};
ghost use Rattle.rules.specs.Reading.Lines.{every};
ghost use Rattle.rules.specs.Writing.{title_byte, title_fits};
ghost use Rattle.rules.specs.Promises.{Writes};

use counts::count_text;
use judge::could_be_read;
use lines::put_text;
use rules::{Description, Refusal};
use scan::ByteKind;
use text::every;

// ---- 27

// The title's line has then at most 250 bytes.
const LONGEST_TITLE: usize = 242;

// 0x20 to 0x7E, and no quote: permitted in a line, and in a title.
fn is_plain(title: &[u8]) -> bool
    ensures { result ≡ every title_byte title.now }
{
    every(title, ByteKind::Permitted) && every(title, ByteKind::InTitle)
}

// Without the mark the title's bytes are not judged.
// Stays: a mark beside the bytes, and no Option, since `write` and the C interface are lent both, and `title_fits` of rules judges them so.
fn title_fits(there: bool, title: &[u8]) -> bool
    ensures { result ≡ title_fits there title.now }
{
    !there || title.len() <= LONGEST_TITLE && is_plain(title)
}

// ---- the call

// A description, a table and a title's bytes to the bytes of a file; the answer is its length.
pub fn write(d: Description, table: &[i64], title: &[u8], out: &mut [u8]) -> Result<usize, Refusal>
    ensures { Writes d table.now title.now out.old result out.new }
{
    if !could_be_read(d, table) {
        return Err(Refusal::CouldNotBeRead);
    }
    if !title_fits(d.title.there, title) {
        return Err(Refusal::TitleNotPlain);
    }
    let length = count_text(d, table, title);
    if out.len() < length {
        return Err(Refusal::TooLittleRoom);
    }
    put_text(out, d, table, title);
    Ok(length)
}
