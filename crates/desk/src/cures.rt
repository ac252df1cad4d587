// What to do about a refused file: the bytes that the refusal points at, and what would pass in their place.
ghost use Rattle.std.specs.Prelude.{◌<◌};

use crate::host::Output;
use judge::{count_rows, in_range};
use numbers::number_of;
use pointing::{line_spot, point_at, rows_in, size_in};
use rules::{Form, Keyword, NumberFault, Refusal, Size, TenMillionths};
use std::io;
use std::io::Write;
use text::form_of;

const LINE_LIMIT: usize = 250;

// ---- what was read

// As `: "0,5"`, and more about it. The bytes are the file's, and need be no text.
fn write_read(out: &mut Output, text: &[u8], more: &str) -> io::Result<()> {
    write!(out, ": \"")?;
    out.write_all(text)?;
    write!(out, "\"{more}")
}

// As `: "1001" ...`, with what would pass; where nothing is there, that alone.
fn write_instead(out: &mut Output, text: &[u8], passes: &str) -> io::Result<()> {
    if text.is_empty() {
        return write!(out, ": nothing is there{passes}");
    }
    write_read(out, text, passes)
}

// ---- lines and bytes

// The column of a place in a line that begins at another, counted from 1; no place stands before its line.
fn column_of(first: usize, place: usize) -> u64
    requires { place < 9_223_372_036_854_775_808 }
{
    if place < first {
        return 0;
    }
    (place - first) as u64 + 1
}

const CARRIAGE_RETURN: &str =
    ", a carriage return, which some systems put at the end of each line; tr -d '\\r' < OLD > NEW takes them out";

const ORDER_MARK: &str = ", perhaps the byte order mark of UTF-8: save the file as plain ASCII";

const BEYOND_ASCII: &str = ", a letter beyond ASCII, as of a name with an accent: write it plainly";

const OTHER_BYTE: &str = "; the bytes from space to tilde, and tab, are permitted";

// What a byte is, where people know it by another name.
fn known_byte(byte: u8) -> &'static str {
    match byte {
        b'\r' => CARRIAGE_RETURN,
        0xEF => ORDER_MARK,
        _ if byte > b'~' => BEYOND_ASCII,
        _ => OTHER_BYTE,
    }
}

// As `: 0x0d in column 12, a carriage return ...`.
fn write_byte(out: &mut Output, text: &[u8], column: u64) -> io::Result<()> {
    let Some(&byte) = text.first() else {
        return Ok(());
    };
    let known = known_byte(byte);
    write!(out, ": 0x{byte:02x} in column {column}{known}")
}

// ---- words

const EARLY: &str = " has to stand before the first row";

const TWICE: &str =
    " is there a second time; leave one of the two out (LUT_1D_SIZE and LUT_3D_SIZE count as one)";

const RANGE: &str = "; N is from 2 to 65536 for LUT_1D_SIZE and from 2 to 256 for LUT_3D_SIZE";

const BOUND: &str = "; -10, 0.125 or 10 would pass";

const FINE: &str = "; at most 7 decimals would pass, as 0.1234567 or 1e-7: round it";

const SAMPLE: &str = "; 1000 or -0.5 would pass";

const NO_SIZE: &str = ": LUT_1D_SIZE or LUT_3D_SIZE with N has to stand before the first row";

const ORDER: &str =
    ": each number of DOMAIN_MIN has to be less than that of DOMAIN_MAX for the same colour";

const WIDTH: &str = ": in each colour DOMAIN_MAX less DOMAIN_MIN is at most 10";

const AGREEMENT: &str = ": give the three colours one domain, or whole numbers as bounds";

const BOTH: &str = ": give both, or neither for 0 to 1";

const KEYWORDS: &str =
    "; the keywords are TITLE, DOMAIN_MIN, DOMAIN_MAX, LUT_1D_SIZE and LUT_3D_SIZE, in capitals; a comment begins with # in column 1";

fn write_unknown(out: &mut Output, text: &[u8]) -> io::Result<()> {
    if text.is_empty() {
        return write!(out, ": the line has blanks alone; leave it empty");
    }
    write_read(out, text, KEYWORDS)
}

const TITLE: &str =
    "; TITLE takes one text in double quotes, with no quote or tab in it, as TITLE \"smoke\"";

const BOUNDS: &str =
    "; DOMAIN_MIN and DOMAIN_MAX each take three numbers with blanks between, as DOMAIN_MIN 0 0 0 or DOMAIN_MAX 1 1.5 1";

const SIZE: &str = "; a size is one whole number in digits, as LUT_3D_SIZE 33";

// What the parameters of a keyword have to be.
fn parameters_of(keyword: Keyword) -> &'static str {
    match keyword {
        Keyword::ATitle => TITLE,
        Keyword::ALower | Keyword::AnUpper => BOUNDS,
        Keyword::ASize(_) => SIZE,
    }
}

fn write_parameters(out: &mut Output, form: Form, text: &[u8]) -> io::Result<()> {
    match form {
        Form::Keyed(keyword) => write_instead(out, text, parameters_of(keyword)),
        Form::Idle | Form::Data | Form::Neither => Ok(()),
    }
}

// Whether a word is a number by its form; one that is too long for a line is none.
fn is_number(w: &[u8]) -> bool {
    if w.len() > LINE_LIMIT {
        return false;
    }
    match number_of(w, TenMillionths::PLACES, TenMillionths::GREATEST as u64) {
        Err(NumberFault::Malformed) => false,
        Ok(_) | Err(NumberFault::Beyond) | Err(NumberFault::Finer) => true,
    }
}

const FEWER: &str = ": the line has fewer than three; a row is as 0 0.5 1";

const ONE_MORE: &str = " is one too many; a row is as 0 0.5 1";

const NO_NUMBER: &str =
    " is no number; a row is as 0 0.5 1 or 1e-2 0 -3.25, with a point and with blanks between";

// A number that is missing, one too many, or a word that is none.
fn write_row(out: &mut Output, text: &[u8]) -> io::Result<()> {
    if text.is_empty() {
        return write!(out, "{FEWER}");
    }
    let wrong = if is_number(text) { ONE_MORE } else { NO_NUMBER };
    write_read(out, text, wrong)
}

// ---- rows

// How many rows a size asks for.
fn write_asked(out: &mut Output, size: Size) -> io::Result<()> {
    let kind = size.kind;
    let n = size.n;
    if !in_range(kind, n) {
        return Ok(());
    }
    let rows = count_rows(kind, n);
    write!(out, ", and LUT_{kind}_SIZE {n} asks for {rows}")
}

// As `: there are 7, and LUT_3D_SIZE 2 asks for 8`.
fn write_counts(out: &mut Output, file: &[u8]) -> io::Result<()> {
    let rows = rows_in(file);
    write!(out, ": there are {rows}")?;
    match size_in(file) {
        Some(size) => write_asked(out, size),
        None => Ok(()),
    }
}

// ---- all of them

// What a refusal points at: its line, the bytes in that line, and the column of the first of them.
#[derive(Clone, Copy)]
struct Pointed<'a> {
    line: &'a [u8],
    text: &'a [u8],
    column: u64,
}

// What stands behind the meaning of a refusal, where there is more to say.
fn write_about(
    out: &mut Output,
    file: &[u8],
    pointed: Pointed<'_>,
    reason: Refusal,
) -> io::Result<()> {
    let text = pointed.text;
    match reason {
        Refusal::LineTooLong => write!(out, ": this one has {}", pointed.line.len()),
        Refusal::ByteNotPermitted => write_byte(out, text, pointed.column),
        Refusal::NeitherDataNorKeyword => write_unknown(out, text),
        Refusal::KeywordAfterData => write_read(out, text, EARLY),
        Refusal::KeywordRepeated => write_read(out, text, TWICE),
        Refusal::ParametersWrong => write_parameters(out, form_of(pointed.line), text),
        Refusal::SizeOutOfRange => write_read(out, text, RANGE),
        Refusal::DomainNumberWrong => write_read(out, text, BOUND),
        Refusal::NoSize => write!(out, "{NO_SIZE}"),
        Refusal::LowerNotBelowUpper => write!(out, "{ORDER}"),
        Refusal::DomainTooWide => write!(out, "{WIDTH}"),
        Refusal::DomainsDiffer => write!(out, "{AGREEMENT}"),
        Refusal::TooManyRows | Refusal::TooFewRows => write_counts(out, file),
        Refusal::NotThreeNumbers => write_row(out, text),
        Refusal::SampleBeyond => write_instead(out, text, SAMPLE),
        Refusal::SampleTooFine => write_read(out, text, FINE),
        Refusal::HalfADomain => write!(out, "{BOTH}"),
        Refusal::TooLittleRoom
        | Refusal::DepthUnknown
        | Refusal::PictureNotPixels
        | Refusal::OutputTooShort
        | Refusal::CodeTooGreat
        | Refusal::CouldNotBeRead
        | Refusal::RowsOrWeightsWrong
        | Refusal::TitleNotPlain
        | Refusal::NoneWithinTolerance
        | Refusal::InputTooLong => Ok(()),
    }
}

// What a refused file's reader has to know: which bytes are meant, and what would pass.
pub fn write_cure(out: &mut Output, file: &[u8], reason: Refusal, line: usize) -> io::Result<()> {
    let on = line_spot(file, line);
    let first = on.place;
    let last = first + on.length;
    let spot = point_at(file, reason.number(), line);
    let start = spot.place;
    let end = start + spot.length;
    let pointed = Pointed {
        line: &file[first..last],
        text: &file[start..end],
        column: column_of(first, start),
    };
    write_about(out, file, pointed, reason)
}
