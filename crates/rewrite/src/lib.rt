// A .cube table read and written anew in its plainest form: from a file to standard output, in lent memory.
#![tactic(auto)]

mod titles;
mod words;

ghost use Rattle.rules.specs.Writing.{title_bytes};
ghost use Rattle.rewrite.specs.Anew.{Rewrites, TitleWithin, Printable};

use desk::{Host, Outcome, load_argument, refuse, word_at};
use rules::{Description, Refusal};
use std::io::Write as _;
use titles::{Wanted, marked, title_wanted};
pub use words::help;
use writing::write;

// The text on standard output; or why there is none, on standard error.
fn print(host: &mut Host, answer: Result<usize, Refusal>, text: &[u8]) -> Outcome
    requires { Printable answer text.now }
{
    match answer {
        Ok(length) => {
            let written = host.out.write_all(&text[..length]);
            Outcome::Done.when_written(host, written)
        }
        Err(reason) => refuse(host, reason),
    }
}

// A table with this title, where the description marks one.
fn write_anew(
    host: &mut Host,
    d: Description,
    table: &[i64],
    title: &[u8],
    text: &mut [u8],
) -> Outcome
    ensures { Rewrites d table.now title.now text.old text.new }
{
    let answer = write(d, table, title, &mut *text);
    print(host, answer, text)
}

// With the title that its file has.
fn keep_title(
    host: &mut Host,
    d: Description,
    file: &[u8],
    table: &[i64],
    text: &mut [u8],
) -> Outcome
    requires { TitleWithin d file.now }
    ensures { Rewrites d table.now (title_bytes file.now d.title) text.old text.new }
{
    let title = d.title;
    let first = title.place;
    let end = first + title.length;
    write_anew(host, d, table, &file[first..end], text)
}

// With the title that the last argument is; one too long for an argument's space is too long for a title.
fn new_title(host: &mut Host, d: Description, table: &[i64], text: &mut [u8]) -> Outcome {
    let mut title = io::buffer();
    let Some(n) = word_at(host, 4, &mut title) else {
        return refuse(host, Refusal::TitleNotPlain);
    };
    write_anew(host, marked(d, true), table, &title[..n], text)
}

// With the title that is wanted.
fn retitle(
    host: &mut Host,
    d: Description,
    file: &[u8],
    table: &[i64],
    wanted: Wanted,
    text: &mut [u8],
) -> Outcome
    requires { TitleWithin d file.now }
{
    match wanted {
        Wanted::Kept => keep_title(host, d, file, table, text),
        Wanted::New => new_title(host, d, table, text),
        Wanted::Nothing => write_anew(host, marked(d, false), table, b"", text),
    }
}

// The table that the argument after the verb names.
fn rewrite_by(
    host: &mut Host,
    file: &mut [u8],
    table: &mut [i64],
    wanted: Wanted,
    text: &mut [u8],
) -> Outcome {
    match load_argument(host, 2, &mut *file, &mut *table) {
        Ok(loaded) => retitle(
            host,
            loaded.description,
            &file[..loaded.bytes],
            table,
            wanted,
            text,
        ),
        Err(why) => Outcome::from(why),
    }
}

// Whether the arguments ask for a table to be written anew, which is then loaded.
pub fn is_understood(host: &Host) -> bool {
    title_wanted(host).is_some()
}

// What the arguments ask for, in lent space for the file, the table and the text.
pub fn rewrite(host: &mut Host, file: &mut [u8], table: &mut [i64], text: &mut [u8]) -> Outcome {
    host.program = "erythmoda rewrite";
    let Some(wanted) = title_wanted(host) else {
        let _ = help(&mut host.err);
        return Outcome::Failed;
    };
    rewrite_by(host, file, table, wanted, text)
}
