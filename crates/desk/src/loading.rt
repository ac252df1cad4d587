// A table loaded from a file by its name: opened, read whole, judged. Each failure prints one line on standard error.
ghost use Rattle.std.specs.Prelude.{◌≤◌, length, IfOk, IfSome};
ghost use Rattle.desk.specs.Loads.{Fetches, Loads, LoadsAll, LoadsOf};

use crate::failures::say_error_of;
use crate::host::{Host, Input};
use crate::names::name_at;
use crate::refusals::write_refused;
use reading::read;
use rules::{Description, Refused};
use std::io::{Read, Result as Written, Write};

// The description of a table that was loaded, and how many bytes its file has.
#[derive(Clone, Copy)]
pub struct Table {
    pub description: Description,
    pub bytes: usize,
}

// Why there is no table, once that was said on standard error: its file is refused, or none could be read.
#[derive(Clone, Copy, Debug, PartialEq, Eq)]
pub enum NoTable {
    Refused,
    Unread,
}

// Why there is nothing of a file, once that was said on standard error: it is longer than the space, or the system could not open or read it.
#[derive(Clone, Copy, Debug, PartialEq, Eq)]
pub enum Unfetched {
    TooLong,
    Failed,
}

// How many bytes an input has, all of which are in the space now; or none, where it has more than fit.
fn fetch(from: &mut Input, file: &mut [u8]) -> Written<Option<usize>>
    ensures { IfOk result (λ found. IfSome found (λ n. n ≤ length file.new)) }
{
    let n = from.fill(&mut *file)?;
    if n < file.len() {
        return Ok(Some(n));
    }
    let mut one = [0u8; 1];
    let past = from.read(&mut one)?;
    if past > 0 {
        return Ok(None);
    }
    Ok(Some(n))
}

fn write_too_long(host: &mut Host, path: &[u8], most: usize) -> Written<()> {
    let program = host.program;
    write!(host.err, "{program}: ")?;
    host.err.write_all(path)?;
    writeln!(host.err, ": longer than {most} bytes")
}

// The same, and where there is nothing to judge it is said.
fn fetch_or_say(
    host: &mut Host,
    path: &[u8],
    from: &mut Input,
    file: &mut [u8],
) -> Result<usize, Unfetched>
    ensures { Fetches file.new result }
{
    match fetch(from, &mut *file) {
        Ok(Some(n)) => Ok(n),
        Ok(None) => {
            let _ = write_too_long(host, path, file.len());
            Err(Unfetched::TooLong)
        }
        Err(error) => {
            say_error_of(host, "cannot read", path, error);
            Err(Unfetched::Failed)
        }
    }
}

// How many bytes the file with this name has, and where there are none to judge it is said. The file is closed on every way out.
pub fn fetch_file(host: &mut Host, path: &[u8], file: &mut [u8]) -> Result<usize, Unfetched>
    ensures { Fetches file.new result }
{
    match host.open(path) {
        Ok(mut from) => fetch_or_say(host, path, &mut from, file),
        Err(error) => {
            say_error_of(host, "cannot open", path, error);
            Err(Unfetched::Failed)
        }
    }
}

// As `explain: a.cube: refused 5 on line 3: keyword repeated: "TITLE" is there a second time`.
fn write_refused_file(host: &mut Host, path: &[u8], file: &[u8], refused: Refused) -> Written<()> {
    let program = host.program;
    write!(host.err, "{program}: ")?;
    host.err.write_all(path)?;
    write!(host.err, ": ")?;
    write_refused(&mut host.err, file, refused)?;
    writeln!(host.err)
}

// The table of a file that was read whole.
fn load_bytes(
    host: &mut Host,
    path: &[u8],
    file: &[u8],
    table: &mut [i64],
) -> Result<Table, NoTable>
    ensures { LoadsAll file.now table.old result table.new }
{
    match read(file, table) {
        Ok(description) => Ok(Table {
            description,
            bytes: file.len(),
        }),
        Err(refused) => {
            let _ = write_refused_file(host, path, file, refused);
            Err(NoTable::Refused)
        }
    }
}

// The table of what was fetched.
fn load_fetched(
    host: &mut Host,
    path: &[u8],
    fetched: Result<usize, Unfetched>,
    file: &[u8],
    table: &mut [i64],
) -> Result<Table, NoTable>
    requires { Fetches file.now fetched }
    ensures { LoadsOf fetched file.now table.old result table.new }
{
    match fetched {
        Ok(bytes) => load_bytes(host, path, &file[..bytes], table),
        Err(_) => Err(NoTable::Unread),
    }
}

fn load(host: &mut Host, path: &[u8], file: &mut [u8], table: &mut [i64]) -> Result<Table, NoTable>
    ensures { Loads file.new table.old result table.new }
{
    let fetched = fetch_file(host, path, &mut *file);
    load_fetched(host, path, fetched, file, table)
}

// The table that an argument names.
#[tactic(auto, using(crate::proofs::WhatIsLoaded::unread))]
pub fn load_argument(
    host: &mut Host,
    place: usize,
    file: &mut [u8],
    table: &mut [i64],
) -> Result<Table, NoTable>
    ensures { Loads file.new table.old result table.new }
{
    let mut path = io::buffer();
    let Some(n) = name_at(host, "the table", place, &mut path) else {
        return Err(NoTable::Unread);
    };
    load(host, &path[..n], file, table)
}
