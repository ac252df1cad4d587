// Files judged one after another, with no table: a line for each, on standard output.
#![tactic(auto)]

mod words;

ghost use Rattle.rules.specs.Reading.{check};
ghost use Rattle.rules.specs.Promises.{Checks};
ghost use Rattle.reporting.specs.Telling.{Tellable};
ghost use Rattle.desk.specs.Loads.{Fetches};
ghost use Rattle.desk.specs.Outcomes.{outcome_of, EndsAs};
ghost use Rattle.checking.specs.Verdicts.{EndsBy};

use desk::{
    Host, Outcome, Output, Unfetched, argument_count, fetch_file, name_at, outcome_of,
    write_domains, write_refused, write_size, write_title,
};
use reading::check;
use rules::{Description, Refused};
use std::io::{Result as Written, Write};
pub use words::help;

// As `accepted: 3D, N = 2, 8 rows, domain 0 to 1, title "smoke"`.
fn write_accepted(out: &mut Output, file: &[u8], d: Description) -> Written<()>
    requires { Tellable file.now d }
{
    write!(out, "accepted: ")?;
    write_size(out, d.kind, d.n)?;
    write!(out, ", ")?;
    write_domains(out, d)?;
    write!(out, ", ")?;
    write_title(out, file, d.title)
}

fn write_answer(out: &mut Output, file: &[u8], answer: Result<Description, Refused>) -> Written<()>
    requires { Checks file.now answer }
{
    match answer {
        Ok(d) => write_accepted(out, file, d),
        Err(refused) => write_refused(out, file, refused),
    }
}

// The line of a file: its name and what checking it answers.
fn write_line(
    out: &mut Output,
    path: &[u8],
    file: &[u8],
    answer: Result<Description, Refused>,
) -> Written<()>
    requires { Checks file.now answer }
{
    out.write_all(path)?;
    write!(out, ": ")?;
    write_answer(out, file, answer)?;
    writeln!(out)
}

// Of a file that was read whole.
fn check_bytes(host: &mut Host, path: &[u8], file: &[u8]) -> Outcome
    ensures { EndsAs (outcome_of (check file.now)) result }
{
    let answer = check(file);
    let written = write_line(&mut host.out, path, file, answer);
    outcome_of(answer).when_written(host, written)
}

// Of what was fetched; that there was nothing has been said.
fn check_fetched(
    host: &mut Host,
    path: &[u8],
    file: &[u8],
    fetched: Result<usize, Unfetched>,
) -> Outcome
    requires { Fetches file.now fetched }
    ensures { EndsBy file.now fetched result }
{
    match fetched {
        Ok(n) => check_bytes(host, path, &file[..n]),
        Err(Unfetched::TooLong) => Outcome::Failed,
        Err(Unfetched::Failed) => Outcome::Failed,
    }
}

// The file with this name.
fn check_named(host: &mut Host, path: &[u8], file: &mut [u8]) -> Outcome {
    let fetched = fetch_file(host, path, &mut *file);
    check_fetched(host, path, file, fetched)
}

// The file that an argument names.
fn check_argument(host: &mut Host, place: usize, file: &mut [u8]) -> Outcome {
    let mut path = io::buffer();
    match name_at(host, "a table", place, &mut path) {
        Some(n) => check_named(host, &path[..n], file),
        None => Outcome::Failed,
    }
}

// All that the arguments name, in lent space for a file; the worst end counts.
pub fn check_files(host: &mut Host, file: &mut [u8]) -> Outcome {
    host.program = "erythmoda check";
    let count = argument_count(host);
    if count < 3 {
        let _ = help(&mut host.err);
        return Outcome::Failed;
    }
    let mut worst = Outcome::Done;
    for place in 2..count {
        worst = worst.worse(check_argument(host, place, file));
    }
    worst
}
