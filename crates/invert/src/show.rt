// What is shown of an answer: a raw code and how it was found, on standard output; or a refusal, on standard error.
ghost use Rattle.std.specs.Prelude.{◌≡◌};
ghost use Rattle.desk.specs.Outcomes.{EndsAs};
ghost use Rattle.desk.specs.declared.outcomes.Outcome.TheVariants.{Refused};
ghost use Rattle.invert.specs.Saying.{end_of};

use crate::answers::Found;
use crate::question::Question;
use desk::{Host, Outcome, Output};
use rules::{Colour, NotInverted, Refusal};
use std::io::Write;
use std::{fmt, io};

// As `4096 codes tried`.
#[derive(Clone, Copy)]
struct Tried(u64);

impl fmt::Display for Tried {
    fn fmt<W: fmt::Write>(&self, f: &mut fmt::Formatter<W>) -> fmt::Result {
        let count = self.0;
        if count == 1 {
            return write!(f, "{count} code tried");
        }
        write!(f, "{count} codes tried")
    }
}

fn show_hit(out: &mut Output, c: Colour, wanted: u32, code: u16, count: u64) -> io::Result<()> {
    let tried = Tried(count);
    writeln!(
        out,
        "{c}: raw code {code} is corrected to {wanted}, the wanted code"
    )?;
    writeln!(out, "{tried}, up to the exact hit")
}

fn show_near(
    out: &mut Output,
    c: Colour,
    wanted: u32,
    code: u16,
    corrected: u16,
    off: u16,
    count: u64,
) -> io::Result<()> {
    let tried = Tried(count);
    writeln!(
        out,
        "{c}: raw code {code} is corrected to {corrected}, {off} off the wanted code {wanted}"
    )?;
    writeln!(out, "{tried}: the whole range was searched")
}

// A table that was read can be 24 for its kind alone, and 28 has tried codes.
fn say_more(host: &mut Host, reason: Refusal, count: u64) {
    let program = host.program;
    let _ = match reason {
        Refusal::CouldNotBeRead => writeln!(
            host.err,
            "{program}: the table is 3D, and the inverse is of a 1D table"
        ),
        Refusal::NoneWithinTolerance => {
            let tried = Tried(count);
            writeln!(host.err, "{program}: {tried}: the whole range was searched")
        }
        _ => Ok(()),
    };
}

// The refusal as always, and a line more where there is more to say.
fn refuse(host: &mut Host, reason: Refusal, count: u64) -> Outcome
    ensures { result ≡ Refused }
{
    let outcome = desk::refuse(host, reason);
    say_more(host, reason, count);
    outcome
}

pub fn show_said(host: &mut Host, question: Question, said: Result<Found, NotInverted>) -> Outcome
    ensures { EndsAs (end_of said) result }
{
    let c = question.colour;
    let wanted = question.wanted;
    match said {
        Ok(Found::Hit { code, count }) => {
            let shown = show_hit(&mut host.out, c, wanted, code, count);
            Outcome::Done.when_written(host, shown)
        }
        Ok(
            Found::Near {
                code,
                corrected,
                off,
                count,
            },
        ) => {
            let shown = show_near(&mut host.out, c, wanted, code, corrected, off, count);
            Outcome::Done.when_written(host, shown)
        }
        Err(NotInverted { reason, count }) => refuse(host, reason, count),
    }
}
