// The command `erythmoda`: what its first argument asks for, done in memory that is lent to it, and the status that it ends with.
#![tactic(auto)]

mod room;
mod verbs;
mod words;

ghost use Rattle.command.specs.Statuses.{Ends};

use checking::check_files;
use correct::correct;
use desk::{Host, Outcome, argument, argument_count, report_input, say_error};
use explain::answer;
use invert::invert;
use rewrite::rewrite;
use room::{lend, room_for};
use std::io::Error;
use verbs::{Verb, asks_help, verb_of};

// What Linux calls it where there is no memory (ENOMEM).
const NO_MEMORY: i32 = 12;

// What the first argument asks for; none, or one that is longer than a path, asks for nothing known.
pub(crate) fn verb_named(host: &Host) -> Verb {
    let mut word = io::buffer();
    let n = argument(host, 1, &mut word);
    verb_of(&word[..n])
}

// Whether the argument after the verb asks for help.
pub(crate) fn help_wanted(host: &Host) -> bool {
    let mut word = io::buffer();
    let n = argument(host, 2, &mut word);
    asks_help(&word[..n])
}

// The verb's own help, or of no verb the command's, on standard output.
fn show_help(host: &mut Host, verb: Verb) -> Outcome {
    let written = match verb {
        Verb::Report => words::report_help(&mut host.out),
        Verb::Explain => explain::help(&mut host.out),
        Verb::Correct => correct::help(&mut host.out),
        Verb::Rewrite => rewrite::help(&mut host.out),
        Verb::Invert => invert::help(&mut host.out),
        Verb::Check => checking::help(&mut host.out),
        Verb::Help | Verb::Version | Verb::Unknown => words::help(&mut host.out),
    };
    Outcome::Done.when_written(host, written)
}

fn show_version(host: &mut Host) -> Outcome {
    let written = words::version(&mut host.out);
    Outcome::Done.when_written(host, written)
}

// A call that is not understood.
fn refuse_call(host: &mut Host) -> Outcome {
    let _ = words::help(&mut host.err);
    Outcome::Failed
}

// It takes no argument.
fn report(host: &mut Host) -> Outcome {
    host.program = "erythmoda report";
    if argument_count(host) != 2 {
        let _ = words::report_help(&mut host.err);
        return Outcome::Failed;
    }
    report_input(host)
}

// The verb's work.
// Stays: the lent memory lies apart, as `erythmoda_command` takes it, and a struct of it would be taken apart again in each arm, which lends another part.
// Stays: `match` and no closure for each verb, as `|host| answer(host, file, table)`: each would borrow the same memory, and one alone is run.
fn obey(
    host: &mut Host,
    verb: Verb,
    file: &mut [u8],
    table: &mut [i64],
    bytes: &mut [u8],
    raw: &mut [u16],
    corrected: &mut [u16],
    text: &mut [u8],
) -> Outcome {
    match verb {
        Verb::Report => report(host),
        Verb::Explain => answer(host, file, table),
        Verb::Correct => correct(host, file, table, bytes, raw, corrected),
        Verb::Rewrite => rewrite(host, file, table, text),
        Verb::Invert => invert(host, file, table),
        Verb::Check => check_files(host, file),
        Verb::Help => show_help(host, verb),
        Verb::Version => show_version(host),
        Verb::Unknown => refuse_call(host),
    }
}

// Lent: space for a .cube file, its table, a piece of a picture as bytes, raw and corrected codes, and a file's new text. The answer is the status.
pub fn erythmoda_command(
    host: &mut Host,
    file: &mut [u8],
    table: &mut [i64],
    bytes: &mut [u8],
    raw: &mut [u16],
    corrected: &mut [u16],
    text: &mut [u8],
) -> u32
    ensures { Ends result }
{
    host.program = "erythmoda";
    let verb = verb_named(host);
    if help_wanted(host) {
        return show_help(host, verb).status();
    }
    obey(host, verb, file, table, bytes, raw, corrected, text).status()
}

// The same, in memory of its own, as much as what the arguments name takes.
pub fn run(host: &mut Host) -> u32
    ensures { Ends result }
{
    let room = room_for(host);
    match lend(host, room) {
        Ok(mut lent) => erythmoda_command(
            host,
            &mut lent.file,
            &mut lent.table,
            &mut lent.bytes,
            &mut lent.raw,
            &mut lent.corrected,
            &mut lent.text,
        ),
        Err(_) => {
            let failure = Error::from_raw_os_error(NO_MEMORY);
            say_error(host, "no memory", failure);
            Outcome::Failed.status()
        }
    }
}
