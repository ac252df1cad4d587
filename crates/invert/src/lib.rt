// The technicians' question at the desk: which raw code a lamp has to be set to, so that a table corrects it to a wanted code.
#![tactic(auto)]

mod answers;
mod question;
mod show;
mod words;

ghost use Rattle.desk.specs.Outcomes.{EndsAs};
ghost use Rattle.invert.specs.Saying.{said_of, end_of};

use answers::find;
use desk::{Host, Outcome, load_argument};
use question::{Question, read_arguments};
use rules::Description;
use show::show_said;
pub use words::help;

// A question, answered by a table that was loaded.
fn answer(host: &mut Host, d: Description, table: &[i64], question: Question) -> Outcome
    ensures { EndsAs (end_of (said_of d table.now question)) result }
{
    show_said(host, question, find(d, table, question))
}

// By the table that the argument after the verb names.
fn answer_by(host: &mut Host, file: &mut [u8], table: &mut [i64], question: Question) -> Outcome {
    match load_argument(host, 2, file, &mut *table) {
        Ok(loaded) => answer(host, loaded.description, table, question),
        Err(why) => Outcome::from(why),
    }
}

// Whether the arguments ask a question, for which a table is then loaded.
pub fn is_understood(host: &Host) -> bool {
    read_arguments(host).is_some()
}

// The question that the arguments ask, answered with lent space for the file and the table.
pub fn invert(host: &mut Host, file: &mut [u8], table: &mut [i64]) -> Outcome {
    host.program = "erythmoda invert";
    let Some(question) = read_arguments(host) else {
        let _ = help(&mut host.err);
        return Outcome::Failed;
    };
    answer_by(host, file, table, question)
}
