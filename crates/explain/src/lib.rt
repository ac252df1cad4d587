// The auditor's question at the desk: which rows of a table made a pixel's corrected codes, and can a code lie outside those of its rows; and the record
// keeper's, who keeps rows and weights as a line of numbers and asks for the codes later.
#![tactic(auto)]

mod answers;
mod kept;
mod lines;
mod question;
mod rows;
mod show;
mod words;

use answers::explain;
use desk::{Host, Outcome, load_argument};
use question::{Question, read_arguments};
pub use words::help;

// A question, answered by the table that the argument after the verb names.
fn answer_by(host: &mut Host, file: &mut [u8], table: &mut [i64], question: Question) -> Outcome {
    match load_argument(host, 2, &mut *file, &mut *table) {
        Ok(loaded) => explain(
            host,
            loaded.description,
            &file[..loaded.bytes],
            table,
            question,
        ),
        Err(why) => Outcome::from(why),
    }
}

// Whether the arguments ask a question, for which a table is then loaded.
pub fn is_understood(host: &Host) -> bool {
    read_arguments(host).is_some()
}

// The question that the arguments ask, answered with lent space for the file and the table.
pub fn answer(host: &mut Host, file: &mut [u8], table: &mut [i64]) -> Outcome {
    host.program = "erythmoda explain";
    let Some(question) = read_arguments(host) else {
        let _ = help(&mut host.err);
        return Outcome::Failed;
    };
    answer_by(host, file, table, question)
}
