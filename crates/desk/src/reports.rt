// Document 01's report, from standard input to standard output.
ghost use Rattle.std.specs.Prelude.{◌≡◌};
ghost use Rattle.rules.specs.Reporting.{report};
ghost use Rattle.desk.specs.Outcomes.{outcome_of, EndsAs};

use crate::failures::say_error;
use crate::host::{Host, Input};
use crate::outcomes::Outcome;
use reporting::{answer_to, put_answer};
use rules::{Description, Refused};
use std::io::Write;

// Accepted is done.
pub fn outcome_of(answer: Result<Description, Refused>) -> Outcome
    ensures { result ≡ outcome_of answer }
{
    match answer {
        Ok(_) => Outcome::Done,
        Err(Refused { reason: _, line: _ }) => Outcome::Refused,
    }
}

// The report on an input that was read whole, or as far as one byte past the longest.
fn report_on(host: &mut Host, input: &[u8]) -> Outcome
    ensures { EndsAs (outcome_of (report input.now)) result }
{
    let answer = answer_to(input);
    let mut text = [0u8; 512];
    let count = put_answer(input, answer, &mut text);
    let written = host.out.write_all(&text[..count]);
    outcome_of(answer).when_written(host, written)
}

// The buffer has one byte more than the longest input, to tell that from a longer one. Input that cannot be read gets no verdict.
pub fn report_input(host: &mut Host) -> Outcome {
    let mut input = [0u8; 65537];
    let mut from = Input::standard(host);
    match from.fill(&mut input) {
        Ok(n) => report_on(host, &input[..n]),
        Err(error) => {
            say_error(host, "cannot read standard input", error);
            Outcome::Failed
        }
    }
}
