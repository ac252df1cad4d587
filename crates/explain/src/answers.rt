// The answer to each question, of a table that was loaded.
ghost use Rattle.std.specs.Prelude.{◌≡◌, cond, is_ok};
ghost use Rattle.rules.specs.Looking.{first_half, second_half, look};
ghost use Rattle.rules.specs.declared.Refusal.TheVariants.{RowsOrWeightsWrong};
ghost use Rattle.colour.specs.Plans.{Readable};
ghost use Rattle.desk.specs.Outcomes.{EndsAs};
ghost use Rattle.desk.specs.declared.outcomes.Outcome.TheVariants.{Done, Refused, Failed};
ghost use Rattle.explain.specs.Questions.{looked_as, kept_as, given_as, held_as, asked_as};

use crate::kept::show_line;
use crate::question::Question;
use crate::show::{show_look, show_pixel_look};
use desk::{Host, Outcome};
use halves::{first_half, judged_shares, look, second_half};
use rules::{Bits, Codes, Depths, Description, Looked, Misfit, Refusal, Shares};
use std::io;
use std::io::Write;

// Any question that is refused ends so, once the desk has said why.
fn refuse(host: &mut Host, reason: Refusal) -> Outcome
    ensures { result ≡ Refused }
{
    desk::refuse(host, reason)
}

// What is shown is done with, unless it could not be written.
fn done_if(host: &mut Host, written: io::Result<()>) -> Outcome
    ensures { result ≡ cond (is_ok written) Done Failed }
{
    Outcome::Done.when_written(host, written)
}

// A code that no depth has: 20 comes before 23.
fn refuse_beyond(host: &mut Host, bits: Bits) -> Outcome
    ensures { result ≡ Refused }
{
    match Depths::of(bits) {
        Some(_) => refuse(host, Refusal::CodeTooGreat),
        None => refuse(host, Refusal::DepthUnknown),
    }
}

// ---- what made a pixel's codes

// The look at a pixel of 16-bit codes, explained or refused.
fn explain_held(
    host: &mut Host,
    d: Description,
    file: &[u8],
    table: &[i64],
    bits: Bits,
    raw: Codes,
) -> Outcome
    ensures { EndsAs (looked_as (look d table.now bits raw)) result }
{
    let Some(depths) = Depths::of(bits) else {
        return refuse(host, Refusal::DepthUnknown);
    };
    match look(d, table, bits, raw) {
        Err(reason) => refuse(host, reason),
        Ok(Looked { codes, shares }) => {
            let out = &mut host.out;
            let written = show_pixel_look(
                out, raw, bits.raw, d, file, table, depths, codes, shares,
            );
            done_if(host, written)
        }
    }
}

fn explain_pixel(
    host: &mut Host,
    d: Description,
    file: &[u8],
    table: &[i64],
    bits: Bits,
    pixel: Option<Codes>,
) -> Outcome
    ensures { EndsAs (held_as (λ raw. looked_as (look d table.now bits raw)) pixel) result }
{
    match pixel {
        Some(raw) => explain_held(host, d, file, table, bits, raw),
        None => refuse_beyond(host, bits),
    }
}

// ---- a pixel's line

// The first half of the look, printed or refused.
fn keep_held(host: &mut Host, d: Description, table: &[i64], raw: u32, codes: Codes) -> Outcome
    ensures { EndsAs (kept_as (first_half d table.now raw codes)) result }
{
    match first_half(d, table, raw, codes) {
        Err(reason) => refuse(host, reason),
        Ok(shares) => {
            let written = show_line(&mut host.out, raw, shares);
            done_if(host, written)
        }
    }
}

fn keep_pixel(
    host: &mut Host,
    d: Description,
    table: &[i64],
    raw: u32,
    pixel: Option<Codes>,
) -> Outcome
    ensures { EndsAs (held_as (λ codes. kept_as (first_half d table.now raw codes)) pixel) result }
{
    match pixel {
        Some(codes) => keep_held(host, d, table, raw, codes),
        None => {
            let corrected = raw;
            refuse_beyond(host, Bits { raw, corrected })
        }
    }
}

// ---- the codes of a line

fn say_more(host: &mut Host, words: &str) {
    let program = host.program;
    let _ = writeln!(host.err, "{program}: {words}");
}

// Which of the conditions of 26 was found first.
fn say_found(host: &mut Host, found: Result<(), Misfit>) {
    match found {
        Ok(()) => {}
        Err(Misfit::RowBeyond) => say_more(
            host,
            "a row number is not below the table's count of rows",
        ),
        Err(Misfit::NegativeWeight) => say_more(host, "a weight is negative"),
        Err(Misfit::WrongSum) => say_more(host, "weights do not add up to their denominator"),
    }
}

// 26 with a line more; another refusal as always.
fn refuse_line(
    host: &mut Host,
    d: Description,
    depths: Depths,
    shares: Shares,
    reason: Refusal,
) -> Outcome
    requires { reason ≡ RowsOrWeightsWrong → Readable d }
    ensures { result ≡ Refused }
{
    let refused = refuse(host, reason);
    let Refusal::RowsOrWeightsWrong = reason else {
        return refused;
    };
    let raw = depths.raw;
    say_found(host, judged_shares(d, raw.greatest(), shares));
    refused
}

// The second half of a look, explained or refused.
fn explain_line(
    host: &mut Host,
    d: Description,
    file: &[u8],
    table: &[i64],
    bits: Bits,
    shares: Shares,
) -> Outcome
    ensures { EndsAs (given_as (second_half d table.now bits shares)) result }
{
    let Some(depths) = Depths::of(bits) else {
        return refuse(host, Refusal::DepthUnknown);
    };
    match second_half(d, table, bits, shares) {
        Err(reason) => refuse_line(host, d, depths, shares, reason),
        Ok(codes) => {
            let written = show_look(&mut host.out, d, file, table, depths, codes, shares);
            done_if(host, written)
        }
    }
}

// ---- any of them. The table was loaded, so that the answer is never 24: then come 20, and 23 or 26

pub fn explain(
    host: &mut Host,
    d: Description,
    file: &[u8],
    table: &[i64],
    question: Question,
) -> Outcome
    ensures { EndsAs (asked_as d table.now question) result }
{
    match question {
        Question::Pixel { bits, pixel } => explain_pixel(host, d, file, table, bits, pixel),
        Question::LineOf { raw, pixel } => keep_pixel(host, d, table, raw, pixel),
        Question::Line { bits, shares } => explain_line(host, d, file, table, bits, shares),
    }
}
