// What is to be said of a question: the raw code that was found, what it is corrected to and how many codes were tried; or why there is none.
ghost use Rattle.std.specs.Prelude.{◌≡◌, ℕ, ◌<◌, Err};
ghost use Rattle.rules.specs.Units.{code_in};
ghost use Rattle.rules.specs.Inverting.{inverse};
ghost use Rattle.rules.specs.declared.Aim.{Aim};
ghost use Rattle.invert.specs.Saying.{corrected_to, found_by, said_by, said_of};

use crate::question::Question;
use given::MOST;
use halves::look;
use inverse::{apart, inverse};
use judge::could_be_read;
use rules::{
    Aim, Bits, Codes, Colour, Depths, Description, Inverted, Kind, Looked, NotInverted, Refusal,
};

// A raw code, and how it was found.
#[derive(Clone, Copy, Debug, PartialEq, Eq)]
pub enum Found {
    // One that is corrected to the wanted code.
    Hit {
        code: u16,
        count: u64,
    },
    // The nearest, what it is corrected to, and how far off that is.
    Near {
        code: u16,
        corrected: u16,
        off: u16,
        count: u64,
    },
}

// ---- a raw code that was found

// Stays: a function for the three fields of any struct, `by_colour(c, codes.red, codes.green, codes.blue)`, would write them at each call all the same.
fn code_in(codes: Codes, c: Colour) -> u16
    ensures { result ≡ code_in codes c }
{
    match c {
        Colour::Red => codes.red,
        Colour::Green => codes.green,
        Colour::Blue => codes.blue,
    }
}

// What a raw code is corrected to in one colour, seen by a look at the pixel that has it in all three.
fn corrected_to(d: Description, table: &[i64], bits: Bits, c: Colour, code: u16) -> u16
    ensures { result ≡ corrected_to d table.now bits c code }
{
    let grey = Codes {
        red: code,
        green: code,
        blue: code,
    };
    match look(d, table, bits, grey) {
        Ok(Looked { codes, shares: _ }) => code_in(codes, c),
        Err(_) => 0,
    }
}

fn found_by(corrected: u16, wanted: u16, code: u16, count: u64) -> Found
    ensures { result ≡ found_by corrected wanted code count }
{
    let off = apart(corrected, wanted);
    if off == 0 {
        return Found::Hit { code, count };
    }
    Found::Near {
        code,
        corrected,
        off,
        count,
    }
}

// ---- by what is wanted

// A refusal before any code was tried.
fn untried(reason: Refusal) -> NotInverted
    ensures { result ≡ record { reason = reason; count = 0 } }
{
    NotInverted { reason, count: 0 }
}

// A code that no depth has: 24 and 20 come before 23.
fn beyond_said(d: Description, table: &[i64], bits: Bits) -> NotInverted
    ensures { (corrected : ℕ → ℕ) (aim : Aim) → 65_535 < aim.wanted → Err result ≡ said_by corrected aim.wanted (inverse d table.now bits aim) }
{
    let Kind::OneD = d.kind else {
        return untried(Refusal::CouldNotBeRead);
    };
    if !could_be_read(d, table) {
        return untried(Refusal::CouldNotBeRead);
    }
    match Depths::of(bits) {
        Some(_) => untried(Refusal::CodeTooGreat),
        None => untried(Refusal::DepthUnknown),
    }
}

// A code that 16 bits hold.
fn aimed_said(d: Description, table: &[i64], bits: Bits, aim: Aim) -> Result<Found, NotInverted>
    ensures { result ≡ said_by (corrected_to d table.now bits aim.colour) aim.wanted (inverse d table.now bits aim) }
{
    let Inverted { code, count } = inverse(d, table, bits, aim)?;
    let corrected = corrected_to(d, table, bits, aim.colour, code);
    Ok(found_by(corrected, aim.wanted, code, count))
}

pub fn find(d: Description, table: &[i64], question: Question) -> Result<Found, NotInverted>
    ensures { result ≡ said_of d table.now question }
{
    let bits = question.bits;
    let colour = question.colour;
    if question.wanted > MOST {
        return Err(beyond_said(d, table, bits));
    }
    let aim = Aim {
        colour,
        wanted: question.wanted as u16,
        tolerance: question.tolerance,
    };
    aimed_said(d, table, bits, aim)
}
