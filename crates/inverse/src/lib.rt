// Which raw code gives a wanted corrected code, in one colour of a 1D table (document 02, Req 04): all is judged once and one plan is made, then one loop
// tries raw codes from 0 upward, each corrected by that colour alone.
#![tactic(auto)]

ghost use Rattle.std.specs.Prelude.{◌≡◌, ◌<◌};
ghost use Rattle.rules.specs.Inverting.{apart, off, try_next, search, if_within};
ghost use Rattle.rules.specs.Promises.{Inverts};
ghost use Rattle.colour.specs.Lines.{Lined};
ghost use Rattle.inverse.specs.Finding.{corrected_by, search_of, found_by, OffSo};

use colour::{Line, line_code, line_of, plan_of};
use judge::could_be_read;
use rules::{Aim, Bits, Depths, Description, Inverted, Kind, NotInverted, Refusal};

// What a search has come to.
#[derive(Clone, Copy)]
pub struct Found {
    // The nearest of the codes tried, the lowest if several.
    pub nearest: u16,
    // How far off it is.
    pub off: u16,
    // How many codes were tried, and so the one that comes next.
    pub tries: u64,
}

// ---- one code

// How far two codes lie apart.
pub fn apart(a: u16, b: u16) -> u16
    ensures { result ≡ apart a b }
{
    a.abs_diff(b)
}

// How far a raw code's corrected code is from the wanted one.
// Stays: a line and its table come to three private functions; a struct of both, with `Lined` as its invariant, would be made once and be taken apart here, as in
// `line_code(lined.line, lined.table, code)`.
fn off_by(line: Line, table: &[i64], wanted: u16, code: u16) -> u16
    requires { Lined line table.now }
    ensures { (l : Lined line table.now) → result ≡ off (corrected_by l) wanted code }
{
    apart(line_code(line, table, code), wanted)
}

// The next code, which is the nearest if it is nearer than the one before.
fn try_next(line: Line, table: &[i64], wanted: u16, found: Found) -> Found
    requires lined { Lined line table.now }
    requires tries_bound { found.tries < 65536 }
    ensures { (l : Lined line table.now) → OffSo (corrected_by l) wanted found → result ≡ found_by (corrected_by l) wanted (try_next (corrected_by l) wanted (search_of found)) }
{
    let code = found.tries as u16;
    let next = found.tries + 1;
    let off = off_by(line, table, wanted, code);
    if off < found.off {
        return Found {
            nearest: code,
            off,
            tries: next,
        };
    }
    Found {
        tries: next,
        ..found
    }
}

// ---- all codes up to the raw M, or up to the first exact hit

fn search(line: Line, table: &[i64], wanted: u16, m: u16) -> Found
    requires { Lined line table.now }
    ensures { (l : Lined line table.now) → result ≡ found_by (corrected_by l) wanted (search (corrected_by l) wanted m) }
{
    let last = m as u64;
    let mut found = Found {
        nearest: 0,
        off: off_by(line, table, wanted, 0),
        tries: 1,
    };
    // Stays: how many codes were tried is a part of the answer, so it is counted there; `for code in 1..=m` would count it once more beside `found.tries`.
    while found.tries <= last {
        if found.off == 0 {
            return found;
        }
        found = try_next(line, table, wanted, found);
    }
    found
}

// A search by its nearest code: within the tolerance, or 28 with the count.
fn answer(found: Found, tolerance: u32) -> Result<Inverted, NotInverted>
    ensures { result ≡ if_within found.off tolerance (search_of found) }
{
    let count = found.tries;
    if tolerance < found.off as u32 {
        return Err(NotInverted {
            reason: Refusal::NoneWithinTolerance,
            count,
        });
    }
    Ok(Inverted {
        code: found.nearest,
        count,
    })
}

// A refusal before any code was tried.
fn untried(reason: Refusal) -> NotInverted
    ensures { result ≡ record { reason = reason; count = 0 } }
{
    NotInverted { reason, count: 0 }
}

// The checks run 24, which a 3D table is too, 20 for the raw depth and then for the corrected one, 23 for the wanted code, 28.
pub fn inverse(d: Description, table: &[i64], bits: Bits, aim: Aim) -> Result<Inverted, NotInverted>
    ensures { Inverts d table.now bits aim result }
{
    let Kind::OneD = d.kind else {
        return Err(untried(Refusal::CouldNotBeRead));
    };
    if !could_be_read(d, table) {
        return Err(untried(Refusal::CouldNotBeRead));
    }
    let depths = Depths::of(bits).ok_or(untried(Refusal::DepthUnknown))?;
    if depths.corrected.greatest() < aim.wanted {
        return Err(untried(Refusal::CodeTooGreat));
    }
    let line = line_of(plan_of(d, depths), aim.colour);
    answer(
        search(line, table, aim.wanted, depths.raw.greatest()),
        aim.tolerance,
    )
}
