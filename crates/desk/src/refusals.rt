// A refusal in words: its number, and what the papers say that the number means.
ghost use Rattle.std.specs.Prelude.{◌≡◌};

use crate::cures::write_cure;
use crate::host::{Host, Output};
use crate::outcomes::Outcome;
use rules::{Refusal, Refused};
use std::io;
use std::io::Write;

// As `refused 16 on line 9: sample beyond -1000 to 1000: "1001" ...`, with what to do about it.
pub fn write_refused(out: &mut Output, file: &[u8], refused: Refused) -> io::Result<()> {
    let Refused { reason, line } = refused;
    write!(out, "refused {} on line {line}: {reason}", reason.number())?;
    write_cure(out, file, reason, line)
}

// One line on standard error, as `erythmoda explain: refused 20: depth unknown`; and that it is the end.
pub fn refuse(host: &mut Host, reason: Refusal) -> Outcome
    ensures { result ≡ Outcome.Refused }
{
    let program = host.program;
    let number = reason.number();
    let _ = writeln!(host.err, "{program}: refused {number}: {reason}");
    Outcome::Refused
}
