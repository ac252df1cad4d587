// The name of a file among the arguments.
ghost use Rattle.desk.specs.Loads.{NameWithin};

use crate::host::{Host, word_at};
use std::io::Write;

// The longest name that the system takes.
const LONGEST: usize = 4095;

// As `erythmoda explain: the name of the table is longer than 4,095 bytes`.
fn say_too_long(host: &mut Host, what: &str) {
    let program = host.program;
    let _ = writeln!(
        host.err,
        "{program}: the name of {what} is longer than 4,095 bytes",
    );
}

// The argument at a place, which is there, as the name of what is to be read or written: how many bytes of the lent space it has. Or nothing, once it was
// said on standard error that no file can have it.
pub fn name_at(host: &mut Host, what: &str, place: usize, path: &mut [u8]) -> Option<usize>
    ensures { NameWithin path.new result }
{
    match word_at(host, place, &mut *path) {
        Some(n) if n <= LONGEST => Some(n),
        _ => {
            say_too_long(host, what);
            None
        }
    }
}
