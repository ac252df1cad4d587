// What a system call's failure says, on standard error: the program, what it was about, and the system's own words.
use crate::host::{Host, Reason};
use std::io;
use std::io::Write;

// As `explain: cannot write standard output: No space left on device`.
pub fn say_error(host: &mut Host, what: &str, error: io::Error) {
    let program = host.program;
    let _ = writeln!(host.err, "{program}: {what}: {}", Reason(error));
}

fn write_error_of(host: &mut Host, what: &str, name: &[u8], error: io::Error) -> io::Result<()> {
    let program = host.program;
    write!(host.err, "{program}: {what} ")?;
    host.err.write_all(name)?;
    writeln!(host.err, ": {}", Reason(error))
}

// As `explain: cannot open a.cube: No such file or directory`.
pub fn say_error_of(host: &mut Host, what: &str, name: &[u8], error: io::Error) {
    let _ = write_error_of(host, what, name, error);
}
