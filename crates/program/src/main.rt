// The command `erythmoda` as a program: what its arguments ask for, and the status that it ends with.
#![tactic(auto)]

use command::run;
use desk::Host;
use std::process::ExitCode;

// The statuses are 0, 1 and 2.
// Stays: the status of `erythmoda_command` is a u32, and `u8::try_from(status)` would have to say what is done with one that is none.
fn code_of(status: u32) -> u8 {
    match status {
        0 => 0,
        1 => 1,
        _ => 2,
    }
}

fn main(rt: HostRuntime) -> ExitCode {
    let mut host = Host::of(rt);
    ExitCode::from(code_of(run(&mut host)))
}
