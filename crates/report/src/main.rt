// The report program: standard input is a .cube file, standard output what the file says or why it is refused.
#![tactic(auto)]

use desk::{Host, argument_count, report_input};
use std::io::Write;

// What is said to someone who calls the program with arguments.
const HELP: &str = "\
report: reads one .cube file of at most 65,536 bytes from standard input and prints
what it says: kind, N and rows, the domain of each colour in thousandths, the title.
A file that it refuses gives one line: refused, the number, the line.
It takes no arguments: report < table.cube
";

fn main(rt: HostRuntime) {
    let mut host = Host::of(rt);
    host.program = "report";
    if argument_count(&host) > 1 {
        let _ = write!(host.err, "{HELP}");
        return;
    }
    report_input(&mut host);
}
