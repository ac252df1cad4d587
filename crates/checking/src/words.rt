// What the verb does and how it is called.
use desk::Output;
use std::io;
use std::io::Write;

const HELP: &str = "\
usage: erythmoda check TABLE...
Judges .cube files of every size that the rules allow, and prints a line for each: what it is, or the number and the line for
which it is refused, which bytes are meant and what would pass in their place.
  TABLE  the name of a .cube file
status: 0 all are accepted; 1 one is refused; 2 a wrong call, or the system could not read or write
example: erythmoda check look.cube
example: erythmoda check tables/*.cube
";

pub fn help(out: &mut Output) -> io::Result<()> {
    write!(out, "{HELP}")
}
