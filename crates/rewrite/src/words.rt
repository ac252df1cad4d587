// How the verb is called.
use desk::Output;
use std::io;
use std::io::Write;

const HELP: &str = "\
usage: erythmoda rewrite TABLE [--title TEXT | --no-title] > new.cube
Reads the .cube table in the file TABLE and writes it anew: title, size, both domain lines, rows; one space between words;
every number in the fewest characters. Values do not change, comments are left out, and a file written twice is the same.
The title stays as it is, with --title becomes TEXT (at most 242 bytes from space to tilde, without a quote), and with --no-title
is left out. A file that is refused, or another TEXT, gives one line on standard error and no output; the status is then 1.
The new file is another one than TABLE: a shell empties what it writes to before anything is read.
example: erythmoda rewrite look.cube > plain.cube
example: erythmoda rewrite look.cube --title 'Lamp 3, June' > plain.cube
";

pub fn help(out: &mut Output) -> io::Result<()> {
    write!(out, "{HELP}")
}
