// What the command says of itself.
use desk::Output;
use std::io;
use std::io::Write;

// As `erythmoda 1.5.0`; tests hold it to the version of the header.
pub fn version(out: &mut Output) -> io::Result<()> {
    write!(out, "erythmoda 1.5.0\n")
}

// What there is, with an example of each.
const HELP: &str = "\
erythmoda: .cube colour tables read, explained, applied and written, every answer proved

erythmoda report < table.cube
    what a small table says: kind, N and rows, domains, title; or why it is refused
erythmoda check *.cube
    what each table is, of any size; or why it is refused, which bytes are meant and what would pass
erythmoda explain table.cube 8 51 102 204
    which rows of the table made a pixel's codes, with which weights, and between which codes they lie; these as a line to keep, and the codes of one
erythmoda correct table.cube in.ppm out.ppm
    binary PPM pictures of 8, 10, 12 or 16 bits, corrected by the table, in the same depth or another one; also from standard input to standard output
erythmoda rewrite table.cube > new.cube
    the table written anew in its plainest form, with its title, another one or none
erythmoda invert table.cube 8 red 128 0
    which raw code a 1D table corrects to a wanted code in one colour, exactly or within a tolerance, and how many codes were tried
erythmoda VERB --help, erythmoda --version

Status: 0 done, or for report and check accepted; 1 refused, with a number and words; 2 a wrong call, or the system could not read or write.
";

pub fn help(out: &mut Output) -> io::Result<()> {
    write!(out, "{HELP}")
}

const REPORT_HELP: &str = "\
usage: erythmoda report < table.cube
Reads one .cube file of at most 65,536 bytes, with at most 2,730 rows, from standard input and prints what it says: kind,
N and rows, the domain of each colour in thousandths, the title. A file that it refuses gives one line: refused, the number,
the line; the status is then 1.
example: erythmoda report < look.cube
";

pub fn report_help(out: &mut Output) -> io::Result<()> {
    write!(out, "{REPORT_HELP}")
}
