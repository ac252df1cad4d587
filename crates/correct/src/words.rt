// How the verb is called, and in one line on standard error what stopped it.
ghost use Rattle.correct.specs.Pieces.{StopTruly};

use crate::ends::Ends;
use crate::headers::NoHeader;
use crate::pieces::Stop;
use desk::{Host, Output, Reason};
use ppm::{Excess, Frame};
use std::io::Write;
use std::{fmt, io};

// ---- help

const HELP: &str = "\
usage: erythmoda correct TABLE [IN OUT] [--maxval MAXVAL]
Corrects pictures by a .cube table: each code becomes the one nearest to the table's exact value.
Pictures are binary PPM (P6) with maxval 255, 1023, 4095 or 65535. Any number of them may follow one another, each of any
length; comments in their headers are left out. They come from the file IN and go to the file OUT, or from standard input to
standard output. OUT is written beside itself and takes its name when it is whole: where the work stops, no part of it is
left, and an OUT that was there stays as it was. On standard output the pixels before the one where a picture stops are
written. A line on standard error says what is wrong, and where.
  TABLE            the name of a .cube file
  IN               the name of a file of pictures
  OUT              the name of the file to write; it may be IN, and is no link, device or pipe
  --maxval MAXVAL  the maxval of every picture in the output, if it is another one: its codes are then of that depth
status: 0 all pictures are corrected; 1 the table or a picture is refused, and nothing is left of an output; 2 a wrong call, the
system could not read or write, or a picture is wrong where part of the output was on standard output already
example: erythmoda correct look.cube in.ppm out.ppm
example: erythmoda correct look.cube in.ppm deep.ppm --maxval 65535
example: ffmpeg -i film.mov -f image2pipe -c:v ppm - | erythmoda correct look.cube > frames.ppm
";

pub fn help(out: &mut Output) -> io::Result<()> {
    write!(out, "{HELP}")
}

// ---- how a line starts

// As `erythmoda correct: `, and from the second picture on its number is told, as `erythmoda correct: picture 2: `.
#[derive(Clone, Copy)]
struct Start {
    program: &'static str,
    number: u64,
}

impl fmt::Display for Start {
    fn fmt<W: fmt::Write>(&self, f: &mut fmt::Formatter<W>) -> fmt::Result {
        let program = self.program;
        let number = self.number;
        write!(f, "{program}: ")?;
        if number > 1 {
            write!(f, "picture {number}: ")?;
        }
        Ok(())
    }
}

fn started(host: &Host, number: u64) -> Start {
    let program = host.program;
    Start { program, number }
}

// A line of its own, that tells of no picture.
pub fn say_line(host: &mut Host, line: &str) {
    let start = started(host, 1);
    let _ = writeln!(host.err, "{start}{line}");
}

// ---- what the system could not do

// What could not be done, and the system's own words for why.
#[derive(Clone, Copy)]
pub struct Failure {
    pub what: &'static str,
    pub error: io::Error,
}

impl fmt::Display for Failure {
    fn fmt<W: fmt::Write>(&self, f: &mut fmt::Formatter<W>) -> fmt::Result {
        let what = self.what;
        let reason = Reason(self.error);
        write!(f, "{what}: {reason}")
    }
}

fn unread(ends: &Ends, error: io::Error) -> Failure {
    let what = if ends.named {
        "cannot read IN"
    } else {
        "cannot read standard input"
    };
    Failure { what, error }
}

pub fn say_unwritten(host: &mut Host, ends: &Ends, number: u64, error: io::Error) {
    let start = started(host, number);
    let what = if ends.named {
        "cannot write OUT"
    } else {
        "cannot write standard output"
    };
    let failure = Failure { what, error };
    let _ = writeln!(host.err, "{start}{failure}");
}

// ---- the files

// What stops the work before a picture is read.
#[derive(Clone, Copy)]
pub enum Trouble {
    System(Failure),
    LongName(&'static str),
    EmptyName(&'static str),
    Link,
    NoFile,
}

impl fmt::Display for Trouble {
    fn fmt<W: fmt::Write>(&self, f: &mut fmt::Formatter<W>) -> fmt::Result {
        match self {
            Trouble::System(failure) => failure.fmt(f),
            Trouble::LongName(what) => write!(f, "the name of {what} is longer than 4,095 bytes"),
            Trouble::EmptyName(what) => write!(f, "the name of {what} is empty"),
            Trouble::Link => f.write_str("OUT is a link: name the file itself"),
            Trouble::NoFile => f.write_str(NO_FILE),
        }
    }
}

const NO_FILE: &str = "OUT is a device or a pipe: leave IN and OUT out, and use standard output";

pub fn say_trouble(host: &mut Host, trouble: Trouble) {
    let start = started(host, 1);
    let _ = writeln!(host.err, "{start}{trouble}");
}

// ---- a header

// The input may end where a header would begin, but for the first.
pub fn say_no_header(host: &mut Host, ends: &Ends, number: u64, none: NoHeader) {
    let start = started(host, number);
    let _ = match none {
        NoHeader::Wrong(fault) => writeln!(host.err, "{start}{fault}"),
        NoHeader::TooLong => writeln!(
            host.err,
            "{start}the header does not end within the first 4,096 bytes of the picture"
        ),
        NoHeader::Empty if number == 1 => {
            writeln!(host.err, "{start}there is no picture: the input is empty")
        }
        NoHeader::Empty => Ok(()),
        NoHeader::Unread(error) => {
            let failure = unread(ends, error);
            writeln!(host.err, "{start}{failure}")
        }
    };
}

pub fn say_maxval(host: &mut Host, number: u64, maxval: u64) {
    let start = started(host, number);
    let _ = writeln!(
        host.err,
        "{start}maxval {maxval} is none of 255, 1023, 4095 and 65535"
    );
}

pub fn say_wanted(host: &mut Host) {
    say_line(
        host,
        "the output's --maxval is none of 255, 1023, 4095 and 65535",
    );
}

// ---- the pixels

// As `stopped at pixel 7 (row 1, column 3): `, all counted from 0. A picture of width 0 has no pixel to stop at.
#[derive(Clone, Copy)]
struct Place {
    pixel: u64,
    width: u64,
}

impl fmt::Display for Place {
    fn fmt<W: fmt::Write>(&self, f: &mut fmt::Formatter<W>) -> fmt::Result {
        let pixel = self.pixel;
        let width = self.width;
        if width == 0 {
            return Ok(());
        }
        let row = pixel / width;
        let column = pixel % width;
        write!(f, "stopped at pixel {pixel} (row {row}, column {column}): ")
    }
}

// As `green is 1024, above 1023`: a code that is told as above maxval is.
pub fn say_stop(host: &mut Host, ends: &Ends, number: u64, stop: Stop, frame: Frame)
    requires { StopTruly frame.maxval stop }
{
    let start = started(host, number);
    let width = frame.width;
    let _ = match stop {
        Stop::Cut(pixel) => {
            let place = Place { pixel, width };
            writeln!(host.err, "{start}{place}the picture ends there")
        }
        Stop::TooGreat { pixel, excess } => {
            let place = Place { pixel, width };
            let Excess { colour, code } = excess;
            let maxval = frame.maxval;
            writeln!(host.err, "{start}{place}{colour} is {code}, above {maxval}")
        }
        Stop::Unread { pixel, error } => {
            let place = Place { pixel, width };
            let failure = unread(ends, error);
            writeln!(host.err, "{start}{place}{failure}")
        }
        Stop::Unwritten(error) => {
            say_unwritten(host, ends, number, error);
            Ok(())
        }
    };
}

pub fn say_uncounted(host: &mut Host) {
    say_line(
        host,
        "there may be more than 1,000,000,000,000,000,000 pictures, and no more are read",
    );
}
