// What the verb does and how it is called.
use desk::Output;
use std::io;
use std::io::Write;

const HELP: &str = "\
usage: erythmoda invert TABLE BITS COLOUR CODE TOLERANCE [--corrected-bits BITS]
Finds the raw code that a 1D .cube table corrects to a wanted code in one colour, or comes nearest to it, the lowest if several do.
Raw codes are tried from 0 up to the first exact hit; without one the whole range is searched, and where the nearest code is off by
more than TOLERANCE that is a refusal. The count of codes tried is said with the answer.
  TABLE      the name of a .cube file, of a 1D table
  BITS       the depth of the raw codes: 8, 10, 12 or 16
  COLOUR     red, green or blue
  CODE       the wanted corrected code
  TOLERANCE  how many codes off it may be, 0 or more
  --corrected-bits BITS  the depth of the corrected codes, if it is another one
example: erythmoda invert lamp.cube 8 red 128 0
example: erythmoda invert lamp.cube 12 green 32768 16 --corrected-bits 16
";

pub fn help(out: &mut Output) -> io::Result<()> {
    write!(out, "{HELP}")
}
