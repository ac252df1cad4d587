// What the verb does and how it is called.
use desk::Output;
use std::io;
use std::io::Write;

const HELP: &str = "\
usage: erythmoda explain TABLE BITS RED GREEN BLUE [--corrected-bits BITS]
       erythmoda explain TABLE BITS RED GREEN BLUE --line
       erythmoda explain TABLE --line BITS ROW ROW ROW ROW ROW ROW WEIGHT WEIGHT WEIGHT WEIGHT WEIGHT WEIGHT [--corrected-bits BITS]
Shows which rows of a .cube table made a pixel's corrected codes, and between which codes those rows hold them.
With --line last it prints the pixel's bits, its six rows and its six weights, as one line to keep; with --line after TABLE it
takes such a line, whoever wrote it, and shows the codes that it gives.
  TABLE           the name of a .cube file
  BITS            the depth of the pixel's codes: 8, 10, 12 or 16
  RED GREEN BLUE  the pixel's codes
  ROW             the number of a row of the table, from 0
  WEIGHT          a row's weight, in the order of the rows
  --corrected-bits BITS  the depth of the corrected codes, if it is another one
example: erythmoda explain look.cube 8 51 102 204
example: erythmoda explain look.cube 12 819 1638 3276 --corrected-bits 16
example: erythmoda explain look.cube 8 51 102 204 --line > kept
example: erythmoda explain look.cube --line $(cat kept)
";

pub fn help(out: &mut Output) -> io::Result<()> {
    write!(out, "{HELP}")
}
