// A pixel's line: thirteen numbers with one space between them, as the record keeper keeps them. They are those that `--line` takes.
use desk::Output;
use rules::Shares;
use std::io;
use std::io::Write;

// As `8 0 4 6 7 0 0 51000 102000 51000 51000 0 0`: the bits of the pixel's codes, six rows, six weights.
pub fn show_line(out: &mut Output, raw: u32, shares: Shares) -> io::Result<()> {
    write!(out, "{raw}")?;
    show_rows(out, shares)?;
    show_weights(out, shares)?;
    writeln!(out)
}

fn show_rows(out: &mut Output, shares: Shares) -> io::Result<()> {
    write!(out, " {} {}", shares.first.row, shares.second.row)?;
    write!(out, " {} {}", shares.third.row, shares.fourth.row)?;
    write!(out, " {} {}", shares.fifth.row, shares.sixth.row)
}

fn show_weights(out: &mut Output, shares: Shares) -> io::Result<()> {
    write!(out, " {} {}", shares.first.weight, shares.second.weight)?;
    write!(out, " {} {}", shares.third.weight, shares.fourth.weight)?;
    write!(out, " {} {}", shares.fifth.weight, shares.sixth.weight)
}
