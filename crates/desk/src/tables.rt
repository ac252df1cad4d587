// What a table is, in words: its kind and size, its domain, its title.
ghost use Rattle.std.specs.Prelude.{◌≡◌, true};
ghost use Rattle.rules.specs.Units.{in_range};
ghost use Rattle.reporting.specs.Telling.{TitleInside};

use crate::host::Output;
use judge::{count_rows, one_domain};
use rules::{Description, Domain, Kind, Thousandths, Title};
use std::io::Write;
use std::{fmt, io};
use whole::Whole;

// As `3D, N = 2, 8 rows`.
pub fn write_size(out: &mut Output, kind: Kind, n: usize) -> io::Result<()>
    requires { in_range kind n ≡ true }
{
    let rows = count_rows(kind, n);
    write!(out, "{kind}, N = {n}, {rows} rows")
}

// As `-0.125`: at most three digits after the point, without zeros at their end.
#[derive(Clone, Copy)]
struct Plain(Thousandths);

impl fmt::Display for Plain {
    fn fmt<W: fmt::Write>(&self, f: &mut fmt::Formatter<W>) -> fmt::Result {
        let bound = self.0.0;
        let size = Whole(bound).size();
        let sign = if bound < 0 { "-" } else { "" };
        let ones = size / Thousandths::ONE;
        let part = size % Thousandths::ONE;
        if part == 0 {
            write!(f, "{sign}{ones}")
        } else if part % 100 == 0 {
            write!(f, "{sign}{ones}.{}", part / 100)
        } else if part % 10 == 0 {
            write!(f, "{sign}{ones}.{:02}", part / 10)
        } else {
            write!(f, "{sign}{ones}.{part:03}")
        }
    }
}

// As `0 to 1`.
#[derive(Clone, Copy)]
struct Span(Domain);

impl fmt::Display for Span {
    fn fmt<W: fmt::Write>(&self, f: &mut fmt::Formatter<W>) -> fmt::Result {
        let domain = self.0;
        write!(f, "{} to {}", Plain(domain.lower), Plain(domain.upper))
    }
}

// As `domain 0 to 1`, where the three are one; else as `domain red 0 to 2, green 0 to 1, blue 0 to 1`.
pub fn write_domains(out: &mut Output, d: Description) -> io::Result<()> {
    let red = Span(d.red);
    if one_domain(d) {
        return write!(out, "domain {red}");
    }
    let green = Span(d.green);
    let blue = Span(d.blue);
    write!(out, "domain red {red}, green {green}, blue {blue}")
}

// As `title "smoke"`, or `no title`.
pub fn write_title(out: &mut Output, file: &[u8], title: Title) -> io::Result<()>
    requires { TitleInside file.now title }
{
    if !title.there {
        return write!(out, "no title");
    }
    let first = title.place;
    let end = first + title.length;
    write!(out, "title \"")?;
    out.write_all(&file[first..end])?;
    write!(out, "\"")
}
