// Plain rows one after another: passed and counted, or their samples put into a table.
ghost use Rattle.std.specs.Prelude.{◌+◌, ◌*◌, ◌≤◌, length};
ghost use Rattle.rules.specs.Reading.Contents.{row_of};
ghost use Rattle.plain.specs.Shapes.{Found, Passed, Put, RowAt};

use crate::number::number_end;

// So many bytes hold every plain row: three times twelve, two spaces and a newline.
const MOST_BYTES: usize = 39;

// The plain row at a place: the place of its newline, or the place itself where there is none.
fn row_end(s: &[u8], at: usize, red: &mut i64, green: &mut i64, blue: &mut i64) -> usize
    requires { at + 39 ≤ length s.now }
    ensures { Found at result (RowAt s.now at result (row_of red.new green.new blue.new)) }
{
    let a = number_end(s, at, &mut *red);
    if a == at {
        return at;
    }
    if s[a] != b' ' {
        return at;
    }
    let second = a + 1;
    let b = number_end(s, second, &mut *green);
    if b == second {
        return at;
    }
    if s[b] != b' ' {
        return at;
    }
    let third = b + 1;
    let c = number_end(s, third, &mut *blue);
    if c == third {
        return at;
    }
    if s[c] != b'\n' {
        return at;
    }
    c
}

// How many rows there are, and the place past them.
#[derive(Clone, Copy)]
pub struct Run {
    pub rows: usize,
    pub at: usize,
}

// Plain rows from a place on, at most so many.
pub fn pass_rows(s: &[u8], from: usize, most: usize) -> Run
    ensures { Passed s.now from most result }
{
    let mut rows = 0;
    let mut at = from;
    if s.len() < MOST_BYTES {
        return Run { rows, at };
    }
    let last = s.len() - MOST_BYTES;
    let mut red = 0;
    let mut green = 0;
    let mut blue = 0;
    // Stays: as `for rows in 0..most`, here and in fill_rows, 33 × 33 × 33 rows of seven decimals were read in 1.95 ms and 19.4 million
    // instructions; as it is, in 1.91 ms and 18.5 million.
    while rows < most {
        if at > last {
            return Run { rows, at };
        }
        let end = row_end(s, at, &mut red, &mut green, &mut blue);
        if end == at {
            return Run { rows, at };
        }
        at = end + 1;
        rows += 1;
    }
    Run { rows, at }
}

// The same with the samples of each row, put into a table from a place on.
// Stays: one function for both, `each_row(s, from, most, |red, green, blue| ..)`, would tell its callers of the table by a fold over the closure's steps,
// `FoldsTo (λ p r q. F.step p r tt q) f rows last`, from which each would have to show Passed or Put again; here the contract says it.
pub fn fill_rows(s: &[u8], from: usize, most: usize, table: &mut [i64], to: usize) -> Run
    requires { to + 3 * most ≤ length table.old }
    ensures { Put s.now from most result table.old to table.new }
{
    let mut rows = 0;
    let mut at = from;
    let mut place = to;
    if s.len() < MOST_BYTES {
        return Run { rows, at };
    }
    let last = s.len() - MOST_BYTES;
    let mut red = 0;
    let mut green = 0;
    let mut blue = 0;
    // Stays: by the figures at the loop of pass_rows.
    while rows < most {
        if at > last {
            return Run { rows, at };
        }
        let end = row_end(s, at, &mut red, &mut green, &mut blue);
        if end == at {
            return Run { rows, at };
        }
        table[place] = red;
        table[place + 1] = green;
        table[place + 2] = blue;
        at = end + 1;
        rows += 1;
        place += 3;
    }
    Run { rows, at }
}
