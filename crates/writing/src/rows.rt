// The three numbers of a line: a row of the table, or bounds in the units of samples.
ghost use Rattle.std.specs.Prelude.{◌≡◌, ◌+◌, ◌*◌, ◌≤◌, ◌<◌, pos, nat_abs, ◌*ℤ◌, length};
ghost use Rattle.rules.specs.Units.{bound_limit};
ghost use Rattle.rules.specs.Reading.Grammar.{lowers, uppers};
ghost use Rattle.writing.specs.Rows.{BoundsFit, finer, row_at};

use rules::{Bounds, Description, Row, TenMillionths, Thousandths};
use whole::Whole;

// Row n of a table.
pub fn row_at(table: &[i64], n: usize) -> Row
    requires { 3 * n + 2 < length table.now }
    ensures { result ≡ row_at table.now n }
{
    let at = 3 * n;
    Row {
        red: TenMillionths(table[at]),
        green: TenMillionths(table[at + 1]),
        blue: TenMillionths(table[at + 2]),
    }
}

// Stays: two functions, since one with the side as a closure, `bounds_of(d, |domain| domain.lower)`, has to tell its answer by `F.post`.
pub fn lowers(d: Description) -> Bounds
    ensures { result ≡ lowers d }
{
    Bounds {
        red: d.red.lower,
        green: d.green.lower,
        blue: d.blue.lower,
    }
}

pub fn uppers(d: Description) -> Bounds
    ensures { result ≡ uppers d }
{
    Bounds {
        red: d.red.upper,
        green: d.green.upper,
        blue: d.blue.upper,
    }
}

// A bound in ten-millionths: its text is the same.
// Stays: `From<Thousandths>` could not require that the bound keeps its limit, without which the product does not fit.
fn finer_bound(bound: Thousandths) -> TenMillionths
    requires { nat_abs bound.0 ≤ bound_limit }
    ensures { result.0 ≡ bound.0 *ℤ pos 10_000 }
{
    let product = Whole(bound.0).times(Whole(TenMillionths::THOUSANDTH));
    TenMillionths(product.0)
}

pub fn finer(bounds: Bounds) -> Row
    requires { BoundsFit bounds }
    ensures { result ≡ finer bounds }
{
    Row {
        red: finer_bound(bounds.red),
        green: finer_bound(bounds.green),
        blue: finer_bound(bounds.blue),
    }
}
