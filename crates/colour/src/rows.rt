// A row by itself: its code for a colour, and the D over which it may carry the weight (document 01, "Interpolation").
ghost use Rattle.std.specs.Prelude.{◌≡◌, ℕ, ◌*◌, ◌≤◌, ◌<◌, pos, nat_abs, ◌*ℤ◌};
ghost use Rattle.whole.specs.Nearest.{code};
ghost use Rattle.rules.specs.Units.{sample_one, sample_limit};
ghost use Rattle.rules.specs.Looking.Interpolation.{den_of, row_code};
ghost use Rattle.colour.specs.Plans.{Readable};
ghost use Rattle.colour.specs.Adding.{RowAt};

use crate::plan::times_m;
use crate::span::span_of;
use crate::sums::{row_part, sample_of};
use rules::{Colour, Description, TenMillionths};
use whole::Whole;

// D: what the weights of a colour add up to.
// Stays: `Readable d` in the contracts here, of the span and of the plan. A description is the caller's own value, made field by field; a type that
// carries the fact, `den_of(Readable(d), m, c)`, would be made at each call by the same proof.
pub fn den_of(d: Description, m: u16, c: Colour) -> u64
    requires { Readable d }
    ensures { result ≡ den_of d m c }
{
    m as u64 * span_of(d, c)
}

// The code nearest to M times a sample.
fn sample_code(sample: TenMillionths, m: u16) -> u16
    requires { nat_abs sample.0 ≤ sample_limit }
    ensures { result ≡ code (pos m *ℤ sample.0) sample_one m }
{
    times_m(m, Whole(sample.0)).nearest(TenMillionths::ONE, m as u64) as u16
}

// The code given where the row alone carries the weight. Whatever D it carries, D falls out.
pub fn row_code(table: &[i64], m: u16, c: Colour, row: usize) -> u16
    requires { RowAt table.now (3 * row) }
    ensures { (den : ℕ) → 0 < den → result ≡ row_code m den table.now c row }
{
    sample_code(sample_of(row_part(table, row), c), m)
}
