// The codes of rows and weights (document 01, "Interpolation").
ghost use Rattle.std.specs.Prelude.{◌≡◌, ℕ, pos, ◌*ℤ◌};
ghost use Rattle.whole.specs.Nearest.{code};
ghost use Rattle.rules.specs.Units.{code_in};
ghost use Rattle.rules.specs.Looking.Interpolation.{code_by};
ghost use Rattle.rules.specs.Looking.{used};
ghost use Rattle.colour.specs.Plans.{axis_in};
ghost use Rattle.colour.specs.Places.{of_pair};
ghost use Rattle.colour.specs.Adding.{sum_in, SharesFit, Codable, Coded};

use crate::plan::{Axis, Plan};
use crate::shares::Pair;
use crate::sums::{Sums, pair_sum};
use rules::{Codes, Colour, Kind, Shares};
use whole::Whole;

// The code nearest to M·S / (D·10,000,000), with the M of corrected codes. Whatever S is, the nearest code is that of S moved into 0 to D·10,000,000; p times
// that, over the unit, is as much, and fits 64 bits.
fn code_of(p: u64, axis: Axis, sum: Whole) -> u16
    requires { (m : ℕ) × Codable p axis m }
    ensures { (m : ℕ) → Codable p axis m → result ≡ code (pos m *ℤ sum.0) axis.full m }
{
    let s = axis.full.min(sum.above());
    axis.divisor.quotient(2 * (p * s) + axis.unit) as u16
}

// ---- 1D

// A colour's code of its two rows: a matter of its own axis and rows.
pub fn pair_code(p: u64, axis: Axis, table: &[i64], c: Colour, pair: Pair) -> u16
    requires by_index { (m : ℕ) × Codable p axis m }
    requires shares_fit { SharesFit table.now (of_pair pair) }
    ensures { (m : ℕ) → Codable p axis m → result ≡ code_by m axis.den table.now c (of_pair pair) }
{
    code_of(p, axis, pair_sum(table, pair, c))
}

// Each colour's code of its own two rows.
pub fn line_codes(plan: Plan, table: &[i64], shares: Shares) -> Codes
    requires by_index { (m : ℕ) × Coded plan m }
    requires shares_fit { (c : Colour) → SharesFit table.now (used Kind.OneD c shares) }
    ensures { (m : ℕ) → Coded plan m → (c : Colour) → code_in result c ≡ code_by m (axis_in plan c).den table.now c (used Kind.OneD c shares) }
{
    let p = plan.times;
    let red = Pair {
        low: shares.first,
        high: shares.second,
    };
    let green = Pair {
        low: shares.third,
        high: shares.fourth,
    };
    let blue = Pair {
        low: shares.fifth,
        high: shares.sixth,
    };
    Codes {
        red: pair_code(p, plan.red, table, Colour::Red, red),
        green: pair_code(p, plan.green, table, Colour::Green, green),
        blue: pair_code(p, plan.blue, table, Colour::Blue, blue),
    }
}

// ---- 3D

// Each colour's code of its own sum; the three have one D.
pub fn codes_by(p: u64, axis: Axis, sums: Sums) -> Codes
    requires { (m : ℕ) × Codable p axis m }
    ensures { (m : ℕ) → Codable p axis m → (c : Colour) → code_in result c ≡ code (pos m *ℤ sum_in sums c) axis.full m }
{
    Codes {
        red: code_of(p, axis, sums.red),
        green: code_of(p, axis, sums.green),
        blue: code_of(p, axis, sums.blue),
    }
}
