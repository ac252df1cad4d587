// The first word of a line that is not what is wanted there.
ghost use Rattle.std.specs.Prelude.{◌≡◌, ◌+◌, ◌≤◌, length};
ghost use Rattle.rules.specs.Reading.Lines.{line_limit};
ghost use Rattle.rules.specs.Units.{sample_places, sample_limit, bound_places, bound_limit};
ghost use Rattle.rules.specs.Reading.Numbers.{number_of};
ghost use Rattle.pointing.specs.Pointing.{right, first_wrong};

use crate::spots::{Spot, word_from};
use content::is_formed;
use numbers::{is_digits, number_of};
use rules::{NumberFault, TenMillionths, Thousandths};

// What a word has to be: digits alone; a number by its form, or also within the limits, of a domain or of a row.
// Stays: the definitions right and first_wrong, which to-the-point and the theorems of Falls and Inside are about, name it.
#[derive(Clone, Copy)]
pub enum Wanted {
    Digits,
    BoundForm,
    BoundValue,
    SampleForm,
    SampleValue,
}

fn bound_of(w: &[u8]) -> Result<i64, NumberFault>
    requires { length w.now ≤ line_limit }
    ensures { result ≡ number_of bound_places bound_limit w.now }
{
    number_of(w, Thousandths::PLACES, Thousandths::GREATEST as u64)
}

fn sample_of(w: &[u8]) -> Result<i64, NumberFault>
    requires { length w.now ≤ line_limit }
    ensures { result ≡ number_of sample_places sample_limit w.now }
{
    number_of(w, TenMillionths::PLACES, TenMillionths::GREATEST as u64)
}

// Whether a word is what is wanted.
#[tactic(auto, unfolding(crate::specs::Pointing::right))]
fn is_right(wanted: Wanted, w: &[u8]) -> bool
    requires { length w.now ≤ line_limit }
    ensures { result ≡ right wanted w.now }
{
    match wanted {
        Wanted::Digits => is_digits(w),
        Wanted::BoundForm => is_formed(bound_of(w)),
        Wanted::BoundValue => bound_of(w).is_ok(),
        Wanted::SampleForm => is_formed(sample_of(w)),
        Wanted::SampleValue => sample_of(w).is_ok(),
    }
}

// The first of so many words from a place on that is not what is wanted; where all are, the word behind them.
pub fn first_wrong(l: &[u8], from: usize, wanted: Wanted, count: usize) -> Spot
    requires l_len_bound { length l.now ≤ line_limit }
    requires from_in_bounds { from ≤ length l.now }
    ensures { result ≡ first_wrong wanted count l.now from }
{
    let mut place = from;
    for _ in 0..count {
        let word = word_from(l, place);
        let start = word.place;
        let end = start + word.length;
        if !is_right(wanted, &l[start..end]) {
            return word;
        }
        place = end;
    }
    word_from(l, place)
}
