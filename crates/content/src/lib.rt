// What a line says by itself, whatever stands before it: three numbers, a size, a title, by the line's form.
#![tactic(auto)]

ghost use Rattle.std.specs.Prelude.{◌≡◌, cond, ◌&&◌, [], ◌∷◌, ◌+◌, ◌≤◌, ℤ, length, drop, MatchResult, None, Ok, Err, Some};
ghost use Rattle.std.specs.Result.{result_map_both};
ghost use Rattle.numbers.specs.Cuts.{most_limit, most_places};
ghost use Rattle.rules.specs.Reading.Lines.{line_limit, words_of};
ghost use Rattle.rules.specs.Reading.Contents.{formed, three_of, valued, values, bounds_of, samples_on, size_of, parameters, content_by};
ghost use Rattle.rules.specs.declared.Bounds.{Bounds};
ghost use Rattle.rules.specs.declared.Form.TheVariants.{Keyed};
ghost use Rattle.rules.specs.declared.Item.{Item};
ghost use Rattle.rules.specs.declared.Item.TheVariants.{OfRow, OfSize};
ghost use Rattle.content.specs.Found.{NextFrom};
ghost use Rattle.rules.specs.Results.{Content};

use judge::in_range;
use numbers::{is_digits, number_of, spelt};
use rules::{
    Bounds, Form, Item, Keyword, Kind, NumberFault, Refusal, Row, Size, TenMillionths, Thousandths,
    Three,
};
use text::{next_word, title_of};

// ---- three numbers

// What is asked of a number: so many places, a limit, and why one is refused that has another form, is beyond the limit, or is no multiple of the unit.
#[derive(Clone, Copy)]
struct Asked {
    places: usize,
    limit: u64,
    unformed: Refusal,
    beyond: Refusal,
    finer: Refusal,
    ghost few_places: { places ≤ most_places },
    ghost low_limit: { limit ≤ most_limit },
}

// Whether a word has the form of a number, whatever its value.
pub fn is_formed(n: Result<i64, NumberFault>) -> bool
    ensures { result ≡ formed n }
{
    !matches!(n, Err(NumberFault::Malformed))
}

// Three numbers, where each has the form of one.
fn three_formed(
    first: Result<i64, NumberFault>,
    second: Result<i64, NumberFault>,
    third: Result<i64, NumberFault>,
) -> Option<Three>
    ensures { result ≡ cond (formed first && (formed second && formed third)) (Some (record { first = first; second = second; third = third })) None }
{
    if !(is_formed(first) && is_formed(second) && is_formed(third)) {
        return None;
    }
    Some(Three {
        first,
        second,
        third,
    })
}

// The first word from a place on as a number, and where the word ends.
// Stays: a line and a place in it go together here and in three functions below, with the same two bounds; as a struct Rest<'a> { l: &'a [u8], from: usize }
// that keeps them, a new one would be made for each word, `Rest { l: rest.l, from: word.end }`, and each contract would say `rest.l.now` for `l.now`.
fn next_number(l: &[u8], from: usize, asked: Asked) -> Option<(Result<i64, NumberFault>, usize)>
    requires { (length l.now ≤ line_limit) × (from ≤ length l.now) }
    ensures { NextFrom asked.places asked.limit l.now from result }
{
    let word = next_word(l, from)?;
    let number = number_of(&l[word.start..word.end], asked.places, asked.limit);
    Some((number, word.end))
}

// Three words from a place on, each a number, and no word more.
fn three_numbers(l: &[u8], from: usize, asked: Asked) -> Option<Three>
    requires { (length l.now ≤ line_limit) × (from ≤ length l.now) }
    ensures { result ≡ three_of asked.places asked.limit (words_of (drop from l.now)) }
{
    let (first, a) = next_number(l, from, asked)?;
    let (second, b) = next_number(l, a, asked)?;
    let (third, c) = next_number(l, b, asked)?;
    let None = next_word(l, c) else {
        return None;
    };
    three_formed(first, second, third)
}

// ---- their values

// Three values in the units that were asked for.
#[derive(Clone, Copy)]
struct Triple {
    x: i64,
    y: i64,
    z: i64,
}

// The value of a number, or why it is refused.
fn value_of(n: Result<i64, NumberFault>, asked: Asked) -> Result<i64, Refusal>
    ensures { (next : ℤ → Content) → MatchResult result (λ v. next v ≡ valued asked.unformed asked.beyond asked.finer n next) (λ r. Err r ≡ valued asked.unformed asked.beyond asked.finer n next) }
{
    n.map_err(|fault| match fault {
        NumberFault::Malformed => asked.unformed,
        NumberFault::Beyond => asked.beyond,
        NumberFault::Finer => asked.finer,
    })
}

// The values of the three numbers that stand from a place on: the form of all three comes first, then each in turn, left to right.
fn values_on(l: &[u8], from: usize, asked: Asked) -> Result<Triple, Refusal>
    requires { (length l.now ≤ line_limit) × (from ≤ length l.now) }
    ensures { (next : ℤ → ℤ → ℤ → Content) → MatchResult result (λ t. next t.x t.y t.z ≡ values asked.unformed asked.beyond asked.finer (three_of asked.places asked.limit (words_of (drop from l.now))) next) (λ r. Err r ≡ values asked.unformed asked.beyond asked.finer (three_of asked.places asked.limit (words_of (drop from l.now))) next) }
{
    let three = three_numbers(l, from, asked).ok_or(asked.unformed)?;
    let x = value_of(three.first, asked)?;
    let y = value_of(three.second, asked)?;
    let z = value_of(three.third, asked)?;
    Ok(Triple { x, y, z })
}

// ---- bounds and samples

// The three bounds that stand from a place on.
fn bounds_on(l: &[u8], from: usize) -> Result<Bounds, Refusal>
    requires { (length l.now ≤ line_limit) × (from ≤ length l.now) }
    ensures { (side : Bounds → Item) → result_map_both side (λ r. r) result ≡ bounds_of side (words_of (drop from l.now)) }
{
    let asked = Asked {
        places: Thousandths::PLACES,
        limit: Thousandths::GREATEST as u64,
        unformed: Refusal::ParametersWrong,
        beyond: Refusal::DomainNumberWrong,
        finer: Refusal::DomainNumberWrong,
    };
    let t = values_on(l, from, asked)?;
    Ok(Bounds {
        red: Thousandths(t.x),
        green: Thousandths(t.y),
        blue: Thousandths(t.z),
    })
}

// The row of a data line.
pub fn row_on(l: &[u8]) -> Result<Row, Refusal>
    requires { length l.now ≤ line_limit }
    ensures { result_map_both OfRow (λ r. r) result ≡ samples_on (words_of l.now) }
{
    let asked = Asked {
        places: TenMillionths::PLACES,
        limit: TenMillionths::GREATEST as u64,
        unformed: Refusal::NotThreeNumbers,
        beyond: Refusal::SampleBeyond,
        finer: Refusal::SampleTooFine,
    };
    let t = values_on(l, 0, asked)?;
    Ok(Row {
        red: TenMillionths(t.x),
        green: TenMillionths(t.y),
        blue: TenMillionths(t.z),
    })
}

// ---- a size

// The size that a word gives: digits alone, in range. Digits of any length are kept at one past the greatest N of either kind, which is as far out of
// range as they are.
fn size_in(kind: Kind, w: &[u8]) -> Result<Size, Refusal>
    ensures { result_map_both OfSize (λ r. r) result ≡ size_of kind (w.now ∷ []) }
{
    if !is_digits(w) {
        return Err(Refusal::ParametersWrong);
    }
    let n = spelt(w, 0, Kind::MOST_1D as u64) as usize;
    if !in_range(kind, n) {
        return Err(Refusal::SizeOutOfRange);
    }
    Ok(Size { kind, n })
}

// The size that stands from a place on: one word.
fn size_on(kind: Kind, l: &[u8], from: usize) -> Result<Size, Refusal>
    requires { from ≤ length l.now }
    ensures { result_map_both OfSize (λ r. r) result ≡ size_of kind (words_of (drop from l.now)) }
{
    let word = next_word(l, from).ok_or(Refusal::ParametersWrong)?;
    let None = next_word(l, word.end) else {
        return Err(Refusal::ParametersWrong);
    };
    size_in(kind, &l[word.start..word.end])
}

// ---- a line, by its form

// Where a line's first word ends; the line's end where it has none.
fn after_first_word(l: &[u8]) -> usize
    ensures within { result ≤ length l.now }
    ensures rest { words_of (drop result l.now) ≡ parameters (words_of l.now) }
{
    match next_word(l, 0) {
        Some(word) => word.end,
        None => l.len(),
    }
}

// What a keyword's line says; it begins at a place of the file.
fn keyed_content(keyword: Keyword, l: &[u8], place: usize) -> Result<Item, Refusal>
    requires { (length l.now ≤ line_limit) × (place + length l.now ≤ 18_446_744_073_709_551_615) }
    ensures { result ≡ content_by (Keyed keyword) place l.now }
{
    let rest = after_first_word(l);
    match keyword {
        Keyword::ATitle => title_of(l, place),
        Keyword::ALower => bounds_on(l, rest).map(Item::OfLower),
        Keyword::AnUpper => bounds_on(l, rest).map(Item::OfUpper),
        Keyword::ASize(kind) => size_on(kind, l, rest).map(Item::OfSize),
    }
}

// What a line says by itself, by its form; it begins at a place of the file.
pub fn content_by(form: Form, l: &[u8], place: usize) -> Result<Item, Refusal>
    requires { (length l.now ≤ line_limit) × (place + length l.now ≤ 18_446_744_073_709_551_615) }
    ensures { result ≡ content_by form place l.now }
{
    match form {
        Form::Idle => Ok(Item::Nothing),
        Form::Keyed(keyword) => keyed_content(keyword, l, place),
        Form::Data => row_on(l).map(Item::OfRow),
        Form::Neither => Err(Refusal::NeitherDataNorKeyword),
    }
}
