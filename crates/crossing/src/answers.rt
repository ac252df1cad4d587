// The papers' number and values of an answer, as the definitions of rules give them.
ghost use Rattle.std.specs.Prelude.{◌≡◌, [], ◌∷◌};
ghost use Rattle.rules.specs.Descriptions.{zeros};
ghost use Rattle.rules.specs.Looking.{six};
ghost use Rattle.rules.specs.Answers.{read_number, read_line, read_description, places_needed, look_codes, look_shares, first_shares, second_codes, codes_of, shares_of, written_length, inverse_number, inverse_code, inverse_count};
ghost use Rattle.crossing.specs.Layout.{number, Countable};

use judge::count_rows;
use rules::{
    Codes, Description, Domain, Inverted, Kind, Looked, NotInverted, Refusal, Refused, Share,
    Shares, Thousandths, Title,
};

// ---- look, its halves, picture and writing: 0 where they accept

pub fn number_of<T: Copy>(answer: Result<T, Refusal>) -> u32
    ensures { result ≡ number answer }
{
    match answer {
        Ok(_) => 0,
        Err(reason) => reason.number(),
    }
}

// ---- reading

// Stays: a match of its own, since a file's refusal has a line beside its reason, and `number_of(answer.map_err(|refused| refused.reason))` is no plainer; so
// with the inverse, whose refusal has a count.
pub fn read_number(answer: Result<Description, Refused>) -> u32
    ensures { result ≡ read_number answer }
{
    match answer {
        Ok(_) => 0,
        Err(refused) => refused.reason.number(),
    }
}

pub fn read_line(answer: Result<Description, Refused>) -> u64
    ensures { result ≡ read_line answer }
{
    match answer {
        Ok(_) => 0,
        Err(refused) => refused.line as u64,
    }
}

// Zeros, kind 1D, no title.
fn no_description() -> Description
    ensures { result ≡ zeros }
{
    let none = Domain {
        lower: Thousandths(0),
        upper: Thousandths(0),
    };
    Description {
        kind: Kind::OneD,
        n: 0,
        red: none,
        green: none,
        blue: none,
        title: Title {
            there: false,
            place: 0,
            length: 0,
        },
    }
}

pub fn description_of(answer: Result<Description, Refused>) -> Description
    ensures { result ≡ read_description answer }
{
    answer.unwrap_or(no_description())
}

// Three for each row, none of a file that is refused.
pub fn places_needed(answer: Result<Description, Refused>) -> u64
    requires { Countable answer }
    ensures { result ≡ places_needed answer }
{
    match answer {
        Ok(d) => 3 * count_rows(d.kind, d.n) as u64,
        Err(_) => 0,
    }
}

// ---- look

fn no_codes() -> Codes
    ensures { codes_of result ≡ 0 ∷ 0 ∷ 0 ∷ [] }
{
    Codes {
        red: 0,
        green: 0,
        blue: 0,
    }
}

pub fn look_codes(answer: Result<Looked, Refusal>) -> Codes
    ensures { codes_of result ≡ look_codes answer }
{
    answer.map_or(no_codes(), |looked| looked.codes)
}

// Six of zeros.
fn no_shares() -> Shares
    ensures { result ≡ six [] }
{
    let none = Share { row: 0, weight: 0 };
    Shares {
        first: none,
        second: none,
        third: none,
        fourth: none,
        fifth: none,
        sixth: none,
    }
}

pub fn look_shares(answer: Result<Looked, Refusal>) -> Shares
    ensures { shares_of result ≡ look_shares answer }
{
    answer.map_or(no_shares(), |looked| looked.shares)
}

// ---- the halves of a look

pub fn first_shares(answer: Result<Shares, Refusal>) -> Shares
    ensures { shares_of result ≡ first_shares answer }
{
    answer.unwrap_or(no_shares())
}

pub fn second_codes(answer: Result<Codes, Refusal>) -> Codes
    ensures { codes_of result ≡ second_codes answer }
{
    answer.unwrap_or(no_codes())
}

// ---- writing

pub fn written_length(answer: Result<usize, Refusal>) -> u64
    ensures { result ≡ written_length answer }
{
    answer.map_or(0, |length| length as u64)
}

// ---- the inverse

pub fn inverse_number(answer: Result<Inverted, NotInverted>) -> u32
    ensures { result ≡ inverse_number answer }
{
    match answer {
        Ok(_) => 0,
        Err(none) => none.reason.number(),
    }
}

pub fn inverse_code(answer: Result<Inverted, NotInverted>) -> u16
    ensures { result ≡ inverse_code answer }
{
    answer.map_or(0, |found| found.code)
}

pub fn inverse_count(answer: Result<Inverted, NotInverted>) -> u64
    ensures { result ≡ inverse_count answer }
{
    match answer {
        Ok(found) => found.count,
        Err(none) => none.count,
    }
}
