// How descriptions, pixels, codes, rows and weights lie in the numbers that C lends.
ghost use Rattle.std.specs.Prelude.{◌≡◌, map, ◌<◌};
ghost use Rattle.rules.specs.Answers.{codes_of, shares_of};
ghost use Rattle.rules.specs.Boundary.{Crossable, RowsFit, eleven_of, description_in, described_in, domain_in, count_in, kind_in, title_at, pixel_in, share_in, shares_in, kind_number, colour_in};

use rules::{Codes, Colour, Description, Domain, Kind, Share, Shares, Thousandths, Title};
use whole::Whole;

// ---- a description as eleven numbers

// Stays: a function, and no `From<Kind>` or `TryFrom<i64>`, since `Kind` belongs to rules, where nothing else has C's numbers.
fn kind_number(kind: Kind) -> i64
    ensures { result ≡ kind_number kind }
{
    match kind {
        Kind::OneD => 1,
        Kind::ThreeD => 3,
    }
}

pub fn eleven_of(d: Description) -> [i64; 11]
    requires { Crossable d }
    ensures { result ≡ eleven_of d }
{
    [
        kind_number(d.kind),
        d.n as i64,
        d.red.lower.0,
        d.green.lower.0,
        d.blue.lower.0,
        d.red.upper.0,
        d.green.upper.0,
        d.blue.upper.0,
        i64::from(d.title.there),
        d.title.place as i64,
        d.title.length as i64,
    ]
}

// ---- and back

// A colour's domain: its bounds stand three places apart.
fn domain_at(eleven: &[i64; 11], colour: usize) -> Domain
    requires { colour < 3 }
    ensures { result ≡ domain_in eleven.now colour }
{
    Domain {
        lower: Thousandths(eleven[2 + colour]),
        upper: Thousandths(eleven[5 + colour]),
    }
}

// A number that counts; one below 0 counts as 0.
fn count_at(eleven: &[i64; 11], at: usize) -> usize
    requires { at < 11 }
    ensures { result ≡ count_in eleven.now at }
{
    Whole(eleven[at]).above() as usize
}

// 0 is without a title, and any other number with one.
fn title_at(eleven: &[i64; 11]) -> Title
    ensures { result ≡ title_at eleven.now }
{
    Title {
        there: eleven[8] != 0,
        place: count_at(eleven, 9),
        length: count_at(eleven, 10),
    }
}

fn description_in(eleven: &[i64; 11], kind: Kind) -> Description
    ensures { result ≡ description_in eleven.now kind }
{
    Description {
        kind,
        n: count_at(eleven, 1),
        red: domain_at(eleven, 0),
        green: domain_at(eleven, 1),
        blue: domain_at(eleven, 2),
        title: title_at(eleven),
    }
}

// The first number names the kind, by 1 or 3.
fn kind_at(eleven: &[i64; 11]) -> Option<Kind>
    ensures { result ≡ kind_in eleven.now }
{
    match eleven[0] {
        1 => Some(Kind::OneD),
        3 => Some(Kind::ThreeD),
        _ => None,
    }
}

// What eleven numbers describe, if the first names a kind.
pub fn described(eleven: &[i64; 11]) -> Option<Description>
    ensures { result ≡ described_in eleven.now }
{
    let kind = kind_at(eleven)?;
    Some(description_in(eleven, kind))
}

// ---- a look's pixel, codes, rows and weights

// Stays: `Codes` and `Shares` belong to rules, so `From` for them would stand there, away from how C's numbers lie; and `codes.into()` says less.

pub fn pixel_of(codes: &[u16; 3]) -> Codes
    ensures { result ≡ pixel_in codes.now }
{
    Codes {
        red: codes[0],
        green: codes[1],
        blue: codes[2],
    }
}

pub fn codes_laid(codes: Codes) -> [u16; 3]
    ensures { result ≡ codes_of codes }
{
    [codes.red, codes.green, codes.blue]
}

// Stays: rows and weights are two arrays, as the C interface has them.
pub fn rows_laid(shares: Shares) -> [u32; 6]
    requires { RowsFit (map (λ (s : Share). s.row) (shares_of shares)) }
    ensures { result ≡ map (λ (s : Share). s.row) (shares_of shares) }
{
    [
        shares.first.row as u32,
        shares.second.row as u32,
        shares.third.row as u32,
        shares.fourth.row as u32,
        shares.fifth.row as u32,
        shares.sixth.row as u32,
    ]
}

pub fn weights_laid(shares: Shares) -> [i64; 6]
    ensures { result ≡ map (λ (s : Share). s.weight) (shares_of shares) }
{
    [
        shares.first.weight,
        shares.second.weight,
        shares.third.weight,
        shares.fourth.weight,
        shares.fifth.weight,
        shares.sixth.weight,
    ]
}

fn share_of(row: u32, weight: i64) -> Share
    ensures { result ≡ record { row = row; weight = weight } }
{
    Share {
        row: row as usize,
        weight,
    }
}

// A row and its weight, each at its own place.
fn share_at(rows: &[u32; 6], weights: &[i64; 6], at: usize) -> Share
    requires { at < 6 }
    ensures { result ≡ share_in rows.now weights.now at }
{
    share_of(rows[at], weights[at])
}

pub fn shares_in(rows: &[u32; 6], weights: &[i64; 6]) -> Shares
    ensures { result ≡ shares_in rows.now weights.now }
{
    Shares {
        first: share_at(rows, weights, 0),
        second: share_at(rows, weights, 1),
        third: share_at(rows, weights, 2),
        fourth: share_at(rows, weights, 3),
        fifth: share_at(rows, weights, 4),
        sixth: share_at(rows, weights, 5),
    }
}

// ---- a colour as a number

// Stays: as with kinds, `Colour` belongs to rules.
pub fn colour_of(number: u32) -> Option<Colour>
    ensures { result ≡ colour_in number }
{
    match number {
        0 => Some(Colour::Red),
        1 => Some(Colour::Green),
        2 => Some(Colour::Blue),
        _ => None,
    }
}
