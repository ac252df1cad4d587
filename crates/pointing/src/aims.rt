// Which part of its line a refusal is about.
ghost use Rattle.std.specs.Prelude.{◌≡◌, ◌+◌, ◌≤◌, length};
ghost use Rattle.rules.specs.Reading.Lines.{line_limit};
ghost use Rattle.text.specs.WordsFrom.{word_start, word_end};
ghost use Rattle.pointing.specs.Pointing.{rest_from, aim_of, parameter_spot, row_spot, aimed_in, spot_in};

use crate::lines::is_data;
use crate::spots::{Spot, byte_spot, rest_from, word_from};
use crate::words::{Wanted, first_wrong};
use rules::{Form, Keyword};
use text::form_of;

// The first byte that is not permitted; the first word; the parameters of a keyword; N; a number of a domain; a number of
// a row, by its form or its value; the end of the file; or a row's line, and the end of a file that has none.
#[derive(Clone, Copy)]
pub enum Aim {
    Byte,
    FirstWord,
    Parameters,
    SecondWord,
    BoundValue,
    SampleForm,
    SampleValue,
    End,
    RowOrEnd,
}

// A line has at most so many bytes.
const LINE_LIMIT: usize = 250;

// By the refusal's number.
// Stays: a number, by the contract of point_at.
#[tactic(auto, unfolding(crate::specs::Pointing::aim_of))]
fn aim_of(number: u32) -> Aim
    ensures { result ≡ aim_of number }
{
    match number {
        2 => Aim::Byte,
        0..=5 => Aim::FirstWord,
        6 => Aim::Parameters,
        7 => Aim::SecondWord,
        8 => Aim::BoundValue,
        15 => Aim::SampleForm,
        16 | 17 => Aim::SampleValue,
        18 => Aim::End,
        _ => Aim::RowOrEnd,
    }
}

// Where the first word ends.
fn first_end(l: &[u8]) -> usize
    ensures { result ≡ word_end l.now 0 }
{
    let word = word_from(l, 0);
    word.place + word.length
}

// From the first parameter on to the line's end.
fn parameters_from(l: &[u8], from: usize) -> Spot
    requires { from ≤ length l.now }
    ensures { result ≡ rest_from l.now (word_start l.now from) }
{
    let word = word_from(l, from);
    rest_from(l, word.place)
}

// A title's text, N, or one of three numbers.
fn parameter_spot(keyword: Keyword, l: &[u8], from: usize) -> Spot
    requires l_len_bound { length l.now ≤ line_limit }
    requires from_in_bounds { from ≤ length l.now }
    ensures { result ≡ parameter_spot (Form.Keyed keyword) l.now from }
{
    match keyword {
        Keyword::ATitle => parameters_from(l, from),
        Keyword::ALower => first_wrong(l, from, Wanted::BoundForm, 3),
        Keyword::AnUpper => first_wrong(l, from, Wanted::BoundForm, 3),
        Keyword::ASize(_) => first_wrong(l, from, Wanted::Digits, 1),
    }
}

fn keyed_spot(form: Form, l: &[u8], from: usize) -> Spot
    requires l_len_bound { length l.now ≤ line_limit }
    requires from_in_bounds { from ≤ length l.now }
    ensures { result ≡ parameter_spot form l.now from }
{
    match form {
        Form::Idle => rest_from(l, l.len()),
        Form::Keyed(keyword) => parameter_spot(keyword, l, from),
        Form::Data => rest_from(l, l.len()),
        Form::Neither => rest_from(l, l.len()),
    }
}

// A row's line as a whole; another line is the last one of its file, and then it is the file's end.
fn row_spot(l: &[u8]) -> Spot
    ensures { result ≡ row_spot l.now }
{
    if is_data(l) {
        return rest_from(l, 0);
    }
    rest_from(l, l.len())
}

// In a line of at most 250 bytes.
fn aimed_in(aim: Aim, l: &[u8]) -> Spot
    requires { length l.now ≤ line_limit }
    ensures { result ≡ aimed_in aim l.now }
{
    match aim {
        Aim::Byte => byte_spot(l),
        Aim::FirstWord => word_from(l, 0),
        Aim::Parameters => keyed_spot(form_of(l), l, first_end(l)),
        Aim::SecondWord => word_from(l, first_end(l)),
        Aim::BoundValue => first_wrong(l, first_end(l), Wanted::BoundValue, 3),
        Aim::SampleForm => first_wrong(l, 0, Wanted::SampleForm, 3),
        Aim::SampleValue => first_wrong(l, 0, Wanted::SampleValue, 3),
        Aim::End => rest_from(l, l.len()),
        Aim::RowOrEnd => row_spot(l),
    }
}

// A line that is too long is wrong from its byte 250 on, whatever else it has.
pub fn spot_in(number: u32, l: &[u8]) -> Spot
    ensures { result ≡ spot_in number l.now }
{
    if l.len() > LINE_LIMIT {
        return rest_from(l, LINE_LIMIT);
    }
    aimed_in(aim_of(number), l)
}
