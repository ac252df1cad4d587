// The arguments after the verb and the table: a depth and a pixel, or a line of rows and weights, and what is asked about them.
ghost use Rattle.std.specs.Prelude.{◌≡◌};
ghost use Rattle.explain.specs.Questions.{pixel_asked};

use desk::{Host, argument_count, is_word_at};
use given::{MOST, MOST_ROW, corrected_width, value_at, weight_at};
use rules::{Bits, Codes, Share, Shares};

// What made a pixel's codes; the line of a pixel, with its rows and weights; or what codes such a line gives. There is no pixel where a code is greater than
// any depth has.
// Stays: `Option` and `Result` say two ways, and these are three that ask for different things.
#[derive(Clone, Copy)]
pub enum Question {
    Pixel { bits: Bits, pixel: Option<Codes> },
    LineOf { raw: u32, pixel: Option<Codes> },
    Line { bits: Bits, shares: Shares },
}

// The pixel, where a code of 16 bits holds each; none where one is greater than any depth has.
fn pixel_of(red: u32, green: u32, blue: u32) -> Option<Codes>
    ensures { result ≡ pixel_asked red green blue }
{
    if red > MOST || green > MOST || blue > MOST {
        return None;
    }
    Some(Codes {
        red: red as u16,
        green: green as u16,
        blue: blue as u16,
    })
}

// Whether the pixel's line is wanted, and nothing stands behind that.
fn line_wanted(host: &Host) -> bool {
    argument_count(host) == 8 && is_word_at(host, 7, b"--line")
}

// Four numbers; then perhaps an option.
fn read_pixel(host: &Host) -> Option<Question> {
    let raw = value_at(host, 3, MOST)?;
    let red = value_at(host, 4, MOST)?;
    let green = value_at(host, 5, MOST)?;
    let blue = value_at(host, 6, MOST)?;
    let pixel = pixel_of(red, green, blue);
    if line_wanted(host) {
        return Some(Question::LineOf { raw, pixel });
    }
    let corrected = corrected_width(host, 7, raw)?;
    let bits = Bits { raw, corrected };
    Some(Question::Pixel { bits, pixel })
}

// A row and its weight, each at its place.
fn share_at(host: &Host, row_place: usize, weight_place: usize) -> Option<Share> {
    let row = value_at(host, row_place, MOST_ROW)?;
    let weight = weight_at(host, weight_place)?;
    Some(Share {
        row: row as usize,
        weight,
    })
}

// Six rows, then their weights in the same order.
fn shares_given(host: &Host) -> Option<Shares> {
    let first = share_at(host, 5, 11)?;
    let second = share_at(host, 6, 12)?;
    let third = share_at(host, 7, 13)?;
    let fourth = share_at(host, 8, 14)?;
    let fifth = share_at(host, 9, 15)?;
    let sixth = share_at(host, 10, 16)?;
    Some(Shares {
        first,
        second,
        third,
        fourth,
        fifth,
        sixth,
    })
}

// The thirteen numbers of a line, behind the word that announces it; then perhaps the option.
fn read_line(host: &Host) -> Option<Question> {
    let raw = value_at(host, 4, MOST)?;
    let shares = shares_given(host)?;
    let corrected = corrected_width(host, 17, raw)?;
    let bits = Bits { raw, corrected };
    Some(Question::Line { bits, shares })
}

// What the arguments ask, or nothing that can be understood.
pub fn read_arguments(host: &Host) -> Option<Question> {
    if is_word_at(host, 3, b"--line") {
        return read_line(host);
    }
    read_pixel(host)
}
