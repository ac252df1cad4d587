// The arguments after the verb and the table: a depth, a colour, a wanted code and a tolerance; then perhaps an option.
use desk::{Host, is_word_at};
use given::{MOST, corrected_width, value_at};
use rules::{Bits, Colour};

// Which raw code gives the wanted one. A code past 65,535 is one that no depth has, and a tolerance past it allows every code.
#[derive(Clone, Copy)]
pub struct Question {
    pub bits: Bits,
    pub colour: Colour,
    pub wanted: u32,
    pub tolerance: u32,
}

fn colour_at(host: &Host, place: usize) -> Option<Colour> {
    if is_word_at(host, place, b"red") {
        return Some(Colour::Red);
    }
    if is_word_at(host, place, b"green") {
        return Some(Colour::Green);
    }
    if is_word_at(host, place, b"blue") {
        return Some(Colour::Blue);
    }
    None
}

// What the arguments ask, where they can be understood.
pub fn read_arguments(host: &Host) -> Option<Question> {
    let raw = value_at(host, 3, MOST)?;
    let colour = colour_at(host, 4)?;
    let wanted = value_at(host, 5, MOST)?;
    let tolerance = value_at(host, 6, MOST)?;
    let corrected = corrected_width(host, 7, raw)?;
    Some(Question {
        bits: Bits { raw, corrected },
        colour,
        wanted,
        tolerance,
    })
}
