// How much memory a call takes, by what its arguments name. None of it is proved to be enough, and none has to be: with too little a file is refused.
use crate::verbs::Verb;
use crate::{help_wanted, verb_named};
use desk::{Host, argument, argument_count, hold};
use judge::{count_rows, in_range};
use pointing::size_in;
use rules::Kind;
use std::alloc::AllocError;

// A file of the largest table has some 600 MB.
const MOST_FILE: usize = 1_073_741_824;

// However short the files are, so much is lent, so that one that grows meanwhile may still fit.
const LEAST_FILE: usize = 65_536;

// crates/correct/src/pieces.rt
const PIECE_PIXELS: usize = 1_048_576;

// No text is longer than so many bytes, and so many more for each row: text-most in crates/rules/proofs/Writing/Lengths.antt.
const TEXT_BYTES: usize = 333;

const ROW_BYTES: usize = 39;

// Bytes of a file, rows of a table, pixels of a piece, and bytes of a text.
#[derive(Clone, Copy, Default)]
pub(crate) struct Room {
    file: usize,
    rows: usize,
    pixels: usize,
    text: usize,
}

#[derive(Drop)]
pub(crate) struct Lent {
    pub(crate) file: Vec<u8>,
    pub(crate) table: Vec<i64>,
    pub(crate) bytes: Vec<u8>,
    pub(crate) raw: Vec<u16>,
    pub(crate) corrected: Vec<u16>,
    pub(crate) text: Vec<u8>,
}

// Room for a file and one byte, to tell it from a longer one.
fn file_room(length: usize) -> usize {
    length.saturating_add(1).min(MOST_FILE)
}

// How many rows the size line of a file asks for.
fn rows_asked(file: &[u8]) -> usize {
    match size_in(file) {
        Some(size) if in_range(size.kind, size.n) => count_rows(size.kind, size.n),
        _ => 0,
    }
}

// Whether a verb loads the table that the argument after it names: where it does not understand its arguments, it says so and opens nothing.
fn loads_table(host: &Host, verb: Verb) -> bool {
    match verb {
        Verb::Explain => explain::is_understood(host),
        Verb::Correct => correct::is_understood(host),
        Verb::Rewrite => rewrite::is_understood(host),
        Verb::Invert => invert::is_understood(host),
        Verb::Report | Verb::Check | Verb::Help | Verb::Version | Verb::Unknown => false,
    }
}

// Room for that table, which is read here and held until the verb asks for it.
fn table_room(host: &mut Host) -> Room {
    let mut path = io::buffer();
    let n = argument(host, 2, &mut path);
    hold(host, &path[..n], MOST_FILE);
    let file = host.held();
    Room {
        file: file_room(file.len()),
        rows: rows_asked(file),
        ..Room::default()
    }
}

// Room for the file that an argument names.
fn named_room(host: &Host, place: usize) -> usize {
    let mut path = io::buffer();
    let n = argument(host, place, &mut path);
    match host.extent(&path[..n]) {
        Some(length) => file_room(length.min(MOST_FILE as u64) as usize),
        None => MOST_FILE,
    }
}

// Room for the longest of the files that the arguments after the verb name.
fn files_room(host: &Host) -> Room {
    let mut most = LEAST_FILE;
    for place in 2..argument_count(host) {
        most = most.max(named_room(host, place));
    }
    Room {
        file: most,
        ..Room::default()
    }
}

// Room for what a verb does, whose table is there.
fn verb_room(host: &mut Host, verb: Verb) -> Room {
    let mut room = table_room(host);
    if verb == Verb::Correct {
        room.pixels = PIECE_PIXELS;
    }
    if verb == Verb::Rewrite {
        room.text = room
            .rows
            .saturating_mul(ROW_BYTES)
            .saturating_add(TEXT_BYTES);
    }
    room
}

pub(crate) fn room_for(host: &mut Host) -> Room {
    if help_wanted(host) {
        return Room::default();
    }
    let verb = verb_named(host);
    if verb == Verb::Check {
        return files_room(host);
    }
    if !loads_table(host, verb) {
        return Room::default();
    }
    verb_room(host, verb)
}

pub(crate) fn lend(host: &Host, room: Room) -> Result<Lent, AllocError> {
    Ok(Lent {
        file: vec![in host.alloc(); 0; room.file]?,
        table: vec![in host.alloc(); 0; room.rows.saturating_mul(3)]?,
        bytes: vec![in host.alloc(); 0; room.pixels.saturating_mul(6)]?,
        raw: vec![in host.alloc(); 0; room.pixels.saturating_mul(3)]?,
        corrected: vec![in host.alloc(); 0; room.pixels.saturating_mul(3)]?,
        text: vec![in host.alloc(); 0; room.text]?,
    })
}
