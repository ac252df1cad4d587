// Corrects binary PPM pictures by a .cube table, piece by piece and one after another: from standard input to standard output, or from file to file, in lent
// memory.
#![tactic(auto)]

mod call;
mod ends;
mod files;
mod headers;
mod jobs;
mod outcomes;
mod pictures;
mod pieces;
mod space;
mod words;

use call::{Call, Wanted, asked_for};
use desk::{Host, Input, Outcome, Output, load_argument};
use ends::Ends;
use files::correct_files;
use outcomes::outcome_on_output;
use pictures::pass_pictures;
use pieces::has_room;
use space::{Space, Table};
pub use words::help;

// The pictures on standard input.
fn correct_input(
    host: &mut Host,
    table: Table<'_>,
    wanted: Wanted,
    space: &mut Space<'_>,
) -> Outcome {
    let mut ends = Ends {
        from: Input::standard(host),
        to: Output::standard(host),
        named: false,
    };
    outcome_on_output(pass_pictures(host, &mut ends, table, wanted, space))
}

// By a table that was read: the pictures where the call says that they are.
fn correct_with(host: &mut Host, table: Table<'_>, call: Call, space: &mut Space<'_>) -> Outcome {
    if call.named {
        correct_files(host, table, call.wanted, space)
    } else {
        correct_input(host, table, call.wanted, space)
    }
}

// The table that the argument after the verb names, and then the pictures.
fn correct_by(
    host: &mut Host,
    file: &mut [u8],
    places: &mut [i64],
    call: Call,
    space: &mut Space<'_>,
) -> Outcome {
    match load_argument(host, 2, file, &mut *places) {
        Ok(loaded) => {
            let table = Table {
                description: loaded.description,
                places,
            };
            correct_with(host, table, call, space)
        }
        Err(why) => Outcome::from(why),
    }
}

// Whether the arguments ask for pictures to be corrected, for which a table is then loaded.
pub fn is_understood(host: &Host) -> bool {
    asked_for(host).is_some()
}

// What the arguments ask for, in lent space for the file, the table, and a piece of a picture as bytes, raw and corrected codes.
pub fn correct(
    host: &mut Host,
    file: &mut [u8],
    table: &mut [i64],
    bytes: &mut [u8],
    raw: &mut [u16],
    corrected: &mut [u16],
) -> Outcome {
    host.program = "erythmoda correct";
    let Some(call) = asked_for(host) else {
        let _ = help(&mut host.err);
        return Outcome::Failed;
    };
    if !has_room(bytes.len(), raw.len(), corrected.len()) {
        words::say_line(host, "too little memory was lent for the pixels");
        return Outcome::Failed;
    }
    let mut space = Space {
        bytes,
        raw,
        corrected,
    };
    correct_by(host, file, table, call, &mut space)
}
