// Which title the new file is to have.
ghost use Rattle.std.specs.Prelude.{◌≡◌};
ghost use Rattle.rewrite.specs.Anew.{marked};

use desk::{Host, argument_count, is_word_at};
use rules::{Description, Title};

// The old title, if any; the one that is given; or none.
// Stays: an `Option` in an `Option` would say the same in three ways that have no names.
#[derive(Clone, Copy)]
pub enum Wanted {
    Kept,
    New,
    Nothing,
}

// By what stands after the table's name; nothing, where that is not understood.
pub fn title_wanted(host: &Host) -> Option<Wanted> {
    let count = argument_count(host);
    if count == 3 {
        return Some(Wanted::Kept);
    }
    if count == 4 && is_word_at(host, 3, b"--no-title") {
        return Some(Wanted::Nothing);
    }
    if count == 5 && is_word_at(host, 3, b"--title") {
        return Some(Wanted::New);
    }
    None
}

// A description with the mark of a title, or without it.
pub fn marked(d: Description, there: bool) -> Description
    ensures { result ≡ marked d there }
{
    Description {
        title: Title {
            there,
            place: 0,
            length: 0,
        },
        ..d
    }
}
