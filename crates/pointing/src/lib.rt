// What a refusal points at in its file: the bytes that somebody has to change, or the place where some are missing.
#![tactic(auto)]

mod aims;
mod lines;
mod rows;
mod spots;
mod words;

ghost use Rattle.std.specs.Prelude.{◌≡◌, ◌+◌, ◌≤◌, length};
ghost use Rattle.pointing.specs.Pointing.{line_spot, pointed};

use aims::spot_in;
pub use lines::is_data;
use lines::line_past;
pub use rows::{rows_in, size_in};
pub use spots::Spot;

// A line of the file, counted from 1.
pub fn line_spot(file: &[u8], line: usize) -> Spot
    ensures is { result ≡ line_spot file.now line }
    ensures within { result.place + result.length ≤ length file.now }
{
    line_past(file, line.saturating_sub(1))
}

// What the refusal with a number and a line points at.
// Stays: a number and no Refusal, since `pointed file.now number line` is promised for any number, and to-the-point is about that.
pub fn point_at(file: &[u8], number: u32, line: usize) -> Spot
    ensures is { result ≡ pointed file.now number line }
    ensures within { result.place + result.length ≤ length file.now }
{
    let on = line_spot(file, line);
    let start = on.place;
    let end = start + on.length;
    let spot = spot_in(number, &file[start..end]);
    Spot {
        place: start + spot.place,
        length: spot.length,
    }
}
