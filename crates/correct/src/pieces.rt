// The pixels, piece by piece: read, corrected, written.
ghost use Rattle.std.specs.Prelude.{◌≡◌, ◌≤◌, min, length, take};
ghost use Rattle.rules.specs.declared.Description.{Description};
ghost use Rattle.correct.specs.Jobs.{Agrees};
ghost use Rattle.correct.specs.Pieces.{Corrects, PieceGoes, Readable, Room, TrulyTold, most_pixels, passed_of, pixel_bytes};
ghost use Rattle.correct.specs.Sizes.{has_room, piece_bytes, piece_pixels};

use crate::ends::Ends;
use crate::headers::pixels;
use crate::jobs::{Job, Scales, depths_in};
use crate::space::Space;
use colour::Plan;
use picture::correct_all;
use ppm::{Excess, bytes_from, codes_from, count_within, excess_at};
use std::io::{Error, Write};

// Why not all pixels are written, and at which pixel it stopped.
#[derive(Clone, Copy)]
pub enum Stop {
    Cut(u64),
    TooGreat { pixel: u64, excess: Excess },
    Unread { pixel: u64, error: Error },
    Unwritten(Error),
}

// How many pixels of a piece were corrected, how many bytes those are, and the code that is too great after them, if there is one.
#[derive(Clone, Copy)]
struct Piece {
    pixels: usize,
    bytes: usize,
    excess: Option<Excess>,
}

// A piece is what fixed memory holds of a picture. The larger it is, the fewer are the reads and writes; and of a 1D table the codes that are kept are worked
// once a piece.
const PIECE_PIXELS: usize = 1_048_576;

// Whether lent space of these lengths holds a piece: as bytes, as raw and as corrected codes.
#[tactic(auto, unfolding(crate::specs::Sizes::has_room))]
pub fn has_room(bytes: usize, raw: usize, corrected: usize) -> bool
    ensures { result ≡ has_room bytes raw corrected }
{
    bytes >= PIECE_PIXELS * 6 && raw >= PIECE_PIXELS * 3 && raw <= corrected
}

// Corrects the pixels that the first n bytes are, up to the first that has a code above the greatest, into the same bytes.
// Stays: plan, table and scales are no struct, since what is promised here holds of every description that the plan is of, and a value has one.
// Nothing is judged here but the codes: the table was judged when it was read, and its plan is made once for the picture.
fn correct_piece(
    plan: Plan,
    table: &[i64],
    scales: Scales,
    bytes: &mut [u8],
    n: usize,
    raw: &mut [u16],
    corrected: &mut [u16],
) -> Piece
    requires readable { (d : Description) × Readable d table.now scales plan }
    requires room { Room scales n (length bytes.old) (length raw.old) (length corrected.old) }
    ensures corrects { (d : Description) → Readable d table.now scales plan → Corrects d table.now scales (take n bytes.old) result bytes.new }
    ensures few { result.pixels ≤ n }
{
    let of_raw = scales.raw;
    let of_corrected = scales.corrected;
    let count = codes_from(&bytes[..n], of_raw.wide, &mut *raw);
    let within = count_within(&raw[..count], of_raw.depth.greatest());
    let excess = excess_at(&raw[..count], within);
    let pixels = within / 3;
    let codes = pixels * 3;
    correct_all(
        plan,
        depths_in(scales),
        table,
        &raw[..codes],
        &mut *corrected,
    );
    let made = bytes_from(&corrected[..codes], of_corrected.wide, bytes);
    Piece {
        pixels,
        bytes: made,
        excess,
    }
}

fn pixel_bytes(wide: bool) -> usize
    ensures { result ≡ pixel_bytes wide }
{
    if wide { 6 } else { 3 }
}

// What became of a piece of so many pixels, once what could be corrected of it is written. Its first pixel has a number in the picture.
#[tactic(auto, unfolding(crate::specs::Pieces::passed_of, crate::specs::Pieces::passed_by))]
fn passed_of(piece: Piece, first: u64, want: usize) -> Result<(), Stop>
    requires { (first ≤ most_pixels) × (piece.pixels ≤ piece_bytes) }
    ensures { result ≡ passed_of piece first want }
{
    let pixel = first + piece.pixels as u64;
    if let Some(excess) = piece.excess {
        return Err(Stop::TooGreat { pixel, excess });
    }
    if piece.pixels < want {
        return Err(Stop::Cut(pixel));
    }
    Ok(())
}

// One piece of so many pixels.
fn pass_piece(
    ends: &mut Ends,
    plan: Plan,
    table: &[i64],
    scales: Scales,
    first: u64,
    want: usize,
    space: &mut Space<'_>,
) -> Result<(), Stop>
    requires readable { (d : Description) × Readable d table.now scales plan }
    requires first_le_most_pixels { (first ≤ most_pixels) × (want ≤ piece_pixels) }
    ensures { (d : Description) → Readable d table.now scales plan → PieceGoes d table.now scales first want result }
{
    let size = pixel_bytes(scales.raw.wide);
    let got = match ends.from.fill(&mut space.bytes[..want * size]) {
        Ok(got) => got,
        Err(error) => {
            return Err(Stop::Unread {
                pixel: first,
                error,
            });
        }
    };
    let piece = correct_piece(
        plan,
        table,
        scales,
        &mut *space.bytes,
        got,
        &mut *space.raw,
        &mut *space.corrected,
    );
    if let Err(error) = ends.to.write_all(&space.bytes[..piece.bytes]) {
        return Err(Stop::Unwritten(error));
    }
    passed_of(piece, first, want)
}

// At most a piece of what is left.
fn next_piece(left: u64) -> usize
    ensures { result ≡ min left piece_pixels }
{
    left.min(PIECE_PIXELS as u64) as usize
}

// The pixels of a picture whose header is written.
pub fn pass_all(
    ends: &mut Ends,
    plan: Plan,
    table: &[i64],
    job: Job,
    space: &mut Space<'_>,
) -> Result<(), Stop>
    requires readable { (d : Description) × Readable d table.now job.scales plan }
    requires agrees { Agrees job }
    ensures { TrulyTold job.scales.raw.depth.greatest result }
{
    let pixels = pixels(job.frame);
    for first in (0..pixels).step_by(PIECE_PIXELS) {
        let want = next_piece(pixels - first);
        pass_piece(ends, plan, table, job.scales, first, want, space)?;
    }
    Ok(())
}
