// A run of pixels to corrected codes: all is judged once and one plan is made, then the pixels are corrected by the shortest way that is exact for it.
#![tactic(auto)]

ghost use Rattle.std.specs.Prelude.{◌≡◌, List, ◌++◌, true, ℕ, leb, ℤ, length, drop};
ghost use Rattle.rules.specs.Reading.Lines.{every};
ghost use Rattle.rules.specs.Units.{raw_m};
ghost use Rattle.rules.specs.Looking.{correct};
ghost use Rattle.rules.specs.Picturing.{each_pixel};
ghost use Rattle.rules.specs.Promises.{Pictures};
ghost use Rattle.colour.specs.Plans.{Planned};
ghost use Rattle.lanes.specs.Cubes.{Cuboid, CubedIf};
ghost use Rattle.picture.specs.Filling.{Fillable};

use colour::{Plan, correct, plan_of};
use cubes::{BLOCK, correct_cube};
use judge::could_be_read;
use lanes::{Way, cube_of};
use lines::correct_lines;
use pixels::{pixel_from, write_pixel};
use rules::{Bits, Depths, Description, Kind, Refusal};

mod cubes;
mod kept;
mod lines;
mod pixels;

// ---- 23, of all codes at once

// The greatest of the codes, and of none 0: it is at most m exactly if they all are.
fn greatest(codes: &[u16]) -> u16
    ensures { (m : ℕ) → leb result m ≡ every (λ c. leb c m) codes.now }
{
    let mut most = 0u16;
    for code in codes {
        most = most.max(*code);
    }
    most
}

// ---- each picture by its shortest way

// Pixel by pixel, by the way of look.
// Stays: here and in the other ways table, picture and output come as they are lent; a struct of the three would be read as `lent.src` and `lent.dst` at each use.
fn correct_each(plan: Plan, table: &[i64], src: &[u16], dst: &mut [u16])
    requires planned { Planned plan table.now }
    requires fillable { Fillable src.now (length dst.old) }
    ensures { (p : Planned plan table.now) → dst.new ≡ each_pixel (correct p.d table.now p.depths) src.now ++ drop (length src.now) dst.old }
{
    for i in (0..src.len()).step_by(3) {
        let pixel = pixel_from(src, i);
        write_pixel(dst, i, correct(plan, table, pixel));
    }
}

// The cube of a plan, if it is worth making: not for less than a block.
fn cube_for(plan: Plan, depths: Depths, codes: usize) -> Option<Way>
    requires { (table : List ℤ) × ((p : Cuboid plan table) × (p.planned.depths ≡ depths)) }
    ensures { (table : List ℤ) (p : Cuboid plan table) → p.planned.depths ≡ depths → CubedIf p.planned.d depths table result }
{
    if codes < BLOCK {
        return None;
    }
    cube_of(plan, depths)
}

// Corrects a picture that has passed every check, with its plan and the depths that it was made of. The codes are look's, whichever way they are found.
pub fn correct_all(plan: Plan, depths: Depths, table: &[i64], src: &[u16], dst: &mut [u16])
    requires depths_value { (p : Planned plan table.now) × ((p.depths ≡ depths) × (every (λ c. leb c (raw_m depths)) src.now ≡ true)) }
    requires fillable { Fillable src.now (length dst.old) }
    ensures { (p : Planned plan table.now) → p.depths ≡ depths → dst.new ≡ each_pixel (correct p.d table.now depths) src.now ++ drop (length src.now) dst.old }
{
    let Kind::ThreeD = plan.kind else {
        correct_lines(plan, depths, table, src, dst);
        return;
    };
    let Some(way) = cube_for(plan, depths, src.len()) else {
        correct_each(plan, table, src, dst);
        return;
    };
    match way {
        Way::Near(cube) => correct_cube(cube, true, table, src, dst),
        Way::Far(cube) => correct_cube(cube, false, table, src, dst),
    }
}

// The checks run 24, 20 for the raw depth and then for the corrected one, 21, 22, 23, all before the first code is written.
pub fn picture(
    d: Description,
    table: &[i64],
    bits: Bits,
    src: &[u16],
    dst: &mut [u16],
) -> Result<(), Refusal>
    ensures { Pictures d table.now bits src.now dst.old result dst.new }
{
    if !could_be_read(d, table) {
        return Err(Refusal::CouldNotBeRead);
    }
    let depths = Depths::of(bits).ok_or(Refusal::DepthUnknown)?;
    if src.len() % 3 != 0 {
        return Err(Refusal::PictureNotPixels);
    }
    if dst.len() < src.len() {
        return Err(Refusal::OutputTooShort);
    }
    if depths.raw.greatest() < greatest(src) {
        return Err(Refusal::CodeTooGreat);
    }
    correct_all(plan_of(d, depths), depths, table, src, dst);
    Ok(())
}
