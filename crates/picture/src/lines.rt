// 1D: by kept codes, or colour by colour, since each is a matter of its own codes: a pass for each colour over every third place.
ghost use Rattle.std.specs.Prelude.{◌≡◌, true, List, ◌++◌, ◌≤◌, leb, ℤ, length, drop};
ghost use Rattle.rules.specs.Reading.Lines.{every};
ghost use Rattle.rules.specs.Units.{raw_m, corrected_m, colour_place};
ghost use Rattle.rules.specs.Looking.{line_code, correct};
ghost use Rattle.rules.specs.Picturing.{each_pixel};
ghost use Rattle.rules.specs.declared.Kind.TheVariants.{OneD};
ghost use Rattle.colour.specs.Plans.{Planned};
ghost use Rattle.colour.specs.Lines.{Lined};
ghost use Rattle.strips.specs.Strips.{LineAt, Stripped, StrippedIf};
ghost use Rattle.picture.specs.Filling.{Fillable, Inside};
ghost use Rattle.picture.specs.Passes.{line_by, strip_by, Passable, StripOver, Passed};

use crate::kept::{correct_kept, worth_keeping};
use colour::{Line, Plan, colour_place, line_code, line_of};
use rules::{Colour, Depths};
use strips::{Strip, lay_pieces, strip_code, strip_of};

// ---- a strip

// A pass in which each code is found by the piece of its cell.
fn pass_strip(
    strip: Strip,
    slopes: &[i64],
    bases: &[i64],
    src: &[u16],
    dst: &mut [u16],
    first: usize,
)
    requires strip_over { (table : List ℤ) × StripOver strip table slopes.now bases.now src.now }
    requires passable { Passable first src.now (length dst.old) }
    ensures { (table : List ℤ) (s : StripOver strip table slopes.now bases.now src.now) → Passed (strip_by s.stripped) first src.now dst.old dst.new }
{
    // Stays: with `for i in (first..src.len()).step_by(3)` a pixel at 16 bits takes 65.2 instructions, and so 56.2.
    let mut i = first;
    while i < src.len() {
        dst[i] = strip_code(strip, slopes, bases, src[i]);
        i += 3;
    }
}

// The pieces of all cells, then the pass.
fn correct_strip(strip: Strip, table: &[i64], src: &[u16], dst: &mut [u16], first: usize)
    requires inside { (s : Stripped strip table.now) × Inside (raw_m s.lined.planned.depths) src.now }
    requires passable { Passable first src.now (length dst.old) }
    ensures { (s : Stripped strip table.now) → Inside (raw_m s.lined.planned.depths) src.now → Passed (strip_by s) first src.now dst.old dst.new }
{
    let mut slopes: [i64; 1024] = [1; 1024];
    let mut bases: [i64; 1024] = [1; 1024];
    lay_pieces(strip, table, &mut slopes, &mut bases);
    pass_strip(strip, &slopes, &bases, src, dst, first);
}

// ---- code by code

fn pass_line(line: Line, table: &[i64], src: &[u16], dst: &mut [u16], first: usize)
    requires lined { Lined line table.now }
    requires passable { Passable first src.now (length dst.old) }
    ensures { (l : Lined line table.now) → Passed (line_by l) first src.now dst.old dst.new }
{
    // Stays: with `for i in (first..src.len()).step_by(3)` a pixel from 16 to 10 bits takes 163.4 instructions, and so 154.3.
    let mut i = first;
    while i < src.len() {
        dst[i] = line_code(line, table, src[i]);
        i += 3;
    }
}

// ---- each colour by its shortest way

// Laying out the pieces takes about as long as so many pixels do code by code, however few cells there are.
const FEW_PIXELS: usize = 128;

// The strip of a colour, if it is worth laying out: not for a few pixels, nor for fewer than there are cells.
fn strip_for(line: Line, depths: Depths, pixels: usize) -> Option<Strip>
    requires { (table : List ℤ) × LineAt line table (raw_m depths) (corrected_m depths) }
    ensures { (table : List ℤ) (l : LineAt line table (raw_m depths) (corrected_m depths)) → StrippedIf l.lined.planned.d l.lined.planned.depths line.colour table result }
{
    if pixels < FEW_PIXELS {
        return None;
    }
    if pixels < line.cells {
        return None;
    }
    strip_of(line, depths)
}

// By the strip, or else code by code.
fn correct_line(
    line: Line,
    depths: Depths,
    table: &[i64],
    src: &[u16],
    dst: &mut [u16],
    first: usize,
)
    requires line_at { LineAt line table.now (raw_m depths) (corrected_m depths) }
    requires inside { Inside (raw_m depths) src.now }
    requires passable { Passable first src.now (length dst.old) }
    ensures { (l : LineAt line table.now (raw_m depths) (corrected_m depths)) → Passed (line_by l.lined) first src.now dst.old dst.new }
{
    match strip_for(line, depths, src.len() / 3) {
        Some(strip) => correct_strip(strip, table, src, dst, first),
        None => pass_line(line, table, src, dst, first),
    }
}

// One colour of a picture that has passed every check.
fn correct_colour(line: Line, depths: Depths, table: &[i64], src: &[u16], dst: &mut [u16])
    requires depths_value { (l : Lined line table.now) × ((l.planned.depths ≡ depths) × (every (λ k. leb k (raw_m depths)) src.now ≡ true)) }
    requires src_in_bounds { length src.now ≤ length dst.old }
    ensures { (l : Lined line table.now) → l.planned.depths ≡ depths → Passed (line_code l.planned.d table.now depths line.colour) (colour_place line.colour) src.now dst.old dst.new }
{
    correct_line(line, depths, table, src, dst, colour_place(line.colour));
}

// All three.
fn correct_colours(plan: Plan, depths: Depths, table: &[i64], src: &[u16], dst: &mut [u16])
    requires depths_value { (p : Planned plan table.now) × ((p.depths ≡ depths) × (every (λ c. leb c (raw_m depths)) src.now ≡ true)) }
    requires kind_value { plan.kind ≡ OneD }
    requires fillable { Fillable src.now (length dst.old) }
    ensures { (p : Planned plan table.now) → p.depths ≡ depths → dst.new ≡ each_pixel (correct p.d table.now depths) src.now ++ drop (length src.now) dst.old }
{
    correct_colour(line_of(plan, Colour::Red), depths, table, src, &mut *dst);
    correct_colour(line_of(plan, Colour::Green), depths, table, src, &mut *dst);
    correct_colour(line_of(plan, Colour::Blue), depths, table, src, &mut *dst);
}

// Corrects a picture that has passed every check, of a plan of kind 1D.
pub fn correct_lines(plan: Plan, depths: Depths, table: &[i64], src: &[u16], dst: &mut [u16])
    requires depths_value { (p : Planned plan table.now) × ((p.depths ≡ depths) × (every (λ c. leb c (raw_m depths)) src.now ≡ true)) }
    requires kind_value { plan.kind ≡ OneD }
    requires fillable { Fillable src.now (length dst.old) }
    ensures { (p : Planned plan table.now) → p.depths ≡ depths → dst.new ≡ each_pixel (correct p.d table.now depths) src.now ++ drop (length src.now) dst.old }
{
    let count = depths.raw.greatest() as usize + 1;
    if worth_keeping(count, src.len() / 3) {
        correct_kept(plan, count, table, src, dst);
        return;
    }
    correct_colours(plan, depths, table, src, dst);
}
