// 1D by kept codes: what each raw code is corrected to is worked once, colour by colour, and then looked up for each pixel.
ghost use Rattle.std.specs.Prelude.{◌≡◌, true, ◌++◌, ℕ, ◌≤◌, ◌<◌, length, get_or, drop};
ghost use Rattle.rules.specs.Looking.{correct};
ghost use Rattle.rules.specs.Picturing.{each_pixel};
ghost use Rattle.rules.specs.declared.Kind.TheVariants.{OneD};
ghost use Rattle.colour.specs.Plans.{Planned};
ghost use Rattle.colour.specs.Lines.{Lined};
ghost use Rattle.picture.specs.Filling.{Fillable};
ghost use Rattle.picture.specs.Passes.{line_by};
ghost use Rattle.picture.specs.Keeping.{Kept, kept_pixel, Listed};

use crate::pixels::{pixel_from, write_pixel};
use colour::{Line, Plan, line_code, line_of};
use rules::{Codes, Colour};

// As many raw codes as 12 bits have are kept at most.
const KEPT: usize = 4096;

// Whether so many codes are worth keeping: no more than there is room for, and fewer than the pixels.
pub fn worth_keeping(count: usize, pixels: usize) -> bool
    ensures { result ≡ true → count ≤ 4096 }
{
    count <= KEPT && count < pixels
}

// The corrected codes of the first raw codes.
fn keep_codes(line: Line, table: &[i64], kept: &mut [u16], count: usize)
    requires lined { Lined line table.now }
    requires count_in_bounds { count ≤ length kept.old }
    requires count_bound { count ≤ 65536 }
    ensures { (l : Lined line table.now) → Kept (line_by l) count kept.new }
{
    for c in 0..count {
        kept[c] = line_code(line, table, c as u16);
    }
}

// Those of a pixel.
fn kept_codes(reds: &[u16], greens: &[u16], blues: &[u16], pixel: Codes) -> Codes
    requires red_in_bounds { pixel.red < length reds.now }
    requires green_in_bounds { pixel.green < length greens.now }
    requires blue_in_bounds { pixel.blue < length blues.now }
    ensures { result ≡ kept_pixel reds.now greens.now blues.now pixel }
{
    Codes {
        red: reds[pixel.red as usize],
        green: greens[pixel.green as usize],
        blue: blues[pixel.blue as usize],
    }
}

// Pixel by pixel.
fn look_up(reds: &[u16], greens: &[u16], blues: &[u16], src: &[u16], dst: &mut [u16])
    requires listed { Listed reds.now greens.now blues.now src.now }
    requires fillable { Fillable src.now (length dst.old) }
    ensures { dst.new ≡ each_pixel (kept_pixel reds.now greens.now blues.now) src.now ++ drop (length src.now) dst.old }
{
    // Stays: with `for i in (0..src.len()).step_by(3)` a pixel at 10 bits takes 20.3 instructions, and so 19.1.
    let mut i = 0;
    while i < src.len() {
        let pixel = pixel_from(src, i);
        write_pixel(dst, i, kept_codes(reds, greens, blues, pixel));
        i += 3;
    }
}

// The corrected codes of all raw codes of the three colours, then the pixels.
pub fn correct_kept(plan: Plan, count: usize, table: &[i64], src: &[u16], dst: &mut [u16])
    requires planned { Planned plan table.now }
    requires kind_value { plan.kind ≡ OneD }
    requires count_bound { count ≤ 4096 }
    requires by_index { (k : ℕ) → k < length src.now → get_or src.now k 0 < count }
    requires fillable { Fillable src.now (length dst.old) }
    ensures { (p : Planned plan table.now) → dst.new ≡ each_pixel (correct p.d table.now p.depths) src.now ++ drop (length src.now) dst.old }
{
    // Ones, since for zeros the compiler would call a function of the C library, and this library needs none.
    let mut reds: [u16; 4096] = [1; 4096];
    let mut greens: [u16; 4096] = [1; 4096];
    let mut blues: [u16; 4096] = [1; 4096];
    keep_codes(line_of(plan, Colour::Red), table, &mut reds, count);
    keep_codes(line_of(plan, Colour::Green), table, &mut greens, count);
    keep_codes(line_of(plan, Colour::Blue), table, &mut blues, count);
    look_up(&reds, &greens, &blues, src, dst);
}
