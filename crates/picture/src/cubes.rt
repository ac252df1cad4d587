// 3D by a cube: a block of codes at a time, first the keys and places of all its codes, then its pixels.
ghost use Rattle.std.specs.Prelude.{◌≡◌, true, ◌++◌, ◌+◌, ◌≤◌, ◌<◌, min, length, drop};
ghost use Rattle.rules.specs.Picturing.{each_pixel};
ghost use Rattle.lanes.specs.Cubes.{Cubed, Nearby};
ghost use Rattle.lanes.specs.Spots.{Laid};
ghost use Rattle.picture.specs.Filling.{Fillable};
ghost use Rattle.picture.specs.Blocks.{correct_by, Within, start_from, spot_from, Blocked, FilledTo};

use crate::pixels::write_pixel;
use lanes::{Cube, Spot, codes_by, find_spots, lay_lanes};

// Whole pixels, and not so many codes that their keys leave the nearest memory.
pub const BLOCK: usize = 192;

fn block_end(at: usize, len: usize) -> usize
    requires { at ≤ len }
    ensures { result ≡ min (at + 192) len }
{
    if len - at > BLOCK { at + BLOCK } else { len }
}

// The start and the keys of the pixel that begins at a place of the block.
fn spot_from(keys: &[u64], starts: &[u64], j: usize) -> Spot
    requires j_in_bounds { j + 2 < length keys.now }
    requires j_in_bounds_2 { j + 2 < length starts.now }
    requires j_bound { start_from starts.now j < 9_223_372_036_854_775_808 }
    ensures { result ≡ spot_from keys.now starts.now j }
{
    Spot {
        start: starts[j] + starts[j + 1] + starts[j + 2],
        red: keys[j],
        green: keys[j + 1],
        blue: keys[j + 2],
    }
}

// The pixels of a block, near or far.
fn correct_pixels<const NEAR: bool>(
    cube: Cube,
    table: &[i64],
    keys: &[u64],
    starts: &[u64],
    dst: &mut [u16],
    at: usize,
    end: usize,
)
    requires nearby { NEAR ≡ true → Nearby cube }
    requires blocked { Blocked cube table.now keys.now starts.now dst.old at end }
    ensures { (b : Blocked cube table.now keys.now starts.now dst.old at end) → FilledTo b end dst.new }
{
    // Stays: with `for j in (0..end - at).step_by(3)` here and `for` in `find_spots` a pixel at 10 bits takes 147.8 instructions, and so 131.2.
    let mut i = at;
    let mut j = 0;
    while i < end {
        let spot = spot_from(keys, starts, j);
        write_pixel(dst, i, codes_by::<NEAR>(cube, table, spot));
        i += 3;
        j += 3;
    }
}

// A block, by the way that the cube allows.
// Stays: near is asked here, once a block, and is no constant from `correct_cube` on: then near and far would be two programs, each called once and so compiled
// into the call itself, where a pixel takes 6 % more instructions.
fn correct_block(
    cube: Cube,
    near: bool,
    table: &[i64],
    keys: &[u64],
    starts: &[u64],
    dst: &mut [u16],
    at: usize,
    end: usize,
)
    requires nearby { near ≡ true → Nearby cube }
    requires blocked { Blocked cube table.now keys.now starts.now dst.old at end }
    ensures { (b : Blocked cube table.now keys.now starts.now dst.old at end) → FilledTo b end dst.new }
{
    if near {
        correct_pixels::<true>(cube, table, keys, starts, dst, at, end);
    } else {
        correct_pixels::<false>(cube, table, keys, starts, dst, at, end);
    }
}

// All blocks, with the lanes laid out for one and room for its keys and places.
fn correct_blocks(
    cube: Cube,
    near: bool,
    table: &[i64],
    src: &[u16],
    dst: &mut [u16],
    times: &[u64],
    from: &[u64],
    strides: &[u64],
    keys: &mut [u64],
    starts: &mut [u64],
)
    requires within { (q : Cubed cube table.now) × Within q src.now }
    requires nearby { near ≡ true → Nearby cube }
    requires fillable { Fillable src.now (length dst.old) }
    requires laid { Laid cube.lanes 192 times.now from.now strides.now }
    requires keys_len { length keys.old ≡ 192 }
    requires starts_len { length starts.old ≡ 192 }
    ensures { (q : Cubed cube table.now) → Within q src.now → dst.new ≡ each_pixel (correct_by q) src.now ++ drop (length src.now) dst.old }
{
    let den = cube.axis.den as u32;
    for at in (0..src.len()).step_by(BLOCK) {
        let end = block_end(at, src.len());
        find_spots(
            den,
            &src[at..end],
            times,
            from,
            strides,
            &mut *keys,
            &mut *starts,
        );
        correct_block(cube, near, table, &*keys, &*starts, &mut *dst, at, end);
    }
}

// Corrects a picture that has passed every check.
pub fn correct_cube(cube: Cube, near: bool, table: &[i64], src: &[u16], dst: &mut [u16])
    requires within { (q : Cubed cube table.now) × Within q src.now }
    requires nearby { near ≡ true → Nearby cube }
    requires fillable { Fillable src.now (length dst.old) }
    ensures { (q : Cubed cube table.now) → Within q src.now → dst.new ≡ each_pixel (correct_by q) src.now ++ drop (length src.now) dst.old }
{
    // Ones, since for zeros the compiler would call a function of the C library, and this library needs none.
    let mut times: [u64; 192] = [1; 192];
    let mut from: [u64; 192] = [1; 192];
    let mut strides: [u64; 192] = [1; 192];
    let mut keys: [u64; 192] = [1; 192];
    let mut starts: [u64; 192] = [1; 192];
    lay_lanes(cube.lanes, &mut times, &mut from, &mut strides);
    correct_blocks(
        cube,
        near,
        table,
        src,
        dst,
        &times,
        &from,
        &strides,
        &mut keys,
        &mut starts,
    );
}
