// The keys and places of a block of codes: one loop over all of them, with the lane of each at the same place, so that the compiler takes several at once.
ghost use Rattle.std.specs.Prelude.{◌≡◌, ◌≤◌, ◌<◌, length};
ghost use Rattle.lanes.specs.Spots.{lane_at, Laid, spot_at, key_at, start_at, Roomy, Spotted};

use crate::cube::Lanes;
use crate::lane::{Lane, WHOLE};

// The lane of the code at a place of a block that begins with a pixel.
fn lane_at(lanes: Lanes, place: usize) -> Lane
    ensures { result ≡ lane_at lanes place }
{
    match place % 3 {
        0 => lanes.red,
        1 => lanes.green,
        _ => lanes.blue,
    }
}

// The lanes one after another, colour by colour.
// Stays: the numbers of the lanes are three slices and no struct of slices. `laid.times[j]`, `laid.from[j]`, `laid.strides[j]` would still need a clause that
// the three are equally long, here and in every function that takes them.
pub fn lay_lanes(lanes: Lanes, times: &mut [u64], from: &mut [u64], strides: &mut [u64])
    requires from_len { length from.old ≡ length times.old }
    requires strides_len { length strides.old ≡ length times.old }
    ensures { Laid lanes (length times.old) times.new from.new strides.new }
{
    for j in 0..times.len() {
        let lane = lane_at(lanes, j);
        times[j] = lane.times as u64;
        from[j] = lane.from;
        strides[j] = lane.stride as u64;
    }
}

// Where a code stands, by the numbers of its lane. These are below 2^32, which is said again to the compiler: it then multiplies numbers of 32 bits, two
// at once.
fn spot_at(code: u16, times: u64, from: u64) -> u64
    requires times_bound { times < 4_294_967_296 }
    requires from_bound { from ≤ 1_152_921_504_606_846_976 }
    ensures { result ≡ spot_at code times from }
{
    code as u64 * (times % WHOLE) + from
}

// Its fraction over D, rounded up, and the stride.
fn key_at(den: u32, spot: u64, stride: u64) -> u64
    requires { stride < 4_294_967_296 }
    ensures { result ≡ key_at den spot stride }
{
    let part = spot % WHOLE * den as u64 + 4_294_967_295;
    part / WHOLE * WHOLE + stride
}

// The place of its index.
fn start_at(spot: u64, stride: u64) -> u64
    requires { stride < 4_294_967_296 }
    ensures { result ≡ start_at spot stride }
{
    spot / WHOLE * (stride % WHOLE)
}

// The key and the place of each code.
pub fn find_spots(
    den: u32,
    codes: &[u16],
    times: &[u64],
    from: &[u64],
    strides: &[u64],
    keys: &mut [u64],
    starts: &mut [u64],
)
    requires { Roomy (length codes.now) times.now from.now strides.now (length keys.old) (length starts.old) }
    ensures { Spotted den codes.now times.now from.now strides.now keys.new starts.new }
{
    // Stays: with `for j in 0..codes.len()` here and `for` over the pixels of a block one at 10 bits takes 147.8 instructions, and so 131.2.
    let mut j = 0;
    while j < codes.len() {
        let spot = spot_at(codes[j], times[j], from[j]);
        let stride = strides[j];
        keys[j] = key_at(den, spot, stride);
        starts[j] = start_at(spot, stride);
        j += 1;
    }
}
