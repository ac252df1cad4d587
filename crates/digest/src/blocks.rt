// Blocks worked into the eight words (FIPS 180-4, 6.2.2).
ghost use Rattle.std.specs.Prelude.{◌≡◌, ◌*◌, ◌≤◌, length};
ghost use Rattle.digest.specs.Sha256.{T₁, T₂, worked, worked_in, added, hashed};

use crate::Digest;
use crate::constants::constant_at;
use crate::functions::{big_sigma_0, big_sigma_1, choose, majority};
use crate::schedule::schedule_of;

// The paper's T1.
fn first_sum(s: Digest, k: u32, w: u32) -> u32
    ensures { result ≡ T₁ s k w }
{
    s.h.wrapping_add(big_sigma_1(s.e))
        .wrapping_add(choose(s.e, s.f, s.g))
        .wrapping_add(k)
        .wrapping_add(w)
}

// The paper's T2.
fn second_sum(s: Digest) -> u32
    ensures { result ≡ T₂ s }
{
    big_sigma_0(s.a).wrapping_add(majority(s.a, s.b, s.c))
}

// One turn, with a constant and a word of the schedule.
fn work(s: Digest, k: u32, w: u32) -> Digest
    ensures { result ≡ worked s k w }
{
    let t1 = first_sum(s, k, w);
    let t2 = second_sum(s);
    Digest {
        a: t1.wrapping_add(t2),
        b: s.a,
        c: s.b,
        d: s.c,
        e: s.d.wrapping_add(t1),
        f: s.e,
        g: s.f,
        h: s.g,
    }
}

// All 64 turns.
fn work_in(s: Digest, w: &[u32; 64]) -> Digest
    ensures { result ≡ worked_in 64 w.now s }
{
    let mut worked = s;
    for t in 0..64 {
        worked = work(worked, constant_at(t), w[t]);
    }
    worked
}

// Word by word.
fn add_words(x: Digest, y: Digest) -> Digest
    ensures { result ≡ added x y }
{
    Digest {
        a: x.a.wrapping_add(y.a),
        b: x.b.wrapping_add(y.b),
        c: x.c.wrapping_add(y.c),
        d: x.d.wrapping_add(y.d),
        e: x.e.wrapping_add(y.e),
        f: x.f.wrapping_add(y.f),
        g: x.g.wrapping_add(y.g),
        h: x.h.wrapping_add(y.h),
    }
}

pub fn hash_blocks(first: Digest, bytes: &[u8], count: usize) -> Digest
    requires { count * 64 ≤ length bytes.now }
    ensures { result ≡ hashed count bytes.now first }
{
    let mut hash = first;
    for i in 0..count {
        let w = schedule_of(bytes, i * 64);
        hash = add_words(work_in(hash, &w), hash);
    }
    hash
}
