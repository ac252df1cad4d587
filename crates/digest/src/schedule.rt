// The message schedule of one block (FIPS 180-4, 6.2.2, step 1).
ghost use Rattle.std.specs.Prelude.{◌≡◌, ◌+◌, ◌≤◌, length, take};
ghost use Rattle.digest.specs.Sha256.{word_of, word_at, words_at, scheduled, schedule};

use crate::functions::{small_sigma_0, small_sigma_1};

// Four bytes, the first of them the most significant.
fn word_of(a: u8, b: u8, c: u8, d: u8) -> u32
    ensures { result ≡ word_of a b c d }
{
    u32::from_be_bytes([a, b, c, d])
}

fn read_word(bytes: &[u8], at: usize) -> u32
    requires { at + 4 ≤ length bytes.now }
    ensures { result ≡ word_at bytes.now at }
{
    word_of(bytes[at], bytes[at + 1], bytes[at + 2], bytes[at + 3])
}

// The block's own 16 words, with room for the others.
fn read_block(bytes: &[u8], at: usize) -> [u32; 64]
    requires { at + 64 ≤ length bytes.now }
    ensures { take 16 result ≡ words_at 16 bytes.now at }
{
    let mut w = [0u32; 64];
    for t in 0..16 {
        w[t] = read_word(bytes, at + 4 * t);
    }
    w
}

// From the words 2, 7, 15 and 16 places before it.
fn next_word(w2: u32, w7: u32, w15: u32, w16: u32) -> u32
    ensures { result ≡ scheduled w2 w7 w15 w16 }
{
    small_sigma_1(w2)
        .wrapping_add(w7)
        .wrapping_add(small_sigma_0(w15))
        .wrapping_add(w16)
}

// Each of the others comes from those before it.
pub fn schedule_of(bytes: &[u8], at: usize) -> [u32; 64]
    requires { at + 64 ≤ length bytes.now }
    ensures { result ≡ schedule (words_at 16 bytes.now at) }
{
    let mut w = read_block(bytes, at);
    for t in 16..64 {
        w[t] = next_word(w[t - 2], w[t - 7], w[t - 15], w[t - 16]);
    }
    w
}
