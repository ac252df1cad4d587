// The SHA-256 checksum of bytes, as FIPS 180-4 defines it, and its text in hexadecimal digits.
#![tactic(auto)]

mod blocks;
mod constants;
mod functions;
mod padding;
mod schedule;
mod text;

ghost use Rattle.std.specs.Prelude.{◌≡◌};
ghost use Rattle.digest.specs.Sha256.{sha256, first_hash};

use blocks::hash_blocks;
use padding::{count_last_blocks, last_bytes};
pub use text::put_digest;

// Eight words: H0 to H7 of a checksum, which are a to h while a block is worked in.
// Stays: FIPS 180-4 calls them a to h, and so do the definitions of specs/Sha256; of `words: [u32; 8]`, e would be `words[4]`.
#[derive(Clone, Copy)]
pub struct Digest {
    pub a: u32,
    pub b: u32,
    pub c: u32,
    pub d: u32,
    pub e: u32,
    pub f: u32,
    pub g: u32,
    pub h: u32,
}

fn first_hash() -> Digest
    ensures { result ≡ first_hash }
{
    Digest {
        a: 0x6a09e667,
        b: 0xbb67ae85,
        c: 0x3c6ef372,
        d: 0xa54ff53a,
        e: 0x510e527f,
        f: 0x9b05688c,
        g: 0x1f83d9ab,
        h: 0x5be0cd19,
    }
}

// Whole blocks are read where they stand; only the last one or two are put together elsewhere.
pub fn digest_of(message: &[u8]) -> Digest
    ensures { result ≡ sha256 message.now }
{
    let whole = message.len() / 64;
    let rest = whole * 64;
    let after_whole = hash_blocks(first_hash(), message, whole);
    // modulo 2^64, as the definition has it
    let bits = (message.len() as u64) << 3;
    let last = last_bytes(&message[rest..], bits);
    hash_blocks(after_whole, &last, count_last_blocks(message.len() % 64))
}
