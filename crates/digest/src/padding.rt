// The end of a padded message (FIPS 180-4, 5.1.1): the bytes after the last whole block, a 1, zeros, and the length in bits.
ghost use Rattle.std.specs.Prelude.{◌≡◌, ℕ, ◌+◌, ◌*◌, ◌<◌, length, slice_index};
ghost use Rattle.digest.specs.Sha256.{ending};
ghost use Rattle.digest.specs.Parts.{ended, Alike};

// How many blocks the end has: two where the length has no room in the first.
pub fn count_last_blocks(used: usize) -> usize
    requires { used < 64 }
    ensures { (bits : ℕ) → result * 64 ≡ used + length (ending used bits) }
{
    if used < 56 {
        return 1;
    }
    2
}

// One byte of it.
fn last_byte(rest: &[u8], bits: u64, end: usize, i: usize) -> u8
    requires rest_len_bound { length rest.now < 64 }
    requires end_value { end ≡ length (ended rest.now bits) }
    ensures { result ≡ slice_index (ended rest.now bits) i }
{
    if i < rest.len() {
        return rest[i];
    }
    if i == rest.len() {
        return 128;
    }
    if i < end - 8 {
        return 0;
    }
    if i < end {
        let place = (end - 1 - i) as u64;
        return ((bits >> (8 * place)) % 256) as u8;
    }
    0
}

// All of it, and zeros where it has one block only.
pub fn last_bytes(rest: &[u8], bits: u64) -> [u8; 128]
    requires { length rest.now < 64 }
    ensures { Alike 128 result (ended rest.now bits) }
{
    let end = 64 * count_last_blocks(rest.len());
    let mut last = [0u8; 128];
    for i in 0..128 {
        last[i] = last_byte(rest, bits, end, i);
    }
    last
}
