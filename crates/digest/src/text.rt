// A checksum as people write it: 64 hexadecimal digits.
ghost use Rattle.std.specs.Prelude.{◌≡◌, ◌<◌};
ghost use Rattle.lettering.specs.Putting.{Room, Puts};
ghost use Rattle.digest.specs.Hexadecimal.{hex_byte, hex_word, hexadecimal};

use crate::Digest;

fn hex_byte(n: u32) -> u8
    requires { n < 16 }
    ensures { result ≡ hex_byte n }
{
    if n < 10 {
        return b'0' + n as u8;
    }
    b'a' - 10 + n as u8
}

// Eight digits.
fn put_word(out: &mut [u8], at: usize, word: u32) -> usize
    requires { Room out.old at (hex_word word) }
    ensures { Puts out.old at (hex_word word) result out.new }
{
    for i in 0..8 {
        let place = (7 - i) as u32;
        out[at + i] = hex_byte((word >> (4 * place)) % 16);
    }
    at + 8
}

pub fn put_digest(out: &mut [u8], at: usize, d: Digest) -> usize
    requires { Room out.old at (hexadecimal d) }
    ensures { Puts out.old at (hexadecimal d) result out.new }
{
    let mut end = at;
    for word in [d.a, d.b, d.c, d.d, d.e, d.f, d.g, d.h] {
        end = put_word(out, end, word);
    }
    end
}
