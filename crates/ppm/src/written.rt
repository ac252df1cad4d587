// The header that is written, in its plainest form.
ghost use Rattle.lettering.specs.Putting.{Room, Puts};
ghost use Rattle.ppm.specs.Written.{header_text};

use lettering::Pen;

// Puts it at the start of `out` and answers its length.
// Stays: a slice and a length, since the clause `Puts` (lettering, specs/Putting.antt) speaks of just those, and the library has no heap for a String.
pub fn put_header(out: &mut [u8], width: u64, height: u64, maxval: u64) -> usize
    requires { Room out.old 0 (header_text width height maxval) }
    ensures { Puts out.old 0 (header_text width height maxval) result out.new }
{
    let mut pen = Pen { bytes: out, at: 0 };
    pen.put(b"P6\n");
    pen.put_count(width, b' ');
    pen.put_count(height, b'\n');
    pen.put_count(maxval, b'\n');
    pen.at
}
