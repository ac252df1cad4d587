// The pixels of a picture: three codes each, red, green, blue.
ghost use Rattle.std.specs.Prelude.{◌≡◌, ◌+◌, ◌<◌, length};
ghost use Rattle.rules.specs.Answers.{codes_of};
ghost use Rattle.rules.specs.Memory.{spliced};
ghost use Rattle.picture.specs.Filling.{pixel_from};

use rules::Codes;

// The pixel whose codes begin at a place.
pub fn pixel_from(codes: &[u16], at: usize) -> Codes
    requires { at + 2 < length codes.now }
    ensures { result ≡ pixel_from codes.now at }
{
    Codes {
        red: codes[at],
        green: codes[at + 1],
        blue: codes[at + 2],
    }
}

// Writes a pixel's codes from a place on: red, green, blue.
pub fn write_pixel(dst: &mut [u16], at: usize, pixel: Codes)
    requires { at + 2 < length dst.old }
    ensures { dst.new ≡ spliced dst.old at (codes_of pixel) }
{
    dst[at] = pixel.red;
    dst[at + 1] = pixel.green;
    dst[at + 2] = pixel.blue;
}
