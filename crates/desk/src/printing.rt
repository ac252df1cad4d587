// What is printed beside what std prints: samples in plain decimals.
use crate::host::Output;
use lettering::Pen;
use rules::TenMillionths;
use std::io;
use std::io::Write;
use whole::Whole;

// The longest text of a sample in 64 bits: a sign, 12 digits, a point and 7 places.
const LONGEST: usize = 21;

// As `-0.5`, `1` or `0.0000001`.
pub fn write_sample(out: &mut Output, sample: TenMillionths) -> io::Result<()> {
    let mut text = [0u8; LONGEST];
    let mut pen = Pen {
        bytes: &mut text,
        at: 0,
    };
    pen.put_decimals(Whole(sample.0));
    let count = pen.at;
    out.write_all(&text[..count])
}
