// The pixels: codes of one byte, or of two, the greater first.
ghost use Rattle.std.specs.Prelude.{◌≡◌, ◌+◌, ◌*◌, ◌/◌, ◌%◌, ◌<◌, ◌≤◌, leb, length, get_or};
ghost use Rattle.rules.specs.Reading.Lines.{run};
ghost use Rattle.ppm.specs.Raster.{Copied, byte_count, bytes_of, code_count, codes_of};

// ---- bytes to codes

// How many codes so many bytes are.
fn code_count(bytes: usize, wide: bool) -> usize
    ensures { result ≡ code_count wide bytes }
{
    if wide { bytes / 2 } else { bytes }
}

// A code of two bytes.
fn joined(greater: u8, lesser: u8) -> u16
    ensures { result ≡ greater * 256 + lesser }
{
    u16::from_be_bytes([greater, lesser])
}

// One of the codes.
fn code_at(bytes: &[u8], wide: bool, i: usize) -> u16
    requires { i < code_count wide (length bytes.now) }
    ensures { result ≡ get_or (codes_of wide bytes.now) i 0 }
{
    if !wide {
        return u16::from(bytes[i]);
    }
    let first = i * 2;
    joined(bytes[first], bytes[first + 1])
}

// Puts the codes that bytes are at the start of `codes`, as many as there are and fit, and answers how many.
pub fn codes_from(bytes: &[u8], wide: bool, codes: &mut [u16]) -> usize
    ensures { Copied (codes_of wide bytes.now) codes.old result codes.new }
{
    let n = code_count(bytes.len(), wide).min(codes.len());
    for i in 0..n {
        codes[i] = code_at(bytes, wide, i);
    }
    n
}

// ---- codes to bytes

// How many bytes so many codes are; a count that is too great for a slice is never asked.
fn byte_count(codes: usize, wide: bool) -> usize
    requires { codes < 9_223_372_036_854_775_808 }
    ensures { result ≡ byte_count wide codes }
{
    if wide { codes * 2 } else { codes }
}

// One of the bytes.
fn byte_at(codes: &[u16], wide: bool, i: usize) -> u8
    requires { i < byte_count wide (length codes.now) }
    ensures { result ≡ get_or (bytes_of wide codes.now) i 0 }
{
    if !wide {
        let [_, lesser] = codes[i].to_be_bytes();
        return lesser;
    }
    let [greater, lesser] = codes[i / 2].to_be_bytes();
    if i % 2 == 0 { greater } else { lesser }
}

// Puts the bytes that codes are at the start of `bytes`, as many as there are and fit, and answers how many.
pub fn bytes_from(codes: &[u16], wide: bool, bytes: &mut [u8]) -> usize
    ensures { Copied (bytes_of wide codes.now) bytes.old result bytes.new }
{
    let n = byte_count(codes.len(), wide).min(bytes.len());
    for i in 0..n {
        bytes[i] = byte_at(codes, wide, i);
    }
    n
}

// ---- codes that are too great

// How many codes stand before the first that is above m.
pub fn count_within(codes: &[u16], m: u16) -> usize
    ensures counts { result ≡ length (run (λ c. leb c m) codes.now) }
    ensures within { result ≤ length codes.now }
{
    for (i, code) in codes.iter().enumerate() {
        if *code > m {
            return i;
        }
    }
    codes.len()
}
