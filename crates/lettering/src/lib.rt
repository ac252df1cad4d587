// Text put into lent bytes: bytes, and numbers in decimal digits. A pen has the bytes and the place in them that comes next; each call moves it past what it
// put. How long a number's text is can be asked for beforehand.
#![tactic(auto)]

mod decimals;
mod digits;
mod signs;

ghost use Rattle.std.specs.Prelude.{[], ◌∷◌, ◌++◌};
ghost use Rattle.rules.specs.Decimals.{decimal};
ghost use Rattle.lettering.specs.Pens.{HasRoom, Adds};
ghost use Rattle.lettering.specs.Putting.{Room, Puts};

pub use decimals::count_decimals;
pub use digits::count_digits;

// Bytes from a place on, and the place past them.
// Stays: byte by byte, since copy_from_slice would ask for C's memmove, and the library asks for no name of C's.
fn put_bytes(out: &mut [u8], at: usize, text: &[u8]) -> usize
    requires { Room out.old at text.now }
    ensures { Puts out.old at text.now result out.new }
{
    for i in 0..text.len() {
        out[at + i] = text[i];
    }
    at + text.len()
}

// Lent bytes, and the place in them where the next text stands.
#[derive(Drop)]
pub struct Pen<'a> {
    pub bytes: &'a mut [u8],
    pub at: usize,
}

impl Pen<'_> {
    // Bytes as they are; all others stay.
    pub fn put(&mut self, text: &[u8])
        requires { HasRoom self.old text.now }
        ensures { Adds self.old text.now self.new }
    {
        self.at = put_bytes(self.bytes, self.at, text);
    }

    pub fn put_byte(&mut self, byte: u8)
        requires { HasRoom self.old (byte ∷ []) }
        ensures { Adds self.old (byte ∷ []) self.new }
    {
        self.bytes[self.at] = byte;
        self.at += 1;
    }

    // A text between two others.
    pub fn put_between(&mut self, start: &[u8], text: &[u8], end: &[u8])
        requires { HasRoom self.old (start.now ++ (text.now ++ end.now)) }
        ensures { Adds self.old (start.now ++ (text.now ++ end.now)) self.new }
    {
        self.put(start);
        self.put(text);
        self.put(end);
    }

    // A number, and the byte that ends it.
    pub fn put_count(&mut self, n: u64, end: u8)
        requires { HasRoom self.old (decimal n ++ (end ∷ [])) }
        ensures { Adds self.old (decimal n ++ (end ∷ [])) self.new }
    {
        self.put_decimal(n);
        self.put_byte(end);
    }
}
