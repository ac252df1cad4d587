// What bytes that do not begin as a P6 picture are: another kind of picture, by its first four bytes, or something else.
ghost use Rattle.std.specs.Prelude.{◌≡◌, ◌≤◌, length};
ghost use Rattle.ppm.specs.Kinds.{netpbm_kind, kind_of};

// The pictures of netpbm are numbered from P1 to P7; a P6 that stands here has no whitespace after it.
#[derive(Clone, Copy, Debug, PartialEq, Eq)]
pub enum Kind {
    PlainBitmap,
    PlainGreys,
    PlainPixels,
    Bitmap,
    Greys,
    Unparted,
    Pam,
    Png,
    Jpeg,
    Tiff,
    Other,
}

// By the byte after a P.
#[tactic(auto, unfolding(crate::specs::Kinds::netpbm_kind))]
fn netpbm_kind(number: u8) -> Kind
    ensures { result ≡ netpbm_kind number }
{
    match number {
        b'1' => Kind::PlainBitmap,
        b'2' => Kind::PlainGreys,
        b'3' => Kind::PlainPixels,
        b'4' => Kind::Bitmap,
        b'5' => Kind::Greys,
        b'6' => Kind::Unparted,
        b'7' => Kind::Pam,
        _ => Kind::Other,
    }
}

#[tactic(auto, unfolding(crate::specs::Kinds::kind_of, crate::specs::Kinds::four_are, crate::specs::Kinds::jpeg_or_other))]
pub fn kind_of(s: &[u8]) -> Kind
    requires { 4 ≤ length s.now }
    ensures { result ≡ kind_of s.now }
{
    match s {
        [b'P', number, ..] => netpbm_kind(*number),
        [0x89, b'P', b'N', b'G', ..] => Kind::Png,
        [b'I', b'I', b'*', 0, ..] | [b'M', b'M', 0, b'*', ..] => Kind::Tiff,
        [0xff, 0xd8, ..] => Kind::Jpeg,
        _ => Kind::Other,
    }
}
