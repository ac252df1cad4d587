// The five keywords, compared byte for byte, capitals included.
ghost use Rattle.std.specs.Prelude.{◌≡◌};
ghost use Rattle.rules.specs.Reading.Lines.{same};
ghost use Rattle.rules.specs.Reading.Contents.{keyword_of};

use rules::{Keyword, Kind};

const TITLE: [u8; 5] = *b"TITLE";

const DOMAIN_MIN: [u8; 10] = *b"DOMAIN_MIN";

const DOMAIN_MAX: [u8; 10] = *b"DOMAIN_MAX";

const LUT_1D_SIZE: [u8; 11] = *b"LUT_1D_SIZE";

const LUT_3D_SIZE: [u8; 11] = *b"LUT_3D_SIZE";

// The keyword that a word is.
pub fn keyword_of(w: &[u8]) -> Option<Keyword>
    ensures { result ≡ keyword_of w.now }
{
    if is_named(w, &TITLE) {
        return Some(Keyword::ATitle);
    }
    if is_named(w, &DOMAIN_MIN) {
        return Some(Keyword::ALower);
    }
    if is_named(w, &DOMAIN_MAX) {
        return Some(Keyword::AnUpper);
    }
    if is_named(w, &LUT_1D_SIZE) {
        return Some(Keyword::ASize(Kind::OneD));
    }
    if is_named(w, &LUT_3D_SIZE) {
        return Some(Keyword::ASize(Kind::ThreeD));
    }
    None
}

// Whether a word is a name, byte for byte.
pub fn is_named(w: &[u8], name: &[u8]) -> bool
    ensures { result ≡ same w.now name.now }
{
    w == name
}
