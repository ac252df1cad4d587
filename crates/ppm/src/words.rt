// What a picture's header is wrong in, in words.
use crate::{Fault, Kind, Part};
use std::fmt;

// As a header's numbers are called.
impl fmt::Display for Part {
    fn fmt<W: fmt::Write>(&self, f: &mut fmt::Formatter<W>) -> fmt::Result {
        f.write_str(match self {
            Part::Width => "width",
            Part::Height => "height",
            Part::Maxval => "maxval",
        })
    }
}

// What the bytes are, and what makes a P6 of them.
impl fmt::Display for Kind {
    fn fmt<W: fmt::Write>(&self, f: &mut fmt::Formatter<W>) -> fmt::Result {
        f.write_str(match self {
            Kind::PlainBitmap => PLAIN_BITMAP,
            Kind::PlainGreys => {
                "the picture is a P2, greys in text: ppmtoppm < IN > OUT makes a P6 of it"
            }
            Kind::PlainPixels => {
                "the picture is a P3, colours in text: ppmtoppm < IN > OUT makes a P6 of it"
            }
            Kind::Bitmap => {
                "the picture is a P4, black and white: ppmtoppm < IN > OUT makes a P6 of it"
            }
            Kind::Greys => "the picture is a P5, greys: ppmtoppm < IN > OUT makes a P6 of it",
            Kind::Unparted => "the picture does not begin with P6 and whitespace",
            Kind::Pam => {
                "the picture is a P7 (PAM): pamtopnm < IN | ppmtoppm > OUT makes a P6 of it"
            }
            Kind::Png => "the picture is a PNG: pngtopam IN | ppmtoppm > OUT makes a P6 of it",
            Kind::Jpeg => "the picture is a JPEG: jpegtopnm IN | ppmtoppm > OUT makes a P6 of it",
            Kind::Tiff => "the picture is a TIFF: tifftopnm IN | ppmtoppm > OUT makes a P6 of it",
            Kind::Other => OTHER,
        })
    }
}

const PLAIN_BITMAP: &str =
    "the picture is a P1, black and white in text: ppmtoppm < IN > OUT makes a P6 of it";

const OTHER: &str =
    "the picture does not begin with P6 and whitespace: convert IN ppm:- > OUT (ImageMagick) makes a P6 of many kinds of files";

// A number may be too great, and the greatest that it may be is told.
impl fmt::Display for Fault {
    fn fmt<W: fmt::Write>(&self, f: &mut fmt::Formatter<W>) -> fmt::Result {
        match self {
            Fault::NotP6(kind) => write!(f, "{kind}"),
            Fault::EndsEarly => f.write_str("the input ends in the picture's header"),
            Fault::Malformed(part) => {
                write!(f, "the header's {part} is not digits ended by whitespace")
            }
            Fault::Beyond(part) => {
                let most = part.most();
                write!(f, "the header's {part} is above {most}")
            }
        }
    }
}
