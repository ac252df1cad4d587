// What the papers say, in words: what a refusal means, and the names of kinds and colours.
use crate::{Colour, Kind, Refusal};
use std::fmt;

// What the number of a refusal means, by document 01's table and the requests that add to it.
impl fmt::Display for Refusal {
    fn fmt<W: fmt::Write>(&self, f: &mut fmt::Formatter<W>) -> fmt::Result {
        f.write_str(match self {
            Refusal::LineTooLong => "line over 250 bytes",
            Refusal::ByteNotPermitted => "byte not permitted",
            Refusal::NeitherDataNorKeyword => "neither data nor known keyword",
            Refusal::KeywordAfterData => "keyword after data",
            Refusal::KeywordRepeated => "keyword repeated",
            Refusal::ParametersWrong => "parameters of a keyword wrong in count or form",
            Refusal::SizeOutOfRange => "N out of range",
            Refusal::DomainNumberWrong => DOMAIN_NUMBER_WRONG,
            Refusal::NoSize => "no size",
            Refusal::LowerNotBelowUpper => "a lower bound not below its upper bound",
            Refusal::DomainTooWide => "a domain wider than 10",
            Refusal::DomainsDiffer => DOMAINS_DIFFER,
            Refusal::TooLittleRoom => TOO_LITTLE_ROOM,
            Refusal::TooManyRows => "more data lines than rows",
            Refusal::NotThreeNumbers => "data line is not three numbers",
            Refusal::SampleBeyond => "sample beyond -1000 to 1000",
            Refusal::SampleTooFine => "sample no multiple of 0.0000001",
            Refusal::TooFewRows => "file ends with too few rows",
            Refusal::HalfADomain => "one of DOMAIN_MIN and DOMAIN_MAX without the other",
            Refusal::DepthUnknown => "depth unknown",
            Refusal::PictureNotPixels => "picture length no multiple of 3",
            Refusal::OutputTooShort => "output shorter than picture",
            Refusal::CodeTooGreat => "code above M",
            Refusal::CouldNotBeRead => "description and table that reading could not have given",
            Refusal::RowsOrWeightsWrong => ROWS_OR_WEIGHTS_WRONG,
            Refusal::TitleNotPlain => TITLE_NOT_PLAIN,
            Refusal::NoneWithinTolerance => NONE_WITHIN_TOLERANCE,
            Refusal::InputTooLong => "report input over 65,536 bytes",
        })
    }
}

// The meanings that take more than a line.

const DOMAIN_NUMBER_WRONG: &str = "domain number beyond -10 to 10 or no multiple of 0.001";

const DOMAINS_DIFFER: &str =
    "3D with domains that differ between colours, and a bound that is no whole number";

const TOO_LITTLE_ROOM: &str =
    "table shorter than 3 * rows, or bytes shorter than the text, so this program has too little room";

const ROWS_OR_WEIGHTS_WRONG: &str =
    "a row number not below the count of rows, a negative weight, or weights that do not add up to the denominator";

const TITLE_NOT_PLAIN: &str =
    "title over 242 bytes, with a quote, or with a byte that is not from space to tilde";

const NONE_WITHIN_TOLERANCE: &str = "no raw code comes within the tolerance of the wanted code";

// As the report names them.
impl fmt::Display for Kind {
    fn fmt<W: fmt::Write>(&self, f: &mut fmt::Formatter<W>) -> fmt::Result {
        f.write_str(match self {
            Kind::OneD => "1D",
            Kind::ThreeD => "3D",
        })
    }
}

impl fmt::Display for Colour {
    fn fmt<W: fmt::Write>(&self, f: &mut fmt::Formatter<W>) -> fmt::Result {
        f.write_str(match self {
            Colour::Red => "red",
            Colour::Green => "green",
            Colour::Blue => "blue",
        })
    }
}
