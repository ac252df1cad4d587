// The types of documents 01 and 02. What the calls answer and promise over them is in specs/, the theorems are in proofs/.
#![tactic(auto)]

ghost use Rattle.std.specs.Prelude.{◌≡◌};
ghost use Rattle.rules.specs.Answers.{refusal_number};
ghost use Rattle.rules.specs.Units.{depth_of, depth_with, depths_of};

mod words;

// ---- units and depths

// A domain bound, in thousandths.
// Stays: this and TenMillionths are no `Units<PLACES>`: their limits don't follow from their places, so that each would be a parameter too.
#[derive(Clone, Copy, Debug, PartialEq, Eq)]
pub struct Thousandths(pub i64);

impl Thousandths {
    pub const PLACES: usize = 3;

    // 1 as a bound.
    pub const ONE: u64 = 1000;

    // Bounds lie from -10 to 10.
    pub const LEAST: i64 = -10_000;

    pub const GREATEST: i64 = 10_000;

    // A domain is at most 10 wide.
    pub const WIDEST: i64 = 10_000;
}

// A sample, in ten-millionths.
#[derive(Clone, Copy, Debug, PartialEq, Eq)]
pub struct TenMillionths(pub i64);

impl TenMillionths {
    pub const PLACES: usize = 7;

    // 1 as a sample.
    pub const ONE: u64 = 10_000_000;

    // A thousandth in ten-millionths.
    pub const THOUSANDTH: i64 = 10_000;

    // Samples lie from -1000 to 1000.
    pub const LEAST: i64 = -10_000_000_000;

    pub const GREATEST: i64 = 10_000_000_000;
}

// A depth: its width in bits, and its greatest code M. Only the constructors make one, so it is one of the four that are known.
#[derive(Clone, Copy, Debug, PartialEq, Eq)]
pub struct Depth {
    bits: u32,
    greatest: u16,
}

impl Depth {
    pub const BITS_8: u16 = 255;

    pub const BITS_10: u16 = 1023;

    pub const BITS_12: u16 = 4095;

    pub const BITS_16: u16 = 65535;

    // The depth of a width in bits; four widths are known.
    pub fn of(bits: u32) -> Option<Depth>
        ensures { result ≡ depth_of bits }
    {
        let greatest = match bits {
            8 => Depth::BITS_8,
            10 => Depth::BITS_10,
            12 => Depth::BITS_12,
            16 => Depth::BITS_16,
            _ => return None,
        };
        Some(Depth { bits, greatest })
    }

    // The depth whose greatest code this is.
    pub fn with_greatest(m: u64) -> Option<Depth>
        ensures { result ≡ depth_with m }
    {
        if m == Depth::BITS_8 as u64 {
            return Depth::of(8);
        }
        if m == Depth::BITS_10 as u64 {
            return Depth::of(10);
        }
        if m == Depth::BITS_12 as u64 {
            return Depth::of(12);
        }
        if m == Depth::BITS_16 as u64 {
            return Depth::of(16);
        }
        None
    }

    pub fn bits(self) -> u32
        ensures { result ≡ self.bits }
    {
        self.bits
    }

    // M.
    pub fn greatest(self) -> u16
        ensures { result ≡ self.greatest }
    {
        self.greatest
    }
}

// The widths in bits that are asked for: of raw and of corrected codes.
#[derive(Clone, Copy, Debug, PartialEq, Eq)]
pub struct Bits {
    pub raw: u32,
    pub corrected: u32,
}

// The depths of raw and of corrected codes.
#[derive(Clone, Copy, Debug, PartialEq, Eq)]
pub struct Depths {
    pub raw: Depth,
    pub corrected: Depth,
}

impl Depths {
    // The two depths, where both are known.
    pub fn of(bits: Bits) -> Option<Depths>
        ensures { result ≡ depths_of bits }
    {
        let raw = Depth::of(bits.raw)?;
        let corrected = Depth::of(bits.corrected)?;
        Some(Depths { raw, corrected })
    }
}

// ---- a table's description

#[derive(Clone, Copy, Debug, PartialEq, Eq)]
pub enum Colour {
    Red,
    Green,
    Blue,
}

#[derive(Clone, Copy, Debug, PartialEq, Eq)]
pub enum Kind {
    OneD,
    ThreeD,
}

impl Kind {
    // The greatest N of each kind.
    pub const MOST_1D: usize = 65_536;

    pub const MOST_3D: usize = 256;

    // The places of the greatest table, three for each row.
    pub const MOST_PLACES: usize = 3 * Kind::MOST_3D * Kind::MOST_3D * Kind::MOST_3D;
}

// What a size line gives.
#[derive(Clone, Copy, Debug, PartialEq, Eq)]
pub struct Size {
    pub kind: Kind,
    pub n: usize,
}

// One colour's domain.
#[derive(Clone, Copy, Debug, PartialEq, Eq)]
pub struct Domain {
    pub lower: Thousandths,
    pub upper: Thousandths,
}

// Whether there is a title, its first byte's place in the file, counted from 0, and its length.
// Stays: a flag, and no Option: a description that C gives may have any place and length where there is no title, and has them still (`title_at`).
#[derive(Clone, Copy, Debug, PartialEq, Eq)]
pub struct Title {
    pub there: bool,
    pub place: usize,
    pub length: usize,
}

#[derive(Clone, Copy, Debug, PartialEq, Eq)]
pub struct Description {
    pub kind: Kind,
    pub n: usize,
    pub red: Domain,
    pub green: Domain,
    pub blue: Domain,
    pub title: Title,
}

// ---- what words and lines give

// Why a word says no number in units, within a limit.
#[derive(Clone, Copy, Debug, PartialEq, Eq)]
pub enum NumberFault {
    Malformed,
    Beyond,
    Finer,
}

// What three words say as numbers.
#[derive(Clone, Copy)]
pub struct Three {
    pub first: Result<i64, NumberFault>,
    pub second: Result<i64, NumberFault>,
    pub third: Result<i64, NumberFault>,
}

// The three numbers of a DOMAIN_MIN or DOMAIN_MAX line.
#[derive(Clone, Copy, Debug, PartialEq, Eq)]
pub struct Bounds {
    pub red: Thousandths,
    pub green: Thousandths,
    pub blue: Thousandths,
}

// The three numbers of a data line.
#[derive(Clone, Copy, Debug, PartialEq, Eq)]
pub struct Row {
    pub red: TenMillionths,
    pub green: TenMillionths,
    pub blue: TenMillionths,
}

// A keyword; the two size words count as one.
#[derive(Clone, Copy, Debug, PartialEq, Eq)]
pub enum Keyword {
    ATitle,
    ALower,
    AnUpper,
    ASize(Kind),
}

// The form of a line: empty or a comment, by its keyword, data, or none of these.
#[derive(Clone, Copy, Debug, PartialEq, Eq)]
pub enum Form {
    Idle,
    Keyed(Keyword),
    Data,
    Neither,
}

// What a line gives: nothing (empty, or a comment), a title, lower or upper bounds, a size, or a row.
#[derive(Clone, Copy, Debug, PartialEq, Eq)]
pub enum Item {
    Nothing,
    OfTitle(Title),
    OfLower(Bounds),
    OfUpper(Bounds),
    OfSize(Size),
    OfRow(Row),
}

// ---- pixels, rows and weights

// One code of each colour: a pixel, and its answer.
#[derive(Clone, Copy, Debug, PartialEq, Eq)]
pub struct Codes {
    pub red: u16,
    pub green: u16,
    pub blue: u16,
}

// A row of the table, and the weight that it carries.
#[derive(Clone, Copy, Debug, PartialEq, Eq)]
pub struct Share {
    pub row: usize,
    pub weight: i64,
}

// Six rows and weights: in 1D two for each colour, in 3D four for the pixel. Two are left there: zeros where they are answered, and of no account where they are given.
#[derive(Clone, Copy, Debug, PartialEq, Eq)]
pub struct Shares {
    pub first: Share,
    pub second: Share,
    pub third: Share,
    pub fourth: Share,
    pub fifth: Share,
    pub sixth: Share,
}

// What is wrong with six rows and weights, where anybody may have written them.
#[derive(Clone, Copy, Debug, PartialEq, Eq)]
pub enum Misfit {
    RowBeyond,
    NegativeWeight,
    WrongSum,
}

// What an inverse is to come to: in one colour a wanted corrected code, within so many codes.
#[derive(Clone, Copy, Debug, PartialEq, Eq)]
pub struct Aim {
    pub colour: Colour,
    pub wanted: u16,
    pub tolerance: u32,
}

// ---- answers

// Why a call refuses, in the order of the papers' numbers.
#[derive(Clone, Copy, Debug, PartialEq, Eq)]
pub enum Refusal {
    LineTooLong,
    ByteNotPermitted,
    NeitherDataNorKeyword,
    KeywordAfterData,
    KeywordRepeated,
    ParametersWrong,
    SizeOutOfRange,
    DomainNumberWrong,
    NoSize,
    LowerNotBelowUpper,
    DomainTooWide,
    DomainsDiffer,
    TooLittleRoom,
    TooManyRows,
    NotThreeNumbers,
    SampleBeyond,
    SampleTooFine,
    TooFewRows,
    HalfADomain,
    DepthUnknown,
    PictureNotPixels,
    OutputTooShort,
    CodeTooGreat,
    CouldNotBeRead,
    RowsOrWeightsWrong,
    TitleNotPlain,
    NoneWithinTolerance,
    InputTooLong,
}

impl Refusal {
    // The number of document 01's table, and of the requests that add to it.
    // Stays: a number for a refusal, since document 01 and the C calls have these (`refusal_number`).
    #[tactic(auto, unfolding(crate::specs::Answers::refusal_number))]
    pub fn number(self) -> u32
        ensures { result ≡ refusal_number self }
    {
        match self {
            Refusal::LineTooLong => 1,
            Refusal::ByteNotPermitted => 2,
            Refusal::NeitherDataNorKeyword => 3,
            Refusal::KeywordAfterData => 4,
            Refusal::KeywordRepeated => 5,
            Refusal::ParametersWrong => 6,
            Refusal::SizeOutOfRange => 7,
            Refusal::DomainNumberWrong => 8,
            Refusal::NoSize => 9,
            Refusal::LowerNotBelowUpper => 10,
            Refusal::DomainTooWide => 11,
            Refusal::DomainsDiffer => 12,
            Refusal::TooLittleRoom => 13,
            Refusal::TooManyRows => 14,
            Refusal::NotThreeNumbers => 15,
            Refusal::SampleBeyond => 16,
            Refusal::SampleTooFine => 17,
            Refusal::TooFewRows => 18,
            Refusal::HalfADomain => 19,
            Refusal::DepthUnknown => 20,
            Refusal::PictureNotPixels => 21,
            Refusal::OutputTooShort => 22,
            Refusal::CodeTooGreat => 23,
            Refusal::CouldNotBeRead => 24,
            Refusal::RowsOrWeightsWrong => 26,
            Refusal::TitleNotPlain => 27,
            Refusal::NoneWithinTolerance => 28,
            Refusal::InputTooLong => 30,
        }
    }
}

// A file that reading refuses: why, and on which line.
#[derive(Clone, Copy, Debug, PartialEq, Eq)]
pub struct Refused {
    pub reason: Refusal,
    pub line: usize,
}

// What look answers.
#[derive(Clone, Copy, Debug, PartialEq, Eq)]
pub struct Looked {
    pub codes: Codes,
    pub shares: Shares,
}

// What the inverse answers: a raw code, and how many codes were tried.
#[derive(Clone, Copy, Debug, PartialEq, Eq)]
pub struct Inverted {
    pub code: u16,
    pub count: u64,
}

// Why there is none. That no code comes within the tolerance is known once all of them are tried, and is said with that count; the refusals before it have
// tried none.
#[derive(Clone, Copy, Debug, PartialEq, Eq)]
pub struct NotInverted {
    pub reason: Refusal,
    pub count: u64,
}
