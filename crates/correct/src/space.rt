// What the work is done with: a table that was read, and lent space for a piece of a picture.
ghost use Rattle.std.specs.Prelude.{◌≡◌, true, length};
ghost use Rattle.rules.specs.Descriptions.{could_be_read};
ghost use Rattle.correct.specs.Sizes.{Buffers};

use rules::Description;

// A table as reading gives it.
#[derive(Clone, Copy)]
pub struct Table<'a> {
    pub description: Description,
    pub places: &'a [i64],
    ghost was_read: { could_be_read description places.now ≡ true },
}

// A piece as bytes, as raw and as corrected codes.
#[derive(Drop)]
pub struct Space<'a> {
    pub bytes: &'a mut [u8],
    pub raw: &'a mut [u16],
    pub corrected: &'a mut [u16],
    ghost holds_a_piece: { Buffers (length bytes.now) (length raw.now) (length corrected.now) },
}
