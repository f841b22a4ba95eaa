ghost use Rattle.std.specs.Prelude.{◌<◌};

// Bytes, and the position of the next of their bits. It stops at the end of the bytes, so that no length overflows it.
// The bit's index is as wide as the byte's: a byte of its own would leave padding that is copied with every cursor,
// which made decoding take twice as long.
#[derive(Clone, Copy, Debug, PartialEq, Eq)]
pub struct BitCursor<'a> {
    pub bytes: &'a [u8],
    pub byte: usize,
    pub bit: u64,
    ghost within: { bit < 8 },
}
