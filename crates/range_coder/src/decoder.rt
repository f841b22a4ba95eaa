ghost use Rattle.std.specs.Prelude.{◌<◌, ◌≤◌};

use bits::BitCursor;

// The range, the offset within it, and the bits that follow.
#[derive(Clone, Copy)]
pub struct Decoder<'a> {
    pub(crate) range: u64,
    pub(crate) offset: u64,
    pub(crate) cursor: BitCursor<'a>,
    ghost low: { 128 ≤ range },
    ghost high: { range ≤ 256 },
    ghost inside: { offset < range },
}
