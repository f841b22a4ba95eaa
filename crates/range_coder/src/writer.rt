ghost use Rattle.std.specs.Prelude.{◌≡◌, ℕ, ◌+◌, ◌^◌, ◌≤◌, false, length};
ghost use Rattle.bits.specs.Bits.{bits_of, prefix_value};
ghost use Rattle.range_coder.specs.Store.{size_of, stored};

use crate::contexts::Contexts;
use crate::store::Store;

// Writes decisions into bytes of its own: the bottom of the range, with zeros after its last bit.
#[derive(Drop)]
pub struct Writer {
    pub(crate) store: Store,
    pub(crate) range: u64,
    pub(crate) bits: usize,
    pub(crate) contexts: Contexts,
    ghost low: { 128 ≤ range },
    ghost high: { range ≤ 256 },
    ghost first: { 8 ≤ bits },
    ghost room: { bits ≤ 501824 },
    ghost sized: { length (stored store) ≡ size_of store },
    ghost top: { prefix_value bits (bits_of (stored store)) + range ≤ 2 ^ bits },
    ghost clean: { (n : ℕ) → bits ≤ n → bits_of (stored store) n ≡ false },
}
