// The part of the range that a decision leaves.
ghost use Rattle.std.specs.Prelude.{◌≡◌, ℕ, ◌+◌, ◌*◌, ◌^◌, ◌<◌, ◌≤◌, false, length};
ghost use Rattle.bits.specs.Bits.{bits_of, prefix_value};
ghost use Rattle.range_coder.specs.Code.{encoder_in};
ghost use Rattle.range_coder.specs.Coding.{narrowed};

use crate::splitting::split;

// Narrows the range to the part of a decision: the bottom, which the first bits are, and the width, which is the answer.
// It takes fields and not a writer, since a writer's invariant doesn't hold of a range that is still to be doubled.
pub(crate) fn narrow(bytes: &mut [u8], bits: usize, range: u64, p: u8, decision: bool) -> u64
    requires room { (1 ≤ bits) × (bits ≤ 8 * length bytes.old) }
    requires limits { (128 ≤ range) × (range ≤ 256) }
    requires clean { (n : ℕ) → bits ≤ n → bits_of bytes.old n ≡ false }
    requires top { prefix_value bits (bits_of bytes.old) + range ≤ 2 ^ bits }
    ensures same { encoder_in bytes.new bits result ≡ narrowed p decision (encoder_in bytes.old bits range) }
    ensures clean { (n : ℕ) → bits ≤ n → bits_of bytes.new n ≡ false }
    ensures some { 1 ≤ result }
{
    let split = split(range, p);
    if !decision {
        return split;
    }
    let amount = split << (7 - (bits - 1) % 8);
    bits::add_at(bytes, (bits - 1) / 8, amount as u32);
    range - split
}
