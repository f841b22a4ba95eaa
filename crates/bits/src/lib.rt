//! Bytes as bits: reading them one by one, and adding to the number that they make.
#![tactic(auto)]

ghost use Rattle.std.specs.Prelude.{◌≡◌, ℕ, ◌+◌, ◌-◌, ◌^◌, ◌<◌, ◌≤◌, ◌⊎◌, length, take, slice_index};
ghost use Rattle.bits.specs.Bits.{bit, bits_of, byte_prefix, position, skip, unread};

mod cursor;

pub use cursor::BitCursor;

impl BitCursor<'_> {
    // At the first bit.
    pub fn start(bytes: &[u8]) -> BitCursor<'_>
        ensures bytes { result.bytes.now ≡ bytes.now }
        ensures first { position result ≡ 0 }
    {
        BitCursor {
            bytes,
            byte: 0,
            bit: 0,
        }
    }

    // The next bit, and the cursor after it.
    pub fn read(self) -> (u64, Self)
        ensures bytes { result.1.bytes.now ≡ self.entry.bytes.now }
        ensures value { result.0 ≡ bit (unread self.entry 0) }
        ensures next { unread result.1 ≡ skip 1 (unread self.entry) }
    {
        let Some(byte) = self.bytes.get(self.byte) else {
            return (0, self);
        };
        let value = u64::from((byte >> (7 - self.bit)) % 2);
        let after = self.bit + 1;
        let next = BitCursor {
            bytes: self.bytes,
            byte: self.byte + (after / 8) as usize,
            bit: after % 8,
        };
        (value, next)
    }
}

// Adds to the number that the bytes up to `last` make, carrying towards the front. Nothing changes where there is no byte `last`.
pub fn add_at(bytes: &mut [u8], last: usize, amount: u32)
    ensures sum { last < length bytes.old → byte_prefix (last + 1) bytes.old + amount < 256 ^ (last + 1) → byte_prefix (last + 1) bytes.new ≡ byte_prefix (last + 1) bytes.old + amount }
    ensures after { (k : ℕ) → last < k → slice_index bytes.new k ≡ slice_index bytes.old k }
    ensures outside { length bytes.old ≤ last → bytes.new ≡ bytes.old }
{
    if last >= bytes.len() {
        return;
    }
    let mut carry = u64::from(amount);
    // By index: after `iter_mut().rev()` a proof knows the length alone.
    for i in (0..=last).rev() {
        if carry == 0 {
            return;
        }
        let sum = u64::from(bytes[i]) + carry;
        bytes[i] = (sum % 256) as u8;
        carry = sum / 256;
    }
}

// The first `end` bytes without the zero bytes at their end, which say nothing.
pub fn trimmed(bytes: &[u8], end: usize) -> &[u8]
    ensures within { length result.now ≤ end }
    ensures same { bits_of result.now ≡ bits_of (take end bytes.now) }
    ensures last { (length result.now ≡ 0) ⊎ (0 < slice_index result.now (length result.now - 1)) }
{
    let mut kept = &bytes[..end.min(bytes.len())];
    while let [front @ .., 0] = kept {
        kept = front;
    }
    kept
}
