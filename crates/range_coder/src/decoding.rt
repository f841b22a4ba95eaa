// Decoding one decision.
ghost use Rattle.std.specs.Prelude.{◌≡◌, ◌<◌, ◌≤◌};
ghost use Rattle.bits.specs.Bits.{bits_of, unread};
ghost use Rattle.range_coder.specs.Code.{decoder_of};
ghost use Rattle.range_coder.specs.Coding.{decided, decision, renormalised, start_decoder};

use crate::decoder::Decoder;
use crate::splitting::split;
use bits::BitCursor;

// The range doubled until it is at least 128, with bits for the offset's new low bits. The loop has at most seven
// rounds, and the decoder goes by value, with the place of the next bit in it: both are rules of the project.
fn renormalise(mut range: u64, mut offset: u64, mut cursor: BitCursor<'_>) -> Decoder<'_>
    requires some { 1 ≤ range }
    requires high { range ≤ 256 }
    requires inside { offset < range }
    ensures bytes { result.cursor.bytes.now ≡ cursor.entry.bytes.now }
    ensures is { decoder_of result ≡ renormalised 7 (record { range = range; offset = offset; rest = unread cursor.entry }) }
{
    while range < 128 {
        let (bit, next) = cursor.read();
        range *= 2;
        offset = 2 * offset + bit;
        cursor = next;
    }
    Decoder {
        range,
        offset,
        cursor,
    }
}

impl Decoder<'_> {
    // At the first bit: eight bits are the offset.
    pub(crate) fn new(bytes: &[u8]) -> Decoder<'_>
        ensures bytes { result.cursor.bytes.now ≡ bytes.now }
        ensures start { decoder_of result ≡ start_decoder (bits_of bytes.now) }
    {
        Decoder {
            range: 256,
            offset: bytes.first().map_or(0, |byte| u64::from(*byte)),
            cursor: BitCursor {
                bytes,
                byte: 1,
                bit: 0,
            },
        }
    }

    // The next decision, whose probability of `false` is p in 256ths, and the decoder after it.
    pub(crate) fn decide(self, p: u8) -> (bool, Self)
        ensures bytes { result.1.cursor.bytes.now ≡ self.entry.cursor.bytes.now }
        ensures value { result.0 ≡ decision p (decoder_of self.entry) }
        ensures next { decoder_of result.1 ≡ decided p (decoder_of self.entry) }
    {
        let split = split(self.range, p);
        if self.offset < split {
            (false, renormalise(split, self.offset, self.cursor))
        } else {
            (
                true,
                renormalise(self.range - split, self.offset - split, self.cursor),
            )
        }
    }
}
