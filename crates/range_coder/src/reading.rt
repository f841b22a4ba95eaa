// Reading, one decision at a time.
ghost use Rattle.std.specs.Prelude.{◌≡◌, ◌%◌};
ghost use Rattle.bits.specs.Bits.{bits_of};
ghost use Rattle.range_coder.specs.Code.{HasRead, reader_of};
ghost use Rattle.range_coder.specs.Decisions.{read_adaptive, read_bypass, start_reader};

use crate::contexts::Contexts;
use crate::decoder::Decoder;
use crate::reader::Reader;

impl Reader<'_> {
    // A reader at the first bit of the bytes, with contexts that have seen nothing.
    pub fn new(bytes: &[u8]) -> Reader<'_>
        ensures bytes { result.decoder.cursor.bytes.now ≡ bytes.now }
        ensures start { reader_of result ≡ start_reader (bits_of bytes.now) }
    {
        Reader {
            decoder: Decoder::new(bytes),
            contexts: Contexts::new(),
        }
    }

    // An equiprobable bit.
    pub fn bypass(&mut self) -> bool
        ensures { HasRead read_bypass self.old self.new result }
    {
        let (decision, next) = self.decoder.decide(128);
        self.decoder = next;
        decision
    }

    // A decision in a context, one of 64, which learns from it.
    pub fn adaptive(&mut self, context: usize) -> bool
        ensures { HasRead (read_adaptive (context % 64)) self.old self.new result }
    {
        let (decision, next) = self.decoder.decide(self.contexts.get(context));
        self.decoder = next;
        self.contexts.learn(context, decision);
        decision
    }
}
