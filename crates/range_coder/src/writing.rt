// Writing, one decision at a time.
ghost use Rattle.std.specs.Prelude.{◌≡◌, ℕ, ◌+◌, ◌*◌, ◌%◌, ◌^◌, ◌<◌, ◌≤◌, [], ◌∷◌};
ghost use Rattle.range_coder.specs.Code.{Finished, HasWritten, capacity, writer_of};
ghost use Rattle.range_coder.specs.Coding.{encoded, extended};
ghost use Rattle.range_coder.specs.Decisions.{adaptive, bypass, start_writer};

use crate::contexts::Contexts;
use crate::narrowing::narrow;
use crate::store::Store;
use crate::writer::Writer;

// The bits that the most bytes take, less one byte, so that the last decision finds room.
const CAPACITY: usize = 501816;

// The range doubled until it is at least 128, and how many doublings that took: at most seven rounds of a loop, as a
// rule of the project has it.
fn extend(mut range: u64) -> (u64, usize)
    requires { 1 ≤ range }
    ensures few { result.1 ≤ 7 }
    ensures doubles { (low length : ℕ) → extended 7 (record { low = low; range = range; length = length }) ≡ record { low = low * 2 ^ result.1; range = result.0; length = length + result.1 } }
{
    let mut doublings = 0;
    while range < 128 {
        range *= 2;
        doublings += 1;
    }
    (range, doublings)
}

impl Writer {
    pub fn new() -> Writer
        ensures start { writer_of result ≡ start_writer }
        ensures bits { result.bits ≡ 8 }
    {
        Writer {
            store: Store::Few([0; 1024]),
            range: 256,
            bits: 8,
            contexts: Contexts::new(),
        }
    }

    // A decision whose probability of `false` is p in 256ths. Where there is no room, nothing is written.
    fn write(&mut self, p: u8, decision: bool)
        ensures same { self.old.bits < capacity → (writer_of self.new).encoder ≡ encoded p decision (writer_of self.old).encoder }
        ensures contexts { self.new.contexts ≡ self.old.contexts }
        ensures spent { self.new.bits ≤ self.old.bits + 7 }
        ensures once { p ≡ 128 → self.new.bits ≤ self.old.bits + 1 }
        ensures full { capacity ≤ self.old.bits → writer_of self.new ≡ writer_of self.old }
    {
        if self.bits >= CAPACITY {
            return;
        }
        self.store.make_room(self.bits);
        let part = self
            .store
            .with_bytes(|bytes| narrow(bytes, self.bits, self.range, p, decision));
        let (range, doublings) = extend(part);
        self.range = range;
        self.bits += doublings;
    }

    // An equiprobable bit.
    pub fn bypass(&mut self, decision: bool)
        ensures { HasWritten 1 (bypass decision ∷ []) self.old self.new }
    {
        self.write(128, decision);
    }

    // A decision in a context, one of 64, which learns from it.
    pub fn adaptive(&mut self, context: usize, decision: bool)
        ensures { HasWritten 7 (adaptive (context % 64) decision ∷ []) self.old self.new }
    {
        let p = self.contexts.get(context);
        self.write(p, decision);
        self.contexts.learn(context, decision);
    }

    // The bytes that hold all that was written.
    pub fn finish(&self) -> &[u8]
        ensures { Finished self.now result.now }
    {
        bits::trimmed(self.store.as_slice(), (self.bits + 7) / 8)
    }
}
