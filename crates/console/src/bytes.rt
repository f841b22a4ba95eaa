// Bytes read and taken.
ghost use Rattle.std.specs.Prelude.{◌≡◌, ◌+◌, ◌-◌, ◌^◌, min, true, false, not, ◌||◌, [], length, drop, IfOk, OnOk, nat_le, nat_lt};
ghost use Rattle.console.specs.Source.{Grown};

use crate::file_or::Input;
use crate::refusal::Refusal;
use crate::source::Source;
use std::alloc::Global;
use std::io::Read;

// How many bytes are read at once.
const PIECE: usize = 4096;

impl Source {
    pub fn new(heap: Global, input: Input) -> Source
        ensures { (result.held.items ≡ []) × ((result.position ≡ 0) × (result.ended ≡ false)) }
    {
        Source {
            input,
            held: Vec::new(heap),
            position: 0,
            ended: false,
        }
    }

    // What was read and is not taken.
    pub fn front(&self) -> &[u8]
        ensures { result.now ≡ self.now.held.items }
    {
        self.held.as_slice()
    }

    // Where the front stands in the input.
    pub fn position(&self) -> u64
        ensures { result ≡ self.now.position }
    {
        self.position
    }

    // Reads a piece more, and says whether there was one.
    pub fn read_more(&mut self) -> Result<bool, Refusal>
        ensures grown { Grown self.old self.new }
        ensures more { IfOk result (λ more. more ≡ nat_lt (length self.old.held.items) (length self.new.held.items)) }
        ensures ended { IfOk result (λ more. more ≡ not self.new.ended) }
    {
        if self.ended {
            return Ok(false);
        }
        let mut piece = [0u8; PIECE];
        let count = self.input.read(&mut piece)?;
        self.ended = count == 0;
        self.held.extend_from_slice(&piece[0..count])?;
        Ok(count > 0)
    }

    // Reads until so many bytes are held, or the input ends.
    pub fn fill(&mut self, count: usize) -> Result<(), Refusal>
        ensures grown { Grown self.old self.new }
        ensures filled { OnOk result ((nat_le count (length self.new.held.items) || self.new.ended) ≡ true) }
    {
        while self.held.len() < count && self.read_more()? {}
        Ok(())
    }

    // Takes so many bytes, or all if there are fewer.
    pub fn take(&mut self, count: usize)
        ensures front { self.new.held.items ≡ drop count self.old.held.items }
        ensures position { self.new.position ≡ min (self.old.position + min count (length self.old.held.items)) (2 ^ 64 - 1) }
    {
        let count = count.min(self.held.len());
        let left = self.held.len() - count;
        self.held.copy_within(count.., 0);
        self.held.truncate(left);
        self.position = self.position.saturating_add(count as u64);
    }
}
