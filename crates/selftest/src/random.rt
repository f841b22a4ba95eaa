// Numbers that look random and are the same in each run: a xorshift generator.
ghost use Rattle.std.specs.Prelude.{◌<◌};

#[derive(Drop)]
pub struct Random {
    state: u64,
}

impl Random {
    pub fn new(seed: u64) -> Random {
        Random { state: seed | 1 }
    }

    fn next(&mut self) -> u64 {
        self.state ^= self.state << 13;
        self.state ^= self.state >> 7;
        self.state ^= self.state << 17;
        self.state
    }

    // 0 to one below the limit; 0 if the limit is 0.
    pub fn below(&mut self, limit: u64) -> u64
        ensures { 0 < limit → result < limit }
    {
        (self.next() >> 16).checked_rem(limit).unwrap_or(0)
    }

    pub fn byte(&mut self) -> u8 {
        (self.next() >> 24 & 0xff) as u8
    }

    pub fn coin(&mut self) -> bool {
        self.below(2) == 0
    }

    // A number of either sign, at most so large.
    pub fn signed(&mut self, most: u16) -> i32 {
        let size = self.below(u64::from(most) + 1) as i32;
        if self.coin() { size } else { -size }
    }

    pub fn fill(&mut self, pixels: &mut [u8]) {
        pixels.fill_with(|| self.byte());
    }
}
