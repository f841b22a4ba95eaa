// Numbers that look random and are the same for the same seed.
#[derive(Drop)]
pub struct Chance {
    state: u64,
}

impl Chance {
    pub fn new(seed: u64) -> Chance {
        Chance {
            state: seed.wrapping_mul(0x9e37_79b9_7f4a_7c15) | 1,
        }
    }

    fn next(&mut self) -> u64 {
        let mut x = self.state;
        x ^= x >> 12;
        x ^= x.wrapping_mul(1 << 25);
        x ^= x >> 27;
        self.state = x;
        x.wrapping_mul(0x2545_f491_4f6c_dd1d) >> 33
    }

    // True so many times in a hundred.
    pub fn of_hundred(&mut self, times: u64) -> bool {
        self.next() % 100 < times
    }
}
