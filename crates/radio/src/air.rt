// The way of packets from the sender to the receiver.
use crate::chance::Chance;
use console::Refusal;
use std::alloc::Global;
use std::collections::VecDeque;

// How many packets pass before a late one is delivered.
const DELAY: u64 = 4;

// How many packets in a hundred have which fate.
#[derive(Clone, Copy)]
pub struct Weather {
    seed: u64,
    lost: u64,
    doubled: u64,
    late: u64,
}

impl Weather {
    // How many numbers say it.
    pub const NUMBERS: usize = 4;

    // The weather that these numbers say, and where one is missing the usual one.
    pub fn new(numbers: &[u64]) -> Weather {
        let number = |place: usize, usual: u64| numbers.get(place).copied().unwrap_or(usual);
        Weather {
            seed: number(0, 1),
            lost: number(1, 20),
            doubled: number(2, 10),
            late: number(3, 10),
        }
    }
}

// A packet as it is written, and when.
#[derive(Drop)]
struct Late {
    packet: Vec<u8>,
    due: u64,
}

#[derive(Drop)]
pub struct Air {
    weather: Weather,
    chance: Chance,
    held: VecDeque<Late>,
    // How many packets were sent.
    now: u64,
}

impl Air {
    pub fn new(heap: Global, weather: Weather) -> Air {
        Air {
            weather,
            chance: Chance::new(weather.seed),
            held: VecDeque::new(heap),
            now: 0,
        }
    }

    // Sends a packet, after the late ones whose time has come.
    pub fn pass(&mut self, rt: &HostRuntime, packet: Vec<u8>) -> Result<(), Refusal> {
        self.deliver(rt, self.now)?;
        let due = self.now.saturating_add(DELAY);
        self.now = self.now.saturating_add(1);
        if self.chance.of_hundred(self.weather.lost) {
            return Ok(());
        }
        if self.chance.of_hundred(self.weather.late) {
            self.held.push_back(Late { packet, due })?;
            return Ok(());
        }
        if self.chance.of_hundred(self.weather.doubled) {
            rt.write_all(packet.as_slice())?;
        }
        rt.write_all(packet.as_slice())?;
        Ok(())
    }

    fn deliver(&mut self, rt: &HostRuntime, now: u64) -> Result<(), Refusal> {
        while let Some(late) = self.held.pop_front_if(|late| late.due <= now) {
            rt.write_all(late.packet.as_slice())?;
        }
        Ok(())
    }

    // Delivers what is still under way.
    pub fn end(&mut self, rt: &HostRuntime) -> Result<(), Refusal> {
        self.deliver(rt, u64::MAX)
    }
}
