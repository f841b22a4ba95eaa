// Random blocks, written and read back.
use crate::failure::Failure;
use crate::group::Group;
use crate::random::Random;
use block::{Block, MotionVector, Prediction};
use frame::FrameHeader;
use range_coder::{Reader, Writer};
use std::array;

// A number that is often 0 or small, and at times the largest that can be said.
fn random_number(random: &mut Random) -> i32 {
    match random.below(8) {
        0 => random.signed(65534),
        1 => random.signed(300),
        2 => 65534,
        3 => -65534,
        4 | 5 => random.signed(3),
        _ => 0,
    }
}

pub fn random_levels(random: &mut Random) -> [i32; 16] {
    if random.below(4) == 0 {
        [0; 16]
    } else {
        array::from_fn(|_| random_number(random))
    }
}

fn random_block(random: &mut Random, key: bool) -> Block {
    let levels = random_levels(random);
    let prediction = if key || random.coin() {
        Prediction::Flat(random.byte())
    } else {
        let dx = random_number(random);
        let dy = random_number(random);
        Prediction::Motion(MotionVector { dx, dy })
    };
    Block { prediction, levels }
}

// The blocks of a frame, in the order in which they are written.
#[derive(Clone, Copy)]
pub struct FrameBlocks<'a> {
    pub header: FrameHeader,
    pub blocks: &'a [Block],
}

impl FrameBlocks<'_> {
    // Writes the blocks one after the other. They share contexts, which adapt.
    pub fn write(self, writer: &mut Writer) {
        for block in self.blocks {
            block::write_block(writer, self.header.key, *block);
        }
    }

    // Reads blocks, which are to be these.
    pub fn check_read(self, group: &mut Group, case: &str, bytes: &[u8]) {
        let mut reader = Reader::new(bytes);
        for block in self.blocks {
            group.equal(
                case,
                block::read_block(&mut reader, self.header.key),
                *block,
            );
        }
    }
}

pub fn check_random_blocks(group: &mut Group) -> Result<(), Failure> {
    let mut random = Random::new(4);
    let mut blocks = [random_block(&mut random, true); 20];
    for _ in 0..100u8 {
        let key = random.coin();
        for block in &mut blocks {
            *block = random_block(&mut random, key);
        }
        let frame = FrameBlocks {
            header: FrameHeader { key },
            blocks: &blocks,
        };
        let mut writer = Writer::new();
        frame.write(&mut writer);
        let case = if key { "key frame" } else { "other frame" };
        frame.check_read(group, case, writer.finish());
    }
    Ok(())
}
