//! Blocks of four by four pixels: how they are predicted, what levels add, and how they are said.
#![tactic(auto)]

ghost use Rattle.block.specs.Promise.{LevelsSuffice};
ghost use Rattle.block.specs.Syntax.{BlockReadBack};

mod block;
mod closeness;
mod prediction;
mod step;
mod syntax;
mod transform;

pub use block::{Block, MotionVector, Plane, PlaneSize, Prediction};
pub use closeness::{distance, is_close};
pub use step::Step;
pub use syntax::{read_block, write_block};
pub use transform::{nearest_levels, reconstruct, residual_at, residuals};

// Whatever a block is predicted from, there are levels that bring it within half a step of its source.
pub fn levels_suffice()
    ensures { LevelsSuffice }
{}

// A block that was said is read back.
pub fn block_read_back()
    ensures { BlockReadBack }
{}
