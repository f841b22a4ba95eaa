//! The encoder: it chooses a block for each place, writes it, and keeps the picture that its bytes mean.
#![tactic(auto)]

mod choice;
mod coding;
mod encoding;
mod input;
mod levels;
mod measure;
mod motion;
mod promises;
mod session;

pub use coding::{code, code_frame, worst_case_size};
pub use input::FrameInput;
pub use measure::worst_distance;
pub use promises::{faithful, frames_kept, lossless_at_one, picture_near};
pub use session::{Encoder, Pushed};
