// What is chosen for a block.
use block::{Block, Prediction};

// A prediction and the pixels that it makes.
#[derive(Clone, Copy)]
pub struct Predicted {
    pub prediction: Prediction,
    pub pixels: [u8; 16],
}

// A block and the pixels that it shows.
#[derive(Clone, Copy)]
pub struct Choice {
    pub block: Block,
    pub pixels: [u8; 16],
}
