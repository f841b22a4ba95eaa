// What a frame is coded from, and what a block is.
use block::{Plane, Step};
use frame::{Format, FrameHeader};

// A picture to be coded as a frame, and the reference picture that its blocks may be taken from.
#[derive(Clone, Copy, PartialEq, Eq, Debug)]
pub struct FrameInput<'a> {
    pub format: Format,
    pub header: FrameHeader,
    pub source: &'a [u8],
    pub reference: &'a [u8],
}

// A block of the source: its pixels, the column and row of the first, and the reference picture that it may be taken from.
#[derive(Clone, Copy)]
pub struct BlockInput<'a> {
    pub header: FrameHeader,
    pub step: Step,
    pub reference: Plane<'a>,
    pub left: u8,
    pub top: u8,
    pub source: [u8; 16],
}
