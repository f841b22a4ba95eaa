// The numbers of a video's first line, before they are checked: blocks across and down, and the quantiser step.
#[derive(Clone, Copy, PartialEq, Eq, Debug)]
pub struct VideoHeader {
    pub across: u64,
    pub down: u64,
    pub step: u64,
}

// What a frame says of itself before its bits.
#[derive(Clone, Copy, PartialEq, Eq, Debug)]
pub struct FrameHeader {
    // It stands by itself, and is not made from a reference picture.
    pub key: bool,
}
