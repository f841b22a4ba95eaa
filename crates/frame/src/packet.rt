use crate::header::FrameHeader;

// The largest sequence number that a packet can have.
pub const MAX_SEQUENCE_NUMBER: u64 = 1 << 62;

// A frame as it is sent: its bits in bytes, which are lent.
#[derive(Clone, Copy, PartialEq, Eq, Debug)]
pub struct Frame<'a> {
    pub header: FrameHeader,
    pub bytes: &'a [u8],
}

// A frame with its sequence number.
#[derive(Clone, Copy, PartialEq, Eq, Debug)]
pub struct Packet<'a> {
    pub number: u64,
    pub frame: Frame<'a>,
}
