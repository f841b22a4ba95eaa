// Which number of blocks is out of range.
#[derive(Clone, Copy, PartialEq, Eq, Debug)]
pub enum Extent {
    Across,
    Down,
    Total,
}

// Which picture has the wrong length.
#[derive(Clone, Copy, PartialEq, Eq, Debug)]
pub enum Plane {
    Reference,
    Output,
}

// Why a call is rejected. What is rejected changes nothing.
#[derive(Clone, Copy, PartialEq, Eq, Debug)]
pub enum Rejection {
    // No block across or down, more than 60, or more than 224 in all.
    BlockCount(Extent),
    // A quantiser step of 0 or above 64.
    StepRange,
    // A picture of another length than the format says.
    PictureLength(Plane),
    // A source picture of another length, which is this.
    SourceLength(u64),
    // A buffer shorter than the worst case and too short, its length being this.
    BufferTooShort(u64),
    // A packet in a file that is cut short, at this position.
    PacketCut(u64),
    // In a text a number out of range, or none where one should be, at this position;
    // in a text or a packet a sequence number above 2^62.
    BadText(u64),
}
