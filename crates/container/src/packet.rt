ghost use Rattle.container.specs.Container.{lent_packet};
ghost use Rattle.std.specs.Prelude.{◌≡◌};

use frame::{Frame, FrameHeader, Packet};

// What a packet says before its frame's bytes.
#[derive(Clone, Copy, PartialEq, Eq, Debug)]
pub struct PacketHead {
    pub number: u64,
    // Whether its frame is a key frame.
    pub key: bool,
    // How many bytes its frame has.
    pub length: usize,
}

impl PacketHead {
    // The packet with this head whose frame has these bytes.
    pub fn with_bytes(self, bytes: &[u8]) -> Packet<'_>
        ensures { lent_packet result ≡ record { number = self.number; key = self.key; bytes = bytes.now } }
    {
        Packet {
            number: self.number,
            frame: Frame {
                header: FrameHeader { key: self.key },
                bytes,
            },
        }
    }
}

// Where a packet's frame begins and ends. The next packet begins where it ends.
#[derive(Clone, Copy, PartialEq, Eq, Debug)]
pub struct PacketAt {
    pub head: PacketHead,
    pub start: usize,
    pub end: usize,
}
