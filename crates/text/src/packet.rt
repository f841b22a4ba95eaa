ghost use Rattle.std.specs.Prelude.{◌≡◌};
ghost use Rattle.text.specs.Text.{fields, lent_fields};

use frame::{Frame, FrameHeader};

// A packet that was read: its sequence number, whether its frame is a key frame, and the frame's bytes.
#[derive(Drop)]
pub struct Packet {
    pub number: u64,
    pub key: bool,
    pub bytes: Vec<u8>,
}

impl Packet {
    // The packet, lent.
    pub fn lend(&self) -> frame::Packet<'_>
        ensures { lent_fields result ≡ fields self.now }
    {
        frame::Packet {
            number: self.number,
            frame: Frame {
                header: FrameHeader { key: self.key },
                bytes: self.bytes.as_slice(),
            },
        }
    }
}
