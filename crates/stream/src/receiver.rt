// The receiver of a video's packets.
ghost use Rattle.std.specs.Prelude.{◌≡◌, false, ◌&&◌, ◌||◌, ◌==◌};

use frame::Packet;

// Whether it is sure of the picture that it shows, and the sequence number that it expects next.
// The picture is lent beside it, since a camera keeps both where it likes.
#[derive(Clone, Copy, PartialEq, Eq, Debug, Default)]
pub struct Receiver {
    pub sure: bool,
    pub next: u64,
}

impl Receiver {
    // A receiver that has received nothing, beside a black picture.
    pub fn new() -> Receiver
        ensures sure { result.sure ≡ false }
        ensures next { result.next ≡ 0 }
    {
        Receiver::default()
    }

    // Whether a packet that is not late is to be shown.
    pub(crate) fn wants(self, packet: Packet<'_>) -> bool
        ensures { result ≡ (packet.entry.frame.header.key || (self.sure && packet.entry.number == self.next)) }
    {
        packet.frame.header.key || (self.sure && packet.number == self.next)
    }
}
