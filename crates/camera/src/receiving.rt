// Receiving for C.
ghost use Rattle.camera.specs.Camera.{packet_rejection, receive_answer};
ghost use Rattle.camera.specs.Packed.{Fitting};
ghost use Rattle.frame.specs.Show.{header_format, packet_of};
ghost use Rattle.stream.specs.Receiver.{ReceiveSays};

use frame::{Format, Packet, Rejection, VideoHeader};
use stream::Receiver;

// Receives a packet of a video with this header.
pub(crate) fn receive(
    header: VideoHeader,
    receiver: Receiver,
    packet: Packet<'_>,
    picture: &mut [u8],
) -> Result<Receiver, Rejection>
    ensures says { ReceiveSays (packet_rejection (header_format header) picture.old packet.entry.number) (header_format header) receiver (packet_of packet.entry) picture.old result picture.new }
    ensures fits { Fitting (receive_answer result) }
{
    stream::receive(Format::try_from(header)?, receiver, packet, picture)
}
