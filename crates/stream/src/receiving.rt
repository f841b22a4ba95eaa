// A packet received.
ghost use Rattle.std.specs.Prelude.{◌*◌};
ghost use Rattle.frame.specs.Frame.{block_count};
ghost use Rattle.frame.specs.Show.{format_of, packet_of};
ghost use Rattle.stream.specs.Receiver.{ReceiveSays, receive_rejection};

use crate::receiver::Receiver;
use frame::{Format, Packet, Plane, Rejection};

// Receives a packet: the picture is shown anew, or stays as it is.
pub fn receive(
    format: Format,
    receiver: Receiver,
    packet: Packet<'_>,
    picture: &mut [u8],
) -> Result<Receiver, Rejection>
    ensures { ReceiveSays (receive_rejection (16 * block_count (format_of format)) picture.old packet.entry.number) (format_of format) receiver (packet_of packet.entry) picture.old result picture.new }
{
    format.check_plane(picture, Plane::Reference)?;
    frame::check_number(packet.number)?;
    if packet.number < receiver.next {
        return Ok(receiver);
    }
    if receiver.wants(packet) && frame::redraw(format, packet.frame, picture).is_ok() {
        return Ok(Receiver {
            sure: true,
            next: packet.number + 1,
        });
    }
    Ok(Receiver {
        sure: false,
        ..receiver
    })
}
