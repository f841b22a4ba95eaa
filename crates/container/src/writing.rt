// Packets, written.
ghost use Rattle.std.specs.Prelude.{◌≡◌, ◌^◌, ◌≤◌, ◌++◌, length, take};
ghost use Rattle.container.specs.Container.{lent_packet, tag, varint};
ghost use Rattle.container.specs.Writing.{WritesInto, Written, write_rejection};

use crate::varint::put_varint;
use frame::{MAX_SEQUENCE_NUMBER, Packet, Rejection};
use text::PacketError;

// The bytes before a frame's, in a room for two numbers of ten bytes at most.
fn write_head<'a>(number: u64, key: bool, frame_length: usize, room: &'a mut [u8; 20]) -> &'a [u8]
    requires { number ≤ 2 ^ 62 }
    ensures { result.now ≡ varint (tag number key) ++ varint frame_length }
{
    let tag = 2 * number + u64::from(key);
    let middle = put_varint(tag, room, 0);
    let size = put_varint(frame_length as u64, room, middle);
    &room[..size]
}

// Adds a packet to a file. Where that fails, `out` is as it was.
pub fn write_packet(packet: Packet<'_>, out: &mut Vec<u8>) -> Result<(), PacketError>
    ensures { Written (lent_packet packet.entry) out.old.items result out.new.items }
{
    let Packet { number, frame } = packet;
    let position = out.len();
    if number > MAX_SEQUENCE_NUMBER {
        return Err(PacketError::Rejected(Rejection::BadText(position as u64)));
    }
    let mut room = [0; 20];
    let head = write_head(number, frame.header.key, frame.bytes.len(), &mut room);
    out.extend_from_slice(head)?;
    if out.extend_from_slice(frame.bytes).is_err() {
        out.truncate(position);
        return Err(PacketError::OutOfMemory);
    }
    Ok(())
}

// Writes a packet at the start of a buffer, and says how many bytes it takes. What is rejected changes nothing.
pub fn write_packet_into(packet: Packet<'_>, out: &mut [u8]) -> Result<usize, Rejection>
    ensures { WritesInto (write_rejection (lent_packet packet.entry) (length out.old)) (lent_packet packet.entry) out.old result out.new }
{
    let Packet { number, frame } = packet;
    if number > MAX_SEQUENCE_NUMBER {
        return Err(Rejection::BadText(0));
    }
    let bytes = frame.bytes;
    let mut room = [0; 20];
    let head = write_head(number, frame.header.key, bytes.len(), &mut room);
    let size = head.len();
    if out.len() < size || out.len() - size < bytes.len() {
        return Err(Rejection::BufferTooShort(out.len() as u64));
    }
    let end = size + bytes.len();
    out[..size].copy_from_slice(head);
    out[size..end].copy_from_slice(bytes);
    Ok(end)
}
