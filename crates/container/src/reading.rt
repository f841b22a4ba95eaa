// Packets, read where they stand.
ghost use Rattle.std.specs.Prelude.{◌≡◌, length, IfOk};
ghost use Rattle.container.specs.Container.{first_packet, packet_at};
ghost use Rattle.container.specs.Within.{Whole, WholeAt};

use crate::fault::Fault;
use crate::packet::{PacketAt, PacketHead};
use crate::varint::read_varint;
use frame::{MAX_SEQUENCE_NUMBER, Rejection};

// The packet that the bytes begin with.
pub(crate) fn locate(bytes: &[u8]) -> Result<PacketAt, Fault>
    ensures value { result ≡ first_packet bytes.now }
    ensures within { IfOk result (λ p. Whole 0 (length bytes.now) p) }
{
    let tag = read_varint(bytes)?;
    let number = tag.value / 2;
    if number > MAX_SEQUENCE_NUMBER {
        return Err(Fault::Malformed);
    }
    let length = read_varint(&bytes[tag.size..])?;
    let start = tag.size + length.size;
    if length.value > (bytes.len() - start) as u64 {
        return Err(Fault::Cut);
    }
    let length = length.value as usize;
    Ok(PacketAt {
        head: PacketHead {
            number,
            key: tag.value % 2 == 1,
            length,
        },
        start,
        end: start + length,
    })
}

// The packet that stands at this position of a file, or none if the file ends there or before.
pub fn read_packet(file: &[u8], position: usize) -> Result<Option<PacketAt>, Rejection>
    ensures value { result ≡ packet_at file.now position }
    ensures within { IfOk result (WholeAt position (length file.now)) }
{
    if position >= file.len() {
        return Ok(None);
    }
    let found = locate(&file[position..]).map_err(|fault| fault.rejection(position as u64))?;
    Ok(Some(PacketAt {
        head: found.head,
        start: position + found.start,
        end: position + found.end,
    }))
}
