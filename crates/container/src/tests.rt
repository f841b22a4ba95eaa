use crate::{PacketReader, read_header, read_packet, write_header, write_packet};
use frame::{Frame, FrameHeader, Packet, Rejection, VideoHeader};
use std::alloc::Global;
use std::process::Abort;
use std::test::Fail;

fn packet(number: u64, key: bool, bytes: &[u8]) -> Packet<'_> {
    Packet {
        number,
        frame: Frame {
            header: FrameHeader { key },
            bytes,
        },
    }
}

// A header line of 16 bytes, a key frame's packet at 16 with 200 bytes of frame, and another at 219 with none.
fn small_file(rt: &impl Abort, heap: Global) -> Result<Vec<u8>, Fail> {
    let mut file = Vec::new(heap);
    let header = VideoHeader {
        across: 4,
        down: 3,
        step: 8,
    };
    write_header(header, &mut file)?;
    let bytes = [7u8; 200];
    assert!(rt; write_packet(packet(0, true, &bytes), &mut file).is_ok());
    assert!(rt; write_packet(packet(1, false, &[]), &mut file).is_ok());
    Ok(file)
}

// How many packets a file plays, and where it is cut, if it is.
fn play(file: &[u8]) -> Result<(usize, Option<u64>), Fail> {
    let mut position = 16;
    // The count is what is asked for, and ends the loop too.
    for count in 0..usize::MAX {
        match read_packet(file, position) {
            Ok(None) => return Ok((count, None)),
            Ok(Some(packet)) => position = packet.end,
            Err(Rejection::PacketCut(cut)) => return Ok((count, Some(cut))),
            Err(_) => return Err(Fail::new("rejected, and not as cut")),
        }
    }
    Err(Fail::new("no end"))
}

// Feeds a piece, and says how many packets and how many bytes of frames it gives.
fn feed(reader: &mut PacketReader, piece: &[u8]) -> Result<(usize, usize), Fail> {
    reader.feed(piece)?;
    let mut bytes: usize = 0;
    for count in 0..usize::MAX {
        match reader.next() {
            Ok(Some(_)) => bytes = bytes.saturating_add(reader.frame().len()),
            Ok(None) => return Ok((count, bytes)),
            Err(_) => return Err(Fail::new("rejected")),
        }
    }
    Err(Fail::new("no end"))
}

#[test]
fn cut_at_every_byte(rt: HostRuntime) -> Result<(), Fail> {
    let file = small_file(&rt, rt.alloc())?;
    let file = file.as_slice();
    assert!(rt; file.len() == 221);
    for kept in 0..file.len() + 1 {
        let front = &file[0..kept];
        if kept < 16 {
            assert!(rt; read_header(front).is_err());
            continue;
        }
        let (whole, cut) = match kept {
            16 => (0, None),
            17..=218 => (0, Some(16)),
            219 => (1, None),
            220 => (1, Some(219)),
            _ => (2, None),
        };
        assert_eq!(rt; play(front)?, (whole, cut));
        let mut reader = PacketReader::new(rt.alloc(), 16);
        assert_eq!(rt;
            feed(&mut reader, &file[16..kept])?,
            (whole, if whole > 0 { 200 } else { 0 })
        );
        assert_eq!(rt; reader.end().is_ok(), cut.is_none());
        assert_eq!(rt;
            feed(&mut reader, &file[kept..])?,
            (2 - whole, if whole > 0 { 0 } else { 200 })
        );
        assert!(rt; reader.end().is_ok());
    }
    Ok(())
}
