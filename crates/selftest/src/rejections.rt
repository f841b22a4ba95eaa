// Calls that are to be rejected, with which code and position, and that are to change nothing then.
use crate::failure::Failure;
use crate::group::Group;
use crate::random::Random;
use encoder::Encoder;
use frame::{Format, Frame, FrameHeader, Packet, VideoHeader};
use std::alloc::Global;
use stream::{Receiver, Screen};

// What a call answers. It is to change what was lent to it, unless it is rejected.
fn answered<E: Drop>(res: Result<u64, E>, unchanged: bool) -> Result<u64, Failure>
where
    Failure: From<E>,
{
    match res {
        Ok(_) if unchanged => Err(Failure::Unchanged),
        Err(_) if !unchanged => Err(Failure::Changed),
        _ => Ok(res?),
    }
}

fn is_filled(bytes: &[u8], value: u8) -> bool {
    bytes.iter().all(|byte| *byte == value)
}

// A call's header, and the lengths of what is lent to it.
#[derive(Clone, Copy)]
struct Call {
    header: VideoHeader,
    reference: usize,
    output: usize,
    source: usize,
    buffer: usize,
}

// What is not rejected.
const GOOD: Call = Call {
    header: VideoHeader {
        across: 2,
        down: 3,
        step: 8,
    },
    reference: 96,
    output: 96,
    source: 96,
    buffer: 1688,
};

// What is rejected for each of its lengths.
const SHORT: Call = Call {
    reference: 1,
    output: 1,
    source: 1,
    buffer: 0,
    ..GOOD
};

impl Call {
    fn header(self, across: u64, down: u64, step: u64) -> Call {
        Call {
            header: VideoHeader { across, down, step },
            ..self
        }
    }

    fn reference(self, reference: usize) -> Call {
        Call { reference, ..self }
    }

    fn output(self, output: usize) -> Call {
        Call { output, ..self }
    }

    fn source(self, source: usize) -> Call {
        Call { source, ..self }
    }

    fn buffer(self, buffer: usize) -> Call {
        Call { buffer, ..self }
    }
}

// Calls by name, and the code and position that they are rejected with.
// Where several things are out of range, the first of the list counts.
fn calls() -> [(&'static str, Call, u64, u64); 22] {
    [
        ("across 0", GOOD.header(0, 3, 8), 1, 0),
        ("across 61", GOOD.header(61, 3, 8), 1, 0),
        ("across 2^63", GOOD.header(1 << 63, 2, 8), 1, 0),
        ("down 0", GOOD.header(2, 0, 8), 1, 1),
        ("down 61", GOOD.header(2, 61, 8), 1, 1),
        ("20 by 12 blocks", GOOD.header(20, 12, 8), 1, 2),
        ("step 0", GOOD.header(2, 3, 0), 2, 0),
        ("step 65", GOOD.header(2, 3, 65), 2, 0),
        ("step 264", GOOD.header(2, 3, 264), 2, 0),
        ("reference one short", GOOD.reference(95), 3, 0),
        ("output one long", GOOD.output(97), 3, 1),
        ("source one short", GOOD.source(95), 4, 95),
        ("source one long", GOOD.source(97), 4, 97),
        ("no source", GOOD.source(0), 4, 0),
        ("no buffer", GOOD.buffer(0), 5, 0),
        ("everything", SHORT.header(0, 0, 0), 1, 0),
        ("down and what follows", SHORT.header(20, 0, 0), 1, 1),
        ("total and what follows", SHORT.header(20, 12, 0), 1, 2),
        ("the step and what follows", SHORT.header(2, 3, 0), 2, 0),
        ("the lengths", SHORT, 3, 0),
        ("the output and what follows", SHORT.reference(96), 3, 1),
        ("the source and the buffer", GOOD.source(1).buffer(0), 4, 1),
    ]
}

// The answer is the frame's length.
fn code(heap: Global, call: Call) -> Result<u64, Failure> {
    let mut source = vec![in heap; 0; call.source]?;
    Random::new(7).fill(&mut source);
    let reference = vec![in heap; 1; call.reference]?;
    let mut output = vec![in heap; 2; call.output]?;
    let mut buffer = vec![in heap; 3; call.buffer]?;
    let res = encoder::code(
        call.header,
        true,
        &source,
        &reference,
        &mut buffer,
        &mut output,
    );
    let unchanged = is_filled(&output, 2) && is_filled(&buffer, 3);
    answered(res.map(|length| length as u64), unchanged)
}

fn show(heap: Global, call: Call) -> Result<u64, Failure> {
    let frame = Frame {
        header: FrameHeader { key: true },
        bytes: &[128],
    };
    let reference = vec![in heap; 1; call.reference]?;
    let mut output = vec![in heap; 2; call.output]?;
    let res = frame::show(call.header, frame, &reference, &mut output);
    answered(res.map(|()| 0), is_filled(&output, 2))
}

// A buffer is long enough if the frame at hand fits.
fn check_buffer(group: &mut Group) -> Result<(), Failure> {
    let heap = group.heap();
    let length = code(heap, GOOD)?;
    let short = length.saturating_sub(1);
    let found = code(heap, GOOD.buffer(short as usize));
    group.equal("buffer one short", found, Err(Failure::Rejected(5, short)));
    let found = code(heap, GOOD.buffer(length as usize));
    group.equal("buffer just long enough", found, Ok(length));
    Ok(())
}

pub fn check_coding(group: &mut Group) -> Result<(), Failure> {
    let heap = group.heap();
    for (name, call, number, position) in calls() {
        let wanted = Err(Failure::Rejected(number, position));
        group.equal(name, code(heap, call), wanted);
    }
    check_buffer(group)
}

// A decoder makes the first three checks.
pub fn check_showing(group: &mut Group) -> Result<(), Failure> {
    let heap = group.heap();
    for (name, call, number, position) in calls() {
        if number <= 3 {
            let wanted = Err(Failure::Rejected(number, position));
            group.equal(name, show(heap, call), wanted);
        }
    }
    group.equal("none", show(heap, GOOD), Ok(0));
    Ok(())
}

// The largest sequence number, and the one above.
const LAST: u64 = 1 << 62;

const ABOVE: u64 = LAST + 1;

// Packets by name, as a receiver receives them with a picture of so many pixels lent: the number, and what comes of it.
static PACKETS: [(&str, usize, u64, Result<u64, Failure>); 6] = [
    ("number 2^62", 16, LAST, Ok(ABOVE)),
    ("number above 2^62", 16, ABOVE, Err(Failure::Rejected(7, 0))),
    (
        "number 2^64 - 1",
        16,
        u64::MAX,
        Err(Failure::Rejected(7, 0)),
    ),
    ("picture one short", 15, 0, Err(Failure::Rejected(3, 0))),
    ("picture one long", 17, 0, Err(Failure::Rejected(3, 0))),
    ("both", 17, ABOVE, Err(Failure::Rejected(3, 0))),
];

// A key frame of one block, flat.
fn flat_packet(number: u64, bytes: &[u8; 1]) -> Packet<'_> {
    let header = FrameHeader { key: true };
    Packet {
        number,
        frame: Frame { header, bytes },
    }
}

// The answer is the number expected next.
fn receive(heap: Global, format: Format, pixels: usize, number: u64) -> Result<u64, Failure> {
    let packet = flat_packet(number, &[128]);
    let mut picture = vec![in heap; 2; pixels]?;
    let res = stream::receive(format, Receiver::new(), packet, &mut picture);
    answered(res.map(|receiver| receiver.next), is_filled(&picture, 2))
}

// A screen stays sure of its picture when it rejects a packet.
fn receive_on_screen(format: Format) -> Result<u64, Failure> {
    let mut screen = Screen::new(format);
    screen.receive(flat_packet(0, &[128]))?;
    let res = screen.receive(flat_packet(ABOVE, &[255]));
    let unchanged = screen.sure() && screen.shown() == Some(0) && is_filled(screen.picture(), 128);
    answered(res.map(|()| 0), unchanged)
}

pub fn check_receiving(group: &mut Group) -> Result<(), Failure> {
    let format = Format::new(1, 1, 8)?;
    for (name, pixels, number, wanted) in &PACKETS {
        let found = receive(group.heap(), format, *pixels, *number);
        group.equal(*name, found, *wanted);
    }
    let found = receive_on_screen(format);
    group.equal("on a screen", found, Err(Failure::Rejected(7, 0)));
    Ok(())
}

// Sources by name, as an encoder is pushed them: their lengths, the buffer's, and what comes of it.
static SOURCES: [(&str, usize, usize, Result<u64, Failure>); 4] = [
    ("none", 16, 288, Ok(1)),
    ("source one short", 15, 288, Err(Failure::Rejected(4, 15))),
    (
        "source one long, no buffer",
        17,
        0,
        Err(Failure::Rejected(4, 17)),
    ),
    ("buffer too short", 16, 2, Err(Failure::Rejected(5, 2))),
];

// Pushes a source to an encoder that has made a frame. The answer is the frame's number.
fn push(heap: Global, format: Format, pixels: usize, length: usize) -> Result<u64, Failure> {
    let mut encoder = Encoder::new(format);
    encoder.push(&[200; 16], false, &mut [0; 288])?;
    let mut source = vec![in heap; 0; pixels]?;
    Random::new(8).fill(&mut source);
    let mut buffer = vec![in heap; 3; length]?;
    let res = encoder.push(&source, true, &mut buffer);
    let unchanged = encoder.next_number() == 1
        && is_filled(encoder.picture(), 200)
        && is_filled(&buffer, 3);
    answered(res.map(|pushed| pushed.number), unchanged)
}

pub fn check_pushing(group: &mut Group) -> Result<(), Failure> {
    let format = Format::new(1, 1, 8)?;
    for (name, pixels, length, wanted) in &SOURCES {
        let found = push(group.heap(), format, *pixels, *length);
        group.equal(*name, found, *wanted);
    }
    Ok(())
}
