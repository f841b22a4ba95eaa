// Random frames of random formats, coded and shown.
use crate::failure::Failure;
use crate::group::Group;
use crate::pictures::{change, draw, is_near, shift};
use crate::random::Random;
use encoder::FrameInput;
use frame::{Format, Frame, FrameHeader, Rejection};
use std::alloc::{AllocError, Global};

// The worst case of the largest format.
const MOST_BYTES: usize = 62728;

// Any size and step, and often a step of 1.
fn random_format(random: &mut Random) -> Result<Format, Rejection> {
    let across = random.below(60) + 1;
    let most = (224 / across).clamp(1, 60);
    let down = random.below(most) + 1;
    let step = if random.below(4) == 0 {
        1
    } else {
        random.below(64) + 1
    };
    Format::new(across, down, step)
}

// A source that has more or less to do with the reference picture.
fn random_source(
    heap: Global,
    random: &mut Random,
    reference: &[u8],
) -> Result<Vec<u8>, AllocError> {
    let mut source = Vec::from_slice(heap, reference)?;
    match random.below(4) {
        0 => draw(random, &mut source),
        1 => change(random, &mut source, 2),
        2 => change(random, &mut source, 40),
        _ => shift(&mut source, usize::from(random.byte() % 8)),
    }
    Ok(source)
}

// Codes a frame, and shows it: both are to give one picture, within half a step of the source.
// The answer is how many bytes the frame has.
fn code_and_show(heap: Global, input: FrameInput<'_>) -> Result<usize, Failure> {
    let pixels = input.format.pixel_count();
    let mut bytes = vec![in heap; 0; MOST_BYTES]?;
    let mut coded = vec![in heap; 0; pixels]?;
    let mut shown = vec![in heap; 0; pixels]?;
    let length = encoder::code_frame(input, &mut bytes, &mut coded)?;
    bytes.truncate(length);
    let frame = Frame {
        header: input.header,
        bytes: &bytes,
    };
    frame::show_frame(input.format, frame, input.reference, &mut shown)?;
    if shown != coded {
        return Err(Failure::OtherPicture);
    }
    if !is_near(&shown, input.source, input.format.step().half()) {
        return Err(Failure::FarFromSource);
    }
    Ok(length)
}

fn check_random_frame(heap: Global, random: &mut Random) -> Result<(), Failure> {
    let format = random_format(random)?;
    let mut reference = vec![in heap; 0; format.pixel_count()]?;
    draw(random, &mut reference);
    let source = random_source(heap, random, &reference)?;
    let key = random.coin();
    code_and_show(
        heap,
        FrameInput {
            format,
            header: FrameHeader { key },
            source: &source,
            reference: &reference,
        },
    )?;
    Ok(())
}

pub fn check_random_frames(group: &mut Group) -> Result<(), Failure> {
    let mut random = Random::new(5);
    for case in 0..300u16 {
        let res = check_random_frame(group.heap(), &mut random);
        group.passes(case, res);
    }
    Ok(())
}

// A picture of 14 by 16 blocks that does not change takes few bytes.
fn check_still_frame(heap: Global, random: &mut Random, step: u64) -> Result<(), Failure> {
    let format = Format::new(14, 16, step)?;
    let mut picture = vec![in heap; 0; format.pixel_count()]?;
    draw(random, &mut picture);
    let still = FrameInput {
        format,
        header: FrameHeader { key: false },
        source: &picture,
        reference: &picture,
    };
    if code_and_show(heap, still)? > 40 {
        return Err(Failure::TooManyBytes);
    }
    Ok(())
}

pub fn check_still_frames(group: &mut Group) -> Result<(), Failure> {
    let mut random = Random::new(6);
    for step in [1, 8, 64] {
        let res = check_still_frame(group.heap(), &mut random, step);
        group.passes(step, res);
    }
    Ok(())
}
