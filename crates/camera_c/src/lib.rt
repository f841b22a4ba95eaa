//! The functions of `camera` under their names for C. `rt lib` here makes the static library that C links.
//! They stand apart, with their contracts once more, since a crate is either a library or a static library.
#![tactic(auto)]

ghost use Rattle.camera.specs.Camera.{CodeAnswers, ReceiveAnswers, ShowAnswers, format_in, is_set, packet_in, worst_case_answer};
ghost use Rattle.camera.specs.Packed.{Packs};
ghost use Rattle.frame.specs.Rejection.{format_rejection};

use camera::CReceiver;

// How many bytes any frame of a format fits in.
#[unsafe(no_mangle)]
pub extern "C" fn zukhtavo_worst_case(across: u64, down: u64, step: u64) -> u64
    ensures { Packs (worst_case_answer (format_rejection (format_in across down step)) (format_in across down step)) result }
{
    camera::zukhtavo_worst_case(across, down, step)
}

// Codes a source picture as a frame: its bytes go to the buffer, and the picture that they mean to the output.
#[unsafe(no_mangle)]
pub extern "C" fn zukhtavo_code(
    across: u64,
    down: u64,
    step: u64,
    key: u64,
    source: &[u8],
    reference: &[u8],
    buffer: &mut [u8],
    output: &mut [u8],
) -> u64
    ensures { CodeAnswers across down step (is_set key) source.now reference.now buffer.old output.old result buffer.new output.new }
{
    camera::zukhtavo_code(across, down, step, key, source, reference, buffer, output)
}

// Shows a frame in the output.
#[unsafe(no_mangle)]
pub extern "C" fn zukhtavo_show(
    across: u64,
    down: u64,
    step: u64,
    key: u64,
    bytes: &[u8],
    reference: &[u8],
    output: &mut [u8],
) -> u64
    ensures { ShowAnswers across down step (is_set key) bytes.now reference.now output.old result output.new }
{
    camera::zukhtavo_show(across, down, step, key, bytes, reference, output)
}

// Receives a packet: the picture is shown anew, or stays as it is.
#[unsafe(no_mangle)]
pub extern "C" fn zukhtavo_receive(
    across: u64,
    down: u64,
    step: u64,
    receiver: &mut CReceiver,
    number: u64,
    key: u64,
    bytes: &[u8],
    picture: &mut [u8],
) -> u64
    ensures { ReceiveAnswers across down step receiver.old (packet_in number (is_set key) bytes.now) picture.old result receiver.new picture.new }
{
    camera::zukhtavo_receive(across, down, step, receiver, number, key, bytes, picture)
}
