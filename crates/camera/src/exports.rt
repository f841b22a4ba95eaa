// The functions for C, which `camera_c` exports. A slice is a pointer and a length there, and a flag is set unless it is 0.
ghost use Rattle.camera.specs.Camera.{CodeAnswers, ReceiveAnswers, ShowAnswers, format_in, is_set, packet_in, worst_case_answer};
ghost use Rattle.camera.specs.Packed.{Packs};
ghost use Rattle.frame.specs.Rejection.{format_rejection};

use crate::answer::{Answer, answer_coded, answer_shown};
use crate::packing::pack;
use crate::receiver::CReceiver;
use crate::receiving::receive;
use frame::{Format, Frame, FrameHeader, Packet, VideoHeader};
use stream::Receiver;

// C gives a video's header as three numbers, and a frame's as a flag.

// How many bytes any frame of a format fits in.
pub fn zukhtavo_worst_case(across: u64, down: u64, step: u64) -> u64
    ensures { Packs (worst_case_answer (format_rejection (format_in across down step)) (format_in across down step)) result }
{
    let format = Format::try_from(VideoHeader { across, down, step });
    pack(format.map(|format| Answer::Length(encoder::worst_case_size(format) as u64)))
}

// Codes a source picture as a frame: its bytes go to the buffer, and the picture that they mean to the output.
pub fn zukhtavo_code(
    across: u64,
    down: u64,
    step: u64,
    key: u64,
    source: &[u8],
    reference: &[u8],
    buffer: &mut [u8],
    output: &mut [u8],
) -> u64
    ensures { CodeAnswers across down step (is_set key) source.now reference.now buffer.old output.old result buffer.new output.new }
{
    let video = VideoHeader { across, down, step };
    let coded = encoder::code(video, key > 0, source, reference, buffer, output);
    pack(answer_coded(coded))
}

// Shows a frame in the output.
pub fn zukhtavo_show(
    across: u64,
    down: u64,
    step: u64,
    key: u64,
    bytes: &[u8],
    reference: &[u8],
    output: &mut [u8],
) -> u64
    ensures { ShowAnswers across down step (is_set key) bytes.now reference.now output.old result output.new }
{
    let video = VideoHeader { across, down, step };
    let header = FrameHeader { key: key > 0 };
    let shown = frame::show(video, Frame { header, bytes }, reference, output);
    pack(answer_shown(shown))
}

// Receives a packet: the picture is shown anew, or stays as it is.
pub fn zukhtavo_receive(
    across: u64,
    down: u64,
    step: u64,
    receiver: &mut CReceiver,
    number: u64,
    key: u64,
    bytes: &[u8],
    picture: &mut [u8],
) -> u64
    ensures { ReceiveAnswers across down step receiver.old (packet_in number (is_set key) bytes.now) picture.old result receiver.new picture.new }
{
    let video = VideoHeader { across, down, step };
    let header = FrameHeader { key: key > 0 };
    let packet = Packet {
        number,
        frame: Frame { header, bytes },
    };
    match receive(video, Receiver::from(*receiver), packet, picture) {
        Ok(after) => {
            *receiver = CReceiver::from(after);
            pack(Ok(Answer::from(after)))
        }
        Err(rejection) => pack(Err(rejection)),
    }
}
