// Y4M streams: a header line, and for each frame a line and its bytes.
ghost use Rattle.std.specs.Prelude.{◌≡◌, IfOk, string_bytes, codes};
ghost use Rattle.pictures.specs.Y4m.{frame_bytes, frame_line, header_of, header_text};

use crate::error::{Fault, PictureError};
use crate::forms::{FrameRate, Mark, Size, Y4mHeader};
use crate::steps::require;
use crate::strip::push_strip;
use crate::words::first_word;
use crate::y4m_tags::Tags;
use std::alloc::{AllocError, Global};

// Reads a header line, without its newline.
pub fn parse_y4m_header(line: &[u8]) -> Result<Y4mHeader, PictureError>
    ensures { result ≡ header_of line.now }
{
    let magic = first_word(line);
    require(magic == b"YUV4MPEG2".as_slice(), Fault::BadMagic, 0)?;
    let mut tags = Tags::none();
    let mut position = magic.len() + 1;
    for tag in line.split(|byte| *byte == b' ').skip(1) {
        tags = tags.push(tag, position)?;
        position += tag.len() + 1;
    }
    tags.header(line.len())
}

// Whether the line, without its newline, begins a frame. Words after the first are its parameters.
pub fn is_y4m_frame_line(line: &[u8]) -> bool
    ensures { result ≡ frame_line line.now }
{
    first_word(line) == b"FRAME".as_slice()
}

// The header line of a grey stream, without its newline.
pub fn write_y4m_header(heap: Global, size: Size, rate: FrameRate) -> Result<String, AllocError>
    ensures { IfOk result (λ line. string_bytes line ≡ header_text size rate) }
{
    let Size { width, height } = size;
    let FrameRate { frames, seconds } = rate;
    format!(in heap; "YUV4MPEG2 W{width} H{height} F{frames}:{seconds} Ip A1:1 Cmono")
}

// The line that begins each frame, without its newline.
pub fn y4m_frame_line() -> &'static str
    ensures { result.now ≡ codes "FRAME" }
{
    "FRAME"
}

// A frame of a grey stream: its line, the picture, and below it the strip that marks it.
pub fn write_y4m_frame(
    heap: Global,
    width: u16,
    picture: &[u8],
    mark: Mark,
) -> Result<Vec<u8>, AllocError>
    ensures { IfOk result (λ frame. frame.items ≡ frame_bytes width picture.now mark) }
{
    let mut frame = Vec::from_slice(heap, b"FRAME\n")?;
    frame.extend_from_slice(picture)?;
    push_strip(mark, width, &mut frame)?;
    Ok(frame)
}
