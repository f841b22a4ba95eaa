// Files of pictures: what they are, how they begin, and where each picture's grey pixels stand.
ghost use Rattle.std.specs.Prelude.{◌≡◌, ◌≤◌, length, IfOk};
ghost use Rattle.pictures.specs.Layout.{form_of, frame_at, layout_size, located, pgm_opening, picture_at, y4m_opening};

use crate::error::{Fault, PictureError};
use crate::forms::{Form, Layout, Opening, PictureAt, Size, Y4mHeader};
use crate::pgm_parsing::parse_pgm_header;
use crate::steps::require;
use crate::words::find_byte;
use crate::y4m::{is_y4m_frame_line, parse_y4m_header};

// What a file is that begins with these bytes.
pub fn recognise(bytes: &[u8]) -> Form
    ensures { result ≡ form_of bytes.now }
{
    if bytes.starts_with(b"YUV4MPEG2") {
        Form::Y4m
    } else if bytes.starts_with(b"P5") {
        Form::Pgm
    } else {
        Form::Text
    }
}

// Reads the header line that the bytes begin with.
pub fn open_y4m(bytes: &[u8]) -> Result<Opening, PictureError>
    ensures { result ≡ y4m_opening bytes.now }
{
    let end = find_byte(bytes, b'\n').ok_or(Fault::NoLineEnd.at(bytes.len()))?;
    let header = parse_y4m_header(&bytes[..end])?;
    Ok(Opening {
        layout: Layout::Frames(header),
        start: end + 1,
    })
}

// Reads the first picture's header, which says the size of all of them.
pub fn open_pgm(bytes: &[u8]) -> Result<Opening, PictureError>
    ensures { result ≡ pgm_opening bytes.now }
{
    let first = parse_pgm_header(bytes)?;
    Ok(Opening {
        layout: Layout::Pictures(first.size),
        start: 0,
    })
}

// The frame that the bytes begin with.
fn locate_frame(header: Y4mHeader, bytes: &[u8]) -> Result<PictureAt, PictureError>
    ensures value { result ≡ frame_at header bytes.now }
    ensures within { IfOk result (λ p. p.next ≤ length bytes.now) }
{
    let line = find_byte(bytes, b'\n').ok_or(Fault::CutShort.at(bytes.len()))?;
    require(is_y4m_frame_line(&bytes[..line]), Fault::NoFrame, 0)?;
    let start = line + 1;
    let luma = header.size.pixels();
    let size = luma.saturating_add(header.chroma);
    require(size <= bytes.len() - start, Fault::CutShort, bytes.len())?;
    Ok(PictureAt::new(start, luma, header.chroma))
}

// The picture of that size that the bytes begin with.
fn locate_picture(size: Size, bytes: &[u8]) -> Result<PictureAt, PictureError>
    ensures value { result ≡ picture_at size bytes.now }
    ensures within { IfOk result (λ p. p.next ≤ length bytes.now) }
{
    let picture = parse_pgm_header(bytes)?;
    require(picture.size == size, Fault::OtherSize, 0)?;
    require(picture.end <= bytes.len(), Fault::CutShort, bytes.len())?;
    Ok(PictureAt::new(picture.start, size.pixels(), 0))
}

impl Layout {
    // The size of each picture.
    pub fn size(self) -> Size
        ensures { result ≡ layout_size self }
    {
        match self {
            Layout::Frames(header) => header.size,
            Layout::Pictures(size) => size,
        }
    }

    // The picture that the bytes begin with.
    pub fn locate(self, bytes: &[u8]) -> Result<PictureAt, PictureError>
        ensures value { result ≡ located self bytes.now }
        ensures within { IfOk result (λ p. p.next ≤ length bytes.now) }
    {
        match self {
            Layout::Frames(header) => locate_frame(header, bytes),
            Layout::Pictures(size) => locate_picture(size, bytes),
        }
    }
}
