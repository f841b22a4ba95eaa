// The tags of a Y4M header: a letter and a value each.
ghost use Rattle.std.specs.Prelude.{◌≡◌};
ghost use Rattle.pictures.specs.Y4m.{chroma_size, colour_space_of, header_from, no_tags, with_tag};

use crate::error::{Fault, PictureError};
use crate::forms::{Size, Y4mHeader};
use crate::number::parse_size;

#[derive(Clone, Copy)]
pub(crate) enum ColourSpace {
    Mono,
    Yuv420,
    Yuv422,
    Yuv444,
}

// What the tags so far have said.
#[derive(Clone, Copy)]
pub(crate) struct Tags {
    pub(crate) width: Option<u16>,
    pub(crate) height: Option<u16>,
    pub(crate) colours: ColourSpace,
}

// The names of 420 differ in where a sample of chroma stands.
fn parse_colour_space(name: &[u8]) -> Option<ColourSpace>
    ensures { result ≡ colour_space_of name.now }
{
    match name {
        b"mono" => Some(ColourSpace::Mono),
        b"420" | b"420jpeg" | b"420paldv" | b"420mpeg2" => Some(ColourSpace::Yuv420),
        b"422" => Some(ColourSpace::Yuv422),
        b"444" => Some(ColourSpace::Yuv444),
        _ => None,
    }
}

// How many bytes both chroma planes of a frame have.
fn chroma_size(colours: ColourSpace, size: Size) -> usize
    ensures { result ≡ chroma_size colours size }
{
    let width = usize::from(size.width);
    let height = usize::from(size.height);
    match colours {
        ColourSpace::Mono => 0,
        ColourSpace::Yuv420 => 2 * (width.div_ceil(2) * height.div_ceil(2)),
        ColourSpace::Yuv422 => 2 * (width.div_ceil(2) * height),
        ColourSpace::Yuv444 => 2 * (width * height),
    }
}

impl Tags {
    pub(crate) fn none() -> Tags
        ensures { result ≡ no_tags }
    {
        Tags {
            width: None,
            height: None,
            colours: ColourSpace::Yuv420,
        }
    }

    // With the tag that stands at that position.
    pub(crate) fn push(self, tag: &[u8], position: usize) -> Result<Tags, PictureError>
        ensures { result ≡ with_tag self tag.now position }
    {
        let Some((letter, value)) = tag.split_first() else {
            return Ok(self);
        };
        match *letter {
            b'W' => {
                let width = Some(parse_size(value).ok_or(Fault::BadNumber.at(position))?);
                Ok(Tags { width, ..self })
            }
            b'H' => {
                let height = Some(parse_size(value).ok_or(Fault::BadNumber.at(position))?);
                Ok(Tags { height, ..self })
            }
            b'C' => {
                let unknown = Fault::UnknownColourSpace.at(position);
                let colours = parse_colour_space(value).ok_or(unknown)?;
                Ok(Tags { colours, ..self })
            }
            _ => Ok(self),
        }
    }

    // The header that ends at that position.
    pub(crate) fn header(self, position: usize) -> Result<Y4mHeader, PictureError>
        ensures { result ≡ header_from self position }
    {
        let width = self.width.ok_or(Fault::NoWidth.at(position))?;
        let height = self.height.ok_or(Fault::NoHeight.at(position))?;
        let size = Size { width, height };
        Ok(Y4mHeader {
            size,
            chroma: chroma_size(self.colours, size),
        })
    }
}
