// What can be wrong with a file.
ghost use Rattle.std.specs.Prelude.{◌≡◌, ◌+◌, ◌-◌, ◌^◌, min};

use std::fmt;

#[derive(Clone, Copy, PartialEq, Eq, Debug)]
pub enum Fault {
    // The bytes do not begin as the format does.
    BadMagic,
    // No number from 1 to 65535 where one should be.
    BadNumber,
    // A colour space other than mono, 420, 422 and 444 in eight bits.
    UnknownColourSpace,
    NoWidth,
    NoHeight,
    // A brightest value other than 255.
    BadMaxValue,
    // No whitespace between the header and the pixels.
    NoDelimiter,
    // Fewer pixels than the header says.
    CutShort,
    // No end of the header line.
    NoLineEnd,
    // No FRAME line where a frame should begin.
    NoFrame,
    // A picture of another size than the first.
    OtherSize,
}

// What is wrong, and at which byte.
#[derive(Clone, Copy, PartialEq, Eq, Debug)]
pub struct PictureError {
    pub fault: Fault,
    pub position: usize,
}

impl Fault {
    pub(crate) fn at(self, position: usize) -> PictureError
        ensures { result ≡ record { fault = self; position = position } }
    {
        PictureError {
            fault: self,
            position,
        }
    }
}

impl PictureError {
    // The same in a file, where the bytes that were read begin at that offset.
    pub fn placed(self, offset: usize) -> PictureError
        ensures { result ≡ record { fault = self.fault; position = min (self.position + offset) (2 ^ 64 - 1) } }
    {
        PictureError {
            position: self.position.saturating_add(offset),
            ..self
        }
    }
}

impl fmt::Display for Fault {
    fn fmt<W: fmt::Write>(&self, f: &mut fmt::Formatter<W>) -> fmt::Result {
        f.write_str(match self {
            Fault::BadMagic => "not the beginning of the format",
            Fault::BadNumber => "no number from 1 to 65535",
            Fault::UnknownColourSpace => "a colour space that is not read",
            Fault::NoWidth => "the header has no width",
            Fault::NoHeight => "the header has no height",
            Fault::BadMaxValue => "the brightest value is not 255",
            Fault::NoDelimiter => "no whitespace before the pixels",
            Fault::CutShort => "the pixels are cut short",
            Fault::NoLineEnd => "the header line does not end",
            Fault::NoFrame => "no FRAME line where a frame should begin",
            Fault::OtherSize => "a picture of another size than the first",
        })
    }
}

impl fmt::Display for PictureError {
    fn fmt<W: fmt::Write>(&self, f: &mut fmt::Formatter<W>) -> fmt::Result {
        let PictureError { fault, position } = *self;
        write!(f, "{fault} (position {position})")
    }
}
