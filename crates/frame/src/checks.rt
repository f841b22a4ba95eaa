// Formats, pictures and sequence numbers that can be worked with, and why others are rejected.
ghost use Rattle.frame.specs.Frame.{block_count, plane_size};
ghost use Rattle.frame.specs.Rejection.{few, number_rejection, plane_rejection, planes_rejection};
ghost use Rattle.frame.specs.Show.{FormatSays, format_of, header_format};
ghost use Rattle.std.specs.Prelude.{◌≡◌, ◌*◌};
ghost use Rattle.std.specs.Result.{result_err};

use crate::format::Format;
use crate::header::VideoHeader;
use crate::packet::MAX_SEQUENCE_NUMBER;
use crate::rejection::{Extent, Plane, Rejection};
use block::{PlaneSize, Step};

// Whether there are 1 to 60 blocks.
fn is_few(blocks: u64) -> bool
    ensures { result ≡ few blocks }
{
    (1..=60).contains(&blocks)
}

impl Format {
    // The format of so many blocks across and down, at most 60 each and 224 in all, with a step of 1 to 64.
    pub fn new(across: u64, down: u64, step: u64) -> Result<Format, Rejection>
        ensures { FormatSays (record { across = across; down = down; step = step }) result }
    {
        if !is_few(across) {
            return Err(Rejection::BlockCount(Extent::Across));
        }
        if !is_few(down) {
            return Err(Rejection::BlockCount(Extent::Down));
        }
        if across * down > 224 {
            return Err(Rejection::BlockCount(Extent::Total));
        }
        let step = Step::new(step).ok_or(Rejection::StepRange)?;
        Ok(Format {
            across: across as usize,
            down: down as usize,
            step,
        })
    }

    pub fn across(self) -> usize
        ensures { result ≡ (format_of self).across }
    {
        self.across
    }

    pub fn down(self) -> usize
        ensures { result ≡ (format_of self).down }
    {
        self.down
    }

    pub fn step(self) -> Step
        ensures { result ≡ self.step }
    {
        self.step
    }

    pub fn plane_size(self) -> PlaneSize
        ensures { result ≡ plane_size (format_of self) }
    {
        PlaneSize {
            width: 4 * self.across as u16,
            height: 4 * self.down as u16,
        }
    }

    // How many pixels a picture has.
    pub fn pixel_count(self) -> usize
        ensures { result ≡ 16 * block_count (format_of self) }
    {
        16 * (self.across * self.down)
    }

    // Whether a picture has the length that the format says.
    pub fn check_plane(self, picture: &[u8], plane: Plane) -> Result<(), Rejection>
        ensures { result_err result ≡ plane_rejection (16 * block_count (format_of self)) plane picture.now }
    {
        if picture.len() == self.pixel_count() {
            Ok(())
        } else {
            Err(Rejection::PictureLength(plane))
        }
    }

    // Whether a reference picture and a place for a picture have it.
    pub fn check_planes(self, reference: &[u8], output: &[u8]) -> Result<(), Rejection>
        ensures { result_err result ≡ planes_rejection (16 * block_count (format_of self)) reference.now output.now }
    {
        self.check_plane(reference, Plane::Reference)?;
        self.check_plane(output, Plane::Output)
    }
}

impl TryFrom<VideoHeader> for Format {
    type Error = Rejection;

    ghost try_from_gives = { λ header result. FormatSays (header_format header) result };

    fn try_from(header: VideoHeader) -> Result<Format, Rejection> {
        Format::new(header.across, header.down, header.step)
    }
}

// Whether a packet can have a sequence number.
pub fn check_number(number: u64) -> Result<(), Rejection>
    ensures { result_err result ≡ number_rejection number }
{
    if number <= MAX_SEQUENCE_NUMBER {
        Ok(())
    } else {
        Err(Rejection::BadText(0))
    }
}
