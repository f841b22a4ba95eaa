// Frames shown: the picture that a valid frame means is left behind, and nothing changes else.
ghost use Rattle.std.specs.Prelude.{◌≡◌, ◌*◌, false, IfErr, IfOk};
ghost use Rattle.frame.specs.Frame.{block_count, valid};
ghost use Rattle.frame.specs.Rejection.{plane_rejection, planes_rejection, show_rejection};
ghost use Rattle.frame.specs.Show.{ShowSays, ShownIn, format_of, frame_of, header_format};
ghost use Rattle.frame.specs.declared.rejection.Plane.TheVariants.{Reference};
ghost use Rattle.frame.specs.declared.show_error.ShowError.TheVariants.{Invalid};

use crate::decoding::decode;
use crate::format::{Format, MAX_PIXELS};
use crate::header::VideoHeader;
use crate::packet::Frame;
use crate::rejection::Plane;
use crate::show_error::ShowError;

// Decodes into a scratch picture, and lends what is there of the frame's. There is no heap, so it has room for one of any format.
fn decode_aside<'a>(
    format: Format,
    frame: Frame<'_>,
    reference: &[u8],
    scratch: &'a mut [u8; MAX_PIXELS],
) -> Result<&'a [u8], ShowError>
    ensures shown { IfOk result (λ picture. ShownIn (format_of format) (frame_of frame.entry) reference.now picture.now) }
    ensures invalid { IfErr result (λ e. (e ≡ Invalid) × (valid (format_of format) (frame_of frame.entry) ≡ false)) }
{
    let decoded = &mut scratch[..format.pixel_count()];
    decode(format, frame, reference, decoded)?;
    Ok(decoded)
}

// Shows a frame of a format in `output`, made from the reference picture.
pub fn show_frame(
    format: Format,
    frame: Frame<'_>,
    reference: &[u8],
    output: &mut [u8],
) -> Result<(), ShowError>
    ensures { ShowSays (planes_rejection (16 * block_count (format_of format)) reference.now output.old) (format_of format) (frame_of frame.entry) reference.now output.old result output.new }
{
    format.check_planes(reference, output)?;
    if frame.header.key {
        // It is always valid, and looks at no reference picture.
        return decode(format, frame, &[], output);
    }
    let mut scratch = [0; MAX_PIXELS];
    output.copy_from_slice(decode_aside(format, frame, reference, &mut scratch)?);
    Ok(())
}

// Shows a frame in the place of the picture that it is made from.
pub fn redraw(format: Format, frame: Frame<'_>, picture: &mut [u8]) -> Result<(), ShowError>
    ensures { ShowSays (plane_rejection (16 * block_count (format_of format)) Reference picture.old) (format_of format) (frame_of frame.entry) picture.old picture.old result picture.new }
{
    format.check_plane(picture, Plane::Reference)?;
    if frame.header.key {
        return decode(format, frame, &[], picture);
    }
    let mut scratch = [0; MAX_PIXELS];
    picture.copy_from_slice(decode_aside(format, frame, picture, &mut scratch)?);
    Ok(())
}

// Shows a frame of a video with this header.
pub fn show(
    header: VideoHeader,
    frame: Frame<'_>,
    reference: &[u8],
    output: &mut [u8],
) -> Result<(), ShowError>
    ensures { ShowSays (show_rejection (header_format header) reference.now output.old) (header_format header) (frame_of frame.entry) reference.now output.old result output.new }
{
    show_frame(Format::try_from(header)?, frame, reference, output)
}
