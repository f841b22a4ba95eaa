// Frames coded: bytes that mean a picture close to the source.
ghost use Rattle.std.specs.Prelude.{◌≡◌, ◌*◌, length, None};
ghost use Rattle.std.specs.Result.{result_err};
ghost use Rattle.encoder.specs.Code.{CodeSays, InputCoded, code_rejection, input_rejection, worst_case};
ghost use Rattle.encoder.specs.Progress.{FrameEncoded};
ghost use Rattle.frame.specs.Frame.{block_count};
ghost use Rattle.frame.specs.Show.{format_of, header_format};

use crate::input::FrameInput;
use frame::{Format, FrameHeader, MAX_PIXELS, Rejection, VideoHeader};
use range_coder::Writer;

// How many bytes any frame of a format fits in.
pub fn worst_case_size(format: Format) -> usize
    ensures { result ≡ worst_case (format_of format) }
{
    280 * (format.across() * format.down()) + 8
}

impl FrameInput<'_> {
    // Whether the pictures have the length that the format says.
    fn check_pictures(&self, output: &[u8]) -> Result<(), Rejection>
        ensures { result_err result ≡ input_rejection self.now output.now }
    {
        self.format.check_planes(self.reference, output)?;
        if self.source.len() == self.format.pixel_count() {
            Ok(())
        } else {
            Err(Rejection::SourceLength(self.source.len() as u64))
        }
    }
}

// Codes a source picture as a frame of a format, made from the reference picture unless it is a key frame.
// The bytes go to the buffer, and the picture that they mean to the output.
pub fn code_frame(
    input: FrameInput<'_>,
    buffer: &mut [u8],
    output: &mut [u8],
) -> Result<usize, Rejection>
    ensures { InputCoded (input_rejection input.entry output.old) input.entry buffer.old output.old result buffer.new output.new }
{
    input.check_pictures(output)?;
    let mut writer = Writer::new();
    // There is no heap: the scratch picture has room for one of any format.
    let mut scratch = [0; MAX_PIXELS];
    let picture = &mut scratch[..input.format.pixel_count()];
    input.encode(&mut writer, picture);
    let bytes = writer.finish();
    let length = bytes.len();
    if length > buffer.len() {
        return Err(Rejection::BufferTooShort(buffer.len() as u64));
    }
    buffer[..length].copy_from_slice(bytes);
    output.copy_from_slice(picture);
    Ok(length)
}

// The same for the numbers of a video's first line.
pub fn code(
    header: VideoHeader,
    key: bool,
    source: &[u8],
    reference: &[u8],
    buffer: &mut [u8],
    output: &mut [u8],
) -> Result<usize, Rejection>
    ensures { CodeSays (code_rejection (header_format header) source.now reference.now output.old) (header_format header) key source.now reference.now buffer.old output.old result buffer.new output.new }
{
    let format = Format::try_from(header)?;
    let input = FrameInput {
        format,
        header: FrameHeader { key },
        source,
        reference,
    };
    code_frame(input, buffer, output)
}
