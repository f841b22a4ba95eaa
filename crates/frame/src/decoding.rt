// Frames decoded, block by block and row by row.
ghost use Rattle.std.specs.Prelude.{◌≡◌, ◌+◌, ◌*◌, ◌<◌, length};
ghost use Rattle.frame.specs.Decoding.{BlockDecoded, RowDecoded};
ghost use Rattle.frame.specs.Frame.{block_count, past};
ghost use Rattle.frame.specs.Show.{DecodeSays, format_of, frame_of};
ghost use Rattle.range_coder.specs.Code.{reader_of};
ghost use Rattle.range_coder.specs.Decisions.{ReaderState};

use crate::drawing::put_block;
use crate::format::Format;
use crate::packet::Frame;
use crate::show_error::ShowError;
use block::Plane;
use range_coder::Reader;

// What every block of a frame is decoded with.
#[derive(Drop)]
struct BlockDecoder<'a> {
    format: Format,
    key: bool,
    reference: &'a [u8],
}

impl BlockDecoder<'_> {
    // Decodes the block in a column of the row of blocks, unless it would be taken from over an edge.
    fn decode_block(
        &self,
        reader: &mut Reader,
        row: usize,
        column: usize,
        band: &mut [u8],
    ) -> Result<(), ShowError>
        requires row { row < self.now.format.down }
        requires column { column < self.now.format.across }
        requires band { length band.old ≡ 16 * self.now.format.across }
        ensures { (r : ReaderState) → reader_of reader.old ≡ past self.now.key r (row * self.now.format.across + column) → BlockDecoded (format_of self.now.format) self.now.key r self.now.reference.now row column reader.new band.old band.new result }
    {
        let block = block::read_block(reader, self.key);
        let left = 4 * column as u16;
        let top = 4 * row as u16;
        let plane = Plane {
            pixels: self.reference,
            size: self.format.plane_size(),
        };
        let prediction = plane
            .predict(left, top, block.prediction)
            .ok_or(ShowError::Invalid)?;
        let pixels = block::reconstruct(self.format.step, block.levels, prediction);
        put_block(band, 4 * self.format.across, column, pixels);
        Ok(())
    }

    // Decodes a row of blocks, unless one of them would be taken from over an edge.
    fn decode_row(&self, reader: &mut Reader, row: usize, band: &mut [u8]) -> Result<(), ShowError>
        requires row { row < self.now.format.down }
        requires band { length band.old ≡ 16 * self.now.format.across }
        ensures { (r : ReaderState) → reader_of reader.old ≡ past self.now.key r (row * self.now.format.across) → RowDecoded (format_of self.now.format) self.now.key r self.now.reference.now row reader.new band.new result }
    {
        // The column is what is asked for.
        for column in 0..self.format.across {
            self.decode_block(reader, row, column, band)?;
        }
        Ok(())
    }
}

// Decodes a frame into `output`, unless it is invalid; `output` is spoiled then.
pub(crate) fn decode(
    format: Format,
    frame: Frame<'_>,
    reference: &[u8],
    output: &mut [u8],
) -> Result<(), ShowError>
    requires { length output.old ≡ 16 * block_count (format_of format) }
    ensures { DecodeSays (format_of format) (frame_of frame.entry) reference.now result output.new }
{
    let decoder = BlockDecoder {
        format,
        key: frame.header.key,
        reference,
    };
    let mut reader = Reader::new(frame.bytes);
    let band = 16 * format.across;
    // Each row of blocks is lent on as a part of the picture, cut by place: of what chunks_mut lends a proof keeps the lengths alone.
    for row in 0..format.down {
        decoder.decode_row(&mut reader, row, &mut output[row * band..(row + 1) * band])?;
    }
    Ok(())
}
