// A frame encoded, block by block and row by row: what is chosen is written, and drawn as the decoder will draw it.
ghost use Rattle.std.specs.Prelude.{◌≡◌, ℕ, ◌+◌, ◌*◌, ◌<◌, length};
ghost use Rattle.encoder.specs.Progress.{BlockEncoded, BlockOf, FrameEncoded, Progress, RowEncoded, input_format};
ghost use Rattle.frame.specs.Frame.{block_count};
ghost use Rattle.range_coder.specs.Code.{writer_of};
ghost use Rattle.range_coder.specs.Decisions.{start_writer};

use crate::input::{BlockInput, FrameInput};
use crate::levels::Residual;
use crate::motion::STILL;
use block::{MotionVector, Plane, Prediction};
use range_coder::Writer;

// The vector of a prediction by motion, and none else.
fn vector_of(prediction: Prediction) -> MotionVector {
    match prediction {
        Prediction::Motion(vector) => vector,
        Prediction::Flat(_) => STILL,
    }
}

// A row of blocks of a frame.
#[derive(Clone, Copy)]
struct Row<'a> {
    frame: FrameInput<'a>,
    row: usize,
    ghost within: { row < (input_format frame).down },
}

impl<'a> Row<'a> {
    // The block in a column.
    fn block_at(&self, column: usize) -> BlockInput<'a>
        requires { column < (input_format self.now.frame).across }
        ensures { BlockOf self.now.frame self.now.row column result }
    {
        let frame = self.frame;
        let size = frame.format.plane_size();
        let source = Plane {
            pixels: frame.source,
            size,
        };
        let reference = Plane {
            pixels: frame.reference,
            size,
        };
        BlockInput {
            header: frame.header,
            step: frame.format.step(),
            reference,
            left: 4 * column as u8,
            top: 4 * self.row as u8,
            source: source.block_at(4 * column as u16, 4 * self.row as u16),
        }
    }

    // Encodes the block in a column, and says by which vector it was predicted.
    fn encode_block(
        &self,
        writer: &mut Writer,
        column: usize,
        before: MotionVector,
        band: &mut [u8],
    ) -> MotionVector
        requires column { column < (input_format self.now.frame).across }
        requires band { length band.old ≡ 16 * (input_format self.now.frame).across }
        ensures { (p : Progress self.now.frame (self.now.row * (input_format self.now.frame).across + column) writer.old) → BlockEncoded self.now.frame self.now.row column writer.old writer.new p band.old band.new }
    {
        let input = self.block_at(column);
        let predicted = input.predicted(before);
        let choice = Residual { input, predicted }.finished();
        block::write_block(writer, self.frame.header.key, choice.block);
        frame::put_block(band, 4 * self.frame.format.across(), column, choice.pixels);
        vector_of(choice.block.prediction)
    }

    // Encodes all of its blocks.
    fn encode(&self, writer: &mut Writer, band: &mut [u8])
        requires { length band.old ≡ 16 * (input_format self.now.frame).across }
        ensures { (p : Progress self.now.frame (self.now.row * (input_format self.now.frame).across) writer.old) → RowEncoded self.now.frame self.now.row (input_format self.now.frame).across writer.old writer.new p band.new }
    {
        let mut before = STILL;
        // The column is what is asked for.
        for column in 0..self.frame.format.across() {
            before = self.encode_block(writer, column, before, band);
        }
    }
}

impl FrameInput<'_> {
    // Encodes the frame: the writer has its bytes, and `output` the picture that they mean.
    pub(crate) fn encode(&self, writer: &mut Writer, output: &mut [u8])
        requires { length output.old ≡ 16 * block_count (input_format self.now) }
        ensures { writer_of writer.old ≡ start_writer → writer.old.bits ≡ 8 → FrameEncoded self.now (input_format self.now).down writer.new output.new }
    {
        let band = 16 * self.format.across();
        // Each row of blocks is lent on as a part of the picture, cut by place: of what chunks_mut lends a proof keeps the lengths alone.
        for row in 0..self.format.down() {
            let blocks = Row { frame: *self, row };
            blocks.encode(writer, &mut output[row * band..(row + 1) * band]);
        }
    }
}
