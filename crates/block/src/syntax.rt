// Blocks read from decisions, and written as decisions.
ghost use Rattle.block.specs.Syntax.{SayableBlock, SayablePrediction, all_zero, block_decisions, prediction_decisions, read_block, read_prediction, read_residual, residual_decisions};
ghost use Rattle.range_coder.specs.Code.{HasRead, HasWritten};
ghost use Rattle.symbols.specs.Promise.{Sayable};
ghost use Rattle.std.specs.Prelude.{◌≡◌};

use crate::block::{Block, MotionVector, Prediction};
use range_coder::{Reader, Writer};
use symbols::NumberClass;

// The context that says whether a block is predicted by motion.
const MOTION_FLAG: usize = 0;

// The context that says whether a block has levels.
const LEVELS_FLAG: usize = 1;

pub fn read_block(reader: &mut Reader, key: bool) -> Block
    ensures read { HasRead (read_block key) reader.old reader.new result }
    ensures sayable { SayableBlock key result }
{
    let prediction = read_prediction(reader, key);
    let levels = read_residual(reader);
    Block { prediction, levels }
}

fn read_prediction(reader: &mut Reader, key: bool) -> Prediction
    ensures read { HasRead (read_prediction key) reader.old reader.new result }
    ensures sayable { SayablePrediction key result }
{
    if !key && reader.adaptive(MOTION_FLAG) {
        let dx = symbols::read_signed(reader, NumberClass::MotionX);
        let dy = symbols::read_signed(reader, NumberClass::MotionY);
        Prediction::Motion(MotionVector { dx, dy })
    } else {
        Prediction::Flat(symbols::read_byte(reader))
    }
}

fn read_residual(reader: &mut Reader) -> [i32; 16]
    ensures read { HasRead read_residual reader.old reader.new result }
    ensures sayable { Sayable result }
{
    if reader.adaptive(LEVELS_FLAG) {
        symbols::read_levels(reader)
    } else {
        [0; 16]
    }
}

pub fn write_block(writer: &mut Writer, key: bool, block: Block)
    ensures { HasWritten 2192 (block_decisions key block) writer.old writer.new }
{
    write_prediction(writer, key, block.prediction);
    write_residual(writer, block.levels);
}

fn write_prediction(writer: &mut Writer, key: bool, prediction: Prediction)
    ensures { HasWritten 249 (prediction_decisions key prediction) writer.old writer.new }
{
    match prediction {
        Prediction::Flat(value) => {
            if !key {
                writer.adaptive(MOTION_FLAG, false);
            }
            symbols::write_byte(writer, value);
        }
        Prediction::Motion(vector) => {
            writer.adaptive(MOTION_FLAG, true);
            symbols::write_signed(writer, NumberClass::MotionX, vector.dx);
            symbols::write_signed(writer, NumberClass::MotionY, vector.dy);
        }
    }
}

fn write_residual(writer: &mut Writer, levels: [i32; 16])
    ensures { HasWritten 1943 (residual_decisions levels) writer.old writer.new }
{
    if is_all_zero(levels) {
        writer.adaptive(LEVELS_FLAG, false);
    } else {
        writer.adaptive(LEVELS_FLAG, true);
        symbols::write_levels(writer, levels);
    }
}

pub(crate) fn is_all_zero(levels: [i32; 16]) -> bool
    ensures { result ≡ all_zero levels }
{
    levels == [0; 16]
}
