// Levels for a predicted block: as few as keep every pixel within half a step of its source.
ghost use Rattle.encoder.specs.Choice.{ChosenAs, PredictedAs, PredictedAs-prop};
ghost use Rattle.std.specs.Prelude.{◌≡◌, ◌<◌, ◌≤◌, IfSome, slice_set, unsigned_abs};
ghost use Rattle.symbols.specs.Promise.{Sayable};

use crate::choice::{Choice, Predicted};
use crate::input::BlockInput;
use block::Block;

// A block and its prediction: levels make up for what the one lacks of the other.
#[derive(Clone, Copy)]
pub(crate) struct Residual<'a> {
    pub input: BlockInput<'a>,
    pub predicted: Predicted,
    ghost predicted_as: { PredictedAs input predicted } by { PredictedAs-prop input predicted },
}

impl Residual<'_> {
    // The predicted block with these levels, if that is close enough to its source.
    fn with_levels(&self, levels: [i32; 16]) -> Option<Choice>
        requires { Sayable levels }
        ensures { IfSome result (λ c. ChosenAs self.now.input c) }
    {
        let Predicted { prediction, pixels } = self.predicted;
        let pixels = block::reconstruct(self.input.step, levels, pixels);
        if block::is_close(self.input.step, pixels, self.input.source) {
            let block = Block { prediction, levels };
            Some(Choice { block, pixels })
        } else {
            None
        }
    }

    // The predicted block with the levels that are nearest to what it lacks, which is always close enough.
    fn with_nearest(&self) -> Choice
        ensures { ChosenAs self.now.input result }
    {
        let Predicted { prediction, pixels } = self.predicted;
        let levels = block::nearest_levels(self.input.step, self.input.source, pixels);
        let pixels = block::reconstruct(self.input.step, levels, pixels);
        Choice {
            block: Block { prediction, levels },
            pixels,
        }
    }

    // The same block with one level made 0, or else brought nearer to 0 by one, if it is still close enough to its source.
    fn lowered_at(&self, choice: Choice, k: usize) -> Choice
        requires k { k < 16 }
        requires chosen { ChosenAs self.now.input choice }
        ensures { ChosenAs self.now.input result }
    {
        let levels = choice.block.levels;
        let level = levels[k];
        if level == 0 {
            return choice;
        }
        if let Some(fewer) = self.with_levels(replaced(levels, k, 0)) {
            return fewer;
        }
        self.with_levels(replaced(levels, k, level - level.signum()))
            .unwrap_or(choice)
    }

    // The same block with its levels lowered one after the other, those of the finest detail first.
    fn lowered(&self, choice: Choice) -> Choice
        requires { ChosenAs self.now.input choice }
        ensures { ChosenAs self.now.input result }
    {
        let mut best = choice;
        for k in (0..16).rev() {
            best = self.lowered_at(best, k);
        }
        best
    }

    // The predicted block with no levels if that is close enough, else with the nearest ones lowered as far as they may be.
    pub(crate) fn finished(&self) -> Choice
        ensures { ChosenAs self.now.input result }
    {
        if let Some(choice) = self.with_levels([0; 16]) {
            return choice;
        }
        self.lowered(self.with_nearest())
    }
}

// The levels with one of them replaced.
fn replaced(levels: [i32; 16], k: usize, value: i32) -> [i32; 16]
    requires { k < 16 }
    ensures { result ≡ slice_set levels k value }
{
    let mut changed = levels;
    changed[k] = value;
    changed
}
