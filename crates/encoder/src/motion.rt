// What a block is predicted from: its mean value, or the reference picture at a motion vector that a small search finds.
ghost use Rattle.encoder.specs.Choice.{PredictedAs, PredictedAs-prop};
ghost use Rattle.std.specs.Prelude.{◌≡◌, ◌*◌, ◌≤◌, false, IfSome};

use crate::choice::Predicted;
use crate::input::BlockInput;
use block::{MotionVector, Prediction, Step};

// How often a search moves on from the best vector so far.
const ROUNDS: usize = 8;

// No motion.
pub(crate) const STILL: MotionVector = MotionVector { dx: 0, dy: 0 };

// The sum of absolute differences. A loop, since the bound of a chain's sum would ask for a contract on its closure.
fn difference(a: [u8; 16], b: [u8; 16]) -> u32
    ensures { result ≤ 16 * 255 }
{
    let mut sum = 0;
    for (a, b) in a.iter().zip(&b) {
        sum += u32::from(block::distance(*a, *b));
    }
    sum
}

// The mean of sixteen pixels. A loop, as above.
fn mean(pixels: [u8; 16]) -> u8 {
    let mut sum = 8u16;
    for pixel in pixels {
        sum += u16::from(pixel);
    }
    (sum / 16) as u8
}

// What a vector costs beside the difference that it leaves: staying costs nothing.
fn vector_cost(vector: MotionVector, step: Step) -> u32
    ensures { result ≤ 2 * 64 }
{
    if vector == STILL {
        0
    } else {
        2 * u32::from(step.value())
    }
}

// A vector one pixel further, where that can be counted.
fn beside(vector: MotionVector, dx: i32, dy: i32) -> MotionVector {
    MotionVector {
        dx: vector.dx.saturating_add(dx),
        dy: vector.dy.saturating_add(dy),
    }
}

impl<'a> BlockInput<'a> {
    // A block of one value, which any frame can say.
    fn flat(&self) -> Predicted
        ensures { PredictedAs self.now result }
    {
        let value = mean(self.source);
        Predicted {
            prediction: Prediction::Flat(value),
            pixels: [value; 16],
        }
    }

    // The reference picture at a motion vector, unless that is over an edge.
    fn moved(self, vector: MotionVector) -> Option<Predicted>
        requires { self.header.key ≡ false }
        ensures { IfSome result (λ p. PredictedAs self.entry p) }
    {
        let prediction = Prediction::Motion(vector);
        let left = u16::from(self.left);
        let top = u16::from(self.top);
        let pixels = self.reference.predict(left, top, prediction)?;
        Some(Predicted { prediction, pixels })
    }

    // A prediction for the block: in a key frame it is flat. A search starts at no motion and at the vector of the block before.
    pub(crate) fn predicted(&self, before: MotionVector) -> Predicted
        ensures { PredictedAs self.now result }
    {
        if self.header.key {
            return self.flat();
        }
        let mut search = Search::new(*self);
        search.try_vector(STILL);
        search.try_vector(before);
        search.refine();
        search.best
    }
}

// A search in a frame that is no key frame: the best prediction so far, its vector, and what it costs.
#[derive(Clone, Copy)]
struct Search<'a> {
    input: BlockInput<'a>,
    best: Predicted,
    vector: MotionVector,
    cost: u32,
    ghost between: { input.header.key ≡ false },
    ghost found: { PredictedAs input best } by { PredictedAs-prop input best },
}

impl<'a> Search<'a> {
    // A search that has found the flat block.
    fn new(input: BlockInput<'a>) -> Search<'a>
        requires { input.header.key ≡ false }
        ensures { result.input ≡ input.entry }
    {
        let best = input.flat();
        let cost = difference(best.pixels, input.source) + 4 * u32::from(input.step.value());
        Search {
            input,
            best,
            vector: STILL,
            cost,
        }
    }

    // Takes a vector where it is cheaper than the best so far.
    fn try_vector(&mut self, vector: MotionVector)
        ensures { self.new.input ≡ self.old.input }
    {
        let Some(best) = self.input.moved(vector) else {
            return;
        };
        let cost = difference(best.pixels, self.input.source)
            + vector_cost(vector, self.input.step);
        if cost < self.cost {
            self.best = best;
            self.vector = vector;
            self.cost = cost;
        }
    }

    // Tries the four vectors beside the best so far.
    fn step_on(&mut self)
        ensures { self.new.input ≡ self.old.input }
    {
        let from = self.vector;
        self.try_vector(beside(from, 1, 0));
        self.try_vector(beside(from, -1, 0));
        self.try_vector(beside(from, 0, 1));
        self.try_vector(beside(from, 0, -1));
    }

    // Moves on to a better vector beside, as long as there is one, for some rounds.
    fn refine(&mut self)
        ensures { self.new.input ≡ self.old.input }
    {
        for _ in 0..ROUNDS {
            let cost = self.cost;
            self.step_on();
            if self.cost == cost {
                break;
            }
        }
    }
}
