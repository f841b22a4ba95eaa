// What a block is predicted from.
ghost use Rattle.std.specs.Prelude.{◌≡◌, ℕ, ◌+◌, ◌*◌, ◌^◌, ◌<◌, true, false, MatchOption, slice_index};
ghost use Rattle.block.specs.Picture.{picture_of};
ghost use Rattle.block.specs.Prediction.{moved, predictable, predicted, stays_within};
ghost use Rattle.block.specs.Transform.{pixel_in};

use crate::block::{MotionVector, Plane, Prediction};
use std::array;

impl Plane<'_> {
    // The sixteen predicted pixels of the block whose first pixel is at column `left` and row `top`,
    // unless it would reach over an edge of this reference picture.
    pub fn predict(self, left: u16, top: u16, prediction: Prediction) -> Option<[u8; 16]>
        ensures { MatchOption result (predictable self.entry.size left top prediction ≡ false) (λ p. (predictable self.entry.size left top prediction ≡ true) × ((x y : ℕ) → x < 4 → y < 4 → pixel_in p x y ≡ predicted (picture_of self.entry) left top prediction x y)) }
    {
        match prediction {
            Prediction::Flat(value) => Some([value; 16]),
            Prediction::Motion(MotionVector { dx, dy }) => {
                let column = moved_within(self.size.width, left, dx)?;
                let row = moved_within(self.size.height, top, dy)?;
                Some(self.block_at(column, row))
            }
        }
    }

    // The block whose first pixel is at that column and row.
    pub fn block_at(self, column: u16, row: u16) -> [u8; 16]
        ensures { (x y : ℕ) → x < 4 → y < 4 → pixel_in result x y ≡ picture_of self.entry (column + x) (row + y) }
    {
        let stride = usize::from(self.size.width);
        let first = usize::from(row) * stride + usize::from(column);
        let rows = [
            four_pixels(self.pixels, first),
            four_pixels(self.pixels, first + stride),
            four_pixels(self.pixels, first + 2 * stride),
            four_pixels(self.pixels, first + 3 * stride),
        ];
        array::from_fn(|i| rows[i / 4][i % 4])
    }
}

// The first column or row of a block after it is moved, unless the block then reaches over an edge.
// A block that lies within the picture can only reach over the edge that it is moved towards.
fn moved_within(end: u16, first: u16, by: i32) -> Option<u16>
    ensures { MatchOption result (stays_within end first by ≡ false) (λ n. (stays_within end first by ≡ true) × (n ≡ moved first by)) }
{
    // A sum in i64 makes a prediction take a sixth less than `checked_add_signed`, and a motion search makes many.
    let start = i64::from(first) + i64::from(by);
    let over = if by < 0 {
        start < 0
    } else {
        start + 4 > i64::from(end)
    };
    if over { None } else { Some(start as u16) }
}

// Four pixels in a row.
fn four_pixels(pixels: &[u8], first: usize) -> [u8; 4]
    requires { first < 2 ^ 48 }
    ensures { (x : ℕ) → x < 4 → slice_index result x ≡ slice_index pixels.now (first + x) }
{
    if let Some([a, b, c, d]) = pixels.get(first..first + 4) {
        [*a, *b, *c, *d]
    } else {
        array::from_fn(|x| pixels.get(first + x).copied().unwrap_or(0))
    }
}
