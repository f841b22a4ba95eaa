// The strip below a played picture, which says whether the receiver is sure of it.
ghost use Rattle.std.specs.Prelude.{◌≡◌, ◌++◌, length, OnOk};
ghost use Rattle.pictures.specs.Picture.{mark_of, mark_pixel, marked_row, marked_strip, strip_pixel};

use crate::forms::Mark;
use std::alloc::AllocError;

// How many rows the strip has. Each is the same.
pub const MARK_ROWS: usize = 4;

const BLACK: u8 = 16;

const WHITE: u8 = 235;

impl Mark {
    // What a receiver says that has shown something or not, and is sure of it or not.
    pub fn of(shown: bool, sure: bool) -> Mark
        ensures { result ≡ mark_of shown sure }
    {
        match (shown, sure) {
            (false, _) => Mark::Nothing,
            (true, true) => Mark::Sure,
            (true, false) => Mark::Unsure,
        }
    }
}

// The strip's pixel in a column.
fn mark_pixel(mark: Mark, column: usize) -> u8
    ensures { result ≡ mark_pixel mark column }
{
    match mark {
        Mark::Sure => WHITE,
        Mark::Unsure => { if column / 4 % 2 == 0 { BLACK } else { WHITE } }
        Mark::Nothing => BLACK,
    }
}

// Fills a row of the strip.
pub fn mark_row(mark: Mark, row: &mut [u8])
    ensures { row.new ≡ marked_row mark (length row.old) }
{
    for (column, pixel) in row.iter_mut().enumerate() {
        *pixel = mark_pixel(mark, column);
    }
}

// The strip's pixel at an index.
fn strip_pixel(mark: Mark, width: u16, index: usize) -> u8
    ensures { result ≡ strip_pixel mark width index }
{
    mark_pixel(mark, index % usize::from(width.max(1)))
}

// Adds the strip of a picture of that width.
pub(crate) fn push_strip(mark: Mark, width: u16, frame: &mut Vec<u8>) -> Result<(), AllocError>
    ensures { OnOk result (frame.new.items ≡ frame.old.items ++ marked_strip mark width) }
{
    let indices = 0..MARK_ROWS * usize::from(width);
    frame.extend(indices.map(|index| strip_pixel(mark, width, index)))
}
