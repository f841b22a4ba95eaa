// Pictures whose width or height is no multiple of four: the last column and row are repeated.
ghost use Rattle.std.specs.Prelude.{◌≡◌, ◌+◌, ◌/◌, length};
ghost use Rattle.pictures.specs.Picture.{padded, padded_picture, padded_picture_pixel, padded_pixel, padded_row};

use crate::forms::Size;

// How many blocks of four pixels hold so many.
pub fn block_count(size: u16) -> u64
    ensures { result ≡ (size + 3) / 4 }
{
    u64::from(size).div_ceil(4)
}

// The next multiple of four.
pub fn padded_size(size: u16) -> usize
    ensures { result ≡ padded size }
{
    usize::from(size).next_multiple_of(4)
}

// The pixel in a column, and past the end the last one.
fn padded_pixel(pixels: &[u8], column: usize) -> u8
    ensures { result ≡ padded_pixel pixels.now column }
{
    pixels.get(column).or(pixels.last()).copied().unwrap_or(0)
}

// Fills a row with pixels, and past their end with the last of them.
pub fn pad_row(pixels: &[u8], row: &mut [u8])
    ensures { row.new ≡ padded_row pixels.now (length row.old) }
{
    for (column, pixel) in row.iter_mut().enumerate() {
        *pixel = padded_pixel(pixels, column);
    }
}

// The pixel at an index of the padded picture.
fn picture_pixel(pixels: &[u8], size: Size, index: usize) -> u8
    ensures { result ≡ padded_picture_pixel pixels.now size index }
{
    let across = padded_size(size.width).max(1);
    let column = (index % across).min(usize::from(size.width.saturating_sub(1)));
    let row = (index / across).min(usize::from(size.height.saturating_sub(1)));
    let at = row * usize::from(size.width) + column;
    pixels.get(at).copied().unwrap_or(0)
}

// Fills a picture that is whole blocks wide and high with pixels, and past their last column and row with those.
pub fn pad_picture(pixels: &[u8], size: Size, picture: &mut [u8])
    ensures { picture.new ≡ padded_picture pixels.now size (length picture.old) }
{
    for (index, pixel) in picture.iter_mut().enumerate() {
        *pixel = picture_pixel(pixels, size, index);
    }
}
