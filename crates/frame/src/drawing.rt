// Blocks drawn into a row of blocks, which is four rows of pixels.
ghost use Rattle.std.specs.Prelude.{◌≡◌, ℕ, ◌+◌, ◌*◌, ◌<◌, ◌≤◌, ◌⊎◌, length, slice_index};
ghost use Rattle.frame.specs.Decoding.{BlockPut};

// Writes the four rows of a block into its column of the row of blocks.
fn put_pixels(band: &mut [u8], width: usize, column: usize, pixels: [u8; 16])
    requires band { 4 * width ≤ length band.old }
    requires column { 4 * column + 4 ≤ width }
    requires width { width ≤ 240 }
    ensures drawn { BlockPut width column pixels band.old band.new }
    ensures after { (k : ℕ) → 4 * width ≤ k → slice_index band.new k ≡ slice_index band.old k }
{
    // By place, since of what chunks_mut lends a proof keeps the lengths, and not the pixels.
    for row in 0..4 {
        let start = row * width + 4 * column;
        band[start..start + 4].copy_from_slice(&pixels[4 * row..4 * row + 4]);
    }
}

// Draws a block into its column of a row of blocks of a picture at most 240 wide, if the block lies within it; else nothing changes.
pub fn put_block(band: &mut [u8], width: usize, column: usize, pixels: [u8; 16])
    ensures drawn { 4 * width ≤ length band.old → 4 * column + 4 ≤ width → width ≤ 240 → BlockPut width column pixels band.old band.new }
    ensures after { (k : ℕ) → 4 * width ≤ k → slice_index band.new k ≡ slice_index band.old k }
    ensures outside { (length band.old < 4 * width) ⊎ (width < 4 * column + 4) ⊎ (240 < width) → band.new ≡ band.old }
{
    if width <= 240 && 4 * width <= band.len() && column < width / 4 {
        put_pixels(band, width, column, pixels);
    }
}
