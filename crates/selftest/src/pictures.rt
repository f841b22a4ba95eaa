// Pictures to code.
use crate::random::Random;

// A picture of one value, or of noise.
pub fn draw(random: &mut Random, picture: &mut [u8]) {
    if random.below(4) == 0 {
        picture.fill(random.byte());
    } else {
        random.fill(picture);
    }
}

// Moves a picture to the left by so many pixels: what leaves a row on its left comes into the row above on its right.
pub fn shift(picture: &mut [u8], by: usize) {
    if by <= picture.len() {
        picture.rotate_left(by);
    }
}

// Changes one pixel in so many.
pub fn change(random: &mut Random, picture: &mut [u8], rarity: u64) {
    for pixel in picture {
        if random.below(rarity) == 0 {
            *pixel = random.byte();
        }
    }
}

// Whether no pixel is further from its source than so much, counted here and not by the library.
pub fn is_near(picture: &[u8], source: &[u8], most: u8) -> bool {
    picture
        .iter()
        .zip(source)
        .all(|(pixel, wanted)| pixel.abs_diff(*wanted) <= most)
}
