// How many pixels a picture of some size has.
ghost use Rattle.std.specs.Prelude.{◌≡◌};
ghost use Rattle.pictures.specs.Picture.{pixel_count};

use crate::forms::Size;

impl Size {
    pub fn pixels(self) -> usize
        ensures { result ≡ pixel_count self }
    {
        usize::from(self.width) * usize::from(self.height)
    }
}
