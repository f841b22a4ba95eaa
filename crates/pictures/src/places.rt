// Where pictures stand in bytes.
ghost use Rattle.std.specs.Prelude.{◌≡◌, ◌+◌, ◌^◌, ◌<◌};
ghost use Rattle.pictures.specs.Layout.{picture_from};
ghost use Rattle.pictures.specs.Pgm.{pgm_from};
ghost use Rattle.pictures.specs.Picture.{pixel_count};

use crate::forms::{Pgm, PictureAt, Size};

impl PictureAt {
    // So many pixels from a byte on, and so many bytes more up to the next picture.
    pub(crate) fn new(start: usize, pixels: usize, more: usize) -> PictureAt
        requires { start + pixels + more < 2 ^ 64 }
        ensures { result ≡ picture_from start pixels more }
    {
        let end = start + pixels;
        PictureAt {
            start,
            end,
            next: end + more,
        }
    }
}

impl Pgm {
    // A picture of a size whose pixels begin at a byte.
    pub(crate) fn new(size: Size, start: usize) -> Pgm
        requires { start + pixel_count size < 2 ^ 64 }
        ensures { result ≡ pgm_from size start }
    {
        Pgm {
            size,
            start,
            end: start + size.pixels(),
        }
    }
}
