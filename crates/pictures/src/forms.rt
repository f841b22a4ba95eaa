// Plain values that the formats share.
ghost use Rattle.std.specs.Prelude.{◌≡◌, ◌+◌, ◌*◌, ◌≤◌};

// How many pixels wide and high a picture is.
#[derive(Clone, Copy, PartialEq, Eq, Debug)]
pub struct Size {
    pub width: u16,
    pub height: u16,
}

// What the first line of a Y4M stream says. Each frame is its luma, a byte for each pixel, and then its chroma.
#[derive(Clone, Copy, PartialEq, Eq, Debug)]
pub struct Y4mHeader {
    pub size: Size,
    // How many bytes of chroma follow the luma of each frame.
    pub chroma: usize,
}

// So many frames in so many seconds.
#[derive(Clone, Copy, PartialEq, Eq, Debug)]
pub struct FrameRate {
    pub frames: u32,
    pub seconds: u32,
}

// A picture whose pixels stand from `start` up to `end`, where the next picture begins.
#[derive(Clone, Copy, PartialEq, Eq, Debug)]
pub struct Pgm {
    pub size: Size,
    pub start: usize,
    pub end: usize,
    ghost whole: { start + size.width * size.height ≡ end },
}

// What a file is, by its first bytes.
#[derive(Clone, Copy, PartialEq, Eq, Debug)]
pub enum Form {
    Y4m,
    Pgm,
    Text,
}

// How pictures follow one another in a file.
#[derive(Clone, Copy, PartialEq, Eq, Debug)]
pub enum Layout {
    // Frames of a stream with this header.
    Frames(Y4mHeader),
    // Pictures with a header each, all of this size.
    Pictures(Size),
}

// What the beginning of a file says, and where the first picture begins.
#[derive(Clone, Copy, PartialEq, Eq, Debug)]
pub struct Opening {
    pub layout: Layout,
    pub start: usize,
}

// Where a picture's grey pixels begin and end, and where the next picture begins.
#[derive(Clone, Copy, PartialEq, Eq, Debug)]
pub struct PictureAt {
    pub start: usize,
    pub end: usize,
    pub next: usize,
    ghost ordered: { start ≤ end },
    ghost followed: { end ≤ next },
}

// What a receiver says of the picture it shows.
#[derive(Clone, Copy, PartialEq, Eq, Debug)]
pub enum Mark {
    Sure,
    Unsure,
    // No picture was shown yet.
    Nothing,
}
