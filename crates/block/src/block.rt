// How far to the right and down a block is taken from.
#[derive(Clone, Copy, PartialEq, Eq, Debug)]
pub struct MotionVector {
    pub dx: i32,
    pub dy: i32,
}

// What a block is predicted from: one value, or the reference picture at a motion vector.
#[derive(Clone, Copy, PartialEq, Eq, Debug)]
pub enum Prediction {
    Flat(u8),
    Motion(MotionVector),
}

#[derive(Clone, Copy, PartialEq, Eq, Debug)]
pub struct Block {
    pub prediction: Prediction,
    pub levels: [i32; 16],
}

// A picture's size in pixels.
#[derive(Clone, Copy, PartialEq, Eq, Debug)]
pub struct PlaneSize {
    pub width: u16,
    pub height: u16,
}

// A picture's pixels, row by row, and its size. A pixel past the end counts as 0.
#[derive(Clone, Copy, PartialEq, Eq, Debug)]
pub struct Plane<'a> {
    pub pixels: &'a [u8],
    pub size: PlaneSize,
}
