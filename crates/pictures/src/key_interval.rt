ghost use Rattle.std.specs.Prelude.{◌<◌};

// Of every so many pictures, from the first on, one is to be a key frame.
#[derive(Clone, Copy, PartialEq, Eq, Debug)]
pub struct KeyInterval {
    pub(crate) pictures: u64,
    ghost some: { 0 < pictures },
}
