ghost use Rattle.std.specs.Prelude.{◌≤◌, length};

// A line of words between spaces, which is read from left to right.
#[derive(Clone, Copy)]
pub(crate) struct LineReader<'a> {
    // The bytes that are left to read.
    pub(crate) rest: &'a [u8],
    // How long the whole line is.
    pub(crate) end: usize,
    ghost within: { length rest.now ≤ end },
}

// A word and its offset. At the end of the line the word is empty.
#[derive(Clone, Copy)]
pub(crate) struct Word<'a> {
    pub(crate) position: u64,
    pub(crate) text: &'a [u8],
}
