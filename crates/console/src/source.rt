use crate::file_or::Input;

// Bytes that are read piece by piece, and looked at before they are taken.
#[derive(Drop)]
pub struct Source {
    pub(crate) input: Input,
    // What was read and is not taken.
    pub(crate) held: Vec<u8>,
    // Where that stands in the input.
    pub(crate) position: u64,
    pub(crate) ended: bool,
}
