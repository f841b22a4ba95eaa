ghost use Rattle.std.specs.Prelude.{◌≤◌, vec_len};

// Reads a file that comes in pieces. It holds what was fed and is not yet taken, and the last packet's frame.
#[derive(Drop)]
pub struct PacketReader {
    pub(crate) held: Vec<u8>,
    // Where the last packet's frame begins among the bytes held.
    pub(crate) frame: usize,
    // Where that frame ends and the next packet begins.
    pub(crate) taken: usize,
    // The next packet's position in the file.
    pub(crate) position: u64,
    ghost ordered: { frame ≤ taken },
    ghost within: { taken ≤ vec_len held },
}
