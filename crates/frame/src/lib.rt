//! Frames: blocks row by row, and the picture that they show.
#![tactic(auto)]

mod checks;
mod decoding;
mod drawing;
mod format;
mod header;
mod messages;
mod packet;
mod promises;
mod rejection;
mod show_error;
mod showing;

pub use checks::check_number;
pub use drawing::put_block;
pub use format::{Format, MAX_PIXELS};
pub use header::{FrameHeader, VideoHeader};
pub use packet::{Frame, MAX_SEQUENCE_NUMBER, Packet};
pub use promises::{key_alone, said_in_bits, within_edges, worked_examples, zeros_ignored};
pub use rejection::{Extent, Plane, Rejection};
pub use show_error::ShowError;
pub use showing::{redraw, show, show_frame};
