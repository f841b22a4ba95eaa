//! Ordinary grey picture formats over bytes: Y4M and PGM, the mark below a played picture, and padding to whole blocks.
#![tactic(auto)]

mod error;
mod forms;
mod key_frames;
mod key_interval;
mod layout;
mod number;
mod padding;
mod pgm_parsing;
mod places;
mod promises;
mod rate;
mod size;
mod steps;
mod strip;
mod words;
mod y4m;
mod y4m_tags;

pub use error::{Fault, PictureError};
pub use forms::{Form, FrameRate, Layout, Mark, Opening, Pgm, PictureAt, Size, Y4mHeader};
pub use key_interval::KeyInterval;
pub use layout::{open_pgm, open_y4m, recognise};
pub use padding::{block_count, pad_picture, pad_row, padded_size};
pub use pgm_parsing::parse_pgm;
pub use promises::{
    cut_at_spaces, padding_keeps, pads_to_blocks, plain_picture, plain_picture_located, reads_back,
    worked_examples,
};
pub use rate::parse_rate;
pub use strip::{MARK_ROWS, mark_row};
pub use y4m::{
    is_y4m_frame_line, parse_y4m_header, write_y4m_frame, write_y4m_header, y4m_frame_line,
};
