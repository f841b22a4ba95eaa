//! The text forms that programs read and write: lines of words between spaces.
#![tactic(auto)]

mod error;
mod line;
mod number;
mod packet;
mod parsing;
mod placing;
mod promises;
mod reader;
mod writing;

pub use error::PacketError;
pub use number::parse_number;
pub use packet::Packet;
pub use parsing::{
    is_blank_line, is_key_line, is_worst_line, parse_header, parse_packet, parse_row, parse_worst,
};
pub use placing::{parse_format, placed};
pub use promises::{cut_into_words, reads_back, worked_examples};
pub use writing::{write_header, write_packet, write_row, write_sure, write_unsure, write_worst};
