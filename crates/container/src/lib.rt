//! Video files: a header line, and then packets in binary, one after the other.
#![tactic(auto)]

mod fault;
mod header;
mod packet;
mod promises;
mod reader;
mod reading;
mod streaming;
#[cfg(test)]
mod tests;
mod varint;
mod writing;

pub use header::{read_header, write_header};
pub use packet::{PacketAt, PacketHead};
pub use promises::{any_pieces, cut_anywhere, one_form, read_back};
pub use reader::PacketReader;
pub use reading::read_packet;
pub use text::PacketError;
pub use writing::{write_packet, write_packet_into};
