//! What the programs share: where they read from, the words after their names, and how they refuse.
#![tactic(auto)]

mod arguments;
mod bytes;
mod file_or;
mod line;
mod lines;
mod named_wish;
mod packets;
mod refusal;
mod refusals;
mod source;
#[cfg(test)]
mod tests;
mod wish;

pub use arguments::Arguments as NamedArguments;
pub use file_or::{FileOr, Input, Output};
pub use line::Line;
pub use lines::Lines;
pub use named_wish::{NamedWish, read_named_wish};
pub use packets::PacketSource;
pub use refusal::{Refusal, exit_code, report};
pub use source::Source;
pub use wish::{Arguments, Wish, read_wish};
