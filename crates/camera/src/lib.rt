//! The codec for C: four functions on bytes and numbers, each of which answers with one number.
#![tactic(auto)]

mod answer;
mod exports;
mod packing;
mod promises;
mod receiver;
mod receiving;

pub use exports::{zukhtavo_code, zukhtavo_receive, zukhtavo_show, zukhtavo_worst_case};
pub use promises::answers_unpack;
pub use receiver::CReceiver;
