//! Packets, the receiver that shows them, and what it may be trusted in.
#![tactic(auto)]

mod promises;
mod receiver;
mod receiving;
mod screen;

pub use promises::{lens_to_eye, receiver_steps, sure_is_true};
pub use receiver::Receiver;
pub use receiving::receive;
pub use screen::Screen;
