//! Numbers, signed numbers and levels out of binary decisions.
#![tactic(auto)]

ghost use Rattle.symbols.specs.Promise.{SymbolsReadBack};

mod class;
mod reading;
mod writing;

pub use class::NumberClass;
pub use reading::{read_byte, read_levels, read_signed};
pub use writing::{write_byte, write_levels, write_signed};

pub fn symbols_read_back()
    ensures { SymbolsReadBack }
{}
