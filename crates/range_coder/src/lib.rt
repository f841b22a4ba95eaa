//! A binary range coder with adaptive contexts: decisions read from bytes, and written to them.
#![tactic(auto)]

ghost use Rattle.range_coder.specs.Promise.{LimitsKept, ReadBack};

mod adapting;
mod contexts;
mod decoder;
mod decoding;
mod narrowing;
mod reader;
mod reading;
mod splitting;
mod store;
mod storing;
mod writer;
mod writing;

pub use reader::Reader;
pub use writer::Writer;

// The range, the offset and the probabilities stay in their limits, whatever is read.
pub fn limits_kept()
    ensures { LimitsKept }
{}

// What was written is read back.
pub fn read_back()
    ensures { ReadBack }
{}
