//! Streams written: the units of pictures to any sink, and the laws of what is written.
#![tactic(auto)]

mod due_units;
pub mod encoding;
mod write_stop;
mod writer;
mod written_units;

pub use write_stop::WriteStop;
pub use writer::StreamWriter;
