//! Raw video: pictures as plain samples, one picture after another.
#![tactic(auto)]

pub mod laws;
mod parsing;
mod raw_writer;
mod reader;
mod reading;
mod spelling;
mod writing;

pub use raw_writer::RawWriter;
pub use reader::{RawFault, RawReader, RawStep};
pub use writing::write_picture;
