//! Streams read and written.

mod bands;
mod pictures;
pub(crate) mod reading;
mod refusals;
mod smallest;
mod writing;
