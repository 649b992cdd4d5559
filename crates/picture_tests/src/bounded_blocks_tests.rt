//! Bounded blocks read and written.

mod reading;
mod writing;
