//! Video that a number gives, and how far decoded pictures are from raw ones.
#![tactic(auto)]

mod generating;
pub mod laws;
mod worst;

pub use generating::TrialVideo;
pub use worst::worst_difference;
