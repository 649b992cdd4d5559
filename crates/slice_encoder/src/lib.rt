//! One slice out: the least quantisation index at which it fits, its bytes, and what a decoder will restore of it.
//!
//! A trial of an index restores the lowest subbands, quantised less their predictions over restored values, and knows by
//! looks at the other coefficients what their values need. `SliceEncoder` takes the least index that fits, and quantises
//! the others at that one alone. What it leaves in the kept planes is what later slices are predicted from.
#![tactic(auto)]

mod bit_queues;
mod block_texts;
mod bounding;
mod candidates;
mod code_tables;
mod code_texts;
mod encoder;
mod first_residuals;
mod fitting;
mod gathered;
mod jobs;
pub mod laws;
mod limits;
mod listing;
mod looks;
mod magnitudes;
mod needs;
mod packing;
mod rect_trials;
mod room;
mod scale_rows;
mod scales;
mod search;
mod short_texts;
mod sizes;
mod slice_rects;
mod slices;
mod steep;
mod trying;
mod writer;

pub use bounding::Lower;
pub use encoder::{SliceEncoder, Trial};
pub use steep::steep_ok;
