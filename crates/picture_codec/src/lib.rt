//! Whole pictures: their samples, the decoder that makes them of slices, and the encoder that writes slices of them.
#![tactic(auto)]

mod centring;
pub mod closed_loop;
mod component_lines;
mod decoded_bands;
mod decoder;
mod encoder;
mod late_narrow;
pub mod laws;
mod picture;
mod row_bands;
mod samples;
mod short_slices;
mod showing;
mod stored_bands;
mod synthesised;
mod wide_bands;
mod workspace;

pub use decoded_bands::{DecodedBands, ShownBands};
pub use decoder::PictureDecoder;
pub use encoder::{EncoderFault, PictureEncoder};
pub use picture::Picture;
pub use slice_decoder::SliceFault;
pub use transform_params::{TransformFault, TransformParams, TransformReason};
