//! Slices read, in 64 and in 32 bits.

mod narrow_slices;
pub(crate) mod slices;
