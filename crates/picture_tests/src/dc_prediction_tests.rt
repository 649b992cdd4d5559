//! The lowest subband reconstructed, in 64 and in 32 bits.

mod narrow;
pub(crate) mod wide;
