// A slice that is to be encoded.

use quant_factors::Matrix;
use slice_geometry::{Layout, PictureShape};

/// A slice, by what its coefficients are quantised, and how many bytes it is given.
#[derive(Clone, Copy)]
pub struct SliceJob<'a> {
    pub layout: &'a Layout,
    pub shape: &'a PictureShape,
    pub matrix: &'a Matrix,
    pub sx: u32,
    pub sy: u32,
    pub bytes: u32,
}
