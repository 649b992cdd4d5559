//! The transform parameters of a picture: the wavelet, how the picture is cut into slices, and its quantisation matrix.
#![tactic(auto)]

ghost use Rattle.std.specs.Prelude.{◌≡◌};

mod faults;
mod fields;
pub mod laws;
mod reading;
mod writing;

pub use faults::{TransformFault, TransformReason};
use lifting::Wavelet;
use quant_factors::Matrix;
use slice_geometry::Layout;

/// The parameters of a picture's transform. The matrix has the layout's depth.
#[derive(Clone, Copy, Debug, PartialEq, Eq)]
pub struct TransformParams {
    pub wavelet: Wavelet,
    pub layout: Layout,
    pub matrix: Matrix,
    pub ghost deep: { matrix.depth ≡ layout.depth },
}
