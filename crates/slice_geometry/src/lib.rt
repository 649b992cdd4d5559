//! Where the parts of a picture lie: padded components, subbands, the rectangles and the bytes of slices.
#![tactic(auto)]

ghost use Rattle.std.specs.Prelude.{◌≡◌, ◌≤◌, ◌^◌};
ghost use Rattle.slice_geometry.specs.Shape.{IsSize, IsDepth};
ghost use Rattle.slice_geometry.specs.SliceOrder.{level_of, orient_of};
ghost use Rattle.slice_geometry.specs.Slicing as slicing;

pub mod laws;
mod slice_layout;
mod unit_list;

use bit_codes::intlog2;
pub use slice_layout::{Layout, LayoutFault};
pub use unit_list::{UnitShape, UnitShapes};

/// A width and a height.
#[derive(Clone, Copy, Debug, PartialEq, Eq)]
pub struct Size {
    pub w: u32,
    pub h: u32,
}

/// One of the three components of a picture: luma, or one of the two colour components.
#[derive(Clone, Copy, Debug, PartialEq, Eq)]
pub enum Component {
    Luma,
    C1,
    C2,
}

/// The sizes of a picture's components, and the bits of their samples.
///
/// Each width and height is 1 to 8192, each product of a width and its height at most 2^24, each depth 1 to 16.
#[derive(Clone, Copy, Debug, PartialEq, Eq)]
pub struct PictureShape {
    pub luma: Size,
    pub colour: Size,
    pub luma_depth: u32,
    pub colour_depth: u32,
    pub ghost luma_fits: { IsSize luma.w luma.h },
    pub ghost colour_fits: { IsSize colour.w colour.h },
    pub ghost luma_depth_fits: { IsDepth luma_depth },
    pub ghost colour_depth_fits: { IsDepth colour_depth },
}

/// What a slice begins with: its quantisation index, and the length of its luma block in bits.
#[derive(Clone, Copy, Debug, PartialEq, Eq)]
pub struct SliceHead {
    pub qindex: u32,
    pub luma_bits: u32,
}

/// The level of a component's subband k, in the order of the stream, and the number of its orientation: 0 to 3 for LL, HL, LH,
/// HH. There are at most five levels, and so 13 subbands.
pub fn band_numbered(k: u32) -> (u32, u32)
    requires { k ≤ 12 }
    ensures level { result.0 ≡ level_of k }
    ensures orient { result.1 ≡ orient_of k }
{
    let level = (k + 2) / 3;
    (level, if k == 0 { 0 } else { k + 3 - 3 * level })
}

/// How many bits give the length of the luma block in a slice of so many bytes, 1 to 2^28.
pub fn length_bits(bytes: u32) -> u32
    requires some { 1 ≤ bytes }
    requires most { bytes ≤ 2 ^ 28 }
    ensures { result ≡ slicing.length_bits bytes }
{
    intlog2(8 * bytes - 7)
}
