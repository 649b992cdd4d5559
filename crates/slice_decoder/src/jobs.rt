// A slice that is decoded, and the part of it that belongs to a component.

ghost use Rattle.std.specs.Prelude.{◌≡◌};
ghost use Rattle.slice_decoder.specs.Jobs.{part_in, luma_part, colour_part, IsPartJob, IsSliceJob};

use planes::Rect;
use quant_factors::Matrix;
use slice_geometry::{Layout, PictureShape, Size};

/// A slice that is to be decoded: where it lies in a picture, the matrix that it is dequantised by, and its bytes.
#[derive(Clone, Copy)]
pub struct CodedSlice<'a> {
    /// How the picture is cut into slices.
    pub layout: &'a Layout,
    /// The sizes of the picture's components.
    pub shape: &'a PictureShape,
    /// The quantisation matrix, of the layout's depth.
    pub matrix: &'a Matrix,
    /// The slice's column.
    pub sx: u32,
    /// Its row.
    pub sy: u32,
    /// Its bytes, 1 to 2^28 of them.
    pub bytes: &'a [u8],
}

/// Which slice is read: its column and row, and its quantisation index.
#[derive(Clone, Copy)]
pub struct Place {
    pub sx: u32,
    pub sy: u32,
    pub qindex: u32,
}

/// A slice's part of a component of this size, with its rectangle in the bands of each level.
#[derive(Clone, Copy)]
pub struct PartJob<'a> {
    pub layout: &'a Layout,
    pub size: Size,
    pub matrix: &'a Matrix,
    pub place: Place,
    pub rects: &'a [Rect; 5],
}

/// A slice of a picture, with its rectangle in the bands of each level, of luma and of the colour components.
#[derive(Clone, Copy)]
pub struct SliceJob<'a> {
    pub layout: &'a Layout,
    pub shape: &'a PictureShape,
    pub matrix: &'a Matrix,
    pub place: Place,
    pub luma_rects: &'a [Rect; 5],
    pub colour_rects: &'a [Rect; 5],
}

/// A slice's part of a component, with its rectangle in the lowest band, and how many places it has in each band of each level:
/// all that a store of slices asks for.
#[derive(Clone, Copy)]
pub struct ShortJob<'a> {
    pub layout: &'a Layout,
    pub size: Size,
    pub matrix: &'a Matrix,
    pub place: Place,
    pub lowest: Rect,
    pub areas: &'a [usize; 5],
}

impl<'a> SliceJob<'a> {
    // The slice's part of luma.
    pub fn luma(self) -> PartJob<'a>
        requires { IsSliceJob self }
        ensures job { IsPartJob result }
        ensures part { part_in result ≡ luma_part self.entry }
    {
        PartJob {
            layout: self.layout,
            size: self.shape.luma,
            matrix: self.matrix,
            place: self.place,
            rects: self.luma_rects,
        }
    }

    // And that of either colour component.
    pub fn colour(self) -> PartJob<'a>
        requires { IsSliceJob self }
        ensures job { IsPartJob result }
        ensures part { part_in result ≡ colour_part self.entry }
    {
        PartJob {
            layout: self.layout,
            size: self.shape.colour,
            matrix: self.matrix,
            place: self.place,
            rects: self.colour_rects,
        }
    }
}
