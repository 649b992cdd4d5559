// What a slice needs at least, whatever is restored.

ghost use Rattle.bit_codes.specs.declared.TheConstants.{MAX_MAGNITUDE};
ghost use Rattle.std.specs.Prelude.{◌≡◌, ◌+◌, ◌^◌, ◌<◌, ◌≤◌, unsigned_abs};
ghost use Rattle.planes.specs.Numbers.{Within};
ghost use Rattle.planes.specs.Raster.{at, height};
ghost use Rattle.quant_factors.specs.Factors.{forward_of};
ghost use Rattle.slice_geometry.specs.Shape.{IsSize, IsDepth};
ghost use Rattle.slice_encoder.specs.Counted.{component_of};
ghost use Rattle.slice_encoder.specs.LowNeeds as low;
ghost use Rattle.slice_encoder.specs.LowNeeds.{counted_bits, row_bits, rect_bits, level_bits, low_luma, low_colour, lower_of, CanCount};
ghost use Rattle.slice_encoder.specs.Ready.{coded_picture, IsGiven, AreGiven};

use bit_codes::sint_len;
use planes::{Bands, Orient, Plane, Rect, Trio};
use quant_factors::{Matrix, forward};
use slice_geometry::{Layout, PictureShape, Size};

/// How many bits the luma values and the colour values of a slice need at least at an index, whatever its lowest
/// subbands hold.
#[derive(Clone, Copy, Debug, PartialEq, Eq)]
pub struct Lower {
    /// The bound of the luma values.
    pub luma: u64,
    /// The bound of the colour values.
    pub colour: u64,
}

// The length of a value's code, and nothing for 0.
#[inline(always)]
fn counted(v: i64) -> u64
    requires { unsigned_abs v ≤ MAX_MAGNITUDE }
    ensures value { result ≡ counted_bits v }
    ensures few { result ≤ 74 }
{
    if v == 0 { 0 } else { u64::from(sint_len(v)) }
}

// The length of a quantised coefficient's code, and nothing for 0.
#[inline(always)]
fn counted_at(coefficients: &Plane, y: u32, x: u32, index: u32) -> u64
    requires index { index ≤ 127 }
    requires y_inside { y < height coefficients.now }
    requires x_inside { x < coefficients.now.w }
    requires small { Within (2 ^ 27) (at coefficients.now y x) }
    ensures value { result ≡ counted_bits (forward_of (at coefficients.now y x) index) }
    ensures few { result ≤ 74 }
{
    counted(forward(coefficients.get(y, x), index))
}

// The same of a row of a rectangle.
fn bits_in_row(coefficients: &Plane, rect: Rect, y: u32, index: u32) -> u64
    requires index { index ≤ 127 }
    requires can { CanCount rect coefficients.now }
    requires inside { y < rect.y1 }
    ensures value { result ≡ row_bits (at coefficients.now) index rect y }
    ensures few { result ≤ 2 ^ 20 }
{
    let mut bits = 0;
    for x in rect.x0..rect.x1 {
        bits += counted_at(coefficients, y, x, index);
    }
    bits
}

// The same of all of a rectangle.
fn bits_in_rect(coefficients: &Plane, rect: Rect, index: u32) -> u64
    requires index { index ≤ 127 }
    requires can { CanCount rect coefficients.now }
    ensures value { result ≡ rect_bits (at coefficients.now) index rect }
    ensures few { result ≤ 2 ^ 34 }
{
    let mut bits = 0;
    for y in rect.y0..rect.y1 {
        bits += bits_in_row(coefficients, rect, y, index);
    }
    bits
}

/// A component that is counted. The depth of its samples bounds the coefficients, in contracts alone.
#[derive(Clone, Copy)]
pub struct CountedComponent<'a> {
    pub layout: &'a Layout,
    pub matrix: &'a Matrix,
    pub size: Size,
    pub sample_depth: u32,
    pub coefficients: &'a Bands,
}

// The same of the slice's values in the bands of a level.
fn bits_in_level(component: CountedComponent<'_>, sx: u32, sy: u32, index: u32, level: u32) -> u64
    requires index { index ≤ 127 }
    requires size { IsSize component.size.w component.size.h }
    requires bits { IsDepth component.sample_depth }
    requires across { sx < component.layout.now.slices_x }
    requires down { sy < component.layout.now.slices_y }
    requires entries { component.matrix.now.depth ≡ component.layout.now.depth }
    requires given { IsGiven (component_of component) component.sample_depth }
    requires some { 1 ≤ level }
    requires most { level ≤ component.layout.now.depth }
    ensures value { result ≡ level_bits (component_of component.entry) index sx sy level }
    ensures few { result ≤ 2 ^ 36 }
{
    let _depth = component.layout.depth();
    let rect = component.layout.band_rect(component.size, level, sx, sy);
    let hl_band = component.coefficients.band(level, 1);
    let lh_band = component.coefficients.band(level, 2);
    let hh_band = component.coefficients.band(level, 3);
    let first = component.matrix.quantiser(index, level, Orient::Hl);
    let second = component.matrix.quantiser(index, level, Orient::Lh);
    let third = component.matrix.quantiser(index, level, Orient::Hh);
    let hl = bits_in_rect(hl_band, rect, first);
    let lh = bits_in_rect(lh_band, rect, second);
    let hh = bits_in_rect(hh_band, rect, third);
    hl + (lh + hh)
}

// The same of all of the slice's values in one component, but for its lowest subband.
fn high_bits(component: CountedComponent<'_>, sx: u32, sy: u32, index: u32) -> u64
    requires index { index ≤ 127 }
    requires size { IsSize component.size.w component.size.h }
    requires bits { IsDepth component.sample_depth }
    requires across { sx < component.layout.now.slices_x }
    requires down { sy < component.layout.now.slices_y }
    requires entries { component.matrix.now.depth ≡ component.layout.now.depth }
    requires given { IsGiven (component_of component) component.sample_depth }
    ensures value { result ≡ low.high_bits (component_of component.entry) index sx sy }
    ensures few { result ≤ 2 ^ 38 }
{
    let mut bits = 0;
    for below in 0..component.layout.depth() {
        let level = below + 1;
        bits += bits_in_level(component, sx, sy, index, level);
    }
    bits
}

// What the luma values of a slice need at least at an index.
fn lower_luma(
    layout: &Layout,
    shape: &PictureShape,
    matrix: &Matrix,
    sx: u32,
    sy: u32,
    index: u32,
    coefficients: &Trio,
) -> u64
    requires index { index ≤ 127 }
    requires across { sx < layout.now.slices_x }
    requires down { sy < layout.now.slices_y }
    requires given { AreGiven (coded_picture layout.now shape.now matrix.now coefficients.now) }
    ensures value { result ≡ low_luma (coded_picture layout.now shape.now matrix.now
        coefficients.now) index sx sy }
    ensures few { result ≤ 2 ^ 40 }
{
    let component = CountedComponent {
        layout,
        matrix,
        size: shape.luma,
        sample_depth: shape.luma_depth,
        coefficients: &coefficients.luma,
    };
    high_bits(component, sx, sy, index).saturating_sub(3)
}

// What its colour values need at least.
fn lower_colour(
    layout: &Layout,
    shape: &PictureShape,
    matrix: &Matrix,
    sx: u32,
    sy: u32,
    index: u32,
    coefficients: &Trio,
) -> u64
    requires index { index ≤ 127 }
    requires across { sx < layout.now.slices_x }
    requires down { sy < layout.now.slices_y }
    requires given { AreGiven (coded_picture layout.now shape.now matrix.now coefficients.now) }
    ensures value { result ≡ low_colour (coded_picture layout.now shape.now matrix.now
        coefficients.now) index sx sy }
    ensures few { result ≤ 2 ^ 40 }
{
    let first = CountedComponent {
        layout,
        matrix,
        size: shape.colour,
        sample_depth: shape.colour_depth,
        coefficients: &coefficients.c1,
    };
    let second = CountedComponent {
        layout,
        matrix,
        size: shape.colour,
        sample_depth: shape.colour_depth,
        coefficients: &coefficients.c2,
    };
    let first_bits = high_bits(first, sx, sy, index);
    let second_bits = high_bits(second, sx, sy, index);
    (first_bits + second_bits).saturating_sub(3)
}

// What a slice needs at least at an index.
pub fn lower_at(
    layout: &Layout,
    shape: &PictureShape,
    matrix: &Matrix,
    sx: u32,
    sy: u32,
    index: u32,
    coefficients: &Trio,
) -> Lower
    requires index { index ≤ 127 }
    requires across { sx < layout.now.slices_x }
    requires down { sy < layout.now.slices_y }
    requires given { AreGiven (coded_picture layout.now shape.now matrix.now coefficients.now) }
    ensures value { result ≡ lower_of (coded_picture layout.now shape.now matrix.now
        coefficients.now) sx sy index }
    ensures few_luma { result.luma ≤ 2 ^ 40 }
    ensures few_colour { result.colour ≤ 2 ^ 40 }
{
    Lower {
        luma: lower_luma(layout, shape, matrix, sx, sy, index, coefficients),
        colour: lower_colour(layout, shape, matrix, sx, sy, index, coefficients),
    }
}
