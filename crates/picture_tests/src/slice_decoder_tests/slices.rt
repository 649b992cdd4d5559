//! Slices of one place, of one level and of no place, and their values.
//!
//! Owners are dropped by name, since the proof of that call is short.

ghost use Rattle.std.specs.Prelude.{◌≡◌, ℕ, ◌<◌, true};
ghost use Rattle.planes.specs.Subbands.{BandExists};
ghost use Rattle.slice_geometry.specs.Shape.{IsSize};
ghost use Rattle.slice_decoder.specs.Decoded.{IsReady, AreReady};

use planes::{Bands, Trio};
use quant_factors::Matrix;
use slice_decoder::{SliceFault, decode_slice};
use slice_geometry::{Layout, PictureShape, Size};
use std::alloc::Global;
use std::process::Abort;

/// One row of slices.
pub fn layout(rt: &impl Abort, depth: u32, across: u32, a: u32) -> Layout {
    let layout = Layout::check(depth, across, 1, a, 1)
        .ok()
        .expect(rt, "a layout");
    let slices = (layout.slices_x(), layout.slices_y());
    assert_eq!(rt; (layout.depth(), slices), (depth, (across, 1)));
    layout
}

// New subbands for a component, which are ready for every slice.
fn zero_bands(rt: &impl Abort, alloc: Global, layout: &Layout, size: Size) -> Bands
    requires { IsSize size.w size.h }
    ensures { (sx sy : ℕ) → IsReady layout.now size sx sy result }
{
    let padded = layout.padded_size(size);
    Bands::new(alloc, layout.depth(), padded.w, padded.h).expect(rt, "memory")
}

pub fn zeros(rt: &impl Abort, alloc: Global, layout: &Layout, shape: &PictureShape) -> Trio
    ensures { (sx sy : ℕ) → AreReady layout.now shape.now sx sy result }
{
    Trio {
        luma: zero_bands(rt, alloc, layout, shape.luma),
        c1: zero_bands(rt, alloc, layout, shape.colour),
        c2: zero_bands(rt, alloc, layout, shape.colour),
    }
}

/// Components of this size, of 8 bits.
pub fn shape(size: Size) -> PictureShape
    requires { IsSize size.w size.h }
    ensures luma { result.luma ≡ size }
    ensures colour { result.colour ≡ size }
{
    PictureShape {
        luma: size,
        colour: size,
        luma_depth: 8,
        colour_depth: 8,
    }
}

/// At depth 0 components of one place, or of one for each of two slices in a row, and else of two by two.
pub fn shape_at(depth: u32, across: u32) -> PictureShape {
    if depth > 0 {
        shape(Size { w: 2, h: 2 })
    } else if across == 2 {
        shape(Size { w: 2, h: 1 })
    } else {
        shape(Size { w: 1, h: 1 })
    }
}

// Whether a band is there.
pub(crate) fn exists(depth: u32, level: u32, orient: u32) -> bool
    ensures { result ≡ true → BandExists depth level orient }
{
    if level == 0 {
        orient == 0
    } else {
        level <= depth && 1 <= orient && orient <= 3
    }
}

/// The first value of a band, and 0 where the band has none or isn't there.
fn value(bands: &Bands, level: u32, orient: u32) -> i64 {
    if !exists(bands.depth(), level, orient) {
        return 0;
    }
    let band = bands.band(level, orient);
    if band.h() == 0 || band.w() == 0 {
        return 0;
    }
    band.get(0, 0)
}

/// The first values of luma's bands up to level 1, and those of the lowest bands of C1 and C2.
type Values = [i64; 6];

fn values(bands: &Trio) -> Values {
    [
        value(&bands.luma, 0, 0),
        value(&bands.luma, 1, 1),
        value(&bands.luma, 1, 2),
        value(&bands.luma, 1, 3),
        value(&bands.c1, 0, 0),
        value(&bands.c2, 0, 0),
    ]
}

/// Decodes the slice in the first column and row, by a matrix of zeros.
fn decode_first(
    rt: &impl Abort,
    layout: &Layout,
    shape: &PictureShape,
    bytes: &[u8],
    bands: &mut Trio,
) -> Result<(u32, u32, Values), SliceFault>
    requires { AreReady layout.now shape.now 0 0 bands.old }
{
    let depth = layout.depth();
    let is_there = layout.slices_x() > 0 && layout.slices_y() > 0 && depth <= 1;
    assert!(rt; is_there && bytes.len() >= 1 && bytes.len() <= 5);
    let matrix = Matrix::new(depth, &[0; 4][..(1 + 3 * depth) as usize]);
    let head = decode_slice(layout, shape, &matrix, 0, 0, bytes, bands)?;
    Ok((head.qindex, head.luma_bits, values(bands)))
}

/// A depth, how many slices a row has, the bytes of the first one, and its index, the length of its luma block and its
/// values, or the fault.
type Case<'a> = (u32, u32, &'a [u8], Result<(u32, u32, Values), SliceFault>);

/// Slices of one place, of the four bands of one level, and of no place.
const CASES: [Case<'static>; 9] = [
    (0, 1, &[0x01], Ok((0, 0, [0, 0, 0, 0, 0, 0]))),
    (0, 1, &[0x00], Ok((0, 0, [0, 0, 0, 0, -2, 0]))),
    (0, 1, &[0xFE], Ok((127, 0, [0, 0, 0, 0, -9029056507, 0]))),
    (0, 1, &[0x0A], Ok((5, 0, [0, 0, 0, 0, -6, 0]))),
    (0, 1, &[0x00, 0xDF], Err(SliceFault::LumaLengthTooLong)),
    (
        0,
        1,
        &[0xFE, 0x00, 0x00],
        Err(SliceFault::CoefficientTooLarge),
    ),
    (
        0,
        1,
        &[0xFE, 0x08, 0x00],
        Err(SliceFault::CoefficientTooLarge),
    ),
    (
        1,
        1,
        &[0x00, 0xD0, 0xA4, 0x12, 0x6D],
        Ok((0, 26, [21, 3, -5, 2, 0, 0])),
    ),
    (0, 3, &[0x14, 0x5F], Ok((10, 2, [0, 0, 0, 0, 0, 0]))),
];

fn expect_slice(rt: &impl Abort, alloc: Global, case: &Case<'_>) {
    let (depth, across, bytes, want) = *case;
    assert!(rt; bytes.len() <= 5);
    let layout = layout(rt, depth, across, bytes.len() as u32);
    let shape = shape_at(depth, across);
    let mut bands = zeros(rt, alloc, &layout, &shape);
    let found = decode_first(rt, &layout, &shape, bytes, &mut bands);
    drop(bands);
    assert_eq!(rt; found, want);
}

#[test]
fn slices_are_decoded(rt: HostRuntime) {
    for case in &CASES {
        expect_slice(&rt, rt.alloc(), case);
    }
}
