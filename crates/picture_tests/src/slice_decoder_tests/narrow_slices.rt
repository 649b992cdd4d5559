//! Slices into bands of 32 bits, up to their bound and past it.
//!
//! Owners are dropped by name, since the proof of that call is short.

ghost use Rattle.std.specs.Prelude.{◌≡◌, ℕ, ◌^◌, pos};
ghost use Rattle.planes.specs.Bounded.{AreBandsWithin};
ghost use Rattle.slice_geometry.specs.Shape.{IsSize};
ghost use Rattle.slice_decoder.specs.Decoded.{IsReady, AreReady};
ghost use Rattle.slice_decoder.specs.Narrow.{trio_of, AreNarrowBands};

use crate::slice_decoder_tests::slices::{layout, shape};
use bounded_blocks::{CodeTable, SPARE};
use planes::{NarrowBands, NarrowTrio};
use quant_factors::Matrix;
use slice_decoder::{CodedSlice, SliceFault, decode_narrow};
use slice_geometry::{Layout, PictureShape, Size, SliceHead};
use std::alloc::Global;
use std::process::Abort;

const TWO: Size = Size { w: 2, h: 1 };

// New subbands for a component, which are ready for every slice.
fn zero_bands(rt: &impl Abort, alloc: Global, layout: &Layout, size: Size) -> NarrowBands
    requires { IsSize size.w size.h }
    ensures ready { (sx sy : ℕ) → IsReady layout.now size sx sy result }
    ensures narrow { AreBandsWithin (pos (2 ^ 18)) result }
{
    let padded = layout.padded_size(size);
    NarrowBands::new(alloc, layout.depth(), padded.w, padded.h).expect(rt, "memory")
}

fn zeros(rt: &impl Abort, alloc: Global, layout: &Layout, shape: &PictureShape) -> NarrowTrio
    ensures ready { (sx sy : ℕ) → AreReady layout.now shape.now sx sy (trio_of result) }
    ensures narrow { AreNarrowBands result }
{
    NarrowTrio {
        luma: zero_bands(rt, alloc, layout, shape.luma),
        c1: zero_bands(rt, alloc, layout, shape.colour),
        c2: zero_bands(rt, alloc, layout, shape.colour),
    }
}

/// Decodes the only slice, by a matrix of zeros, where a block may have so many values.
fn decode_only(
    rt: &impl Abort,
    layout: &Layout,
    shape: &PictureShape,
    bytes: &[u8],
    codes: &CodeTable,
    bands: &mut NarrowTrio,
    room: usize,
) -> Result<Option<SliceHead>, SliceFault>
    requires ready { AreReady layout.now shape.now 0 0 (trio_of bands.old) }
    requires narrow { AreNarrowBands bands.old }
{
    let depth = layout.depth();
    let is_there = layout.slices_x() > 0 && layout.slices_y() > 0 && depth <= 1;
    assert!(rt; is_there && bytes.len() >= 1 && bytes.len() <= 10 && room <= 4);
    let matrix = Matrix::new(depth, &[0; 4][..(1 + 3 * depth) as usize]);
    let mut buffer = [0; 4 + SPARE];
    let values = &mut buffer[..room + SPARE];
    let coded = CodedSlice {
        layout,
        shape,
        matrix: &matrix,
        sx: 0,
        sy: 0,
        bytes,
    };
    decode_narrow(coded, codes, bands, values)
}

/// The first two values of the lowest band.
fn two_values(rt: &impl Abort, bands: &NarrowBands) -> [i32; 2] {
    let band = bands.band(0, 0);
    assert!(rt; band.h() > 0 && band.w() > 1);
    [band.get(0, 0), band.get(0, 1)]
}

/// The values that a slice of two places gives to the three lowest bands, where they hold them.
fn values_of(
    rt: &impl Abort,
    layout: &Layout,
    shape: &PictureShape,
    bytes: &[u8],
    codes: &CodeTable,
    bands: &mut NarrowTrio,
    room: usize,
) -> Result<Option<[[i32; 2]; 3]>, SliceFault>
    requires ready { AreReady layout.now shape.now 0 0 (trio_of bands.old) }
    requires narrow { AreNarrowBands bands.old }
{
    match decode_only(rt, layout, shape, bytes, codes, bands, room)? {
        None => Ok(None),
        Some(_) => Ok(Some([
            two_values(rt, &bands.luma),
            two_values(rt, &bands.c1),
            two_values(rt, &bands.c2),
        ])),
    }
}

/// Slices of two places: the bytes, how many values a block may have, and the values of luma, C1 and C2, none where
/// the bands don't serve, or the fault.
const TWO_PLACES: [(&[u8], usize, Result<Option<[[i32; 2]; 3]>, SliceFault>); 15] = [
    (&[0x00], 4, Ok(Some([[0, 0], [-2, -2], [0, 0]]))),
    // a block has more values than there is room for
    (&[0x00], 3, Ok(None)),
    (&[0x00], 1, Ok(None)),
    // luma 2^18, 2^18 + 1, -2^18 and -2^18 - 1
    (
        &[0x01, 0x30, 0x00, 0x00, 0x00, 0x00, 0xDF],
        4,
        Ok(Some([[262144, 262144], [0, 0], [0, 0]])),
    ),
    (&[0x01, 0x30, 0x00, 0x00, 0x00, 0x02, 0x5F], 4, Ok(None)),
    (
        &[0x01, 0x30, 0x00, 0x00, 0x00, 0x00, 0xFF],
        4,
        Ok(Some([[-262144, -262144], [0, 0], [0, 0]])),
    ),
    (&[0x01, 0x30, 0x00, 0x00, 0x00, 0x02, 0x7F], 4, Ok(None)),
    // C2 2^18 + 1
    (&[0x00, 0x04, 0x00, 0x00, 0x00, 0x01, 0x2F], 4, Ok(None)),
    // luma 2^18 - 1, and then 1 more and 2 more, C1 -5 and 1 more, C2 7 and 1 less
    (
        &[0x00, 0xA8, 0x00, 0x00, 0x00, 0x00, 0x22, 0x4C, 0x08, 0x8F],
        4,
        Ok(Some([[262143, 262144], [-5, -4], [7, 6]])),
    ),
    (
        &[0x00, 0xA8, 0x00, 0x00, 0x00, 0x00, 0x26, 0x4C, 0x08, 0x8F],
        4,
        Ok(None),
    ),
    // C1 2^18 and then 1 more, C2 -2^18 and then 1 less
    (
        &[0x00, 0x20, 0x88, 0x00, 0x00, 0x00, 0x00, 0x60, 0x89, 0xFF],
        4,
        Ok(None),
    ),
    (
        &[0x00, 0x20, 0x88, 0x20, 0x00, 0x00, 0x00, 0x01, 0xDC, 0xFF],
        4,
        Ok(None),
    ),
    (&[0x00, 0xDF], 4, Err(SliceFault::LumaLengthTooLong)),
    // a value that its index makes too large, for bands of 64 bits too, and one that is too large as it is read
    (&[0xFE, 0x00, 0x00], 4, Ok(None)),
    (
        &[0x00, 0x00, 0x00, 0x00, 0x00, 0x00, 0x00, 0x00, 0x00, 0x00],
        4,
        Ok(None),
    ),
];

/// Asserts the values of a slice of two places.
fn expect_two_places(
    rt: &impl Abort,
    alloc: Global,
    codes: &CodeTable,
    bytes: &[u8],
    room: usize,
    want: &Result<Option<[[i32; 2]; 3]>, SliceFault>,
) {
    assert!(rt; bytes.len() <= 10);
    let (layout, shape) = (layout(rt, 0, 1, bytes.len() as u32), shape(TWO));
    let mut bands = zeros(rt, alloc, &layout, &shape);
    let values = values_of(rt, &layout, &shape, bytes, codes, &mut bands, room);
    drop(bands);
    assert_eq!(rt; values, *want);
}

#[test]
fn slices_of_two_places(rt: HostRuntime) {
    let codes = CodeTable::new(rt.alloc()).expect(&rt, "memory");
    for (bytes, room, want) in &TWO_PLACES {
        expect_two_places(&rt, rt.alloc(), &codes, bytes, *room, want);
    }
    drop(codes);
}
