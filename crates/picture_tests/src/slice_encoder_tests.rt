//! Slices written: worked ones, and what a trial of each index finds.
//!
//! Owners are dropped by name, since the proof of that call is short.

ghost use Rattle.std.specs.Prelude.{◌≡◌, ℕ, ◌*◌, ◌+◌, ◌-◌, ◌^◌, ◌<◌, ◌≤◌, true, length, pos, slice_index_or, max};
ghost use Rattle.planes.specs.Numbers.{Within};
ghost use Rattle.planes.specs.Raster.{height, at};
ghost use Rattle.quant_factors.specs.Weights.{Weights};
ghost use Rattle.slice_geometry.specs.Shape.{IsSize};
ghost use Rattle.slice_geometry.specs.SliceOrder.{level_of, orient_of};
ghost use Rattle.slice_encoder.specs.TrialLaws.{IsSteepOk};
ghost use Rattle.slice_encoder.specs.Ready.{coded_picture, IsReadyToWrite, AreReadyToWrite, AreGiven};
ghost use Rattle.slice_encoder.specs.Buffers.{coded_component};

use crate::slice_decoder_tests::slices::{exists, layout, shape_at, zeros};
use planes::{Bands, Plane, ThreePlanes, Trio};
use quant_factors::Matrix;
use slice_encoder::{SliceEncoder, steep_ok};
use slice_geometry::{Layout, PictureShape, Size};
use std::alloc::Global;
use std::process::Abort;

// Whether each magnitude is at most so much.
fn is_row_within(row: &[i64], most: u32) -> bool
    ensures { result ≡ true → (x : ℕ) → Within most (slice_index_or row.now x (pos 0)) }
{
    let limit = i64::from(most);
    for value in row {
        if *value > limit || *value < -limit {
            return false;
        }
    }
    true
}

fn is_within(plane: &Plane, most: u32) -> bool
    ensures { result ≡ true → (y x : ℕ) → Within most (at plane.now y x) }
{
    for y in 0..plane.h() {
        if !is_row_within(plane.row(y), most) {
            return false;
        }
    }
    true
}

// Whether a plane has a size and is small.
fn is_plane(plane: &Plane, size: Size, most: u32) -> bool
    ensures { result ≡ true → (plane.now.w ≡ size.w) × (height plane.now ≡ size.h)
        × ((y x : ℕ) → Within most (at plane.now y x)) }
{
    plane.w() == size.w && plane.h() == size.h && is_within(plane, most)
}

// The greatest magnitude of a coefficient of 8 bits, at depth 0 or 1.
fn most_of(depth: u32) -> u32
    ensures most { result ≤ 2 ^ (8 - 1 + 3 * depth) }
    ensures few { result ≤ 1024 }
{
    if depth == 0 { 128 } else { 1024 }
}

// The level of band number k, and the number of its orientation.
fn band_numbered(k: u32) -> (u32, u32)
    requires { k ≤ 12 }
    ensures level { result.0 ≡ level_of k }
    ensures orient { result.1 ≡ orient_of k }
{
    let level = (k + 2) / 3;
    (level, if k == 0 { 0 } else { k + 3 - 3 * level })
}

// Whether the subbands of a component of 8 bits and its kept values are ready for every slice.
fn is_ready(layout: &Layout, size: Size, bands: &Bands, kept: &Plane) -> bool
    requires { IsSize size.w size.h }
    ensures { result ≡ true → (matrix : Weights) (sx sy : ℕ)
        → IsReadyToWrite (coded_component layout.now size matrix bands.now) 8 sx sy kept.now }
{
    let depth = layout.depth();
    if bands.depth() != depth {
        return false;
    }
    let most = most_of(depth);
    for k in 0..3 * depth + 1 {
        let (level, orient) = band_numbered(k);
        let band = layout.band_size(size, level);
        if !is_plane(bands.band(level, orient), band, most) {
            return false;
        }
    }
    is_plane(kept, layout.band_size(size, 0), 3 * most + 2)
}

// Whether a slice of 8 bits may be tried.
fn can_try(
    layout: &Layout,
    shape: &PictureShape,
    matrix: &Matrix,
    sx: u32,
    sy: u32,
    coefficients: &Trio,
    kept: &ThreePlanes,
) -> bool
    ensures ready { result ≡ true
        → AreReadyToWrite (coded_picture layout.now shape.now matrix.now coefficients.now) sx sy
        kept.now }
    ensures given { result ≡ true
        → AreGiven (coded_picture layout.now shape.now matrix.now coefficients.now) }
{
    if shape.luma_depth != 8 || shape.colour_depth != 8 {
        return false;
    }
    if sx >= layout.slices_x() || sy >= layout.slices_y() || matrix.depth() != layout.depth() {
        return false;
    }
    if !is_ready(layout, shape.luma, &coefficients.luma, &kept.luma) {
        return false;
    }
    if !is_ready(layout, shape.colour, &coefficients.c1, &kept.c1) {
        return false;
    }
    is_ready(layout, shape.colour, &coefficients.c2, &kept.c2)
}

/// A picture of 8 bits in one row of slices, and what is kept of those that were written.
#[derive(Drop)]
struct Picture {
    layout: Layout,
    shape: PictureShape,
    matrix: Matrix,
    coefficients: Trio,
    kept: ThreePlanes,
}

// Whether a slice may be tried and written.
fn can_write(picture: &Picture, sx: u32) -> bool
    ensures ready { result ≡ true
        → AreReadyToWrite (coded_picture picture.now.layout picture.now.shape picture.now.matrix
        picture.now.coefficients) sx 0 picture.now.kept }
    ensures given { result ≡ true
        → AreGiven (coded_picture picture.now.layout picture.now.shape picture.now.matrix
        picture.now.coefficients) }
    ensures steep { result ≡ true
        → IsSteepOk picture.now.layout.depth
        (max picture.now.shape.luma_depth picture.now.shape.colour_depth) picture.now.matrix }
{
    let bits = picture.shape.luma_depth.max(picture.shape.colour_depth);
    picture.matrix.depth() == picture.layout.depth()
        && steep_ok(picture.layout.depth(), bits, &picture.matrix)
        && can_try(
            &picture.layout,
            &picture.shape,
            &picture.matrix,
            sx,
            0,
            &picture.coefficients,
            &picture.kept,
        )
}

/// A picture's slices, the coefficients of the three components, and the bytes of the slices that are written.
struct Case {
    /// The depth, how many slices a row has, the bytes of each, each entry of the matrix, and how many slices are written.
    row: [u32; 5],
    /// At depth 0 the first two of the lowest band, and at depth 1 the first of LL, HL, LH and HH.
    luma: [i64; 4],
    c1: [i64; 4],
    c2: [i64; 4],
    /// With 0xFF behind them.
    bytes: [u8; 5],
}

/// Puts the coefficients that aren't 0 into their bands.
fn put(rt: &impl Abort, bands: &mut Bands, coefficients: &[i64; 4]) {
    let is_level = bands.depth() > 0;
    for k in 0..4u32 {
        let value = coefficients[k as usize];
        let (level, orient, x) = if is_level {
            (k.min(1), k, 0)
        } else {
            (0, 0, k)
        };
        assert!(rt; exists(bands.depth(), level, orient));
        let band = bands.band_mut(level, orient);
        if value != 0 {
            assert!(rt; band.h() > 0 && x < band.w());
            band.set(0, x, value);
        }
    }
}

fn coefficients_of(
    rt: &impl Abort,
    alloc: Global,
    layout: &Layout,
    shape: &PictureShape,
    case: &Case,
) -> Trio {
    let mut bands = zeros(rt, alloc, layout, shape);
    put(rt, &mut bands.luma, &case.luma);
    put(rt, &mut bands.c1, &case.c1);
    put(rt, &mut bands.c2, &case.c2);
    bands
}

fn planes(rt: &impl Abort, alloc: Global, size: Size) -> ThreePlanes {
    assert!(rt; size.w <= 8192 && size.h <= 8192);
    ThreePlanes {
        luma: Plane::new(alloc, size.w, size.h).expect(rt, "memory"),
        c1: Plane::new(alloc, size.w, size.h).expect(rt, "memory"),
        c2: Plane::new(alloc, size.w, size.h).expect(rt, "memory"),
    }
}

fn picture_of(rt: &impl Abort, alloc: Global, case: &Case) -> Picture {
    let [depth, across, share, entry, _] = case.row;
    assert!(rt; depth <= 1);
    let layout = layout(rt, depth, across, share);
    let shape = shape_at(depth, across);
    let entries = [entry; 4];
    Picture {
        layout,
        shape,
        matrix: Matrix::new(depth, &entries[..(1 + 3 * depth) as usize]),
        coefficients: coefficients_of(rt, alloc, &layout, &shape, case),
        kept: planes(rt, alloc, layout.band_size(shape.luma, 0)),
    }
}

/// Writes a slice.
fn write(rt: &impl Abort, alloc: Global, picture: &mut Picture, sx: u32, bytes: &mut [u8])
    requires some { 1 ≤ length bytes.old }
    requires most { length bytes.old ≤ 5 }
{
    assert!(rt; can_write(picture, sx));
    let made = SliceEncoder::new(alloc, &picture.layout, &picture.shape);
    let mut encoder = made.expect(rt, "memory");
    encoder.encode_slice(
        &picture.matrix,
        sx,
        0,
        &picture.coefficients,
        &mut picture.kept,
        bytes,
    );
    drop(encoder);
}

/// The bytes of the first slices, with 0xFF behind them.
fn written(
    rt: &impl Abort,
    alloc: Global,
    picture: &mut Picture,
    share: u32,
    count: u32,
) -> [u8; 5] {
    let mut bytes = [0xFF; 5];
    let share = share as usize;
    assert!(rt; 1 <= share && count as usize * share <= 5);
    for sx in 0..count {
        let start = sx as usize * share;
        write(rt, alloc, picture, sx, &mut bytes[start..start + share]);
    }
    bytes
}

fn expect_written(rt: &impl Abort, alloc: Global, case: &Case) {
    let mut picture = picture_of(rt, alloc, case);
    let bytes = written(rt, alloc, &mut picture, case.row[2], case.row[4]);
    drop(picture);
    assert_eq!(rt; bytes, case.bytes);
}

/// One place in one byte.
const ONE_PLACE: [u32; 5] = [0, 1, 1, 0, 1];
/// Two slices of one place.
const TWO_PLACES: [u32; 5] = [0, 2, 1, 0, 2];
/// More slices than places.
const MORE_SLICES: [u32; 5] = [0, 3, 2, 0, 1];
/// One level by the steepest matrix, in one byte.
const STEEPEST: [u32; 5] = [1, 1, 1, 75, 1];
/// One level in five bytes, in four, and in three.
const FIVE_BYTES: [u32; 5] = [1, 1, 5, 0, 1];

const FOUR_BYTES: [u32; 5] = [1, 1, 4, 0, 1];

const THREE_BYTES: [u32; 5] = [1, 1, 3, 0, 1];

const ZEROS: [i64; 4] = [0, 0, 0, 0];

const ONE_LEVEL: [i64; 4] = [21, 3, -5, 2];
/// Coefficients at the bound.
const GREATEST: [i64; 4] = [1024, -1024, 1024, -1024];

const LEAST: [i64; 4] = [-1024, 1024, -1024, 1024];

#[rattlefmt::skip]
const CASES: [Case; 10] = [
    Case { row: ONE_PLACE, luma: ZEROS, c1: ZEROS, c2: ZEROS, bytes: [0x01, 0xFF, 0xFF, 0xFF, 0xFF] },
    Case { row: ONE_PLACE, luma: ZEROS, c1: [-2, 0, 0, 0], c2: ZEROS, bytes: [0x00, 0xFF, 0xFF, 0xFF, 0xFF] },
    Case { row: ONE_PLACE, luma: [-2, 0, 0, 0], c1: ZEROS, c2: ZEROS, bytes: [0x0B, 0xFF, 0xFF, 0xFF, 0xFF] },
    Case { row: ONE_PLACE, luma: [127, 0, 0, 0], c1: ZEROS, c2: ZEROS, bytes: [0x39, 0xFF, 0xFF, 0xFF, 0xFF] },
    Case { row: ONE_PLACE, luma: ZEROS, c1: [-3, 0, 0, 0], c2: ZEROS, bytes: [0x02, 0xFF, 0xFF, 0xFF, 0xFF] },
    Case { row: FIVE_BYTES, luma: ONE_LEVEL, c1: ZEROS, c2: ZEROS, bytes: [0x00, 0xD0, 0xA4, 0x12, 0x6D] },
    Case { row: FOUR_BYTES, luma: ONE_LEVEL, c1: ZEROS, c2: ZEROS, bytes: [0x07, 0x44, 0x62, 0x72, 0xFF] },
    // C1 is predicted in the second slice by what is restored in the first, which is -6 and not -7
    Case { row: TWO_PLACES, luma: ZEROS, c1: [-7, -7, 0, 0], c2: ZEROS, bytes: [0x0A, 0x03, 0xFF, 0xFF, 0xFF] },
    // a slice without places has index 0 and ones behind its length
    Case { row: MORE_SLICES, luma: [127, 0, 0, 0], c1: ZEROS, c2: ZEROS, bytes: [0x00, 0x1F, 0xFF, 0xFF, 0xFF] },
    // nothing is left of coefficients at the bound
    Case { row: STEEPEST, luma: GREATEST, c1: LEAST, c2: GREATEST, bytes: [0xE9, 0xFF, 0xFF, 0xFF, 0xFF] },
];

#[test]
fn slices_are_written(rt: HostRuntime) {
    for case in &CASES {
        expect_written(&rt, rt.alloc(), case);
    }
}

/// What luma of the only slice of a picture needs at least at the indices from 0 to 10, and the first index at which it may
/// fit.
fn bounds(rt: &impl Abort, alloc: Global, picture: &Picture) -> ([u64; 11], u32) {
    assert!(rt; can_write(picture, 0));
    let made = SliceEncoder::new(alloc, &picture.layout, &picture.shape);
    let encoder = made.expect(rt, "memory");
    let mut luma = [0; 11];
    for index in 0..11u32 {
        let lower = encoder.lower(&picture.matrix, 0, 0, index, &picture.coefficients);
        luma[index as usize] = lower.luma;
    }
    let first = encoder.first_candidate(&picture.matrix, 0, 0, &picture.coefficients);
    drop(encoder);
    (luma, first)
}

#[rattlefmt::skip]
const BOUNDED: Case = Case { row: THREE_BYTES, luma: ONE_LEVEL, c1: ZEROS, c2: ZEROS, bytes: [0xFF; 5] };

/// In three bytes: the bound of luma falls with the index, and index 1 is the first that may do.
#[test]
fn bounds_of_one_level(rt: HostRuntime) {
    let picture = picture_of(&rt, rt.alloc(), &BOUNDED);
    let (luma, first) = bounds(&rt, rt.alloc(), &picture);
    drop(picture);
    assert!(&rt; luma == [13, 11, 11, 9, 9, 5, 5, 1, 1, 1, 0] && first == 1);
}

/// Tries the only slice of a picture at an index, and tells whether it fits.
fn fits(rt: &impl Abort, alloc: Global, picture: &mut Picture, qindex: u32) -> bool {
    assert!(rt; qindex <= 127);
    assert!(rt; can_write(picture, 0));
    let made = SliceEncoder::new(alloc, &picture.layout, &picture.shape);
    let mut encoder = made.expect(rt, "memory");
    let trial = encoder.trial(
        &picture.matrix,
        0,
        0,
        qindex,
        &picture.coefficients,
        &mut picture.kept,
    );
    drop(encoder);
    trial.fits
}

/// At which indices from 0 to 7 the only slice of a picture fits.
fn fitting(rt: &impl Abort, alloc: Global, picture: &mut Picture) -> [bool; 8] {
    let mut all = [false; 8];
    for index in 0..8u32 {
        all[index as usize] = fits(rt, alloc, picture, index);
    }
    all
}

#[rattlefmt::skip]
const TRIED: Case = Case { row: ONE_PLACE, luma: ZEROS, c1: [-3, 0, 0, 0], c2: ZEROS, bytes: [0xFF; 5] };

/// Whether a slice fits doesn't rise with the index: C1 is -3, and C2 is 0.
#[test]
fn fitting_is_not_monotone(rt: HostRuntime) {
    let mut picture = picture_of(&rt, rt.alloc(), &TRIED);
    let found = fitting(&rt, rt.alloc(), &mut picture);
    drop(picture);
    assert!(&rt; found == [false, true, true, false, false, false, false, true]);
}

/// Whether a matrix of such entries, of which the last is another, is steep enough.
fn is_steep_enough(rt: &impl Abort, depth: u32, bits: u32, entry: u32, last: u32) -> bool {
    assert!(rt; depth <= 4 && 1 <= bits && bits <= 16);
    let mut entries = [entry; 13];
    let end = 3 * depth as usize;
    entries[end] = last;
    steep_ok(depth, bits, &Matrix::new(depth, &entries[..end + 1]))
}

/// The steepest matrix that passes, and the first that doesn't, at the bounds of depth and bits.
#[test]
fn steepest_matrices(rt: HostRuntime) {
    for (depth, bits, entry, steeper) in [
        (0, 1, 115, 116),
        (0, 8, 87, 88),
        (1, 8, 75, 76),
        (4, 16, 7, 8),
    ] {
        assert!(&rt; is_steep_enough(&rt, depth, bits, entry, entry));
        assert!(&rt; !is_steep_enough(&rt, depth, bits, entry, steeper));
    }
}
