//! Levels of synthesis and analysis, against an independent model.
//!
//! Owners are dropped by name, since the proof of that call is short.

ghost use Rattle.std.specs.Prelude.{◌≡◌, ℕ, ◌%◌, ◌^◌, ◌≤◌, true};
ghost use Rattle.planes.specs.Numbers.{Within};
ghost use Rattle.planes.specs.Raster.{height, at, filled_with};
ghost use Rattle.planes.specs.Subbands.{BandExists, band_of};
ghost use Rattle.lifting.specs.Bands.{AgreeInSize, AreSmall, AreNarrow};
ghost use Rattle.lifting.specs.Places.{place};
ghost use Rattle.lifting.specs.Ranges.{GridWithin};

use crate::checks::assert_same;
use lifting::{Wavelet, analyse, analyse_level, synth, synth_level, synth_narrow};
use planes::{Bands, NarrowBands, NarrowPlane, Number, Plane};
use std::alloc::Global;
use std::process::Abort;

// Whether each number is a sample of 16 bits about zero.
fn is_row_of_samples(row: &[i64]) -> bool
    ensures { result ≡ true → (x : ℕ) → Within (2 ^ 15) (place row.now x) }
{
    for value in row {
        if *value > 0x8000 || *value < -0x8000 {
            return false;
        }
    }
    true
}

fn is_of_samples(plane: &Plane) -> bool
    ensures { result ≡ true → (y x : ℕ) → Within (2 ^ 15) (at plane.now y x) }
{
    for y in 0..plane.h() {
        if !is_row_of_samples(plane.row(y)) {
            return false;
        }
    }
    true
}

// Whether a plane has this size, and samples alone.
fn is_band(band: &Plane, w: u32, h: u32) -> bool
    ensures { result ≡ true → (band.now.w ≡ w) × (height band.now ≡ h)
        × ((y x : ℕ) → Within (2 ^ 15) (at band.now y x)) }
{
    is_of_samples(band) && band.w() == w && band.h() == h
}

// The same of the bands of a level.
fn are_bands(bands: &Bands, level: u32, w: u32, h: u32) -> bool
    requires some { 1 ≤ level }
    requires inside { level ≤ bands.now.depth }
    ensures { result ≡ true → (orient : ℕ) → 1 ≤ orient → orient ≤ 3
        → ((band_of bands.now level orient).w ≡ w) × (height (band_of bands.now level orient) ≡ h)
        × ((y x : ℕ) → Within (2 ^ 15) (at (band_of bands.now level orient) y x)) }
{
    is_band(bands.band(level, 1), w, h)
        && is_band(bands.band(level, 2), w, h)
        && is_band(bands.band(level, 3), w, h)
}

// Whether `synth` may be called.
pub(super) fn can_synth(bands: &Bands, plane: &Plane, scratch: &Plane) -> bool
    ensures sizes { result ≡ true → AgreeInSize bands.now plane.now scratch.now }
    ensures small { result ≡ true → AreSmall bands.now plane.now }
    ensures narrow { result ≡ true → AreNarrow bands.now plane.now }
{
    let (w, h, depth) = (plane.w(), plane.h(), bands.depth());
    if scratch.w() != w || scratch.h() != h || w % (1 << depth) != 0 || h % (1 << depth) != 0 {
        return false;
    }
    if !is_band(bands.band(0, 0), w >> depth, h >> depth) {
        return false;
    }
    for n in 0..depth {
        if !are_bands(bands, n + 1, w >> (depth - n), h >> (depth - n)) {
            return false;
        }
    }
    true
}

// Whether `analyse` may be called.
fn can_analyse(bands: &Bands, plane: &Plane, scratch: &Plane) -> bool
    ensures sizes { result ≡ true → AgreeInSize bands.now plane.now scratch.now }
    ensures small { result ≡ true
        → GridWithin (height plane.now) plane.now.w (2 ^ 15) (at plane.now) }
{
    is_of_samples(plane) && can_synth(bands, plane, scratch)
}

/// A plane of zeros.
pub(super) fn plane<T: Number>(rt: &impl Abort, alloc: Global, w: u32, h: u32) -> Plane<T>
    requires w_fits { w ≤ 8208 }
    requires h_fits { h ≤ 8208 }
    ensures { result ≡ filled_with T.none w h }
{
    Plane::new(alloc, w, h).expect(rt, "memory")
}

/// A wavelet, and of a level of two rows how wide it is, its coefficients row by row, the rows that they make, and the coefficients
/// that its analysis gives again.
type Level<'a> = (Wavelet, u32, &'a [i64], &'a [i64], &'a [i64]);

/// The last one is LL 20, HL 3, LH -4 and HH 1. Its analysis gives others, which make it again.
const LEVELS: [Level<'static>; 4] = [
    (
        Wavelet::LeGall,
        4,
        &[10, 3, 6, -2, 0, 0, 0, 0],
        &[4, 5, 3, 2, 4, 5, 3, 2],
        &[10, 3, 6, -2, 0, 0, 0, 0],
    ),
    (
        Wavelet::HaarFlat,
        4,
        &[10, 3, 6, -2, 0, 0, 0, 0],
        &[8, 11, 7, 5, 8, 11, 7, 5],
        &[10, 3, 6, -2, 0, 0, 0, 0],
    ),
    (
        Wavelet::HaarShift,
        4,
        &[10, 3, 6, -2, 0, 0, 0, 0],
        &[4, 6, 4, 3, 4, 6, 4, 3],
        &[10, 4, 7, -2, 0, 0, 0, 0],
    ),
    (
        Wavelet::LeGall,
        2,
        &[20, 3, -4, 1],
        &[11, 12, 8, 10],
        &[21, 3, -5, 2],
    ),
];

/// Asserts what synthesis makes of a level in place, and analysis of that.
fn assert_level(rt: &impl Abort, plane: &mut Plane, level: &Level<'_>) {
    let (wavelet, w, coefficients, rows, again) = *level;
    let _ = put_rows(rt, plane, coefficients);
    assert!(rt; w % 2 == 0 && is_band(plane, w, 2));
    synth_level(wavelet, plane, w, 2);
    let _ = assert_rows(rt, plane, rows);
    assert!(rt; is_band(plane, w, 2));
    analyse_level(wavelet, plane, w, 2);
    let _ = assert_rows(rt, plane, again);
}

fn expect_level(rt: &impl Abort, alloc: Global, level: &Level<'_>) {
    assert!(rt; level.1 <= 4);
    let mut plane = plane(rt, alloc, level.1, 2);
    assert_level(rt, &mut plane, level);
    drop(plane);
}

/// One level in place, by each wavelet.
#[test]
fn levels_in_place(rt: HostRuntime) {
    for level in &LEVELS {
        expect_level(&rt, rt.alloc(), level);
    }
}

/// Room for a plane and its bands.
#[derive(Drop)]
struct Room {
    bands: Bands,
    plane: Plane,
    scratch: Plane,
}

fn make_room(rt: &impl Abort, alloc: Global, depth: u32, w: u32, h: u32) -> Room
    requires depth { depth ≤ 4 }
    requires w_fits { w ≤ 8208 }
    requires h_fits { h ≤ 8208 }
    requires w_whole { w % 2 ^ depth ≡ 0 }
    requires h_whole { h % 2 ^ depth ≡ 0 }
{
    Room {
        plane: plane(rt, alloc, w, h),
        scratch: plane(rt, alloc, w, h),
        bands: Bands::new(alloc, depth, w, h).expect(rt, "memory"),
    }
}

/// With no level the plane is the lowest band itself.
fn assert_no_level(rt: &impl Abort, bands: &mut Bands, plane: &mut Plane, scratch: &mut Plane) {
    let _ = put_rows(rt, bands.band_mut(0, 0), &[-77]);
    assert!(rt; can_synth(bands, plane, scratch));
    synth(Wavelet::LeGall, bands, plane, scratch);
    let _ = assert_rows(rt, plane, &[-77]);
}

#[test]
fn no_level(rt: HostRuntime) {
    let mut room = make_room(&rt, rt.alloc(), 0, 1, 1);
    assert_no_level(&rt, &mut room.bands, &mut room.plane, &mut room.scratch);
    drop(room);
}

/// The values of a plane of 8 by 4, row by row, or of its two levels of bands: the lowest band of one row and two columns, and
/// then those of each level by their orientation.
type Values = [i64; 32];

/// The levels and orientations of the bands.
const BANDS: [(u32, u32); 7] = [(0, 0), (1, 1), (1, 2), (1, 3), (2, 1), (2, 2), (2, 3)];

// Whether a band is there.
pub(super) fn exists(depth: u32, level: u32, orient: u32) -> bool
    ensures { result ≡ true → BandExists depth level orient }
{
    if level == 0 {
        orient == 0
    } else {
        level <= depth && 1 <= orient && orient <= 3
    }
}

/// Puts values into the rows of a plane, and gives those that are left.
fn put_rows<'a>(rt: &impl Abort, plane: &mut Plane, values: &'a [i64]) -> &'a [i64] {
    let mut left = values;
    for y in 0..plane.h() {
        let w = plane.w() as usize;
        assert!(rt; y < plane.h() && w <= left.len());
        let (row, others) = left.split_at(w);
        plane.row_mut(y).copy_from_slice(row);
        left = others;
    }
    left
}

/// Puts values into the bands.
fn put_bands(rt: &impl Abort, bands: &mut Bands, values: &[i64]) {
    let mut left = values;
    for (level, orient) in BANDS {
        assert!(rt; exists(bands.depth(), level, orient));
        left = put_rows(rt, bands.band_mut(level, orient), left);
    }
}

/// Asserts the rows of a plane, and gives the values that are left.
fn assert_rows<'a>(rt: &impl Abort, plane: &Plane, values: &'a [i64]) -> &'a [i64] {
    let mut left = values;
    for y in 0..plane.h() {
        let w = plane.w() as usize;
        assert!(rt; w <= left.len());
        let (row, others) = left.split_at(w);
        assert_same(rt, plane.row(y), row);
        left = others;
    }
    left
}

/// Asserts the bands.
fn assert_bands(rt: &impl Abort, bands: &Bands, values: &[i64]) {
    let mut left = values;
    for (level, orient) in BANDS {
        assert!(rt; exists(bands.depth(), level, orient));
        left = assert_rows(rt, bands.band(level, orient), left);
    }
}

/// The bands that are synthesised.
const COEFFICIENTS: Values = [
    50, -7, 3, -9, -4, 12, 1, -1, 5, 0, -3, 8, 2, -6, 0, 1, -2, 7, 4, 0, 0, -1, 9, -5, 1, -1, 3,
    -4, 6, 0, -2, 2,
];

/// The plane that is analysed.
const PLANE: Values = [
    39, -8, 5, 27, -37, 19, -9, -34, -20, -26, 7, 20, -9, 8, 29, -27, 33, -9, -39, -13, 12, -5,
    -17, 9, -20, -31, -23, 39, 39, 16, -24, -24,
];

/// A wavelet, the plane that it makes of those bands, and the bands that it makes of that plane.
type Turn = (Wavelet, Values, Values);

const TURNS: [Turn; 3] = [
    (
        Wavelet::LeGall,
        [
            13, 10, 3, 0, -3, -6, -5, 0, 11, 11, 9, 3, 1, -1, -3, -2, 12, 9, 7, 0, 0, -1, -1, -1,
            10, 11, 6, 2, 5, 0, -4, -2,
        ],
        [
            -12, 1, -19, -11, -117, 25, -285, -206, -61, 85, 62, -106, -14, 16, -10, 11, -113, 47,
            -4, 44, -109, 46, 75, -22, -3, -2, -44, -113, -7, 61, 22, -52,
        ],
    ),
    (
        Wavelet::HaarFlat,
        [
            50, 54, 49, 49, -9, -14, -23, -13, 47, 52, 56, 55, -6, -8, -21, -15, 46, 45, 52, 46,
            -2, -1, -4, -4, 43, 48, 51, 45, 8, 7, -10, -8,
        ],
        [
            0, -3, 8, -18, -13, 8, -21, -24, -26, 18, 37, -40, -26, 44, -20, 13, -39, -2, 9, 22,
            -37, 34, 24, -20, 41, -9, -39, -31, 31, 36, -6, -26,
        ],
    ),
    (
        Wavelet::HaarShift,
        [
            13, 15, 12, 12, -2, -4, -7, -2, 11, 14, 15, 15, 0, -1, -6, -3, 12, 11, 14, 11, -2, -1,
            0, 0, 10, 13, 14, 11, 3, 3, -3, -2,
        ],
        [
            -4, -13, 32, -70, -54, 32, -84, -96, -53, 35, 73, -81, -53, 88, -40, 26, -77, -5, 17,
            45, -75, 68, 48, -40, 82, -18, -78, -62, 62, 72, -12, -52,
        ],
    ),
];

/// Asserts what a wavelet makes of the bands, and of the plane.
fn assert_turn(
    rt: &impl Abort,
    bands: &mut Bands,
    plane: &mut Plane,
    scratch: &mut Plane,
    turn: &Turn,
) {
    let (wavelet, by_synthesis, by_analysis) = turn;
    put_bands(rt, bands, &COEFFICIENTS);
    assert!(rt; can_synth(bands, plane, scratch));
    synth(*wavelet, bands, plane, scratch);
    let _ = assert_rows(rt, plane, by_synthesis);
    let _ = put_rows(rt, plane, &PLANE);
    assert!(rt; can_analyse(bands, plane, scratch));
    analyse(*wavelet, plane, scratch, bands);
    assert_bands(rt, bands, by_analysis);
}

/// The same by each wavelet, in the same room.
fn assert_turns(
    rt: &impl Abort,
    bands: &mut Bands,
    plane: &mut Plane,
    scratch: &mut Plane,
    turns: &[Turn],
) {
    for turn in turns {
        assert_turn(rt, bands, plane, scratch, turn);
    }
}

#[test]
fn two_levels(rt: HostRuntime) {
    let mut room = make_room(&rt, rt.alloc(), 2, 8, 4);
    assert_turns(
        &rt,
        &mut room.bands,
        &mut room.plane,
        &mut room.scratch,
        &TURNS,
    );
    drop(room);
}

/// Synthesis in 32 bits of bands of a plane of 8 by 4, which is given too.
fn synth_in_32_bits(
    rt: &impl Abort,
    alloc: Global,
    wavelet: Wavelet,
    wide: &Bands,
    like: &Plane,
) -> NarrowPlane {
    assert!(rt; can_synth(wide, like, like) && wide.within(0x40000));
    assert!(rt; wide.depth() == 2 && like.w() == 8 && like.h() == 4);
    let mut made: NarrowPlane = plane(rt, alloc, 8, 4);
    let mut scratch: NarrowPlane = plane(rt, alloc, 8, 4);
    let mut bands = NarrowBands::new(alloc, 2, 8, 4).expect(rt, "memory");
    bands.narrow(wide);
    synth_narrow(wavelet, &bands, &mut made, &mut scratch);
    drop(bands);
    drop(scratch);
    made
}

/// Asserts the rows of a plane of 32 bits.
fn assert_narrow_rows(rt: &impl Abort, plane: &NarrowPlane, values: &Values) {
    for y in 0..plane.h() {
        for x in 0..plane.w() {
            assert!(rt; x < 8 && y < 4);
            assert_same(rt, i64::from(plane.get(y, x)), values[(8 * y + x) as usize]);
        }
    }
}

fn expect_narrow_turn(rt: &impl Abort, alloc: Global, room: &mut Room, turn: &Turn) {
    put_bands(rt, &mut room.bands, &COEFFICIENTS);
    let made = synth_in_32_bits(rt, alloc, turn.0, &room.bands, &room.plane);
    assert_narrow_rows(rt, &made, &turn.1);
    drop(made);
}

/// The same of synthesis in 32 bits.
#[test]
fn two_levels_in_32_bits(rt: HostRuntime) {
    let mut room = make_room(&rt, rt.alloc(), 2, 8, 4);
    for turn in &TURNS {
        expect_narrow_turn(&rt, rt.alloc(), &mut room, turn);
    }
    drop(room);
}
