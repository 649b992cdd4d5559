//! Synthesis in 16 bits against that in 64, and where it says that 16 bits have no room.
//!
//! Owners are dropped by name, since the proof of that call is short.

ghost use Rattle.std.specs.Prelude.{◌≡◌, ◌%◌, ◌^◌, ◌*◌, ◌-◌, ◌≤◌, length, true};
ghost use Rattle.planes.specs.Raster.{height};
ghost use Rattle.planes.specs.Subbands.{BandExists, HaveSizes};
ghost use Rattle.lifting.specs.Bands.{SameSizes};

use super::wavelets::{can_synth, exists, plane};
use crate::checks::assert_same;
use lifting::{PaddedSize, SampleArea, Wavelet, synth, synth_samples_short};
use planes::{Bands, Number, Plane};
use std::alloc::Global;
use std::process::Abort;

/// How many samples are shown of the widest component: all but a column and a row.
const MOST: usize = 525;

/// How wide components of one level are, in whose halves no place, 1, 7, 8, 9, 15, 16 or 17 lie beside their first one. Blocks of
/// lanes have eight places.
const WIDTHS: [u32; 8] = [2, 4, 16, 18, 20, 32, 34, 36];

const WAVELETS: [Wavelet; 3] = [Wavelet::LeGall, Wavelet::HaarFlat, Wavelet::HaarShift];

/// What the bands hold: LL one number, and a band of the last level numbers of one magnitude and both signs, or that one at its
/// last place alone. All else is 0. `fits` is whether 16 bits have room for it.
struct Content {
    ll: i16,
    orient: u32,
    high: i16,
    last_alone: bool,
    fits: bool,
}

/// Where LL is within 50, the band's bound is 5938. Of LL alone it is 16382, also below zero.
const CONTENTS: [Content; 9] = [
    Content {
        ll: 50,
        orient: 1,
        high: 5938,
        last_alone: false,
        fits: true,
    },
    Content {
        ll: 50,
        orient: 1,
        high: 5939,
        last_alone: false,
        fits: false,
    },
    Content {
        ll: -50,
        orient: 2,
        high: 5938,
        last_alone: true,
        fits: true,
    },
    Content {
        ll: -50,
        orient: 2,
        high: 5939,
        last_alone: true,
        fits: false,
    },
    Content {
        ll: -50,
        orient: 3,
        high: -5939,
        last_alone: true,
        fits: false,
    },
    Content {
        ll: 0,
        orient: 3,
        high: i16::MIN,
        last_alone: true,
        fits: false,
    },
    Content {
        ll: 16382,
        orient: 1,
        high: 0,
        last_alone: false,
        fits: true,
    },
    Content {
        ll: 16383,
        orient: 1,
        high: 0,
        last_alone: false,
        fits: false,
    },
    Content {
        ll: i16::MIN,
        orient: 1,
        high: 0,
        last_alone: false,
        fits: false,
    },
];

fn fill_row(row: &mut [i16], one: i16, other: i16)
    ensures { length row.new ≡ length row.old }
{
    for x in 0..row.len() {
        row[x] = if x % 3 == 1 { other } else { one };
    }
}

/// Puts two numbers by turns at the places of a plane.
fn fill(plane: &mut Plane<i16>, one: i16, other: i16)
    ensures same_width { plane.new.w ≡ plane.old.w }
    ensures same_height { height plane.new ≡ height plane.old }
{
    for y in 0..plane.h() {
        let (a, b) = if y % 2 == 0 {
            (one, other)
        } else {
            (other, one)
        };
        fill_row(plane.row_mut(y), a, b);
    }
}

/// Puts a number at a plane's last place.
fn put_last(plane: &mut Plane<i16>, value: i16)
    ensures same_width { plane.new.w ≡ plane.old.w }
    ensures same_height { height plane.new ≡ height plane.old }
{
    let (w, h) = (plane.w(), plane.h());
    if w > 0 && h > 0 {
        plane.set(h - 1, w - 1, value);
    }
}

/// Puts what a band holds.
fn put_band(bands: &mut Bands<i16>, level: u32, orient: u32, value: i16, last_alone: bool)
    requires { BandExists bands.old.depth level orient }
    ensures { SameSizes bands.old bands.new }
{
    if last_alone {
        put_last(bands.band_mut(level, orient), value);
    } else {
        fill(bands.band_mut(level, orient), value, value.saturating_neg());
    }
}

/// Puts one number at each place of LL.
fn put_lowest(bands: &mut Bands<i16>, value: i16)
    ensures { SameSizes bands.old bands.new }
{
    fill(bands.band_mut(0, 0), value, value);
}

/// The bands of a component of w by 16, all zero.
fn zero_bands<T: Number>(rt: &impl Abort, alloc: Global, w: u32, depth: u32) -> Bands<T>
    requires few { depth ≤ 4 }
    requires short { w ≤ 36 }
    requires whole { w % 2 ^ depth ≡ 0 }
    ensures sizes { HaveSizes result w 16 }
    ensures depth { result.depth ≡ depth }
{
    Bands::new(alloc, depth, w, 16).expect(rt, "memory")
}

/// Puts what the band of the last level holds.
fn put_last_level(rt: &impl Abort, bands: &mut Bands<i16>, content: &Content)
    ensures { SameSizes bands.old bands.new }
{
    let depth = bands.depth();
    if depth > 0 {
        assert!(rt; exists(depth, depth, content.orient));
        put_band(
            bands,
            depth,
            content.orient,
            content.high,
            content.last_alone,
        );
    }
}

/// Puts what the bands hold by a wavelet. Where levels halve, LL is as much greater.
fn put_content(rt: &impl Abort, bands: &mut Bands<i16>, wavelet: Wavelet, content: &Content)
    ensures { SameSizes bands.old bands.new }
{
    let halvings = if wavelet == Wavelet::HaarFlat {
        0
    } else {
        bands.depth().saturating_sub(1)
    };
    put_lowest(bands, content.ll << halvings);
    put_last_level(rt, bands, content);
}

fn widen_row(wide: &mut [i64], row: &[i16])
    requires { length row.now ≡ length wide.old }
{
    for x in 0..wide.len() {
        wide[x] = i64::from(row[x]);
    }
}

/// The numbers of a plane in 64 bits.
fn widen(rt: &impl Abort, wide: &mut Plane, plane: &Plane<i16>) {
    assert!(rt; wide.w() == plane.w() && wide.h() == plane.h());
    for y in 0..plane.h() {
        assert!(rt; y < wide.h() && wide.row(y).len() == plane.row(y).len());
        widen_row(wide.row_mut(y), plane.row(y));
    }
}

/// A sample of 10 bits.
fn sample(v: i64) -> u16 {
    (v.clamp(-512, 511) + 512) as u16
}

fn assert_row(rt: &impl Abort, samples: &[u16], row: &[i64]) {
    assert!(rt; samples.len() <= row.len());
    for x in 0..samples.len() {
        assert_same(rt, samples[x], sample(row[x]));
    }
}

/// Asserts that these are the samples of a plane's first columns and of 15 rows.
fn assert_samples(rt: &impl Abort, samples: &[u16], plane: &Plane, columns: u32) {
    let mut left = samples;
    for y in 0..15 {
        assert!(rt; columns as usize <= left.len() && y < plane.h());
        let (row, others) = left.split_at(columns as usize);
        assert_row(rt, row, plane.row(y));
        left = others;
    }
    assert!(rt; left.is_empty());
}

/// Puts the numbers of bands into ones of 64 bits.
fn widen_bands(rt: &impl Abort, wide: &mut Bands, short: &Bands<i16>) {
    widen(rt, wide.band_mut(0, 0), short.band(0, 0));
    for level in 1..=short.depth() {
        for orient in 1..=3 {
            assert!(rt;
                exists(wide.depth(), level, orient) && exists(short.depth(), level, orient)
            );
            widen(rt, wide.band_mut(level, orient), short.band(level, orient));
        }
    }
}

/// Synthesis of the same in 64 bits.
fn synth_wide(rt: &impl Abort, alloc: Global, wavelet: Wavelet, bands: &Bands, w: u32) -> Plane
    requires { w ≤ 36 }
{
    let mut made = plane(rt, alloc, w, 16);
    let mut scratch = plane(rt, alloc, w, 16);
    assert!(rt; can_synth(bands, &made, &scratch));
    synth(wavelet, bands, &mut made, &mut scratch);
    drop(scratch);
    made
}

/// Whether 16 bits have room for bands of w by 16, and the samples of all but a column and a row of it then.
fn synth_short(
    rt: &impl Abort,
    alloc: Global,
    wavelet: Wavelet,
    bands: &Bands<i16>,
    w: u32,
    samples: &mut [u16],
) -> bool
    requires few { bands.now.depth ≤ 4 }
    requires some { 1 ≤ w }
    requires short { w ≤ 36 }
    requires whole { w % 2 ^ bands.now.depth ≡ 0 }
    requires sizes { HaveSizes bands.now w 16 }
    requires count { length samples.old ≡ 15 * (w - 1) }
{
    let mut levels = plane(rt, alloc, w, 8);
    let mut scratch = plane(rt, alloc, w, 8);
    let area = SampleArea {
        w: w - 1,
        h: 15,
        depth: 10,
    };
    let size = PaddedSize { w, h: 16 };
    let fits = synth_samples_short(
        wavelet,
        bands,
        size,
        &mut levels,
        &mut scratch,
        samples,
        area,
    );
    drop(levels);
    drop(scratch);
    fits
}

/// Asserts that samples are those of the same bands in 64 bits.
fn expect_samples(
    rt: &impl Abort,
    alloc: Global,
    wavelet: Wavelet,
    short: &Bands<i16>,
    w: u32,
    samples: &[u16],
)
    requires few { short.now.depth ≤ 4 }
    requires some { 1 ≤ w }
    requires short { w ≤ 36 }
    requires whole { w % 2 ^ short.now.depth ≡ 0 }
{
    let mut bands: Bands = zero_bands(rt, alloc, w, short.depth());
    widen_bands(rt, &mut bands, short);
    let made = synth_wide(rt, alloc, wavelet, &bands, w);
    drop(bands);
    assert_samples(rt, samples, &made, w - 1);
    drop(made);
}

/// Asserts whether 16 bits have room for a content, and that the samples are those of 64 bits then.
fn expect(rt: &impl Abort, alloc: Global, wavelet: Wavelet, w: u32, depth: u32, content: &Content)
    requires few { depth ≤ 4 }
    requires some { 1 ≤ w }
    requires short { w ≤ 36 }
    requires whole { w % 2 ^ depth ≡ 0 }
{
    let mut bands: Bands<i16> = zero_bands(rt, alloc, w, depth);
    put_content(rt, &mut bands, wavelet, content);
    let mut samples = [0; MOST];
    let samples = &mut samples[..15 * (w as usize - 1)];
    let fits = synth_short(rt, alloc, wavelet, &bands, w, samples);
    assert_same(rt, fits, depth == 0 || content.fits);
    if fits {
        expect_samples(rt, alloc, wavelet, &bands, w, samples);
    }
    drop(bands);
}

/// All contents, at one depth.
fn expect_all(rt: &impl Abort, alloc: Global, depth: u32, contents: &[Content])
    requires few { depth ≤ 4 }
    requires whole { 32 % 2 ^ depth ≡ 0 }
{
    for wavelet in WAVELETS {
        for content in contents {
            expect(rt, alloc, wavelet, 32, depth, content);
        }
    }
}

/// At the bound and past it, by each wavelet. On the last of more levels LL is within 50 again.
#[test]
fn room_of_short_levels(rt: HostRuntime) {
    expect_all(&rt, rt.alloc(), 0, &CONTENTS);
    expect_all(&rt, rt.alloc(), 1, &CONTENTS);
    expect_all(&rt, rt.alloc(), 2, &CONTENTS[..5]);
    expect_all(&rt, rt.alloc(), 4, &CONTENTS[..5]);
}

/// A content of a width, by each wavelet.
fn expect_width(rt: &impl Abort, alloc: Global, w: u32, content: &Content) {
    assert!(rt; w % 2 == 0 && 1 <= w && w <= 36);
    for wavelet in WAVELETS {
        expect(rt, alloc, wavelet, w, 1, content);
    }
}

#[test]
fn short_rows_of_each_length(rt: HostRuntime) {
    for w in WIDTHS {
        expect_width(&rt, rt.alloc(), w, &CONTENTS[0]);
    }
}
