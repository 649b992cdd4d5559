//! Pictures whose bands are at the greatest magnitude that is synthesised in 32 bits, and past it.
//!
//! Owners are dropped by name, since the proof of that call is short.

ghost use Rattle.std.specs.Prelude.{◌≡◌, false};

use crate::checks::assert_same;
use lifting::Wavelet;
use picture_codec::{PictureDecoder, TransformParams};
use quant_factors::Matrix;
use slice_geometry::{Component, Layout, PictureShape, Size};
use std::alloc::Global;
use std::process::Abort;

// LL 131112, HL 262144, LH -9, HH 5: the greatest magnitude that is synthesised in 32 bits.
const AT_THE_BOUND: [u8; 40] = [
    0x00, 0x58, 0x00, 0x00, 0x01, 0x10, 0x60, 0x00, 0x00, 0x00, 0x01, 0x84, 0xD2, 0xFF, 0xFF, 0xFF,
    0xFF, 0xFF, 0xFF, 0xFF, 0xFF, 0xFF, 0xFF, 0xFF, 0xFF, 0xFF, 0xFF, 0xFF, 0xFF, 0xFF, 0xFF, 0xFF,
    0xFF, 0xFF, 0xFF, 0xFF, 0xFF, 0xFF, 0xFF, 0xFF,
];

// LL 131113, HL 262145, LH -9, HH 5: one more.
const PAST_THE_BOUND: [u8; 40] = [
    0x00, 0x58, 0x00, 0x00, 0x01, 0x11, 0x20, 0x00, 0x00, 0x00, 0x04, 0x84, 0xD2, 0xFF, 0xFF, 0xFF,
    0xFF, 0xFF, 0xFF, 0xFF, 0xFF, 0xFF, 0xFF, 0xFF, 0xFF, 0xFF, 0xFF, 0xFF, 0xFF, 0xFF, 0xFF, 0xFF,
    0xFF, 0xFF, 0xFF, 0xFF, 0xFF, 0xFF, 0xFF, 0xFF,
];

// LL -131085, HL -262145, LH 7, HH 262145.
const PAST_IN_TWO_BANDS: [u8; 40] = [
    0x00, 0x78, 0x00, 0x00, 0x00, 0x15, 0x30, 0x00, 0x00, 0x00, 0x04, 0xC0, 0x80, 0x00, 0x00, 0x00,
    0x12, 0xFF, 0xFF, 0xFF, 0xFF, 0xFF, 0xFF, 0xFF, 0xFF, 0xFF, 0xFF, 0xFF, 0xFF, 0xFF, 0xFF, 0xFF,
    0xFF, 0xFF, 0xFF, 0xFF, 0xFF, 0xFF, 0xFF, 0xFF,
];

// LL 262145, HL 1, LH 2, HH -3.
const PAST_IN_LL: [u8; 40] = [
    0x00, 0x34, 0x00, 0x00, 0x00, 0x00, 0x48, 0x98, 0x3F, 0xFF, 0xFF, 0xFF, 0xFF, 0xFF, 0xFF, 0xFF,
    0xFF, 0xFF, 0xFF, 0xFF, 0xFF, 0xFF, 0xFF, 0xFF, 0xFF, 0xFF, 0xFF, 0xFF, 0xFF, 0xFF, 0xFF, 0xFF,
    0xFF, 0xFF, 0xFF, 0xFF, 0xFF, 0xFF, 0xFF, 0xFF,
];

/// The slice of a picture of 2 by 2, and its luma samples in 16 bits by each wavelet.
type Case = ([u8; 40], [[u16; 4]; 3]);

const WAVELETS: [Wavelet; 3] = [Wavelet::LeGall, Wavelet::HaarFlat, Wavelet::HaarShift];

#[rattlefmt::skip]
const CASES: [Case; 4] = [
    (AT_THE_BOUND, [[32791, 65535, 32785, 65535], [32813, 65535, 32802, 65535], [32791, 65535, 32785, 65535]]),
    (PAST_THE_BOUND, [[32791, 65535, 32785, 65535], [32814, 65535, 32802, 65535], [32791, 65535, 32785, 65535]]),
    (PAST_IN_TWO_BANDS, [[65528, 0, 0, 0], [65535, 0, 0, 0], [65528, 0, 0, 0]]),
    (PAST_IN_LL, [[65535, 65535, 65535, 65535], [65535, 65535, 65535, 65535], [65535, 65535, 65535, 65535]]),
];

const TWO: Size = Size { w: 2, h: 2 };

const SHAPE: PictureShape = PictureShape {
    luma: TWO,
    colour: TWO,
    luma_depth: 16,
    colour_depth: 16,
};

/// One level, one slice, and a matrix of zeros.
fn params(rt: &impl Abort, wavelet: Wavelet) -> TransformParams {
    let layout = Layout::check(1, 1, 1, 40, 1).ok().expect(rt, "a layout");
    assert!(rt; layout.depth() == 1);
    let matrix = Matrix::new(1, &[0, 0, 0, 0]);
    assert!(rt; matrix.depth() == layout.depth());
    TransformParams {
        wavelet,
        layout,
        matrix,
    }
}

/// Takes the only slice.
fn take(rt: &impl Abort, decoder: &mut PictureDecoder, bytes: &[u8])
    requires { decoder.old.refused ≡ false }
    ensures { decoder.new.refused ≡ false }
{
    let wanted = decoder.wanted().expect(rt, "a slice");
    assert!(rt; bytes.len() < 100 && wanted as usize == bytes.len());
    decoder.slice(bytes).expect(rt, "a slice that stands");
}

const GREY: [u16; 4] = [0x8000; 4];

/// Asserts that the picture of the only slice has these samples of luma, and grey ones of C2.
fn expect_samples(rt: &impl Abort, decoder: &mut PictureDecoder, bytes: &[u8], want: &[u16])
    requires { decoder.old.refused ≡ false }
{
    take(rt, decoder, bytes);
    assert!(rt; decoder.wanted().is_none());
    let picture = decoder.finish();
    assert_same(rt, picture.samples(Component::Luma), want);
    assert_same(rt, picture.samples(Component::C2), &GREY[..]);
}

fn expect_decoded(rt: &impl Abort, alloc: Global, case: &Case, k: usize) {
    assert!(rt; k < 3);
    let params = params(rt, WAVELETS[k]);
    let mut decoder = PictureDecoder::new(alloc, &SHAPE, &params).expect(rt, "memory");
    decoder.restart();
    expect_samples(rt, &mut decoder, &case.0, &case.1[k]);
    drop(decoder);
}

/// One value more than 2^18 in a band changes the width, and no sample but by that one.
#[test]
fn both_widths(rt: HostRuntime) {
    for case in &CASES {
        expect_decoded(&rt, rt.alloc(), case, 0);
        expect_decoded(&rt, rt.alloc(), case, 1);
        expect_decoded(&rt, rt.alloc(), case, 2);
    }
}
