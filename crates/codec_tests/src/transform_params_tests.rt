//! Worked parameters, and each rule at its bound and past it.

use crate::told::{assert_told, behind, bytes_of};
use lifting::Wavelet;
use std::process::Abort;
use transform_params::{TransformParams, TransformReason};

/// What parameters say, and how many bytes they take, of the bytes in which they are written, with 0xFF behind them; or at which
/// bit and why they are refused. Worked ones, and then each rule at its bound, and past it: the wavelet, the depth, the slices
/// across and down, the share's two numbers, and the custom matrix flag.
const PARAMETERS: &str = "\
Ok((HaarFlat, 1, 1, 1, 1, 21, 3))|0C9270FF
Ok((HaarFlat, 2, 1, 1, 1, 22, 3))|0D9270FF
Ok((HaarFlat, 1, 2, 1, 1, 22, 3))|0C9670FF
Ok((LeGall, 1, 5, 1, 4, 26, 4))|24949F80
Ok((HaarFlat, 1, 1, 1, 1, 29, 11))|0C92600000000000000010FF
Ok((HaarShift, 1, 1, 1, 4, 31, 13))|1924980000000000000004B080FF
Ok((LeGall, 8192, 256, 1, 7, 268435493, 20))|2C00000180030001980000000000000004B08D2BFF
Ok((LeGall, 128, 4294967295, 4294967295, 10, 1048630, 37))|210006000000C0000000000000002000000000000000180000000000000004B08D2B020C48FF
Ok((LeGall, 1, 268435456, 1, 13, 268435507, 34))|232400000000000006600000000000000012C234AC083122D0800000000000000040FF
Ok((LeGall, 8192, 4294967295, 4294967295, 1, 1048624, 31))|30000006000C00000000000000020000000000000001800000000000000040FF
Err((0, WaveletRefused(0)))|C9260000000000000001
Err((0, WaveletRefused(2)))|7249800000000000000040
Err((0, WaveletRefused(5)))|4C92600000000000000010
Err((3, DepthRefused))|2924980000000000000004
Err((4, SlicesRefused))|39260000000000000001
Err((4, SlicesRefused))|3000001249800000000000000040
Err((7, SlicesRefused))|33260000000000000001
Err((7, SlicesRefused))|3200000249800000000000000040
Err((31, SlicesRefused))|300000060024980000000000000004
Err((13, ShareRefused))|324E0000000000000001
Err((13, ShareRefused))|324B800000000000000040
Err((11, ShareRefused))|32780000000000000004
Err((67, ShareRefused))|3240000000000001260000000000000001
Err((63, ShareRefused))|30000006000C0012600000000000000010
Err((16, DefaultMatrix))|3249000000000000000040
Err((0, WaveletRefused(7)))|0227C00000000000000010
";

/// The wavelet, the slices across, the share's two numbers, how many entries there are, and the length of a picture's unit; and
/// how many bytes were taken.
type Seen = (Wavelet, u32, u32, u32, usize, u32, usize);

fn seen(params: &TransformParams, taken: usize) -> Seen {
    let layout = &params.layout;
    (
        params.wavelet,
        layout.slices_x(),
        layout.a(),
        layout.b(),
        params.matrix.entries().len(),
        params.unit_len(),
        taken,
    )
}

/// Asserts that parameters are written as they stood.
fn expect_written(rt: &impl Abort, params: &TransformParams, want: &[u8]) {
    let mut bytes = [0xFF; 48];
    let length = params.byte_len();
    assert!(rt; length <= 48 && want.len() <= 48);
    params.write(&mut bytes[..length]);
    assert!(rt; &bytes[..want.len()] == want);
}

fn expect_parameters(rt: &impl Abort, row: &str) {
    let (bytes, count) = bytes_of(rt, behind(rt, row));
    let found: Result<Seen, (u64, TransformReason)> = match TransformParams::read(&bytes[..count]) {
        Ok((params, taken)) => {
            expect_written(rt, &params, &bytes[..count]);
            Ok(seen(&params, taken))
        }
        Err(fault) => Err((fault.bit, fault.reason)),
    };
    assert_told(rt, row, found);
}

#[test]
fn parameters_are_read_and_written(rt: HostRuntime) {
    for row in PARAMETERS.lines() {
        expect_parameters(&rt, row);
    }
}
