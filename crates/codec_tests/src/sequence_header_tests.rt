//! Worked headers: read, written, checked rule by rule, and the pictures that they make.

use crate::told::{assert_same, assert_told, behind, bytes_of, numbers};
use sequence_header::{
    AspectField, ColourField, HeaderFault, HeaderParts, HeaderReason, RateField, SequenceHeader,
    SignalField, SignalRange,
};
use slice_geometry::PictureShape;
use std::process::Abort;

/// Where and why headers are refused; then the parts of headers, the pictures that they make, and in how many bytes they are
/// written, with 0xAA behind them: the smallest one, wider, and higher too; one of fields; every optional field; a large one with
/// colour of half the width, and the same of fields with colour of half the height too.
const HEADERS: &str = "\
Err(HeaderFault { bit: 0, reason: Truncated })|
Err(HeaderFault { bit: 8, reason: NumberTooLarge })|3F000000000000000000
Err(HeaderFault { bit: 8, reason: Truncated })|3F0000000000000000
Err(HeaderFault { bit: 7, reason: DefaultTaken(Size) })|3E27424A
Err(HeaderFault { bit: 0, reason: VersionRefused })|BF27424A
Err(HeaderFault { bit: 4, reason: NotLowDelay })|3727424A
Err(HeaderFault { bit: 8, reason: SizeRefused })|3FA7424A
Err(HeaderFault { bit: 26, reason: SignalRefused })|3F274252
Ok((HeaderParts { major: 1, minor: 0, level: 0, width: 1, height: 1, sampling: 0, scan: None, rate: Index(3), aspect: Default, \
    clean: None, signal: Index(1), colour: Default, coding: 0 }, \
    PictureShape { luma: Size { w: 1, h: 1 }, colour: Size { w: 1, h: 1 }, luma_depth: 8, colour_depth: 8 }, 4))|3F27424AAAAAAAAAAAAAAAAA
Ok((HeaderParts { major: 1, minor: 0, level: 0, width: 2, height: 1, sampling: 0, scan: None, rate: Index(3), aspect: Default, \
    clean: None, signal: Index(1), colour: Default, coding: 0 }, \
    PictureShape { luma: Size { w: 2, h: 1 }, colour: Size { w: 2, h: 1 }, luma_depth: 8, colour_depth: 8 }, 4))|3F67424AAAAAAAAAAAAAAAAA
Ok((HeaderParts { major: 1, minor: 0, level: 0, width: 2, height: 2, sampling: 0, scan: None, rate: Index(3), aspect: Default, \
    clean: None, signal: Index(1), colour: Default, coding: 0 }, \
    PictureShape { luma: Size { w: 2, h: 2 }, colour: Size { w: 2, h: 2 }, luma_depth: 8, colour_depth: 8 }, 4))|3F6F424AAAAAAAAAAAAAAAAA
Ok((HeaderParts { major: 1, minor: 0, level: 0, width: 1, height: 2, sampling: 0, scan: None, rate: Index(3), aspect: Default, \
    clean: None, signal: Index(1), colour: Default, coding: 1 }, \
    PictureShape { luma: Size { w: 1, h: 1 }, colour: Size { w: 1, h: 1 }, luma_depth: 8, colour_depth: 8 }, 5))|3F2F424880AAAAAAAAAAAAAA
Ok((HeaderParts { major: 2, minor: 0, level: 0, width: 1, height: 2, sampling: 0, scan: Some(1), rate: Pair(2, 1), \
    aspect: Pair(1, 1), clean: Some(CleanArea { width: 1, height: 2, left: 0, top: 0 }), \
    signal: Custom(SignalRange { luma_offset: 0, luma_excursion: 3, colour_offset: 2, colour_excursion: 3 }), \
    colour: Custom { primaries: Some(1), matrix: None, transfer: Some(3) }, coding: 1 }, \
    PictureShape { luma: Size { w: 1, h: 1 }, colour: Size { w: 1, h: 1 }, luma_depth: 2, colour_depth: 2 }, 10))|7F2F9D9C997F0B0F2848AAAA
Ok((HeaderParts { major: 1, minor: 0, level: 0, width: 1920, height: 1080, sampling: 1, scan: None, rate: Index(3), \
    aspect: Default, clean: None, signal: Index(3), colour: Default, coding: 0 }, \
    PictureShape { luma: Size { w: 1920, h: 1080 }, colour: Size { w: 960, h: 1080 }, luma_depth: 10, colour_depth: 10 }, 9))|3F54001802A0E5090AAAAAAA
Ok((HeaderParts { major: 1, minor: 0, level: 0, width: 1920, height: 1080, sampling: 2, scan: None, rate: Index(3), \
    aspect: Default, clean: None, signal: Index(4), colour: Default, coding: 1 }, \
    PictureShape { luma: Size { w: 1920, h: 540 }, colour: Size { w: 960, h: 270 }, luma_depth: 12, colour_depth: 12 }, 10))|3F54001802A0ED091880AAAA
";

/// The check, whose condition these parts meet.
fn checked(rt: &impl Abort, parts: HeaderParts) -> Result<SequenceHeader, HeaderReason> {
    assert!(rt; !matches!(parts.aspect, AspectField::Index(0)));
    assert!(rt; !matches!(parts.colour, ColourField::Index(0)));
    SequenceHeader::check(parts)
}

/// Asserts that a header's parts pass the check, and that it is written as it stood.
fn expect_written(rt: &impl Abort, header: &SequenceHeader, want: &[u8]) {
    assert_same(rt, checked(rt, *header.parts()), Ok(*header));
    let mut bytes = [0xAA; 12];
    let length = header.byte_len();
    assert!(rt; length <= 12);
    header.write(&mut bytes[..length]);
    assert!(rt; bytes.as_slice() == want);
}

fn expect_header(rt: &impl Abort, row: &str) {
    let (bytes, count) = bytes_of(rt, behind(rt, row));
    let found: Result<(HeaderParts, PictureShape, usize), HeaderFault> = match SequenceHeader::read(
        &bytes[..count],
    ) {
        Ok((header, taken)) => {
            expect_written(rt, &header, &bytes[..count]);
            Ok((*header.parts(), header.picture_shape(), taken))
        }
        Err(fault) => Err(fault),
    };
    assert_told(rt, row, found);
}

#[test]
fn headers_are_read_and_written(rt: HostRuntime) {
    for row in HEADERS.lines() {
        expect_header(&rt, row);
    }
}

/// Each rule at its bound and one past it. The numbers are the major version, the minor one and the level; the width, the height
/// and the sampling; the scan format, where it isn't 0; 0 and the frame rate's index, or 1, and its two numbers; 0 and the signal
/// range's index, or 1, and the excursions of luma and colour; and the coding mode.
const RULES: &str = "\
Some(VersionRefused)|0 0 0 1 1 0 0 0 3 0 0 1 0 0
None|2 0 0 1 1 0 0 0 3 0 0 1 0 0
Some(VersionRefused)|3 0 0 1 1 0 0 0 3 0 0 1 0 0
None|1 4294967295 4294967295 1 1 0 0 0 3 0 0 1 0 0
Some(SizeRefused)|1 0 0 0 1 0 0 0 3 0 0 1 0 0
None|1 0 0 8192 2048 0 0 0 3 0 0 1 0 0
Some(SizeRefused)|1 0 0 8193 1 0 0 0 3 0 0 1 0 0
Some(SizeRefused)|1 0 0 1 0 0 0 0 3 0 0 1 0 0
None|1 0 0 2048 8192 0 0 0 3 0 0 1 0 0
Some(SizeRefused)|1 0 0 1 8193 0 0 0 3 0 0 1 0 0
Some(SizeRefused)|1 0 0 8192 2049 0 0 0 3 0 0 1 0 0
None|1 0 0 2 2 2 0 0 3 0 0 1 0 0
Some(SamplingUnknown)|1 0 0 2 2 3 0 0 3 0 0 1 0 0
None|1 0 0 2 1 1 0 0 3 0 0 1 0 0
Some(SizeNotDivisible)|1 0 0 1 2 1 0 0 3 0 0 1 0 0
Some(SizeNotDivisible)|1 0 0 1 2 2 0 0 3 0 0 1 0 0
Some(SizeNotDivisible)|1 0 0 2 1 2 0 0 3 0 0 1 0 0
None|1 0 0 1 1 0 1 0 3 0 0 1 0 0
Some(ScanUnknown)|1 0 0 1 1 0 2 0 3 0 0 1 0 0
Some(RateRefused)|1 0 0 1 1 0 0 0 0 0 0 1 0 0
None|1 0 0 1 1 0 0 0 8 0 0 1 0 0
Some(RateRefused)|1 0 0 1 1 0 0 0 9 0 0 1 0 0
None|1 0 0 1 1 0 0 1 4294967295 4294967295 0 1 0 0
Some(RateRefused)|1 0 0 1 1 0 0 1 0 1 0 1 0 0
Some(RateRefused)|1 0 0 1 1 0 0 1 1 0 0 1 0 0
Some(SignalRefused)|1 0 0 1 1 0 0 0 3 0 0 0 0 0
None|1 0 0 1 1 0 0 0 3 0 0 4 0 0
Some(SignalRefused)|1 0 0 1 1 0 0 0 3 0 0 5 0 0
None|1 0 0 1 1 0 0 0 3 0 1 65535 65535 0
Some(SignalRefused)|1 0 0 1 1 0 0 0 3 0 1 0 1 0
Some(SignalRefused)|1 0 0 1 1 0 0 0 3 0 1 1 65536 0
Some(CodingModeUnknown)|1 0 0 1 1 0 0 0 3 0 0 1 0 2
Some(SizeNotDivisible)|1 0 0 1 1 0 0 0 3 0 0 1 0 1
None|1 0 0 1 2 0 0 0 3 0 0 1 0 1
None|1 0 0 2 4 2 0 0 3 0 0 1 0 1
Some(SizeNotDivisible)|1 0 0 2 2 2 0 0 3 0 0 1 0 1
";

/// The parts of these numbers.
fn parts_of(numbers: [u32; 16]) -> HeaderParts {
    let [major, minor, level, width, height, sampling, scan, ..] = numbers;
    let [.., pair, rate, den, custom, signal, excursion, coding, _, _] = numbers;
    HeaderParts {
        major,
        minor,
        level,
        width,
        height,
        sampling,
        scan: if scan == 0 { None } else { Some(scan) },
        rate: if pair == 0 {
            RateField::Index(rate)
        } else {
            RateField::Pair(rate, den)
        },
        aspect: AspectField::Default,
        clean: None,
        signal: if custom == 0 {
            SignalField::Index(signal)
        } else {
            SignalField::Custom(SignalRange {
                luma_offset: u32::MAX,
                luma_excursion: signal,
                colour_offset: 0,
                colour_excursion: excursion,
            })
        },
        colour: ColourField::Default,
        coding,
    }
}

#[test]
fn each_rule_is_checked(rt: HostRuntime) {
    for row in RULES.lines() {
        let parts = parts_of(numbers(behind(&rt, row)));
        assert_told(&rt, row, checked(&rt, parts).err());
    }
}
