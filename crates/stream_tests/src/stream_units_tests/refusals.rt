//! Streams that are refused, each with what stands before.

use crate::stream_units_tests::reading::{By, expect_rows};
use std::test::Fail;

/// Prefixes, codes, offsets, repeated headers, skipped payloads, and what lies behind an end.
const HEADS_AND_OFFSETS: &str = "\
nothing = 0 Truncated
42424345 00 00000011 00000000 3F27424A = 0 BadPrefix
header picture 42424244 10 00000000 00000015 = Sequence Picture(0) 38 BadPrefix
unit E8 = 4 UnsupportedCode(232)
header unit E8 00000015 00000011 00000000 0C927001 end = Sequence 21 UnsupportedCode(232)
header picture unit 01 = Sequence Picture(0) 42 UnsupportedCode(1)
picture = 4 NoSequenceHeader
unit 10 = 4 NoSequenceHeader
unit 20 0000 = 4 NoSequenceHeader
unit 30 0000000D 00000000 header = 4 NoSequenceHeader
fields unit C8 00000015 00000012 00000000 0C927001 unit 10 00000001 00000000 = Sequence Picture(0) 43 HalfFrame
header picture unit 10 0000000E 0000 = Sequence Picture(0) 43 OffsetWrong
header picture unit 10 0000000D 00000014 = Sequence Picture(0) 47 PreviousWrong
unit 00 00000010 00000000 3F27424A picture end = 5 OffsetWrong
unit 00 00000011 00000001 3F27424A = 9 PreviousWrong
header unit C8 00000015 00000010 00000000 0C927001 end = Sequence 26 PreviousWrong
header unit 20 0000000D 00000011 unit 20 0000000D 00000011 = Sequence Skipped 39 PreviousWrong
header header = Sequence 26 PreviousWrong
header picture end 00 = Sequence Picture(0) SequenceEnd 51 Truncated
header picture end 00000000 = Sequence Picture(0) SequenceEnd 51 BadPrefix
header picture end picture end = Sequence Picture(0) SequenceEnd 55 NoSequenceHeader
header picture end unit 00 00000011 00000011 3F27424A = Sequence Picture(0) SequenceEnd 60 PreviousWrong
header 43424344 C8 00000015 00000011 00000000 0C927001 = Sequence 17 BadPrefix
header unit CC 00000015 00000011 00000000 0C927001 = Sequence 21 UnsupportedCode(204)
header unit EC 00000015 00000011 00000000 0C927001 = Sequence 21 UnsupportedCode(236)
header unit 20 0000000C 00000010 = Sequence 22 OffsetShort
header unit 30 00000000 00000011 = Sequence 22 OffsetShort
header unit 30 0000000C = Sequence 22 OffsetShort
header unit 10 0000000C 00000011 = Sequence 22 OffsetWrong
header unit 20 0000000F 00000011 42 = Sequence 30 Truncated
header unit 30 FFFFFFFF 00000011 = Sequence 30 Truncated
header unit 00 00000011 00000011 3F2742 = Sequence 30 Truncated
header unit 00 00000011 00000011 3F27424B = Sequence 30 HeaderDiffers
header unit 00 00000010 00000011 BF27424A = Sequence 30 HeaderDiffers
header unit 00 00000012 00000011 3F27424A = Sequence 22 OffsetWrong";

#[test]
fn heads_and_offsets(rt: HostRuntime) -> Result<(), Fail> {
    expect_rows(&rt, rt.alloc(), HEADS_AND_OFFSETS, &By::Items)
}

/// Numbers, transform parameters, slices, and the next offset behind them. In the last row parameters ask for a slice of 2^28
/// bytes, and three bytes follow.
const PICTURES: &str = "\
header unit C8 00000015 00000011 00000005 0C927001 unit C8 00000015 00000015 00000005 0C927001 = Sequence \
    Picture(5) 51 PictureNumberWrong
header picture unit C8 00000015 00000015 00000002 0C927001 = Sequence Picture(0) 51 PictureNumberWrong
header unit C8 00000015 00000011 FFFFFFFF 0C927001 unit C8 00000015 00000015 00000001 0C927001 = Sequence \
    Picture(4294967295) 51 PictureNumberWrong
fields unit C8 00000011 00000012 00000001 = Sequence 31 FieldNumberOdd
fields unit C8 00000015 00000012 00000006 0C927001 unit C8 00000011 00000015 00000008 = Sequence \
    Picture(6) 52 PictureNumberWrong
header picture unit C8 00000014 00000015 00000001 4C9270 = Sequence Picture(0) 55 WaveletRefused(5)
header unit C8 00000016 00000011 00000000 0C9670001F unit C8 00000016 00000016 00000001 0C967000DF = Sequence \
    Picture(0) 59 LumaLengthTooLong
line unit C8 00000018 00000011 00000000 0D9670001F00DF = Sequence 39 LumaLengthTooLong
line unit C8 00000017 00000011 00000000 0D9670001F00 = Sequence 39 Truncated
header unit C8 00000014 00000011 00000000 0C927001 end = Sequence 22 OffsetWrong
header unit C8 00000016 00000011 00000000 0C927001 end = Sequence 22 OffsetWrong
header unit C8 00000000 00000011 00000003 0C927001 unit C8 00000001 00000015 00000004 0C927001 = Sequence \
    Picture(3) 43 OffsetWrong
header unit C8 00000016 00000011 00000000 8092700142 = Sequence 34 WaveletRefused(0)
header unit C8 00000014 00000011 00000000 7249C0 = Sequence 34 WaveletRefused(2)
header unit C8 0000001A 00000011 00000000 000000000000000000 = Sequence 34 NumberTooLarge
header unit C8 00000019 00000011 00000000 0000000000000000 = Sequence 34 Truncated
header unit C8 00000014 00000011 00000000 0A4927 = Sequence 34 DepthRefused
header unit C8 00000014 00000011 00000000 0E49C0 = Sequence 34 SlicesRefused
header unit C8 00000017 00000011 00000000 0C0000049270 = Sequence 34 SlicesRefused
header unit C8 00000014 00000011 00000000 0CC9C0 = Sequence 35 SlicesRefused
header unit C8 00000018 00000011 00000000 0C000060000927 = Sequence 37 SlicesRefused
header unit C8 00000014 00000011 00000000 0C93C0 = Sequence 35 ShareRefused
header unit C8 00000014 00000011 00000000 0C92F0 = Sequence 35 ShareRefused
header unit C8 0000001B 00000011 00000000 0C900000000000000009 = Sequence 43 ShareRefused
header unit C8 00000015 00000011 00000000 0C925001 = Sequence 36 DefaultMatrix
header unit C8 00000013 00000011 00000000 0C92 = Sequence 35 Truncated
header unit C8 00000017 00000011 00000000 0C909CFE0000 = Sequence 37 CoefficientTooLarge
header unit C8 00000015 00000011 00000000 0C967000DF = Sequence 37 LumaLengthTooLong
header unit C8 00000000 00000011 00000000 0C9000000000000019C0 000000 = Sequence 44 Truncated";

#[test]
fn pictures(rt: HostRuntime) -> Result<(), Fail> {
    expect_rows(&rt, rt.alloc(), PICTURES, &By::Items)
}

/// The first sequence header, by its rules. Each comes before that of the next offset, which is wrong.
const HEADERS: &str = "\
head 3F0000000000000000 = 14 Truncated
head 3F000000000000000000 = 14 NumberTooLarge
head FC9D0928 = 13 VersionRefused
head 0FC9D09280 = 13 VersionRefused
head 33C9D09280 = 13 NotLowDelay
head 3CC9D09280 = 13 PresetFormat
head 3E27424A = 13 DefaultTaken(Size)
head 3F9D0928 = 14 SizeRefused
head 3F00000127424A = 14 SizeRefused
head 3F3D0928 = 14 SizeRefused
head 3F0000006000000C = 17 SizeRefused
head 3F25424A = 14 DefaultTaken(Sampling)
head 3F261424A0 = 14 SamplingUnknown
head 3F26509280 = 14 SizeNotDivisible
head 3F27B84940 = 15 ScanUnknown
head 3F27024A = 15 DefaultTaken(Rate)
head 3F27449280 = 15 RateRefused
head 3F27664A = 15 RateRefused
head 3F27420A = 16 DefaultTaken(Signal)
head 3F27425280 = 16 SignalRefused
head 3F27427A = 16 SignalRefused
head 3F27424980 = 16 CodingModeUnknown
head 3F27424880 = 16 SizeNotDivisible
head 3F27424A = 5 OffsetWrong";

#[test]
fn sequence_headers(rt: HostRuntime) -> Result<(), Fail> {
    expect_rows(&rt, rt.alloc(), HEADERS, &By::Items)
}
