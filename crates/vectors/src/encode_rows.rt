// What `encode` writes of raw video, and how it refuses it.
use crate::row::check_all;
use std::test::Fail;

const ROWS: &str = "\
    encode one grey sample | encode .. | #808080 | \
        Done | #424243440000000011000000003f27424a42424344c80000001500000011000000000c92700142424344100000000000000015 | rate=21/1 delay=2 buffer=42;
    one-byte slice: C1 of -2 ends in ones that cost nothing | encode .. | #807e80 | \
        Done | #424243440000000011000000003f27424a42424344c80000001500000011000000000c92700042424344100000000000000015 | rate=21/1 delay=2 buffer=42;
    one-byte slice: luma of -2 has no bits, index 5 | encode .. | #7e8080 | \
        Done | #424243440000000011000000003f27424a42424344c80000001500000011000000000c92700b42424344100000000000000015 | rate=21/1 delay=2 buffer=42;
    one-byte slice: luma of 127, index 28 | encode .. | #ff8080 | \
        Done | #424243440000000011000000003f27424a42424344c80000001500000011000000000c92703942424344100000000000000015 | rate=21/1 delay=2 buffer=42;
    one-byte slice: C1 of -3, fitting isn't monotone, index 1 | encode .. | #807d80 | \
        Done | #424243440000000011000000003f27424a42424344c80000001500000011000000000c92700242424344100000000000000015 | rate=21/1 delay=2 buffer=42;
    encode no picture | encode .. | # | \
        Done | #424243440000000011000000003f27424a42424344100000000000000011 | rate=21/1 delay=2 buffer=30;
    DC prediction from restored values, two slices | encode .. size=2x1 slices=2x1 | #808079798080 | \
        Done | #424243440000000011000000003f67424a42424344c80000001600000011000000000d92700a0342424344100000000000000016 | rate=22/2 delay=4 buffer=44;
    LeGall level without loss | encode .. size=2x2 wavelet=legall depth=1 bytes=5/1 matrix=0,0,0,0 | #8b8c888a8080808080808080 | \
        Done | #424243440000000011000000003f6f424a42424344c80000001a000000110000000024949f8000d0a4126d4242434410000000000000001a | rate=26/1 delay=2 buffer=52;
    LeGall level in four bytes | encode .. size=2x2 wavelet=legall depth=1 bytes=4/1 matrix=0,0,0,0 | #8b8c888a8080808080808080 | \
        Done | #424243440000000011000000003f6f424a42424344c800000019000000110000000024919f800744627242424344100000000000000019 | rate=25/1 delay=2 buffer=50;
    two levels of Haar with a shift | encode .. size=4x4 wavelet=haar-shift depth=2 bytes=30/1 matrix=2,1,1,0,2,2,1 | #284d72973f6f9fcf5691cc076db3f93f80858a8f7d82878c7a7f8489777c8186787674727c7a7876807e7c7a8482807e | \
        Done | #424243440000000012000000003f18f424a042424344c80000003500000012000000001b25566c9b6419101a240c22eacac2b002e240909024104104c1a4e18d94a5299191919742424344100000000000000035 | rate=53/1 delay=2 buffer=84;
    four levels of LeGall, padded from 5x3 | encode .. size=5x3 wavelet=legall depth=4 bytes=48/1 matrix=4,2,2,0,4,4,2,5,5,3,7,7,5 | #1e477099c23b648db6df5881aad3fc82888e949a7d83898f95787e848a907673706d6a7a7774716e7e7b787572 | \
        Done | #424243440000000012000000003f487424a042424344c80000004c000000120000000023250198db8c6d290810291ea104165412552a025404a02c02dfffff88c2308c2320ca18210262e0dab01eac07a632637ffffffffff86c1b06c1b74242434410000000000000004c | rate=76/1 delay=2 buffer=107;
    steepest matrix | encode .. matrix=87 | #808080 | \
        Done | #424243440000000011000000003f27424a42424344c80000001600000011000000000c9262810142424344100000000000000016 | rate=22/1 delay=2 buffer=44;
    the same rate without idle slots | encode .. rate=21/4 | #808080808080 | \
        Done | #424243440000000011000000003f27424a42424344c80000001500000011000000000c92700142424344c80000001500000015000000010c92700142424344100000000000000015 | rate=21/4 delay=12 buffer=63;
    encode two fields | encode .. size=1x2 fields=yes | #808080807e80 | \
        Done | #424243440000000012000000003f2f42488042424344c80000001500000012000000000c92700142424344c80000001500000015000000010c92700042424344100000000000000015 | rate=21/1 delay=2 buffer=42;
    encode two pictures to be cut | encode .. | #808080807e80 | \
        Done | #424243440000000011000000003f27424a42424344c80000001500000011000000000c92700142424344c80000001500000015000000010c92700042424344100000000000000015 | rate=21/1 delay=2 buffer=42;
    a rate that is not reduced | encode .. rate=42/2 | #808080808080 | \
        Done | #424243440000000011000000003f27424a42424344c80000001500000011000000000c92700142424344c80000001500000015000000010c92700142424344100000000000000015 | rate=42/2 delay=2 buffer=42;
    numbers past 2^32 | encode .. first=4294967295 | #808080808080 | \
        Done | #424243440000000011000000003f27424a42424344c80000001500000011ffffffff0c92700142424344c80000001500000015000000000c92700142424344100000000000000015 | rate=21/1 delay=2 buffer=42;
    a header of numbers | encode .. scan=1 fps=7/3 signal=0,3,2,3 | # | \
        Done | #424243440000000014000000003f279c084e161442424344100000000000000014 | rate=21/1 delay=2 buffer=33;
    steepest matrix, no picture | encode .. matrix=87 | # | \
        Done | #424243440000000011000000003f27424a42424344100000000000000011 | rate=22/1 delay=2 buffer=30;
    steepest matrix, no picture | encode .. signal=3 matrix=79 | # | \
        Done | #424243440000000012000000003f2742428042424344100000000000000012 | rate=22/1 delay=2 buffer=31;
    steepest matrix, no picture | encode .. signal=4 matrix=71 | # | \
        Done | #424243440000000012000000003f2742468042424344100000000000000012 | rate=22/1 delay=2 buffer=31;
    steepest matrix, no picture | encode .. signal=0,255,0,65535 matrix=55 | # | \
        Done | #424243440000000018000000003f274270000c000000028042424344100000000000000018 | rate=22/1 delay=2 buffer=37;
    steepest matrix, no picture | encode .. signal=0,65535,0,255 matrix=55 | # | \
        Done | #424243440000000018000000003f2742700000000c00028042424344100000000000000018 | rate=22/1 delay=2 buffer=37;
    steepest matrix, no picture | encode .. signal=0,255,0,65535 depth=4 matrix=7,0,0,0,0,0,0,0,0,0,0,0,7 | # | \
        Done | #424243440000000018000000003f274270000c000000028042424344100000000000000018 | rate=24/1 delay=2 buffer=37;
    raw picture cut short | encode .. | #8080 | \
        Refused(Refusal { place: 2, reason: RawTruncated }) | #424243440000000011000000003f27424a | refused at 2: RawTruncated;
    sample too large | encode .. signal=3 | #0002ff030004 | \
        Refused(Refusal { place: 4, reason: SampleTooLarge }) | #424243440000000012000000003f27424280 | refused at 4: SampleTooLarge;
    one field alone | encode .. size=1x2 fields=yes | #808080 | \
        Refused(Refusal { place: 3, reason: HalfFrame }) | #424243440000000012000000003f2f42488042424344c80000001500000012000000000c927001 | refused at 3: HalfFrame;
    three fields | encode .. size=1x2 fields=yes | #808080807e80808080 | \
        Refused(Refusal { place: 9, reason: HalfFrame }) | #424243440000000012000000003f2f42488042424344c80000001500000012000000000c92700142424344c80000001500000015000000010c92700042424344c80000001500000015000000020c927001 | refused at 9: HalfFrame;
    a field cut short | encode .. size=1x2 fields=yes | #8080808080 | \
        Refused(Refusal { place: 5, reason: RawTruncated }) | #424243440000000012000000003f2f42488042424344c80000001500000012000000000c927001 | refused at 5: RawTruncated;
    cut inside the second picture | encode .. | #80808080 | \
        Refused(Refusal { place: 4, reason: RawTruncated }) | #424243440000000011000000003f27424a42424344c80000001500000011000000000c927001 | refused at 4: RawTruncated;
    cut inside a sample | encode .. signal=3 | #0002000200 | \
        Refused(Refusal { place: 5, reason: RawTruncated }) | #424243440000000012000000003f27424280 | refused at 5: RawTruncated;
    cut between two samples | encode .. signal=3 | #00020002 | \
        Refused(Refusal { place: 4, reason: RawTruncated }) | #424243440000000012000000003f27424280 | refused at 4: RawTruncated;
    cut inside the first sample | encode .. signal=3 | #00 | \
        Refused(Refusal { place: 1, reason: RawTruncated }) | #424243440000000012000000003f27424280 | refused at 1: RawTruncated;
    half of a sample that would be too large | encode .. signal=3 | #000200ff00 | \
        Refused(Refusal { place: 2, reason: SampleTooLarge }) | #424243440000000012000000003f27424280 | refused at 2: SampleTooLarge;
    a sample too large in the second picture | encode .. signal=3 | #0002000200020004 | \
        Refused(Refusal { place: 6, reason: SampleTooLarge }) | #424243440000000012000000003f2742428042424344c80000001500000012000000000c927001 | refused at 6: SampleTooLarge;
    the first of two samples too large | encode .. signal=3 | #000400040004 | \
        Refused(Refusal { place: 0, reason: SampleTooLarge }) | #424243440000000012000000003f27424280 | refused at 0: SampleTooLarge;
    a sample too large in a cut picture | encode .. signal=3 | #00020004 | \
        Refused(Refusal { place: 2, reason: SampleTooLarge }) | #424243440000000012000000003f27424280 | refused at 2: SampleTooLarge;";

#[test]
fn raw_video_is_encoded_or_refused(rt: HostRuntime) -> Result<(), Fail> {
    check_all(&rt, rt.alloc(), ROWS)
}
