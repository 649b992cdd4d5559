// The texts that no other row has: further reasons, and the name of each kind of unit.
use crate::row::check_all;
use std::test::Fail;

const ROWS: &str = "\
    reason BadPrefix | decode | #424243450000000011 | \
        Refused(Refusal { place: 0, reason: BadPrefix }) | # | refused at 0: BadPrefix;
    reason NoSequenceHeader | decode | #4242434410 | \
        Refused(Refusal { place: 4, reason: NoSequenceHeader }) | # | refused at 4: NoSequenceHeader;
    reason VersionRefused | decode | #42424344000000006300000000bf27424a | \
        Refused(Refusal { place: 13, reason: VersionRefused }) | # | refused at 13: VersionRefused;
    reason NotLowDelay | decode | #4242434400000000630000000033c9d09280 | \
        Refused(Refusal { place: 13, reason: NotLowDelay }) | # | refused at 13: NotLowDelay;
    reason PresetFormat | decode | #424243440000000063000000003cc9d09280 | \
        Refused(Refusal { place: 13, reason: PresetFormat }) | # | refused at 13: PresetFormat;
    reason DefaultTaken | decode | #424243440000000063000000003f25424a | \
        Refused(Refusal { place: 14, reason: DefaultTaken(Sampling) }) | # | refused at 14: DefaultTaken sampling;
    reason DefaultTaken | decode | #424243440000000063000000003f27024a | \
        Refused(Refusal { place: 15, reason: DefaultTaken(Rate) }) | # | refused at 15: DefaultTaken rate;
    reason DefaultTaken | decode | #424243440000000063000000003f27420a | \
        Refused(Refusal { place: 16, reason: DefaultTaken(Signal) }) | # | refused at 16: DefaultTaken signal;
    reason SamplingUnknown | decode | #424243440000000063000000003f261424a0 | \
        Refused(Refusal { place: 14, reason: SamplingUnknown }) | # | refused at 14: SamplingUnknown;
    reason SizeNotDivisible | decode | #424243440000000063000000003f26509280 | \
        Refused(Refusal { place: 14, reason: SizeNotDivisible }) | # | refused at 14: SizeNotDivisible;
    reason ScanUnknown | decode | #424243440000000063000000003f27b84940 | \
        Refused(Refusal { place: 15, reason: ScanUnknown }) | # | refused at 15: ScanUnknown;
    reason RateRefused | decode | #424243440000000063000000003f27449280 | \
        Refused(Refusal { place: 15, reason: RateRefused }) | # | refused at 15: RateRefused;
    reason SignalRefused | decode | #424243440000000063000000003f27425280 | \
        Refused(Refusal { place: 16, reason: SignalRefused }) | # | refused at 16: SignalRefused;
    reason CodingModeUnknown | decode | #424243440000000063000000003f27424980 | \
        Refused(Refusal { place: 16, reason: CodingModeUnknown }) | # | refused at 16: CodingModeUnknown;
    reason OffsetShort | decode | #424243440000000011000000003f27424a42424344200000000c00000011 | \
        Refused(Refusal { place: 22, reason: OffsetShort }) | # | refused at 22: OffsetShort;
    reason FieldNumberOdd | decode | #424243440000000012000000003f2f42488042424344c8000000110000001200000001 | \
        Refused(Refusal { place: 31, reason: FieldNumberOdd }) | # | refused at 31: FieldNumberOdd;
    reason DepthRefused | decode | #424243440000000011000000003f27424a42424344c80000001400000011000000000a4927 | \
        Refused(Refusal { place: 34, reason: DepthRefused }) | # | refused at 34: DepthRefused;
    reason SlicesRefused | decode | #424243440000000011000000003f27424a42424344c80000001400000011000000000e49c0 | \
        Refused(Refusal { place: 34, reason: SlicesRefused }) | # | refused at 34: SlicesRefused;
    half a frame | decode | #424243440000000012000000003f2f42488042424344c80000001500000012000000000c92700142424344100000000000000015 | \
        Refused(Refusal { place: 43, reason: HalfFrame }) | #808080 | refused at 43: HalfFrame;
    each kind of unit, without a payload | chain | #42424344000000000d0000000042424344200000000d0000000d42424344300000000d0000000d42424344c80000000d0000000d4242434410000000000000000d | \
        Done | 0 sequence-header next 13 previous 0;13 auxiliary next 13 previous 13;26 padding next 13 previous 13;39 low-delay-picture next 13 previous 13;52 end-of-sequence next 0 previous 13; | #";

#[test]
fn reasons_and_units_have_their_names(rt: HostRuntime) -> Result<(), Fail> {
    check_all(&rt, rt.alloc(), ROWS)
}
