// What `chain` prints of units, and how it refuses them.
use crate::row::check_all;
use std::test::Fail;

const ROWS: &str = "\
    chain of the smallest stream | chain | #424243440000000011000000003f27424a42424344c80000001500000011000000000c92700142424344100000000000000015 | \
        Done | 0 sequence-header next 17 previous 0;17 low-delay-picture next 21 previous 17;38 end-of-sequence next 0 previous 21; | #
    chain of nothing | chain | # | Done | # | #
    chain of an auxiliary unit | chain | #42424344200000000f00000000aabb | Done | 0 auxiliary next 15 previous 0; | #
    high quality picture code, chain | chain | #424243440000000011000000003f27424a42424344e80000001500000011000000000c92700142424344100000000000000015 | \
        Refused(Refusal { place: 21, reason: UnsupportedCode(232) }) | 0 sequence-header next 17 previous 0; | refused at 21: UnsupportedCode E8;
    next offsets of 0, chain | chain | #424243440000000000000000003f27424a42424344c80000000000000011000000000c92700142424344100000000000000015 | \
        Refused(Refusal { place: 5, reason: OffsetShort }) | # | refused at 5: OffsetShort;
    chain of a cut payload | chain | #42424344200000000f00000000aa | \
        Refused(Refusal { place: 13, reason: Truncated }) | # | refused at 13: Truncated;
    chain of a cut head | chain | #424243440000000011000000003f27424a4242 | \
        Refused(Refusal { place: 17, reason: Truncated }) | 0 sequence-header next 17 previous 0; | refused at 17: Truncated;
    chain of a short offset | chain | #42424344200000000c0000 | \
        Refused(Refusal { place: 5, reason: OffsetShort }) | # | refused at 5: OffsetShort;
    chain of a wrong prefix | chain | #424243450000000011 | \
        Refused(Refusal { place: 0, reason: BadPrefix }) | # | refused at 0: BadPrefix;";

#[test]
fn units_are_printed_or_refused(rt: HostRuntime) -> Result<(), Fail> {
    check_all(&rt, rt.alloc(), ROWS)
}
