// What `header` prints of a first unit, and how it refuses one.
use crate::row::check_all;
use std::test::Fail;

const ROWS: &str = "\
    header of the smallest stream | header | #424243440000000011000000003f27424a42424344c80000001500000011000000000c92700142424344100000000000000015 | \
        Done | version 1.0 profile 0 level 0 base 0;size 1x1 sampling 4:4:4;scan default;rate 25/1;aspect default;clean default;signal 0,255,128,255 depth 8 8;colour default;coding frames; | #
    header with every field carried | header | #424243440000000017000000007f2f9d9c997f0b0f2848 | \
        Done | version 2.0 profile 0 level 0 base 0;size 1x2 sampling 4:4:4;scan interlaced;rate 2/1;aspect 1/1;clean 1 2 0 0;signal 0,3,2,3 depth 2 2;colour custom 1 default 3;coding fields; | #
    number too large, header | header | #424243440000000011000000003f000000000000000000 | \
        Refused(Refusal { place: 14, reason: NumberTooLarge }) | # | refused at 14: NumberTooLarge;
    number cut short, header | header | #424243440000000011000000003f0000000000000000 | \
        Refused(Refusal { place: 14, reason: Truncated }) | # | refused at 14: Truncated;
    default size, header | header | #424243440000000011000000003e27424a42424344c80000001500000011000000000c92700142424344100000000000000015 | \
        Refused(Refusal { place: 13, reason: DefaultTaken(Size) }) | # | refused at 13: DefaultTaken size;
    header without the header unit | header | #42424344c80000001500000011000000000c92700142424344100000000000000015 | \
        Refused(Refusal { place: 4, reason: NoSequenceHeader }) | # | refused at 4: NoSequenceHeader;
    header with a wrong next offset | header | #424243440000000010000000003f27424a42424344c80000001500000011000000000c92700142424344100000000000000015 | \
        Refused(Refusal { place: 5, reason: OffsetWrong }) | # | refused at 5: OffsetWrong;
    header with major version 0 | header | #42424344000000001100000000bf27424a42424344c80000001500000011000000000c92700142424344100000000000000015 | \
        Refused(Refusal { place: 13, reason: VersionRefused }) | # | refused at 13: VersionRefused;
    header of an end unit's first bytes | header | #4242434410 | \
        Refused(Refusal { place: 4, reason: NoSequenceHeader }) | # | refused at 4: NoSequenceHeader;";

#[test]
fn headers_are_printed_or_refused(rt: HostRuntime) -> Result<(), Fail> {
    check_all(&rt, rt.alloc(), ROWS)
}
