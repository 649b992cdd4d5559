// What `header` prints of each form of a field, and the longest header and parameters that there are.
use crate::row::check_all;
use std::test::Fail;

const ROWS: &str = "\
    progressive scan | header | #424243440000000011000000003f27e125 | \
        Done | version 1.0 profile 0 level 0 base 0;size 1x1 sampling 4:4:4;scan progressive;rate 25/1;aspect default;clean default;signal 0,255,128,255 depth 8 8;colour default;coding frames; | #
    frame rate index 1 | header | #424243440000000011000000003f274928 | \
        Done | version 1.0 profile 0 level 0 base 0;size 1x1 sampling 4:4:4;scan default;rate 24000/1001;aspect default;clean default;signal 0,255,128,255 depth 8 8;colour default;coding frames; | #
    frame rate index 2 | header | #424243440000000011000000003f275928 | \
        Done | version 1.0 profile 0 level 0 base 0;size 1x1 sampling 4:4:4;scan default;rate 24/1;aspect default;clean default;signal 0,255,128,255 depth 8 8;colour default;coding frames; | #
    frame rate index 3 | header | #424243440000000011000000003f27424a | \
        Done | version 1.0 profile 0 level 0 base 0;size 1x1 sampling 4:4:4;scan default;rate 25/1;aspect default;clean default;signal 0,255,128,255 depth 8 8;colour default;coding frames; | #
    frame rate index 4 | header | #424243440000000011000000003f27464a | \
        Done | version 1.0 profile 0 level 0 base 0;size 1x1 sampling 4:4:4;scan default;rate 30000/1001;aspect default;clean default;signal 0,255,128,255 depth 8 8;colour default;coding frames; | #
    frame rate index 5 | header | #424243440000000011000000003f27524a | \
        Done | version 1.0 profile 0 level 0 base 0;size 1x1 sampling 4:4:4;scan default;rate 30/1;aspect default;clean default;signal 0,255,128,255 depth 8 8;colour default;coding frames; | #
    frame rate index 6 | header | #424243440000000011000000003f27564a | \
        Done | version 1.0 profile 0 level 0 base 0;size 1x1 sampling 4:4:4;scan default;rate 50/1;aspect default;clean default;signal 0,255,128,255 depth 8 8;colour default;coding frames; | #
    frame rate index 7 | header | #424243440000000012000000003f27409280 | \
        Done | version 1.0 profile 0 level 0 base 0;size 1x1 sampling 4:4:4;scan default;rate 60000/1001;aspect default;clean default;signal 0,255,128,255 depth 8 8;colour default;coding frames; | #
    frame rate index 8 | header | #424243440000000012000000003f27419280 | \
        Done | version 1.0 profile 0 level 0 base 0;size 1x1 sampling 4:4:4;scan default;rate 60/1;aspect default;clean default;signal 0,255,128,255 depth 8 8;colour default;coding frames; | #
    signal range index 1 | header | #424243440000000011000000003f27424a | \
        Done | version 1.0 profile 0 level 0 base 0;size 1x1 sampling 4:4:4;scan default;rate 25/1;aspect default;clean default;signal 0,255,128,255 depth 8 8;colour default;coding frames; | #
    signal range index 2 | header | #424243440000000011000000003f27425a | \
        Done | version 1.0 profile 0 level 0 base 0;size 1x1 sampling 4:4:4;scan default;rate 25/1;aspect default;clean default;signal 16,219,128,224 depth 8 8;colour default;coding frames; | #
    signal range index 3 | header | #424243440000000012000000003f27424280 | \
        Done | version 1.0 profile 0 level 0 base 0;size 1x1 sampling 4:4:4;scan default;rate 25/1;aspect default;clean default;signal 64,876,512,896 depth 10 10;colour default;coding frames; | #
    signal range index 4 | header | #424243440000000012000000003f27424680 | \
        Done | version 1.0 profile 0 level 0 base 0;size 1x1 sampling 4:4:4;scan default;rate 25/1;aspect default;clean default;signal 256,3504,2048,3584 depth 12 12;colour default;coding frames; | #
    aspect ratio by its index | header | #424243440000000012000000003f27435a50 | \
        Done | version 1.0 profile 0 level 0 base 0;size 1x1 sampling 4:4:4;scan default;rate 25/1;aspect index 6;clean default;signal 0,255,128,255 depth 8 8;colour default;coding frames; | #
    colour by its index | header | #424243440000000012000000003f27424c30 | \
        Done | version 1.0 profile 0 level 0 base 0;size 1x1 sampling 4:4:4;scan default;rate 25/1;aspect default;clean default;signal 0,255,128,255 depth 8 8;colour index 3;coding frames; | #
    colour of defaults | header | #424243440000000012000000003f27424e20 | \
        Done | version 1.0 profile 0 level 0 base 0;size 1x1 sampling 4:4:4;scan default;rate 25/1;aspect default;clean default;signal 0,255,128,255 depth 8 8;colour custom default default default;coding frames; | #
    sampling 4:2:2 | header | #424243440000000012000000003f66509280 | \
        Done | version 1.0 profile 0 level 0 base 0;size 2x1 sampling 4:2:2;scan default;rate 25/1;aspect default;clean default;signal 0,255,128,255 depth 8 8;colour default;coding frames; | #
    sampling 4:2:0 | header | #424243440000000012000000003f6ed09280 | \
        Done | version 1.0 profile 0 level 0 base 0;size 2x2 sampling 4:2:0;scan default;rate 25/1;aspect default;clean default;signal 0,255,128,255 depth 8 8;colour default;coding frames; | #
    the longest header | header | #424243440000000099000000006000000000000000180000000000000007000000600000ee7000000000000000080000000000000007000000000000000080000000000000006000000000000000100000000000000008000000000000000400000000000000038000000000000000400000002000000000000000100000000f0000000000000000c000000000000000300000000000000009 | \
        Done | version 2.4294967295 profile 0 level 4294967295 base 0;size 8192x2048 sampling 4:2:0;scan interlaced;rate 4294967295/4294967295;aspect 4294967295/4294967295;clean 4294967295 4294967295 4294967295 4294967295;signal 4294967295,65535,4294967295,65535 depth 16 16;colour custom 4294967295 4294967295 4294967295;coding fields; | #
    a stream of the longest header | decode | #424243440000000099000000006000000000000000180000000000000007000000600000ee7000000000000000080000000000000007000000000000000080000000000000006000000000000000100000000000000008000000000000000400000000000000038000000000000000400000002000000000000000100000000f0000000000000000c00000000000000030000000000000000942424344100000000000000099 | \
        Done | # | pictures 0 bytes 166;
    a picture of the longest parameters | decode | #424243440000000011000000003f27424a42424344c80000008e000000110000000018c90000000000000000800000000000000060000000000000001000000000000000080000000000000004000000000000000200000000000000010000000000000000800000000000000040000000000000002000000000000000100000000000000008000000000000000400000000000000020000000000000001014242434410000000000000008e | \
        Done | #808080 | pictures 1 bytes 172;";

#[test]
fn forms_of_fields_are_printed(rt: HostRuntime) -> Result<(), Fail> {
    check_all(&rt, rt.alloc(), ROWS)
}
