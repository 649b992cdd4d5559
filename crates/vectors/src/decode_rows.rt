// What `decode` writes and `check` counts of streams, and how they refuse them.
use crate::row::check_all;
use std::test::Fail;

const ROWS: &str = "\
    decode of the smallest stream | decode | #424243440000000011000000003f27424a42424344c80000001500000011000000000c92700142424344100000000000000015 | \
        Done | #808080 | pictures 1 bytes 51;
    check of the smallest stream | check | #424243440000000011000000003f27424a42424344c80000001500000011000000000c92700142424344100000000000000015 | \
        Done | accepted pictures 1 slices 1 bytes 51; | #
    decode a slice byte of all zero bits | decode | #424243440000000011000000003f27424a42424344c80000001500000011000000000c92700042424344100000000000000015 | \
        Done | #807e80 | pictures 1 bytes 51;
    decode a clipped coefficient at index 127 | decode | #424243440000000011000000003f27424a42424344c80000001500000011000000000c9270fe42424344100000000000000015 | \
        Done | #800080 | pictures 1 bytes 51;
    decode the stream of two predicted slices | decode | #424243440000000011000000003f67424a42424344c80000001600000011000000000d92700a0342424344100000000000000016 | \
        Done | #80807a7a8080 | pictures 1 bytes 52;
    decode the LeGall level without loss | decode | #424243440000000011000000003f6f424a42424344c80000001a000000110000000024949f8000d0a4126d4242434410000000000000001a | \
        Done | #8b8c888a8080808080808080 | pictures 1 bytes 56;
    decode the LeGall level in four bytes | decode | #424243440000000011000000003f6f424a42424344c800000019000000110000000024919f800744627242424344100000000000000019 | \
        Done | #8c8c898b8080808080808080 | pictures 1 bytes 55;
    picture numbers wrap | check | #424243440000000011000000003f27424a42424344c80000001500000011ffffffff0c92700142424344c80000001500000015000000000c92700142424344100000000000000015 | \
        Done | accepted pictures 2 slices 2 bytes 72; | #
    picture numbers wrap, decode | decode | #424243440000000011000000003f27424a42424344c80000001500000011ffffffff0c92700142424344c80000001500000015000000000c92700142424344100000000000000015 | \
        Done | #808080808080 | pictures 2 bytes 72;
    next offsets of 0, decode | decode | #424243440000000000000000003f27424a42424344c80000000000000011000000000c92700142424344100000000000000015 | \
        Done | #808080 | pictures 1 bytes 51;
    high quality picture code, decode | decode | #424243440000000011000000003f27424a42424344e80000001500000011000000000c92700142424344100000000000000015 | \
        Refused(Refusal { place: 21, reason: UnsupportedCode(232) }) | # | refused at 21: UnsupportedCode E8;
    luma length past the slice's end in the second picture | decode | #424243440000000011000000003f27424a42424344c80000001600000011000000000c9670001f42424344c80000001600000016000000010c967000df | \
        Refused(Refusal { place: 59, reason: LumaLengthTooLong }) | #808080 | refused at 59: LumaLengthTooLong;
    coefficient past 2^36 | decode | #424243440000000011000000003f27424a42424344c80000001700000011000000000c909cfe0000 | \
        Refused(Refusal { place: 37, reason: CoefficientTooLarge }) | # | refused at 37: CoefficientTooLarge;
    picture number repeated | decode | #424243440000000011000000003f27424a42424344c80000001500000011000000050c92700142424344c80000001500000015000000050c92700142424344100000000000000015 | \
        Refused(Refusal { place: 51, reason: PictureNumberWrong }) | #808080 | refused at 51: PictureNumberWrong;
    wrong next offset of the header | decode | #424243440000000010000000003f27424a42424344c80000001500000011000000000c92700142424344100000000000000015 | \
        Refused(Refusal { place: 5, reason: OffsetWrong }) | # | refused at 5: OffsetWrong;
    wrong previous offset of the picture | decode | #424243440000000011000000003f27424a42424344c80000001500000010000000000c92700142424344100000000000000015 | \
        Refused(Refusal { place: 26, reason: PreviousWrong }) | # | refused at 26: PreviousWrong;
    a byte after a sequence | decode | #424243440000000011000000003f27424a42424344c80000001500000011000000000c9270014242434410000000000000001500 | \
        Refused(Refusal { place: 51, reason: Truncated }) | #808080 | refused at 51: Truncated;
    decode of a picture head cut short | decode | #424243440000000011000000003f27424a4242 | \
        Refused(Refusal { place: 17, reason: Truncated }) | # | refused at 17: Truncated;
    empty input to decode | decode | # | Refused(Refusal { place: 0, reason: Truncated }) | # | refused at 0: Truncated;
    repeated header that differs | decode | #424243440000000011000000003f27424a424243440000000011000000113f27424b | \
        Refused(Refusal { place: 30, reason: HeaderDiffers }) | # | refused at 30: HeaderDiffers;
    number too large, decode | decode | #424243440000000011000000003f000000000000000000 | \
        Refused(Refusal { place: 14, reason: NumberTooLarge }) | # | refused at 14: NumberTooLarge;
    number cut short, decode | decode | #424243440000000011000000003f0000000000000000 | \
        Refused(Refusal { place: 14, reason: Truncated }) | # | refused at 14: Truncated;
    default size, decode | decode | #424243440000000011000000003e27424a42424344c80000001500000011000000000c92700142424344100000000000000015 | \
        Refused(Refusal { place: 13, reason: DefaultTaken(Size) }) | # | refused at 13: DefaultTaken size;
    size of 8192 by 8192 | decode | #424243440000000011000000003f0000006000000c | \
        Refused(Refusal { place: 17, reason: SizeRefused }) | # | refused at 17: SizeRefused;
    share of 2^32 - 1 bytes | decode | #424243440000000011000000003f27424a42424344c80000001500000011000000000c900000000000000009 | \
        Refused(Refusal { place: 43, reason: ShareRefused }) | # | refused at 43: ShareRefused;
    padding of 2^32 - 1 bytes | decode | #424243440000000011000000003f27424a4242434430ffffffff00000011 | \
        Refused(Refusal { place: 30, reason: Truncated }) | # | refused at 30: Truncated;
    wavelet 0 | decode | #424243440000000011000000003f27424a42424344c80000001500000011000000008092700142424344100000000000000015 | \
        Refused(Refusal { place: 34, reason: WaveletRefused(0) }) | # | refused at 34: WaveletRefused 0;
    default matrix | decode | #424243440000000011000000003f27424a42424344c80000001500000011000000000c92500142424344100000000000000015 | \
        Refused(Refusal { place: 36, reason: DefaultMatrix }) | # | refused at 36: DefaultMatrix;";

#[test]
fn streams_are_decoded_or_refused(rt: HostRuntime) -> Result<(), Fail> {
    check_all(&rt, rt.alloc(), ROWS)
}
