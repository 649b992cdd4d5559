// Streams of an independent writer, decoded.
use crate::hexadecimal::checksum;
use crate::runs::{BY_BYTES, Ends, Sinks, WHOLE, run_digits};
use crate::stream_bytes::{
    DEPTH_ZERO, FIELDS_420, FRACTIONAL_SHARES_420, HAAR_FLAT_444_12BIT, ONE_FRAME_LEGALL_422,
    RANDOM_SLICES, TINY_SHARES,
};
use std::alloc::Global;
use std::process::Abort;
use std::test::Fail;
use vc2_cli::Status;

// A stream in hexadecimal, what is noted of it, and its raw video as an independent writer has it: how many bytes, and a
// checksum of them. The checksums were taken of bytes whose SHA-256 digests are the writer's.
type Stream<'a> = (&'a str, &'a [u8], usize, u64);

const STREAMS: [Stream<'static>; 7] = [
    (
        ONE_FRAME_LEGALL_422,
        b"pictures 2 bytes 3927\n",
        24576,
        0xEB34_F273_EA6B_FF02,
    ),
    (
        FRACTIONAL_SHARES_420,
        b"pictures 3 bytes 1323\n",
        8550,
        0xB6A0_8509_D1A2_4D7B,
    ),
    (
        HAAR_FLAT_444_12BIT,
        b"pictures 2 bytes 952\n",
        12876,
        0xE688_7BF6_93C6_7948,
    ),
    (
        FIELDS_420,
        b"pictures 4 bytes 2045\n",
        5760,
        0x0FE3_DC38_0A9D_A91D,
    ),
    (
        DEPTH_ZERO,
        b"pictures 2 bytes 2474\n",
        2304,
        0xF802_3FFE_48AB_2985,
    ),
    (
        TINY_SHARES,
        b"pictures 2 bytes 930\n",
        6144,
        0x0DC0_7C24_23C6_5562,
    ),
    (
        RANDOM_SLICES,
        b"pictures 3 bytes 2376\n",
        18216,
        0xF9F0_6759_7117_9B8C,
    ),
];

fn check_stream(rt: &impl Abort, alloc: Global, ends: &Ends, stream: &Stream) -> Result<(), Fail> {
    let (digits, note, raw_bytes, raw_checksum) = *stream;
    let mut sinks = Sinks::new(alloc, ends)?;
    let status = run_digits(alloc, "decode", digits, ends, &mut sinks)?;
    let raw = sinks.out.bytes();
    assert_eq!(rt;
        (status, sinks.note.bytes(), raw.len(), checksum(raw)),
        (Status::Done, note, raw_bytes, raw_checksum)
    );
    Ok(())
}

// The streams whole, and with one byte a read.
fn check_streams(rt: &impl Abort, alloc: Global, streams: &[Stream]) -> Result<(), Fail> {
    for stream in streams {
        check_stream(rt, alloc, &WHOLE, stream)?;
        check_stream(rt, alloc, &BY_BYTES, stream)?;
    }
    Ok(())
}

#[test]
fn streams_are_decoded(rt: HostRuntime) -> Result<(), Fail> {
    check_streams(&rt, rt.alloc(), &STREAMS)
}
