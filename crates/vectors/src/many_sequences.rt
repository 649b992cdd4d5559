// A hundred sequences in one stream, of two sizes by turns.
use crate::runs::{Outcome, PICTURE, SMALLEST, WHOLE, check_run};
use std::alloc::{AllocError, Global};
use std::test::Fail;
use vc2_cli::Status;

// A stream of two slices beside each other, whose picture is twice as wide as the smallest one's.
const WIDE: &[u8] = b"BBCD\x00\x00\x00\x00\x11\x00\x00\x00\x00\x3F\x67\x42\x4A\
    BBCD\xC8\x00\x00\x00\x16\x00\x00\x00\x11\x00\x00\x00\x00\x0D\x92\x70\x0A\x03\
    BBCD\x10\x00\x00\x00\x00\x00\x00\x00\x16";

const WIDE_PICTURE: &[u8] = b"\x80\x80\x7A\x7A\x80\x80";

// So many pairs of these parts.
fn pairs(alloc: Global, first: &[u8], second: &[u8], count: usize) -> Result<Vec<u8>, AllocError> {
    let mut bytes = Vec::new(alloc);
    for _ in 0..count {
        bytes.extend_from_slice(first)?;
        bytes.extend_from_slice(second)?;
    }
    Ok(bytes)
}

#[test]
fn a_hundred_sequences(rt: HostRuntime) -> Result<(), Fail> {
    let stream = pairs(rt.alloc(), SMALLEST, WIDE, 50)?;
    let pictures = pairs(rt.alloc(), PICTURE, WIDE_PICTURE, 50)?;
    let outcome = Outcome {
        status: Status::Done,
        out: pictures.as_slice(),
        note: b"pictures 100 bytes 5150\n",
    };
    check_run(
        &rt,
        rt.alloc(),
        "decode",
        stream.as_slice(),
        &WHOLE,
        &outcome,
    )
}
