// Streams with a long unit that is skipped.
use crate::runs::{Ends, Outcome, PICTURE, WHOLE, check_run, check_source};
use std::alloc::{AllocError, Global};
use std::process::Abort;
use std::test::Fail;
use vc2_cli::Status;
use vc2_io::{MemSource, fill};

// The parts of streams with a million zeros between them: an auxiliary unit before the picture, and one behind it.
const BEFORE: (&[u8], &[u8]) = (
    b"BBCD\x00\x00\x00\x00\x11\x00\x00\x00\x00\x3F\x27\x42\x4A\
    BBCD\x20\x00\x0F\x42\x4D\x00\x00\x00\x11",
    b"BBCD\xC8\x00\x00\x00\x15\x00\x0F\x42\x4D\x00\x00\x00\x00\x0C\x92\x70\x01\
    BBCD\x10\x00\x00\x00\x00\x00\x00\x00\x15",
);

const BEHIND: (&[u8], &[u8]) = (
    b"BBCD\x00\x00\x00\x00\x11\x00\x00\x00\x00\x3F\x27\x42\x4A\
    BBCD\xC8\x00\x00\x00\x15\x00\x00\x00\x11\x00\x00\x00\x00\x0C\x92\x70\x01\
    BBCD\x20\x00\x0F\x42\x4D\x00\x00\x00\x15",
    b"BBCD\x10\x00\x00\x00\x00\x00\x0F\x42\x4D",
);

fn long_stream(alloc: Global, parts: (&[u8], &[u8])) -> Result<Vec<u8>, AllocError> {
    let (head, tail) = parts;
    let mut bytes = Vec::new(alloc);
    bytes.extend_from_slice(head)?;
    for _ in 0..1000 {
        bytes.extend_from_slice(&[0; 1000])?;
    }
    bytes.extend_from_slice(tail)?;
    Ok(bytes)
}

fn check_decoded(rt: &impl Abort, alloc: Global, parts: (&[u8], &[u8])) -> Result<(), Fail> {
    let input = long_stream(alloc, parts)?;
    let outcome = Outcome {
        status: Status::Done,
        out: PICTURE,
        note: b"pictures 1 bytes 1000064\n",
    };
    check_run(rt, alloc, "decode", input.as_slice(), &WHOLE, &outcome)
}

#[test]
fn long_units_are_skipped(rt: HostRuntime) -> Result<(), Fail> {
    check_decoded(&rt, rt.alloc(), BEFORE)?;
    check_decoded(&rt, rt.alloc(), BEHIND)
}

// Asserts that a source has so many bytes left, or more.
fn assert_left(
    rt: &impl Abort,
    alloc: Global,
    src: &mut MemSource,
    least: usize,
) -> Result<(), Fail> {
    let mut left = vec![in alloc; 0; 1000064]?;
    let count = fill(src, left.as_mut_slice())?;
    assert!(rt; count >= least, "{count} bytes were left");
    Ok(())
}

// The picture's write fails, and at most 4096 bytes were read behind its unit of 38 bytes.
#[test]
fn a_failed_write_ends_the_reading(rt: HostRuntime) -> Result<(), Fail> {
    let input = long_stream(rt.alloc(), BEHIND)?;
    let mut src = MemSource::new(input.as_slice(), &[], &[]);
    let ends = Ends { out: 0, ..WHOLE };
    let outcome = Outcome {
        status: Status::OutFault,
        out: b"",
        note: b"",
    };
    check_source(&rt, rt.alloc(), "decode", &mut src, &ends, &outcome)?;
    assert_left(&rt, rt.alloc(), &mut src, 995931)
}
