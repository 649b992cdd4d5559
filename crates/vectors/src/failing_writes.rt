// Runs in which a write fails, one byte a call: each write of the output and of the note, one at a time, of each command.
use crate::row::check_rows;
use crate::runs::{Ends, Outcome, PICTURE, SLOW, SMALLEST, Sinks, WHOLE, check_run, run_bytes};
use std::alloc::Global;
use std::process::Abort;
use std::test::Fail;
use vc2_cli::Status;

// Where a write of the output fails, what came before it is written.
fn check_out(
    rt: &impl Abort,
    alloc: Global,
    words: &str,
    input: &[u8],
    out: &[u8],
) -> Result<(), Fail> {
    for call in 0..out.len() {
        let ends = Ends {
            out: call as u64,
            ..SLOW
        };
        let outcome = Outcome {
            status: Status::OutFault,
            out: &out[..call],
            note: b"",
        };
        check_run(rt, alloc, words, input, &ends, &outcome)?;
    }
    Ok(())
}

// Where a write of the note fails, the output is written, and what came before it of the note.
fn check_note(
    rt: &impl Abort,
    alloc: Global,
    words: &str,
    input: &[u8],
    out: &[u8],
    note: &[u8],
) -> Result<(), Fail> {
    for call in 0..note.len() {
        let ends = Ends {
            note: call as u64,
            ..SLOW
        };
        let outcome = Outcome {
            status: Status::NoteFault,
            out,
            note: &note[..call],
        };
        check_run(rt, alloc, words, input, &ends, &outcome)?;
    }
    Ok(())
}

// The calls behind the last ones of both sinks aren't made.
fn check_behind(
    rt: &impl Abort,
    alloc: Global,
    words: &str,
    input: &[u8],
    outcome: &Outcome,
) -> Result<(), Fail> {
    let ends = Ends {
        out: outcome.out.len() as u64,
        note: outcome.note.len() as u64,
        ..SLOW
    };
    check_run(rt, alloc, words, input, &ends, outcome)
}

// What such a run comes to where no call fails is a row of `failing_reads`.
fn check_writes(rt: &impl Abort, alloc: Global, words: &str, input: &[u8]) -> Result<(), Fail> {
    let mut sinks = Sinks::new(alloc, &SLOW)?;
    let status = run_bytes(alloc, words, input, &SLOW, &mut sinks)?;
    let out = sinks.out.bytes();
    let note = sinks.note.bytes();
    check_out(rt, alloc, words, input, out)?;
    check_note(rt, alloc, words, input, out, note)?;
    check_behind(rt, alloc, words, input, &Outcome { status, out, note })
}

const WEAVE: &str = "weave size=1x2 sampling=444 signal=1 order=top";

const SPLIT: &str = "split size=1x2 sampling=444 signal=1 order=top";

#[test]
fn each_write_may_fail(rt: HostRuntime) -> Result<(), Fail> {
    check_writes(&rt, rt.alloc(), "decode", SMALLEST)?;
    check_writes(&rt, rt.alloc(), "encode ..", PICTURE)?;
    check_writes(&rt, rt.alloc(), "chain", SMALLEST)?;
    check_writes(&rt, rt.alloc(), "header", SMALLEST)?;
    check_writes(&rt, rt.alloc(), "frames order=top", SMALLEST)?;
    check_writes(&rt, rt.alloc(), "proxy level=0", SMALLEST)?;
    check_writes(&rt, rt.alloc(), "proxy level=4", SMALLEST)?;
    check_writes(&rt, rt.alloc(), "cut from=0 to=1 rate=21/1", SMALLEST)?;
    check_writes(&rt, rt.alloc(), "cut from=1 to=2 rate=21/1", SMALLEST)?;
    check_writes(&rt, rt.alloc(), WEAVE, b"\x01\x02\x03\x04\x05\x06")?;
    check_writes(&rt, rt.alloc(), SPLIT, b"\x01\x02\x03\x04\x05\x06")?;
    check_writes(&rt, rt.alloc(), "trial .. seed=0 pictures=1", b"")
}

// The number of a read and of a write that both fail, and a run in which the write is due first.
const DUE: [(u64, u64, &str); 6] = [
    (
        0,
        0,
        "the first unit | encode .. | #808080 | OutFault | # | #",
    ),
    (
        3,
        17,
        "a picture's unit | encode .. | #808080 | OutFault | #424243440000000011000000003f27424a | #",
    ),
    (
        6,
        0,
        "a frame of two fields | weave size=1x2 sampling=444 signal=1 order=top | #010203040506 | OutFault | # | #",
    ),
    (
        6,
        0,
        "the fields of a frame | split size=1x2 sampling=444 signal=1 order=top | #010203040506 | OutFault | # | #",
    ),
    (
        60,
        0,
        "a frame of a stream | frames order=top | #424243440000000012000000003f2f42488042424344c80000001500000012000000000c92700142424344c80000001500000015000000010c92700042424344100000000000000015 | OutFault | # | #",
    ),
    (
        43,
        0,
        "a proxy | proxy level=0 | #424243440000000011000000003f6f424a42424344c80000001a000000110000000024949f8000d0a4126d4242434410000000000000001a | OutFault | # | #",
    ),
];

// What is due goes out before the next read: where its first write fails, so would that read.
#[test]
fn writes_come_before_the_next_read(rt: HostRuntime) -> Result<(), Fail> {
    for (read, out, row) in DUE {
        let ends = Ends { read, out, ..SLOW };
        check_rows(&rt, rt.alloc(), &ends, row)?;
    }
    Ok(())
}

#[test]
fn writes_of_many_bytes_may_fail(rt: HostRuntime) -> Result<(), Fail> {
    let sixth = Ends {
        most: 7,
        out: 5,
        ..WHOLE
    };
    let row =
        "seven bytes a write | chain | #424243440000000011000000003f27424a42424344c80000001500000011000000000c92700142424344100000000000000015 | \
        OutFault | 0 sequence-header next 17 previous  | #";
    check_rows(&rt, rt.alloc(), &sixth, row)?;
    let note = Ends { note: 0, ..WHOLE };
    let row =
        "the note of chain | chain | #424243440000000011000000003f27424a4242 | NoteFault | 0 sequence-header next 17 previous 0; | #";
    check_rows(&rt, rt.alloc(), &note, row)
}
