// Cuts of cuts, and cuts one behind another.
use crate::hexadecimal::bytes_of;
use crate::runs::{Sinks, WHOLE, run_bytes};
use std::alloc::Global;
use std::process::Abort;
use std::test::Fail;
use vc2_cli::Status;

// Five frames in three sequences, with a repeated header, auxiliary data and padding between them; three frames of fields; and
// a frame of fields before one that is a picture.
const STREAMS: &str = "\
    424243440000000011000000003f27424a42424344c80000001500000011000000070c927007424243441000000000000000154242434400000000110000000d3f27424a42424344c80000001500000011000000000c92700042424344c80000001500000015000000010c927001424243440000000011000000153f27424a42424344200000000f00000011aabb42424344300000000d0000000f42424344c8000000150000000d000000020c927002424243441000000000000000154242434400000000110000000d3f27424a42424344c80000001500000011000000090c92700942424344100000000000000015
    424243440000000012000000003f2f42488042424344c80000001500000012000000040c92700442424344c80000001500000015000000050c92700542424344c80000001500000015000000060c92700642424344c80000001500000015000000070c92700742424344c80000001500000015000000080c92700842424344c80000001500000015000000090c92700942424344100000000000000015
    424243440000000012000000003f2f42488042424344c80000001500000012000000040c92700442424344c80000001500000015000000050c927005424243441000000000000000154242434400000000110000000d3f27424a42424344c80000001500000011000000030c92700342424344100000000000000015";

// A run that is done.
fn check_done(
    rt: &impl Abort,
    alloc: Global,
    words: &str,
    input: &[u8],
    sinks: &mut Sinks,
) -> Result<(), Fail> {
    let status = run_bytes(alloc, words, input, &WHOLE, sinks)?;
    assert_eq!(rt; status, Status::Done, "{words}");
    Ok(())
}

// Of a cut the cut of all frames is itself.
fn check_again(rt: &impl Abort, alloc: Global, words: &str, input: &[u8]) -> Result<(), Fail> {
    let mut once = Sinks::new(alloc, &WHOLE)?;
    check_done(rt, alloc, words, input, &mut once)?;
    let mut again = Sinks::new(alloc, &WHOLE)?;
    let all = "cut from=0 to=4294967295 rate=21/1";
    check_done(rt, alloc, all, once.out.bytes(), &mut again)?;
    assert_eq!(rt; again.out.bytes(), once.out.bytes(), "{words}");
    Ok(())
}

#[test]
fn a_cut_of_all_frames_is_the_cut(rt: HostRuntime) -> Result<(), Fail> {
    for line in STREAMS.lines() {
        let input = bytes_of(rt.alloc(), line.trim_start())?;
        for from in 0..6 {
            for to in from + 1..7 {
                let words = format!(in rt.alloc(); "cut from={from} to={to} rate=21/1")?;
                check_again(&rt, rt.alloc(), words.as_str(), input.as_slice())?;
            }
        }
    }
    Ok(())
}

// The frames before one, and behind them the others, decode to what the stream decodes to.
fn check_joined(rt: &impl Abort, alloc: Global, frame: u32, input: &[u8]) -> Result<(), Fail> {
    let mut cuts = Sinks::new(alloc, &WHOLE)?;
    let before = format!(in alloc; "cut from=0 to={frame} rate=21/1")?;
    check_done(rt, alloc, before.as_str(), input, &mut cuts)?;
    let behind = format!(in alloc; "cut from={frame} to=100 rate=21/1")?;
    check_done(rt, alloc, behind.as_str(), input, &mut cuts)?;
    let mut joined = Sinks::new(alloc, &WHOLE)?;
    check_done(rt, alloc, "decode", cuts.out.bytes(), &mut joined)?;
    let mut whole = Sinks::new(alloc, &WHOLE)?;
    check_done(rt, alloc, "decode", input, &mut whole)?;
    assert_eq!(rt; joined.out.bytes(), whole.out.bytes(), "{before}");
    Ok(())
}

#[test]
fn joined_cuts_decode_to_the_whole(rt: HostRuntime) -> Result<(), Fail> {
    for line in STREAMS.lines() {
        let input = bytes_of(rt.alloc(), line.trim_start())?;
        for frame in 1..7 {
            check_joined(&rt, rt.alloc(), frame, input.as_slice())?;
        }
    }
    Ok(())
}
