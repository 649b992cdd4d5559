//! Frames that are cut out of streams, and units that are skimmed.
//!
//! Owners are dropped by name, since the proof of that call is short.

use crate::stream_units_tests::reading::assert_same;
use crate::told::bytes_of;
use std::alloc::{AllocError, Global};
use std::process::Abort;
use stream_cut::{CutStop, Cutter, SkimItem, SkimReader};
use stream_units::{ReadStop, Refusal};
use vc2_io::{MemSink, MemSource};

/// The first and the last frame but one, where the input is refused, the input, and its cut. One of two frames and none of them;
/// frames of three sequences, between a repeated header, auxiliary data and padding; fields; a single field before the input
/// ends, and half a frame; an end that stands since a byte follows, and the same where nothing is chosen; a first sequence
/// without pictures; a slice that breaks a rule, a slice that is cut off, and a wrong next offset.
const CUTS: &str = "\
1 2 whole = header unit C8 00000015 00000011 000000000C927001 unit C8 00000015 00000015 000000010C927000 unit 10 \
    00000000 00000015 = header unit C8 00000015 00000011 000000010C927000 unit 10 00000000 00000015
5 9 whole = header unit C8 00000015 00000011 000000000C927001 unit C8 00000015 00000015 000000010C927000 unit 10 \
    00000000 00000015 = header unit 10 00000000 00000011
2 5 whole = header unit C8 00000015 00000011 000000070C927007 unit 10 00000000 00000015 unit 00 00000011 0000000D \
    3F27424A unit C8 00000015 00000011 000000000C927000 unit C8 00000015 00000015 000000010C927001 unit 00 00000011 \
    00000015 3F27424A unit 20 0000000F 00000011 AABB unit 30 0000000D 0000000F unit C8 00000015 0000000D \
    000000020C927002 unit 10 00000000 00000015 unit 00 00000011 0000000D 3F27424A unit C8 00000015 00000011 \
    000000090C927009 unit 10 00000000 00000015 = header unit C8 00000015 00000011 000000010C927001 unit C8 00000015 \
    00000015 000000020C927002 unit 10 00000000 00000015 header unit C8 00000015 00000011 000000090C927009 unit 10 \
    00000000 00000015
1 2 whole = header unit C8 00000015 00000011 000000070C927007 unit 10 00000000 00000015 unit 00 00000011 0000000D \
    3F27424A unit C8 00000015 00000011 000000000C927000 unit C8 00000015 00000015 000000010C927001 unit 00 00000011 \
    00000015 3F27424A unit 20 0000000F 00000011 AABB unit 30 0000000D 0000000F unit C8 00000015 0000000D \
    000000020C927002 unit 10 00000000 00000015 unit 00 00000011 0000000D 3F27424A unit C8 00000015 00000011 \
    000000090C927009 unit 10 00000000 00000015 = header unit C8 00000015 00000011 000000000C927000 unit 10 00000000 \
    00000015
0 2 whole = header unit C8 00000015 00000011 000000070C927007 unit 10 00000000 00000015 unit 00 00000011 0000000D \
    3F27424A unit C8 00000015 00000011 000000000C927000 unit C8 00000015 00000015 000000010C927001 unit 00 00000011 \
    00000015 3F27424A unit 20 0000000F 00000011 AABB unit 30 0000000D 0000000F unit C8 00000015 0000000D \
    000000020C927002 unit 10 00000000 00000015 unit 00 00000011 0000000D 3F27424A unit C8 00000015 00000011 \
    000000090C927009 unit 10 00000000 00000015 = header unit C8 00000015 00000011 000000070C927007 unit 10 00000000 \
    00000015 header unit C8 00000015 00000011 000000000C927000 unit 10 00000000 00000015
1 2 whole = fields unit C8 00000015 00000012 000000040C927004 unit C8 00000015 00000015 000000050C927005 unit C8 \
    00000015 00000015 000000060C927006 unit C8 00000015 00000015 000000070C927007 unit C8 00000015 00000015 \
    000000080C927008 unit C8 00000015 00000015 000000090C927009 unit 10 00000000 00000015 = fields unit C8 00000015 \
    00000012 000000060C927006 unit C8 00000015 00000015 000000070C927007 unit 10 00000000 00000015
1 2 whole = fields unit C8 00000015 00000012 000000040C927004 unit C8 00000015 00000015 000000050C927005 unit 10 \
    00000000 00000015 unit 00 00000011 0000000D 3F27424A unit C8 00000015 00000011 000000030C927003 unit 10 00000000 \
    00000015 = header unit C8 00000015 00000011 000000030C927003 unit 10 00000000 00000015
1 9 81 = fields unit C8 00000015 00000012 000000040C927004 unit C8 00000015 00000015 000000050C927005 unit C8 \
    00000015 00000015 000000060C927006 = fields unit C8 00000015 00000012 000000060C927006
0 1 43 = fields unit C8 00000015 00000012 000000040C927004 unit 10 00000000 00000015 = fields unit C8 00000015 \
    00000012 000000040C927004
0 9 72 = header unit C8 00000015 00000011 000000000C927001 unit C8 00000015 00000015 000000010C927000 unit 10 \
    00000000 00000015 42 = header unit C8 00000015 00000011 000000000C927001 unit C8 00000015 00000015 \
    000000010C927000 unit 10 00000000 00000015
7 9 72 = header unit C8 00000015 00000011 000000000C927001 unit C8 00000015 00000015 000000010C927000 unit 10 \
    00000000 00000015 42 = nothing
5 9 whole = header unit 10 00000000 00000011 unit 00 00000011 0000000D 3F27424A unit C8 00000015 00000011 \
    000000030C927003 unit 10 00000000 00000015 = header unit 10 00000000 00000011
0 1 40 = header unit C8 00000017 00000011 000000000C909CFE0000 = header unit C8 00000017 00000011 \
    000000000C909CFE0000
0 1 37 = header unit C8 00000017 00000011 000000000C909CFE00 = nothing
0 1 22 = header unit C8 00000018 00000011 000000000C909CFE0000 = nothing";

/// Where a cut is refused; none where the input was read whole.
fn place_of(cut: Result<(), CutStop>) -> Option<u64> {
    match cut {
        Ok(()) => None,
        Err(CutStop::Refused(refusal)) => Some(refusal.place),
        Err(_) => Some(u64::MAX),
    }
}

/// Where a cut of an input is refused, and how many bytes its units have.
fn cut(
    rt: &impl Abort,
    alloc: Global,
    from: u32,
    to: u32,
    src: &mut MemSource,
    out: &mut MemSink,
) -> (Option<u64>, u64) {
    assert!(rt; from < to);
    let mut cutter = Cutter::new(alloc, from, to).expect(rt, "memory");
    let refused = place_of(cutter.cut(src, out));
    let total = cutter.shapes().total();
    drop(cutter);
    (refused, total)
}

/// Reads the input in pieces.
fn expect_bytes(
    rt: &impl Abort,
    alloc: Global,
    asked: &str,
    input: &[u8],
    wanted: &[u8],
    piece: usize,
) {
    let (from, others) = asked.split_once(' ').unwrap_or(("", ""));
    let (to, place) = others.split_once(' ').unwrap_or(("", ""));
    let (from, to) = (from.parse().unwrap_or(0), to.parse().unwrap_or(0));
    let pieces = [piece; 512];
    let mut src = MemSource::new(input, &pieces, &[]);
    let mut out = MemSink::new(alloc, 4096, 0, &[u64::MAX; 4]).expect(rt, "memory");
    let (refused, total) = cut(rt, alloc, from, to, &mut src, &mut out);
    assert_same(rt, refused, place.parse().ok());
    assert_same(rt, out.bytes(), wanted);
    drop(out);
    if refused.is_none() {
        assert_same(rt, total, wanted.len() as u64);
    }
}

fn expect_cut(rt: &impl Abort, alloc: Global, row: &str, piece: usize) {
    let (asked, texts) = row.split_once(" = ").expect(rt, "a row");
    let (input, wanted) = texts.split_once(" = ").expect(rt, "a row");
    let input = bytes_of(alloc, input).expect(rt, "memory");
    let wanted = bytes_of(alloc, wanted).expect(rt, "memory");
    expect_bytes(rt, alloc, asked, input.as_slice(), wanted.as_slice(), piece);
    drop(input);
    drop(wanted);
}

#[test]
fn cuts(rt: HostRuntime) {
    for row in CUTS.split('\n') {
        for piece in [0, 1, 7] {
            expect_cut(&rt, rt.alloc(), row, piece);
        }
    }
}

/// What a reader of skimmed units answers: of each answer the item, the bytes of the unit that it keeps, whether it has a header,
/// and where the last picture starts, with its bytes before the slices, its slices, and how many bytes these have on average. A
/// header that stands once more, data that is skipped, two sequences, a slice that breaks a rule, and a wrong prefix.
const SKIMS: &str = "\
header picture end = Sequence 17 true 0 0 0 1/1, Picture 21 true 17 20 1 1/1, End 21 true 17 20 1 1/1,
header unit 00 00000011 00000011 3F27424A unit 20 0000000F 00000011 AABB unit C8 00000015 0000000F 000000000C927001 \
    unit 10 00000000 00000015 header end = Sequence 17 true 0 0 0 1/1, Repeated 17 true 0 0 0 1/1, \
    Skipped 17 true 0 0 0 1/1, Picture 21 true 49 20 1 1/1, SequenceEnd 21 true 49 20 1 1/1, \
    Sequence 17 true 49 20 1 1/1, 109 PreviousWrong
header unit C8 00000017 00000011 000000000C909CFE0000 end = Sequence 17 true 0 0 0 1/1, \
    Picture 23 true 17 20 1 3/1, 49 PreviousWrong
42 = 0 Truncated
42424345 = 0 BadPrefix";

/// Tells an answer, and whether another may follow.
fn tell_skim(
    text: &mut String,
    answer: Result<SkimItem, ReadStop>,
    reader: &SkimReader,
) -> Result<bool, AllocError> {
    match answer {
        Ok(item) => {
            let (unit, shape) = (reader.unit().len(), reader.shape());
            write!(text, " {item:?} {unit} {}", reader.header().is_some())?;
            write!(
                text,
                " {} {} {} {}/{},",
                shape.start, shape.head, shape.slices, shape.a, shape.b
            )?;
            Ok(item != SkimItem::End)
        }
        Err(ReadStop::Refused(Refusal { place, reason })) => {
            write!(text, " {place} {reason:?}")?;
            Ok(false)
        }
        Err(stop) => {
            write!(text, " {stop:?}")?;
            Ok(false)
        }
    }
}

/// Tells up to the end or a stop, nine answers at most.
fn tell_skims(
    text: &mut String,
    reader: &mut SkimReader,
    src: &mut MemSource,
) -> Result<(), AllocError> {
    for _ in 0..9 {
        let answer = reader.next(src);
        if !tell_skim(text, answer, reader)? {
            break;
        }
    }
    Ok(())
}

fn expect_skims(rt: &impl Abort, alloc: Global, row: &str, piece: usize) {
    let (words, wanted) = row.split_once(" =").expect(rt, "a row");
    let input = bytes_of(alloc, words).expect(rt, "memory");
    let pieces = [piece; 512];
    let mut src = MemSource::new(input.as_slice(), &pieces, &[]);
    let mut text = String::new(alloc);
    let mut reader = SkimReader::new(alloc).expect(rt, "memory");
    let done = tell_skims(&mut text, &mut reader, &mut src);
    drop(reader);
    assert!(rt; done.is_ok());
    assert_same(rt, text.as_str(), wanted);
    drop(text);
    drop(input);
}

#[test]
fn skims(rt: HostRuntime) {
    for row in SKIMS.lines() {
        for piece in [0, 1, 7] {
            expect_skims(&rt, rt.alloc(), row, piece);
        }
    }
}
