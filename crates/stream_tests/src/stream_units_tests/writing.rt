//! Streams that are written, to sinks that take all, single bytes, or fail.

ghost use Rattle.std.specs.Prelude.{◌≡◌, ◌%◌, false, None};
ghost use Rattle.sequence_header.specs.Coding.{IsShapeOf};

use crate::stream_units_tests::reading::assert_same;
use crate::told::bytes_of;
use picture_codec::Picture;
use sequence_header::SequenceHeader;
use std::alloc::Global;
use std::process::Abort;
use std::test::Fail;
use stream_units::{StreamWriter, WriteStop};
use transform_params::TransformParams;
use vc2_io::{MemSink, Sink};

/// The header and the parameters of the smallest stream.
fn settings(rt: &impl Abort) -> (SequenceHeader, TransformParams) {
    let header = SequenceHeader::read(b"\x3F\x27\x42\x4A").ok();
    let params = TransformParams::read(b"\x0C\x92\x70").ok();
    let (header, _) = header.expect(rt, "a header");
    let (params, _) = params.expect(rt, "parameters");
    (header, params)
}

/// Writes two pictures and the end.
fn write_units<K: Sink>(
    writer: &mut StreamWriter,
    picture: &Picture,
    sink: &mut K,
) -> Result<(), WriteStop>
    requires open { writer.old.ended ≡ false }
    requires running { writer.old.stop ≡ None }
    requires shape { IsShapeOf picture.now.shape writer.old.settings.parts }
{
    writer.picture(picture, sink)?;
    writer.picture(picture, sink)?;
    writer.end(sink)
}

/// Writes a stream of the picture, twice. Gives how many units it has, or the first stop.
fn write_twice<K: Sink>(
    alloc: Global,
    header: &SequenceHeader,
    params: &TransformParams,
    picture: &Picture,
    first: u32,
    sink: &mut K,
) -> Result<usize, WriteStop>
    requires shape { IsShapeOf picture.now.shape header.now }
    requires even { header.now.coding ≡ 1 → first % 2 ≡ 0 }
{
    let mut writer = StreamWriter::start(alloc, header, params, first, None, sink)?;
    let done = write_units(&mut writer, picture, sink);
    let units = writer.shapes().len();
    drop(writer);
    match done {
        Ok(()) => Ok(units),
        Err(stop) => Err(stop),
    }
}

/// Writes a stream of two blank pictures from this number on.
fn write_stream<K: Sink>(
    rt: &impl Abort,
    alloc: Global,
    first: u32,
    sink: &mut K,
) -> Result<Result<usize, WriteStop>, Fail> {
    let (header, params) = settings(rt);
    assert!(rt; header.parts().coding != 1 || first % 2 == 0);
    let shape = header.picture_shape();
    let picture = Picture::new(alloc, &shape)?;
    let done = write_twice(alloc, &header, &params, &picture, first, sink);
    drop(picture);
    Ok(done)
}

/// The number of the first picture, and the units, of two blank pictures. At index 28 the one coefficient of such a picture is
/// still 1, at 29 it is 0.
const STREAMS: [(u32, &str); 2] = [
    (
        0,
        "header unit C8 00000015 00000011 00000000 0C92703B unit C8 00000015 00000015 00000001 0C92703B end",
    ),
    (
        u32::MAX,
        "header unit C8 00000015 00000011 FFFFFFFF 0C92703B unit C8 00000015 00000015 00000000 0C92703B end",
    ),
];

/// Writes to a sink whose calls take at most so many bytes where that isn't 0, and of which this one fails; and compares the
/// answer and what went out.
fn expect_write(
    rt: &impl Abort,
    alloc: Global,
    first: u32,
    most: usize,
    call: u64,
    answer: Result<usize, WriteStop>,
    wanted: &[u8],
) -> Result<(), Fail> {
    let mut sink = MemSink::new(alloc, 72, most, &[call, u64::MAX, u64::MAX, u64::MAX])?;
    let found = write_stream(rt, alloc, first, &mut sink)?;
    assert_same(rt, (found, sink.bytes()), (answer, wanted));
    Ok(())
}

#[test]
fn streams_are_written(rt: HostRuntime) -> Result<(), Fail> {
    for (first, units) in &STREAMS {
        let wanted = bytes_of(rt.alloc(), units)?;
        expect_write(
            &rt,
            rt.alloc(),
            *first,
            0,
            u64::MAX,
            Ok(4),
            wanted.as_slice(),
        )?;
    }
    Ok(())
}

const FAULT: Result<usize, WriteStop> = Err(WriteStop::OutFault);

/// Each call of one byte fails in turn.
fn expect_bytes(rt: &impl Abort, alloc: Global, wanted: &[u8]) -> Result<(), Fail> {
    for call in 0..wanted.len() {
        expect_write(rt, alloc, 0, 1, call as u64, FAULT, &wanted[..call])?;
    }
    Ok(())
}

/// Each call of a whole unit fails in turn, behind so many bytes.
fn expect_wholes(rt: &impl Abort, alloc: Global, wanted: &[u8]) -> Result<(), Fail> {
    for (call, written) in [0, 17, 38, 59].iter().enumerate() {
        assert!(rt; *written <= wanted.len());
        expect_write(rt, alloc, 0, 0, call as u64, FAULT, &wanted[..*written])?;
    }
    Ok(())
}

#[test]
fn each_call_of_the_sink_fails_in_turn(rt: HostRuntime) -> Result<(), Fail> {
    let wanted = bytes_of(rt.alloc(), STREAMS[0].1)?;
    expect_bytes(&rt, rt.alloc(), wanted.as_slice())?;
    expect_wholes(&rt, rt.alloc(), wanted.as_slice())
}
