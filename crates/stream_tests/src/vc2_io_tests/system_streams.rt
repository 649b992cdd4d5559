//! Sources and sinks over real streams.

use crate::stream_units_tests::reading::assert_same;
use std::fs;
use std::fs::File;
use std::process::Abort;
use std::test::Fail;
use vc2_io::{Failed, Sink, Source, StdSink, StdSource, fill, write_whole};

/// Asserts that the next bytes that fill a buffer are these.
fn assert_filled<S: Source>(rt: &impl Abort, source: &mut S, buffer: &mut [u8], bytes: &[u8]) {
    assert!(rt; bytes.len() <= buffer.len());
    assert_same(rt, fill(source, buffer), Ok(bytes.len()));
    assert_same(rt, &buffer[..bytes.len()], bytes);
}

/// Asserts that a source gives these bytes, and then its end.
fn assert_some_bytes<S: Source>(rt: &impl Abort, source: &mut S) {
    assert_filled(rt, source, &mut [0; 4], b"some");
    assert_filled(rt, source, &mut [0; 9], b" bytes");
    assert_same(rt, source.read(&mut [0; 9]), Ok(0));
}

#[test]
fn std_source_reads_a_file(rt: HostRuntime) -> Result<(), Fail> {
    fs::write(&rt, "source", b"some bytes".as_slice())?;
    assert_some_bytes(&rt, &mut StdSource::new(File::open(&rt, "source")?));
    fs::remove_file(&rt, "source")?;
    let unread = StdSource::new(File::create(&rt, "unread")?).read(&mut [0; 9]);
    assert_same(&rt, unread, Err(Failed));
    fs::remove_file(&rt, "unread")?;
    Ok(())
}

/// Asserts that a sink takes the same bytes in two pieces.
fn assert_takes_some_bytes<K: Sink>(rt: &impl Abort, sink: &mut K) {
    assert_same(rt, write_whole(sink, b"some "), Ok(()));
    assert_same(rt, write_whole(sink, b"bytes"), Ok(()));
}

#[test]
fn std_sink_writes_a_file(rt: HostRuntime) -> Result<(), Fail> {
    assert_takes_some_bytes(&rt, &mut StdSink::new(File::create(&rt, "sink")?));
    assert_same(
        &rt,
        fs::read(&rt, "sink")?.as_slice(),
        b"some bytes".as_slice(),
    );
    let unwritten = StdSink::new(File::open(&rt, "sink")?).write(b"more");
    assert_same(&rt, unwritten, Err(Failed));
    fs::remove_file(&rt, "sink")?;
    Ok(())
}
