//! Sources and sinks over readers that fail and writers that hold bytes back.

use crate::stream_units_tests::reading::assert_same;
use std::fs::File;
use std::io::{BufWriter, ErrorKind, Read};
use std::process::Abort;
use std::test::Fail;
use std::{fs, io};
use vc2_io::{Failed, Sink, Source, StdSink, StdSource, fill, write_whole};

/// A reader whose first call fails, and whose next ones give the bytes.
#[derive(Drop)]
struct FailsOnce<'a> {
    kind: ErrorKind,
    has_failed: bool,
    left: &'a [u8],
}

impl Read for FailsOnce<'_> {
    fn read(&mut self, buf: &mut [u8]) -> io::Result<usize> {
        if !self.has_failed {
            self.has_failed = true;
            return Err(io::Error::from(self.kind));
        }
        let count = buf.len().min(self.left.len());
        let (front, left) = self.left.split_at(count);
        buf[..count].copy_from_slice(front);
        self.left = left;
        Ok(count)
    }
}

fn fails_once(kind: ErrorKind) -> StdSource<FailsOnce<'static>> {
    StdSource::new(FailsOnce {
        kind,
        has_failed: false,
        left: b"bytes",
    })
}

/// Asserts that the first read tells the fault, and that the reader was not asked again.
fn assert_told(rt: &impl Abort, kind: ErrorKind) {
    let mut source = fails_once(kind);
    let mut buffer = [0; 5];
    assert_same(rt, source.read(&mut buffer), Err(Failed));
    assert_same(rt, buffer, [0; 5]);
    assert_same(rt, fill(&mut source, &mut buffer), Ok(5));
    assert_same(rt, buffer.as_slice(), b"bytes".as_slice());
    assert_same(rt, fill(&mut fails_once(kind), &mut buffer), Err(Failed));
}

#[test]
fn a_read_that_fails_once_is_told(rt: HostRuntime) {
    for kind in [
        ErrorKind::Other,
        ErrorKind::WouldBlock,
        ErrorKind::Interrupted,
    ] {
        assert_told(&rt, kind);
    }
}

#[test]
fn what_was_written_is_there_before_the_writer_is_dropped(rt: HostRuntime) -> Result<(), Fail> {
    let file = File::create(&rt, "flushed")?;
    let mut sink = StdSink::new(BufWriter::new(rt.alloc(), file)?);
    assert_same(&rt, write_whole(&mut sink, b"some bytes"), Ok(()));
    let written = fs::read(&rt, "flushed");
    drop(sink);
    assert_same(&rt, written?.as_slice(), b"some bytes".as_slice());
    fs::remove_file(&rt, "flushed")?;
    Ok(())
}

#[test]
fn a_flush_that_fails_is_told(rt: HostRuntime) -> Result<(), Fail> {
    fs::write(&rt, "unwritten", b"")?;
    let file = File::open(&rt, "unwritten")?;
    let mut sink = StdSink::new(BufWriter::new(rt.alloc(), file)?);
    assert_same(&rt, sink.write(b"some"), Err(Failed));
    drop(sink);
    fs::remove_file(&rt, "unwritten")?;
    Ok(())
}
