// The edge over the streams of std.
ghost use Rattle.std.specs.Prelude.{◌≡◌, ◌<◌, ℕ, length, take, None, IfOk, OnErr, is_err, if◌then◌else◌};
ghost use Rattle.std.specs.Io.{ReadsAtMost, WritesAtMost};
ghost use Rattle.std.specs.Io.KnownBytes.{ReadConsumes, WriteAppends, Appends};
ghost use Rattle.vc2_io.specs.Outside.{HasCause, next_count};

use crate::{Failed, Sink, Source};
use std::io::{Read, Write};
use std::marker::Model;

/// The edge over a reader. It tells the bytes that the reader tells: of the streams of the system, none.
#[derive(Drop)]
pub struct StdSource<R> {
    inner: R,
    failures: u64,
}

impl<R> Model for StdSource<R> {
    ghost use Rattle.vc2_io.specs.StdStreams.{Counted};

    ghost Value = { Counted R };

    ghost view = { λ a. record { inner = a.inner; failures = a.failures } };
}

impl<R: Read> StdSource<R> {
    /// The reader, with no fault so far.
    pub fn new(inner: R) -> StdSource<R>
        ensures { result ≡ record { inner = inner; failures = 0 } }
    {
        StdSource { inner, failures: 0 }
    }
}

impl<R: Read> Source for StdSource<R> {
    ghost rest = { λ s. R.remaining s.inner };

    ghost faults = { λ s. s.failures };

    /// One call of the reader's `read`. Any error of it is a fault, an interrupted call among them.
    fn read(&mut self, buf: &mut [u8]) -> Result<usize, Failed>
        ensures bound { ReadsAtMost result buf.new }
        ensures bytes { ReadConsumes (R.remaining self.old.inner)
            (R.remaining self.new.inner) result buf.new }
        ensures cause { HasCause self.old.failures self.new.failures result }
        ensures count { self.new.failures
            ≡ (if is_err result then next_count self.old.failures else self.old.failures) }
    {
        match self.inner.read(buf) {
            Ok(count) => Ok(count),
            Err(_) => {
                self.failures = self.failures.saturating_add(1);
                Err(Failed)
            }
        }
    }
}

/// The edge over a writer. It tells nothing of what was written.
#[derive(Drop)]
pub struct StdSink<W> {
    inner: W,
    failures: u64,
}

impl<W> Model for StdSink<W> {
    ghost use Rattle.vc2_io.specs.StdStreams.{Counted};

    ghost Value = { Counted W };

    ghost view = { λ a. record { inner = a.inner; failures = a.failures } };
}

impl<W: Write> StdSink<W> {
    /// The writer, with no fault so far.
    pub fn new(inner: W) -> StdSink<W>
        ensures { result ≡ record { inner = inner; failures = 0 } }
    {
        StdSink { inner, failures: 0 }
    }
}

impl<W: Write> Sink for StdSink<W> {
    ghost written = { λ _. None };

    ghost faults = { λ s. s.failures };

    /// One call of the writer's `write` and one of its `flush`. Any error of them is a fault, and so is a write that
    /// takes nothing of a piece that has a byte.
    fn write(&mut self, piece: &[u8]) -> Result<usize, Failed>
        ensures bound { WritesAtMost result piece.now }
        ensures some { IfOk result (λ n. 0 < length piece.now → 0 < n) }
        ensures bytes { WriteAppends None None result piece.now }
        ensures cause { HasCause self.old.failures self.new.failures result }
        ensures count { self.new.failures
            ≡ (if is_err result then next_count self.old.failures else self.old.failures) }
        // The writer got the prefix of the piece that is told; after a fault, some prefix.
        ensures wrote { IfOk result (λ n. Appends (W.contents self.old.inner)
            (W.contents self.new.inner) (take n piece.now)) }
        ensures failed { OnErr result ((n : ℕ)
            × Appends (W.contents self.old.inner) (W.contents self.new.inner) (take n piece.now)) }
    {
        let count = match self.inner.write(piece) {
            Ok(count) => count,
            Err(_) => {
                self.failures = self.failures.saturating_add(1);
                return Err(Failed);
            }
        };
        if count == 0 && !piece.is_empty() || self.inner.flush().is_err() {
            self.failures = self.failures.saturating_add(1);
            return Err(Failed);
        }
        Ok(count)
    }
}
