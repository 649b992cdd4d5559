// A sink in memory with room for one stream.
ghost use Rattle.std.specs.Prelude.{◌≡◌, [], IfOk};
ghost use Rattle.vc2_cli.specs.TrialTurn.{told_of_sink};
ghost use Rattle.vc2_cli.specs.TrialTurn as turn;

use std::alloc::Global;
use std::marker::Model;
use vc2_io::{Failed, MemSink, NoMemory, Sink};

/// No call of it is named to fail, so only a write that finds no room does. What it tells is its room, and behind it the
/// bytes that were written: so a call over any sink leaves the room as it was.
#[derive(Drop)]
pub(crate) struct StreamSink {
    inner: MemSink,
}

impl Model for StreamSink {
    ghost use Rattle.vc2_io.specs.Memory.{MemSinkSeen};
    ghost use Rattle.vc2_cli.specs.TrialTurn.{FailsWhenFull};

    ghost Value = { MemSinkSeen };

    ghost view = { λ s. s.inner };

    ghost invariant = { λ s. FailsWhenFull s.inner };
}

impl StreamSink {
    /// Takes the memory for `room` bytes; no later call takes any.
    pub(crate) fn new(alloc: Global, room: usize) -> Result<StreamSink, NoMemory>
        ensures { IfOk result (λ s. (s.bytes ≡ []) × (s.room ≡ room)) }
    {
        let inner = MemSink::new(alloc, room, 0, &[u64::MAX; 4])?;
        Ok(StreamSink { inner })
    }

    /// No call of it fails as long as there is room. A call says so and does nothing.
    pub(crate) fn steady(&self)
        ensures { turn.FailsWhenFull self.now }
    {
        // The contract alone names it.
        let _ = &self.inner;
    }

    /// What was written.
    pub(crate) fn bytes(&self) -> &[u8]
        ensures { result.now ≡ self.now.bytes }
    {
        self.inner.bytes()
    }
}

impl Sink for StreamSink {
    ghost written = { told_of_sink };

    ghost faults = { λ s. s.failures };

    fn write(&mut self, piece: &[u8]) -> Result<usize, Failed> {
        self.inner.write(piece)
    }
}
