// A sink that drops what it takes.
ghost use Rattle.std.specs.Prelude.{◌≡◌, ◌<◌, length, None, Ok, IfOk};
ghost use Rattle.std.specs.Io.{WritesAtMost};
ghost use Rattle.std.specs.Io.KnownBytes.{WriteAppends};
ghost use Rattle.vc2_io.specs.Outside.{HasCause};

use crate::{Failed, Sink};

/// Drops what it takes, and never fails.
#[derive(Clone, Copy, Debug, PartialEq, Eq)]
pub struct NullSink;

impl NullSink {
    /// A sink that drops what it takes.
    pub fn new() -> NullSink {
        NullSink
    }
}

impl Sink for NullSink {
    ghost written = { λ _. None };

    ghost faults = { λ _. 0 };

    fn write(&mut self, piece: &[u8]) -> Result<usize, Failed>
        ensures bound { WritesAtMost result piece.now }
        ensures some { IfOk result (λ n. 0 < length piece.now → 0 < n) }
        ensures bytes { WriteAppends None None result piece.now }
        ensures cause { HasCause 0 0 result }
        ensures count { result ≡ Ok (length piece.now) }
    {
        Ok(piece.len())
    }
}
