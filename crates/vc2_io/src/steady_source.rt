// A source over bytes in memory that never fails.
ghost use Rattle.std.specs.Prelude.{◌≡◌, length, min, Some, Ok};
ghost use Rattle.std.specs.Io.{ReadsAtMost};
ghost use Rattle.std.specs.Io.KnownBytes.{ReadConsumes};
ghost use Rattle.vc2_io.specs.Outside.{HasCause};

use crate::{Failed, Source};
use std::marker::Model;

/// Bytes in memory. Each call gives as many as fit.
#[derive(Drop)]
pub struct SteadySource<'a> {
    left: &'a [u8],
}

impl<'a> Model for SteadySource<'a> {
    ghost use Rattle.std.specs.Prelude.{List, ℕ};

    ghost Value = { List ℕ };

    ghost view = { λ a. a.left.now };
}

impl<'a> SteadySource<'a> {
    /// A source that gives the bytes from the first on.
    pub fn new(bytes: &'a [u8]) -> SteadySource<'a>
        ensures { result ≡ bytes.now }
    {
        SteadySource { left: bytes }
    }
}

impl Source for SteadySource<'_> {
    ghost rest = { λ s. Some s };

    ghost faults = { λ _. 0 };

    fn read(&mut self, buf: &mut [u8]) -> Result<usize, Failed>
        ensures bound { ReadsAtMost result buf.new }
        ensures bytes { ReadConsumes (Some self.old) (Some self.new) result buf.new }
        ensures cause { HasCause 0 0 result }
        ensures count { result ≡ Ok (min (length buf.old) (length self.old)) }
    {
        let count = buf.len().min(self.left.len());
        let (front, left) = self.left.split_at(count);
        buf[..count].copy_from_slice(front);
        self.left = left;
        Ok(count)
    }
}
