// A sink that writes into memory of the caller's.
ghost use Rattle.std.specs.Prelude.{◌≡◌, ◌<◌, ◌≤◌, length, Some, IfOk};
ghost use Rattle.std.specs.Io.{WritesAtMost};
ghost use Rattle.std.specs.Io.KnownBytes.{WriteAppends};
ghost use Rattle.vc2_io.specs.Outside.{HasCause};
ghost use Rattle.vc2_c.specs.Room.{room_seen, FailsFull};

use vc2_io::{Failed, Sink};

// Memory that is lent, how many bytes were written from its front on, and how many writes failed: none before it is full.
#[derive(Drop)]
pub(crate) struct Room<'a> {
    cells: &'a mut [u8],
    len: usize,
    failures: u64,
    ghost inside: { len ≤ length cells.now },
    ghost fails_full: { FailsFull failures cells.now len },
}

impl<'a> Room<'a> {
    // All of the memory, with nothing written.
    pub(crate) fn new(cells: &'a mut [u8]) -> Room<'a>
        ensures loan { result.cells.ghost_name ≡ cells.entry.ghost_name }
        ensures cells { result.cells.now ≡ cells.old }
        ensures empty { result.len ≡ 0 }
        ensures failures { result.failures ≡ 0 }
    {
        Room {
            cells,
            len: 0,
            failures: 0,
        }
    }

    // How many bytes were written.
    pub(crate) fn len(&self) -> usize
        ensures { result ≡ self.now.len }
    {
        self.len
    }
}

impl Sink for Room<'_> {
    // The loan and its size stand in front of the bytes, so that a caller of code that is generic in its sink knows that the
    // room is still the one that it gave.
    ghost written = { λ s. Some (room_seen s.cells.ghost_name s.cells.now s.len) };

    ghost faults = { λ s. s.failures };

    fn write(&mut self, piece: &[u8]) -> Result<usize, Failed>
        requires { 0 < length piece.now }
        ensures bound { WritesAtMost result piece.now }
        ensures some { IfOk result (λ n. 0 < n) }
        ensures bytes { WriteAppends (Some (room_seen self.old.cells.ghost_name self.old.cells.now
            self.old.len))
            (Some (room_seen self.new.cells.ghost_name self.new.cells.now self.new.len))
            result piece.now }
        ensures cause { HasCause self.old.failures self.new.failures result }
    {
        let count = piece.len().min(self.cells.len() - self.len);
        if count == 0 {
            self.failures = self.failures.saturating_add(1);
            return Err(Failed);
        }
        let end = self.len + count;
        self.cells[self.len..end].copy_from_slice(&piece[..count]);
        self.len = end;
        Ok(count)
    }
}
