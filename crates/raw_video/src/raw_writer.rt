//! Raw text that goes to a sink in large pieces.
ghost use Rattle.std.specs.Prelude.{◌≡◌, ◌+◌, ◌≤◌, ◌++◌, [], length, OnOk, OnErr};
ghost use Rattle.std.specs.Io.KnownBytes.{Appends};
ghost use Rattle.vc2_io.specs.Outside.{HasCause, GrewShort};
ghost use Rattle.slice_geometry.specs.Frames.{frame_of};
ghost use Rattle.raw_video.specs.RawText.{is_wide, text_of};
ghost use Rattle.raw_video.specs.declared.raw_writer.TheConstants.{PIECE};
ghost use Rattle.raw_video.specs.Waiting.{PassesOn};

use crate::spelling::{are_wide, spell};
use slice_geometry::PictureShape;
use std::marker::Model;
use vc2_io::{Failed, Sink, write_whole};

// How many bytes may wait.
const PIECE: usize = 65536;

/// Writes rows of samples as raw text: bytes wait until there are many, and then go to the sink in one piece.
#[derive(Drop)]
pub struct RawWriter {
    wide: bool,
    len: usize,
    buffer: [u8; PIECE],
}

impl Model for RawWriter {
    ghost use Rattle.std.specs.Prelude.{◌≤◌, length, take};
    ghost use Rattle.raw_video.specs.Waiting.{RawWriterSeen};

    ghost Value = { RawWriterSeen };

    ghost view = { λ r. record { wide = r.wide; waiting = take r.len r.buffer } };

    ghost invariant = { λ r. r.len ≤ length r.buffer };
}

impl RawWriter {
    /// A writer of rows of pictures of this shape, where nothing waits.
    pub fn new(shape: &PictureShape) -> RawWriter
        ensures { result ≡ record { wide = is_wide (frame_of shape.now); waiting = [] } }
    {
        RawWriter {
            wide: are_wide(shape),
            len: 0,
            buffer: [0; PIECE],
        }
    }

    /// The sink takes all that waits. Where a write fails, all of it still waits, and the sink has a front of it.
    pub fn finish<K: Sink>(&mut self, sink: &mut K) -> Result<(), Failed>
        ensures ok { OnOk result (Appends (K.written sink.old)
            (K.written sink.new) self.old.waiting) }
        ensures err { OnErr result (GrewShort (K.written sink.old)
            (K.written sink.new) self.old.waiting) }
        ensures after { OnOk result (self.new ≡ record self.old { waiting = [] }) }
        ensures kept { OnErr result (self.new ≡ self.old) }
        ensures cause { HasCause (K.faults sink.old) (K.faults sink.new) result }
    {
        write_whole(sink, &self.buffer[..self.len])?;
        self.len = 0;
        Ok(())
    }

    // Sees to it that so many bytes more have room, which the sink gives where it takes what waits.
    fn make_room<K: Sink>(&mut self, sink: &mut K, more: usize) -> Result<(), Failed>
        requires { more ≤ PIECE }
        ensures wide { OnOk result (self.new.wide ≡ self.old.wide) }
        ensures room { OnOk result (length self.new.waiting + more ≤ PIECE) }
        ensures ok { OnOk result (PassesOn (K.written sink.old)
            (K.written sink.new) self.old.waiting self.new.waiting []) }
        ensures err { OnErr result (GrewShort (K.written sink.old)
            (K.written sink.new) self.old.waiting) }
        ensures kept { OnErr result (self.new ≡ self.old) }
        ensures cause { HasCause (K.faults sink.old) (K.faults sink.new) result }
    {
        if more <= PIECE - self.len {
            return Ok(());
        }
        self.finish(sink)
    }

    /// Puts a row behind what waits; where there is no room for it, the sink takes first what waits. At most 8192 samples
    /// are a row. Where a write fails, what waited still waits.
    pub fn put<K: Sink>(&mut self, sink: &mut K, row: &[u16]) -> Result<(), Failed>
        requires { length row.now ≤ 8192 }
        ensures wide { OnOk result (self.new.wide ≡ self.old.wide) }
        ensures ok { OnOk result (PassesOn (K.written sink.old)
            (K.written sink.new) self.old.waiting self.new.waiting
            (text_of self.old.wide row.now)) }
        ensures err { OnErr result (GrewShort (K.written sink.old) (K.written sink.new)
            (self.old.waiting ++ text_of self.old.wide row.now)) }
        ensures kept { OnErr result (self.new ≡ self.old) }
        ensures cause { HasCause (K.faults sink.old) (K.faults sink.new) result }
    {
        self.make_room(sink, 2 * row.len())?;
        let more = spell(row, self.wide, &mut self.buffer[self.len..]);
        self.len += more;
        Ok(())
    }
}
