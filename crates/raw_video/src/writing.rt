// Pictures to a sink.
ghost use Rattle.std.specs.Prelude.{OnOk, OnErr};
ghost use Rattle.std.specs.Io.KnownBytes.{Appends};
ghost use Rattle.vc2_io.specs.Outside.{HasCause, GrewShort};
ghost use Rattle.slice_geometry.specs.Frames.{frame_of};
ghost use Rattle.raw_video.specs.RawText.{text_of, raw_text};

use crate::spelling::{are_wide, spell};
use picture_codec::Picture;
use slice_geometry::Component;
use vc2_io::{Failed, Sink, write_whole};

// How many samples go out in one piece.
const PIECE: usize = 32768;

// Writes the samples, a piece at a time.
fn write_samples<K: Sink>(sink: &mut K, samples: &[u16], wide: bool) -> Result<(), Failed>
    ensures ok { OnOk result (Appends (K.written sink.old) (K.written sink.new)
        (text_of wide samples.now)) }
    ensures err { OnErr result (GrewShort (K.written sink.old) (K.written sink.new)
        (text_of wide samples.now)) }
    ensures cause { HasCause (K.faults sink.old) (K.faults sink.new) result }
{
    let mut buffer = [0; 2 * PIECE];
    let mut done = 0;
    while done < samples.len() {
        let end = done + PIECE.min(samples.len() - done);
        let len = spell(&samples[done..end], wide, &mut buffer);
        write_whole(sink, &buffer[..len])?;
        done = end;
    }
    Ok(())
}

/// Writes the raw text of the picture, and takes no memory. Where a write fails, what went out before it is a front of
/// the raw text and not the whole.
pub fn write_picture<K: Sink>(sink: &mut K, picture: &Picture) -> Result<(), Failed>
    ensures ok { OnOk result (Appends (K.written sink.old) (K.written sink.new)
        (raw_text (frame_of picture.now.shape) picture.now.samples)) }
    ensures err { OnErr result (GrewShort (K.written sink.old) (K.written sink.new)
        (raw_text (frame_of picture.now.shape) picture.now.samples)) }
    ensures cause { HasCause (K.faults sink.old) (K.faults sink.new) result }
{
    let wide = are_wide(picture.shape());
    write_samples(sink, picture.samples(Component::Luma), wide)?;
    write_samples(sink, picture.samples(Component::C1), wide)?;
    write_samples(sink, picture.samples(Component::C2), wide)
}
