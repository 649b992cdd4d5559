// The command `frames`.
ghost use Rattle.vc2_io.specs.declared.TheConstants.{READ_SIZE};
ghost use Rattle.std.specs.Prelude.{◌≡◌, ◌≤◌, ◌+◌, ◌^◌, ◌<◌, Some, None, true, refl, Option, IfOk, OnOk, OnErr};
ghost use Rattle.std.specs.Io.KnownBytes.{Appends};
ghost use Rattle.vc2_io.specs.Outside.{HasCause, GrewShort};
ghost use Rattle.run_theory.specs.Ran.{HaltHasCause};
ghost use Rattle.slice_geometry.specs.Frames.{frame_of};
ghost use Rattle.sequence_header.specs.declared.parts.HeaderParts.{HeaderParts};
ghost use Rattle.picture_codec.specs.Samples.{PictureSeen, PictureSamples};
ghost use Rattle.stream_rows.specs.Units.{nothing_yet};
ghost use Rattle.field_weave.specs.Weaving.{frame_of_two, split};
ghost use Rattle.run_theory.specs.Runs.{change, Runs, WritesText};
ghost use Rattle.vc2_cli.specs.Endings.{IsDone, MayEndOtherwise};
ghost use Rattle.unit_reader.specs.Soon.{Soon};
ghost use Rattle.vc2_cli.specs.Telling.{tells_sequence};
ghost use Rattle.vc2_cli.specs.Weave.{order_of};
ghost use Rattle.vc2_cli.specs.Frames.{FramesSoFar, framing_any, no_frames, frames_machine, are_fields, first_in, frame_text, IsFrameFor, KeepsFrame};

use crate::decode::decoder_of;
use crate::status::{Ending, Note};
use crate::weave::order_of;
use field_weave::{Order, frame_shape, take_field};
use picture_codec::Picture;
use planes::NoMemory;
use raw_video::write_picture;
use run_theory::Halt;
use std::alloc::Global;
use stream_units::{Item, Reason, Refusal, StreamTable};
use unit_reader::{Reader, UnitCommand, run_units};
use vc2_io::{Failed, Sink, Source};

// Whether the pictures under the header that was read last are fields.
fn are_fields(table: &StreamTable) -> bool
    ensures { (parts : HeaderParts) → table.now.header ≡ Some parts → result ≡ are_fields parts }
{
    match table.header() {
        Some(header) => header.parts().coding == 1,
        None => false,
    }
}

// The frame that the fields under the header that was read last are put in; none for frames.
fn frame_for(alloc: Global, table: &StreamTable) -> Result<Option<Picture>, NoMemory>
    ensures { IfOk result (λ frame. (parts : HeaderParts) → table.now.header ≡ Some parts
        → IsFrameFor parts frame) }
{
    let header = match table.header() {
        Some(header) => header,
        None => return Ok(None),
    };
    if header.parts().coding != 1 {
        return Ok(None);
    }
    let shape = frame_shape(&header.picture_shape());
    match Picture::new(alloc, &shape) {
        Ok(frame) => Ok(Some(frame)),
        Err(_) => Err(NoMemory),
    }
}

fn tells_sequence(item: Item) -> bool
    ensures { result ≡ tells_sequence item }
{
    matches!(item, Item::Sequence)
}

/// The frames so far, and the frame that was begun.
#[derive(Drop)]
struct Framing {
    alloc: Global,
    order: Order,
    frames: u64,
    begun: bool,
    frame: Option<Picture>,
}

impl UnitCommand<StreamTable> for Framing {
    type Ending = Ending;

    ghost Own = { FramesSoFar };

    ghost command = { framing_any };

    ghost first = { nothing_yet };

    ghost own = { λ c t. record { order = c.order; frames = c.frames; first = first_in c.order c.begun c.frame t.header } };

    ghost start = { λ c. no_frames c.order };

    ghost keeps = { λ c t. KeepsFrame c.frames c.frame t };

    ghost is_done = { IsDone };

    ghost refused_is_no_end = { λ z w fault done. done };

    ghost may_go_on = { MayEndOtherwise };

    fn open<K: Sink>(&mut self, _out: &mut K) -> Result<(), Halt> {
        Ok(())
    }

    fn turn<K: Sink>(&mut self, table: &StreamTable, item: Item, out: &mut K) -> Result<(), Halt> {
        if tells_sequence(item) {
            self.begun = false;
            match frame_for(self.alloc, table) {
                Ok(frame) => self.frame = frame,
                Err(_) => return Err(Halt::NoMemory),
            }
            return Ok(());
        }
        let decoder = match decoder_of(table, item) {
            Some(decoder) => decoder,
            None => return Ok(()),
        };
        let picture = decoder.picture();
        if !are_fields(table) {
            match write_picture(out, picture) {
                Ok(()) => {}
                Err(_) => return Err(Halt::OutFault),
            }
            self.frames += 1;
            return Ok(());
        }
        let frame = match &mut self.frame {
            Some(frame) => frame,
            None => unreachable!(),
        };
        match take_field(picture, self.begun, self.order, frame, out) {
            Ok(()) => {}
            Err(_) => return Err(Halt::OutFault),
        }
        if self.begun {
            self.frames += 1;
        }
        self.begun = !self.begun;
        Ok(())
    }

    fn finish<K: Sink>(
        &mut self,
        table: &StreamTable,
        _item: Item,
        _out: &mut K,
    ) -> Result<Ending, Halt> {
        Ok(Ending::Done(Note::Framed {
            frames: self.frames,
            bytes: table.earlier().place(),
        }))
    }

    fn rest<K: Sink>(&mut self, _table: &StreamTable, _out: &mut K) -> Result<Ending, Halt> {
        // A stream ends with a unit, so this never comes.
        Ok(Ending::Done(Note::Nothing))
    }

    fn refuse<K: Sink>(
        &mut self,
        _table: &StreamTable,
        place: u64,
        reason: Reason,
        _out: &mut K,
    ) -> Result<Ending, Halt> {
        Ok(Ending::Refused(Refusal { place, reason }))
    }

    ghost begins = { refl };

    ghost opens = { record { finished = λ z w unit bytes. tt; rested = λ z w. tt; refused = λ z w fault short. short } };
}

/// Writes the frames of a stream, each once its last unit is accepted whole: fields woven in this order, and other pictures
/// as they are. The memory of a frame is found when a sequence of fields begins.
pub(crate) fn frames<S: Source, K: Sink>(
    alloc: Global,
    top: bool,
    src: &mut S,
    out: &mut K,
) -> Result<Ending, Halt>
    ensures runs { Runs (frames_machine (order_of top)) IsDone
        (change S.rest S.faults src.old src.new)
        (change K.written K.faults out.old out.new) result }
    ensures soon { Soon MayEndOtherwise (frames_machine (order_of top)) READ_SIZE (S.rest src.old)
        (S.rest src.new) result }
{
    match Reader::made(alloc, StreamTable::new(alloc, true)) {
        Ok(mut reader) => {
            let mut command = Framing {
                alloc,
                order: order_of(top),
                frames: 0,
                begun: false,
                frame: None,
            };
            let result = run_units(&mut reader, &mut command, src, out);
            drop(reader);
            drop(command);
            result
        }
        Err(_) => Err(Halt::NoMemory),
    }
}
