// The command `decode`.
ghost use Rattle.vc2_io.specs.declared.TheConstants.{READ_SIZE};
ghost use Rattle.std.specs.Prelude.{◌≡◌, ◌≢◌, ℕ, Some, None, true, false, refl, OnOk, OnErr, IfSome, IsNone};
ghost use Rattle.std.specs.Io.KnownBytes.{Appends};
ghost use Rattle.vc2_io.specs.Outside.{HasCause, GrewShort};
ghost use Rattle.run_theory.specs.Runs.{change, Runs};
ghost use Rattle.vc2_cli.specs.Endings.{IsDone, MayEndOtherwise};
ghost use Rattle.unit_reader.specs.Soon.{Soon};
ghost use Rattle.stream_rows.specs.Units.{nothing_yet};
ghost use Rattle.stream_reader.specs.ReaderInside.{seen_of};
ghost use Rattle.vc2_cli.specs.Telling.{tells_picture};
ghost use Rattle.vc2_cli.specs.Decode.{decoding, decode_machine, shown_text, KeepsPictures};

use crate::status::{Ending, Note};
use picture_codec::PictureDecoder;
use raw_video::write_picture;
use run_theory::Halt;
use std::alloc::Global;
use stream_units::{Item, Reason, Refusal, StreamTable};
use unit_reader::{Reader, UnitCommand, run_units};
use vc2_io::{Failed, Sink, Source};

/// The decoder of the picture that the item tells, if it tells one.
pub(crate) fn decoder_of(table: &StreamTable, item: Item) -> Option<&PictureDecoder>
    requires { tells_picture item ≡ true → table.now.decoder ≢ None }
    ensures some { IfSome result (λ decoder. (tells_picture item ≡ true)
        × (table.now.decoder ≡ Some decoder.now)) }
    ensures none { IsNone result → tells_picture item ≡ false }
{
    match item {
        Item::Picture(_) => match table.decoder() {
            Some(decoder) => Some(decoder),
            None => unreachable!(),
        },
        _ => None,
    }
}

/// Writes the raw text of the picture that the decoder made.
pub(crate) fn write_shown<K: Sink>(out: &mut K, decoder: &PictureDecoder) -> Result<(), Failed>
    requires { decoder.now.picture ≢ None }
    ensures ok { OnOk result (Appends (K.written out.old) (K.written out.new)
        (shown_text (seen_of decoder.now))) }
    ensures err { OnErr result (GrewShort (K.written out.old) (K.written out.new)
        (shown_text (seen_of decoder.now))) }
    ensures cause { HasCause (K.faults out.old) (K.faults out.new) result }
{
    write_picture(out, decoder.picture())
}

/// How many pictures there were.
#[derive(Drop)]
struct Decoding {
    pictures: u64,
}

impl UnitCommand<StreamTable> for Decoding {
    type Ending = Ending;

    ghost Own = { ℕ };

    ghost command = { decoding };

    ghost first = { nothing_yet };

    ghost own = { λ c t. c.pictures };

    ghost start = { λ c. 0 };

    ghost keeps = { λ c t. KeepsPictures c.pictures t };

    ghost is_done = { IsDone };

    ghost refused_is_no_end = { λ z w fault done. done };

    ghost may_go_on = { MayEndOtherwise };

    fn open<K: Sink>(&mut self, _out: &mut K) -> Result<(), Halt> {
        Ok(())
    }

    fn turn<K: Sink>(&mut self, table: &StreamTable, item: Item, out: &mut K) -> Result<(), Halt> {
        let decoder = match decoder_of(table, item) {
            Some(decoder) => decoder,
            None => return Ok(()),
        };
        match write_shown(out, decoder) {
            Ok(()) => {}
            Err(_) => return Err(Halt::OutFault),
        }
        self.pictures += 1;
        Ok(())
    }

    fn finish<K: Sink>(
        &mut self,
        table: &StreamTable,
        _item: Item,
        _out: &mut K,
    ) -> Result<Ending, Halt> {
        Ok(Ending::Done(Note::Decoded {
            pictures: self.pictures,
            bytes: table.earlier().place(),
        }))
    }

    fn rest<K: Sink>(&mut self, _table: &StreamTable, _out: &mut K) -> Result<Ending, Halt> {
        // A stream ends with a unit, so this never comes.
        Ok(Ending::Done(Note::Nothing))
    }

    fn refuse<K: Sink>(
        &mut self,
        _table: &StreamTable,
        place: u64,
        reason: Reason,
        _out: &mut K,
    ) -> Result<Ending, Halt> {
        Ok(Ending::Refused(Refusal { place, reason }))
    }

    ghost begins = { refl };

    ghost opens = { record { finished = λ z w unit bytes. tt; rested = λ z w. tt; refused = λ z w fault short. short } };
}

/// Writes the raw text of each picture, once its unit is accepted whole.
pub(crate) fn decode<S: Source, K: Sink>(
    alloc: Global,
    src: &mut S,
    out: &mut K,
) -> Result<Ending, Halt>
    ensures runs { Runs decode_machine IsDone (change S.rest S.faults src.old src.new)
        (change K.written K.faults out.old out.new) result }
    ensures soon { Soon MayEndOtherwise decode_machine READ_SIZE (S.rest src.old)
        (S.rest src.new) result }
{
    match Reader::made(alloc, StreamTable::new(alloc, true)) {
        Ok(mut reader) => {
            let mut command = Decoding { pictures: 0 };
            let result = run_units(&mut reader, &mut command, src, out);
            drop(reader);
            result
        }
        Err(_) => Err(Halt::NoMemory),
    }
}
