//! The reader of a stream that is skimmed.

ghost use Rattle.vc2_io.specs.declared.TheConstants.{READ_SIZE};
ghost use Rattle.std.specs.Prelude.{◌≡◌, ◌≤◌, Ok, Err, Some, None, true, false, length, IfOk, IfSome, IsNone, ◌↔◌};
ghost use Rattle.unit_reader.specs.Stops.{StopCause};
ghost use Rattle.stream_cut.specs.SkimReader.{NextSkimmed, IsNewSkimReader, answer_of};
ghost use Rattle.stream_cut.specs.declared.table.SkimItem.TheVariants as items;

use crate::table::{SkimItem, SkimTable};
use planes::NoMemory;
use sequence_header::SequenceHeader;
use slice_geometry::UnitShape;
use std::alloc::Global;
use std::marker::Model;
use stream_reader::ReadStop;
use unit_reader::{Reader, Turn};
use vc2_io::Source;

// What a turn of the reader over the table tells.
fn answer_of(turn: Result<Turn<SkimItem>, ReadStop>) -> Result<SkimItem, ReadStop>
    ensures { result ≡ answer_of turn }
{
    match turn {
        Ok(Turn::Unit(item)) => Ok(item),
        Ok(Turn::Last(_)) => Ok(SkimItem::End),
        Ok(Turn::Rest) => Ok(SkimItem::End),
        Err(stop) => Err(stop),
    }
}

/// Reads the units of a stream, whatever their slices hold, and keeps the last header's or picture's unit. Contracts see
/// what the units so far leave, the header that was read last, that unit, the shape of the last picture, the bytes that it
/// holds, and the stop that it keeps.
#[derive(Drop)]
pub struct SkimReader {
    reader: Reader<SkimTable>,
}

impl Model for SkimReader {
    ghost use Rattle.std.specs.Prelude.{◌≤◌, length};
    ghost use Rattle.stream_cut.specs.SkimReader.{SkimReaderSeen, skim_seen};

    ghost Value = { SkimReaderSeen };

    ghost view = { λ a. skim_seen a.reader };

    ghost invariant = { λ a. length a.reader.held ≤ 8192 };
}

impl SkimReader {
    /// A reader that holds no byte, has taken none and keeps no stop.
    pub fn new(alloc: Global) -> Result<SkimReader, NoMemory>
        ensures { IfOk result IsNewSkimReader }
    {
        match Reader::made(alloc, SkimTable::new(alloc)) {
            Ok(reader) => Ok(SkimReader { reader }),
            Err(_) => Err(NoMemory),
        }
    }

    /// Takes the unit in front of the bytes that are held and then the source's. The source is asked only while that unit
    /// neither stands whole nor is refused in what was read, an end of sequence being whole only where a byte follows it;
    /// at most 4096 bytes a read.
    pub fn next<S: Source>(&mut self, src: &mut S) -> Result<SkimItem, ReadStop>
        // The unit is taken, or refused as the skimmed table refuses it, or something outside failed.
        ensures next { self.old.stop ≡ None → self.old.ended ≡ false
            → NextSkimmed self.old self.new (S.rest src.old) (S.rest src.new) result }
        // Where no stop is kept, at most 4096 bytes are held,
        ensures few { self.new.stop ≡ None → length self.new.held ≤ READ_SIZE }
        // and behind a stop at most 8192.
        ensures held { length self.new.held ≤ 8192 }
        // A failed read is answered where the count rose, and nothing else is.
        ensures cause { self.old.stop ≡ None
            → StopCause (S.faults src.old) (S.faults src.new) result }
        // After a stop each call answers it again, and nothing is read.
        ensures kept { IfSome self.old.stop (λ stop. (result ≡ Err stop) × (self.new ≡ self.old)
            × (S.rest src.new ≡ S.rest src.old) × (S.faults src.new ≡ S.faults src.old)) }
        // After the end each call answers it again, and nothing is read.
        ensures ended { self.old.stop ≡ None → self.old.ended ≡ true → (result ≡ Ok items.End)
            × (self.new ≡ self.old) × (S.rest src.new ≡ S.rest src.old)
            × (S.faults src.new ≡ S.faults src.old) }
    {
        answer_of(self.reader.next(src))
    }

    /// The last header's or picture's unit, whole. It is empty before the first one, and any bytes after a stop.
    pub fn unit(&self) -> &[u8]
        ensures { result.now ≡ self.now.unit }
    {
        self.reader.table().unit()
    }

    /// The shape of the last picture's unit.
    pub fn shape(&self) -> UnitShape
        ensures { result ≡ self.now.shape }
    {
        self.reader.table().shape()
    }

    /// The header that was read last; none before the first `Sequence`.
    pub fn header(&self) -> Option<&SequenceHeader>
        ensures some { IfSome result (λ header. self.now.header ≡ Some header.now) }
        ensures none { IsNone result ↔ (self.now.header ≡ None) }
    {
        self.reader.table().header()
    }
}
