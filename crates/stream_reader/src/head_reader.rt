//! The reader of units by their heads alone.

ghost use Rattle.vc2_io.specs.declared.TheConstants.{INPUT_LIMIT, READ_SIZE};
ghost use Rattle.std.specs.Prelude.{◌≡◌, ◌≤◌, length, Ok, Err, None, true, false, IfSome};
ghost use Rattle.unit_reader.specs.Stops.{StopCause};
ghost use Rattle.stream_reader.specs.HeadReader.{NextHeadOver, new_head_reader, answer_of};

use crate::head_units::HeadTable;
use crate::stop::ReadStop;
use parse_info::ParseInfo;
use std::alloc::Global;
use std::marker::Model;
use unit_reader::{Reader, Turn};
use vc2_io::Source;

// What a turn of the reader over the table tells.
fn answer_of(turn: Result<Turn<ParseInfo>, ReadStop>) -> Result<Option<ParseInfo>, ReadStop>
    ensures { result ≡ answer_of turn }
{
    match turn {
        Ok(Turn::Unit(info)) => Ok(Some(info)),
        Ok(Turn::Last(info)) => Ok(Some(info)),
        Ok(Turn::Rest) => Ok(None),
        Err(stop) => Err(stop),
    }
}

/// Goes through units by their heads alone: prefix, code and offsets. Contracts see the place of the next unit, the bytes
/// that it holds, the stop that it keeps, and whether the input is over.
#[derive(Drop)]
pub struct HeadReader {
    reader: Reader<HeadTable>,
}

impl Model for HeadReader {
    ghost use Rattle.std.specs.Prelude.{◌≤◌, length};
    ghost use Rattle.stream_reader.specs.HeadReader.{HeadReaderSeen, heads_seen};

    ghost Value = { HeadReaderSeen };

    ghost view = { λ a. heads_seen a.reader };

    ghost invariant = { λ a. length a.reader.held ≤ 8192 };
}

impl HeadReader {
    /// A reader that holds no byte, has taken none and keeps no stop.
    pub fn new(alloc: Global) -> HeadReader
        ensures { result ≡ new_head_reader }
    {
        HeadReader {
            reader: Reader::new(alloc, HeadTable { place: 0 }),
        }
    }

    /// Takes the unit in front of the bytes that are held and then the source's: its head, and as many bytes as its next
    /// offset tells. None where the input is over before a unit. The source is asked only while that unit neither stands
    /// whole nor is refused in what was read; at most 4096 bytes a read.
    pub fn next<S: Source>(&mut self, src: &mut S) -> Result<Option<ParseInfo>, ReadStop>
        // The unit is taken, or refused as the table of heads refuses it, or the input is over, or something outside failed.
        ensures next { self.old.stop ≡ None → self.old.ended ≡ false
            → NextHeadOver self.old self.new (S.rest src.old) (S.rest src.new) result }
        // Where the reader goes on, few bytes are held,
        ensures few { self.new.stop ≡ None → length self.new.held ≤ READ_SIZE }
        // and behind a stop at most 8192.
        ensures held { length self.new.held ≤ 8192 }
        // A failed read is answered where the count rose, and nothing else is.
        ensures cause { self.old.stop ≡ None
            → StopCause (S.faults src.old) (S.faults src.new) result }
        // After a stop each call answers it again, and nothing is read.
        ensures kept { IfSome self.old.stop (λ stop. (result ≡ Err stop) × (self.new ≡ self.old)
            × (S.rest src.new ≡ S.rest src.old) × (S.faults src.new ≡ S.faults src.old)) }
        // After the end each call answers it again, and nothing is read.
        ensures ended { self.old.stop ≡ None → self.old.ended ≡ true → (result ≡ Ok None)
            × (self.new ≡ self.old) × (S.rest src.new ≡ S.rest src.old)
            × (S.faults src.new ≡ S.faults src.old) }
    {
        answer_of(self.reader.next(src))
    }

    /// The place of the next unit: the bytes of those so far, at most 2^40.
    pub fn place(&self) -> u64
        ensures value { result ≡ self.now.place }
        ensures most { result ≤ INPUT_LIMIT }
    {
        self.reader.table().place
    }
}
