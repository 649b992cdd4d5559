//! The reader of a stream.

ghost use Rattle.vc2_io.specs.declared.TheConstants.{INPUT_LIMIT};
ghost use Rattle.std.specs.Prelude.{◌≡◌, ◌≤◌, Ok, Err, Some, None, true, false, length, IfOk, IfSome, IsNone, ◌↔◌};
ghost use Rattle.unit_reader.specs.Stops.{StopCause};
ghost use Rattle.stream_reader.specs.Reader.{NextItemOver, GreatestOver, new_reader};
ghost use Rattle.stream_reader.specs.Held.{held_most};
ghost use Rattle.transform_params.specs.Views.{params_of};
ghost use Rattle.picture_codec.specs.Decoding.{PictureDecoderSeen};
ghost use Rattle.stream_reader.specs.ReaderInside.{answer_of, is_shown};
ghost use Rattle.stream_reader.specs.Turns.{HasAllSlices};
ghost use Rattle.stream_reader.specs.Reader.{AreBandsOf};
ghost use Rattle.stream_reader.specs.declared.stop.Item.TheVariants as items;

use crate::stop::{Item, ReadStop};
use crate::table::StreamTable;
use picture_codec::{DecodedBands, Picture, PictureDecoder};
use planes::NoMemory;
use sequence_header::SequenceHeader;
use slice_geometry::UnitShapes;
use std::alloc::Global;
use std::marker::Model;
use transform_params::TransformParams;
use unit_reader::{Reader, Turn};
use vc2_io::Source;

/// What a turn of the reader over the table tells.
pub(crate) fn answer_of(turn: Result<Turn<Item>, ReadStop>) -> Result<Item, ReadStop>
    ensures { result ≡ answer_of turn }
{
    match turn {
        Ok(Turn::Unit(item)) => Ok(item),
        Ok(Turn::Last(_)) => Ok(Item::End),
        Ok(Turn::Rest) => Ok(Item::End),
        Err(stop) => Err(stop),
    }
}

// A picture is shown behind its unit.
pub(crate) fn is_shown(answer: &Result<Item, ReadStop>) -> bool
    ensures { result ≡ is_shown answer.now }
{
    matches!(answer, Ok(Item::Picture(_)))
}

/// Reads the units of a stream from any source, one after another. Contracts see what the units so far leave, the header that
/// was read last, the bytes that it holds, the shapes of the units, the picture of the last one, the greatest share of the
/// last picture unit whose parameters were read, and the stop that it keeps.
#[derive(Drop)]
pub struct StreamReader {
    reader: Reader<StreamTable>,
    shows: bool,
}

impl Model for StreamReader {
    ghost use Rattle.stream_reader.specs.Reader.{StreamReaderSeen};
    ghost use Rattle.stream_reader.specs.ReaderInside.{stream_seen, IsReaderSound};

    ghost Value = { StreamReaderSeen };

    ghost view = { λ a. stream_seen a.reader a.shows };

    ghost invariant = { λ a. IsReaderSound a.reader a.shows };
}

impl StreamReader {
    /// A reader that holds no byte, has taken none and keeps no stop.
    pub fn new(alloc: Global) -> Result<StreamReader, NoMemory>
        ensures { IfOk result (λ reader. reader ≡ new_reader) }
    {
        match Reader::made(alloc, StreamTable::new(alloc, true)) {
            Ok(reader) => Ok(StreamReader {
                reader,
                shows: false,
            }),
            Err(_) => Err(NoMemory),
        }
    }

    /// Takes the unit in front of the bytes that are held and then the source's. The source is asked only while that
    /// unit neither stands whole nor is refused in what was read, an end of sequence being whole only where a byte
    /// follows it; at most 4096 bytes a read.
    pub fn next<S: Source>(&mut self, src: &mut S) -> Result<Item, ReadStop>
        // The unit is taken, or refused as the grammar of a stream refuses it, or something outside failed.
        ensures next { self.old.stop ≡ None → self.old.ended ≡ false
            → NextItemOver self.old self.new (S.rest src.old) (S.rest src.new) result }
        // Behind each call, whatever it answers, at most 8192 bytes are held, and beside them the
        // greatest share where there is one.
        ensures held { length self.new.held ≤ held_most self.new.greatest }
        // The greatest share is that of the picture that was taken or in which the call stops; else
        // it stays, and 8192 bytes are held at most.
        ensures greatest { self.old.stop ≡ None → self.old.ended ≡ false
            → GreatestOver self.old self.new (S.rest src.old) result }
        // A failed read is answered where the count rose, and nothing else is.
        ensures cause { self.old.stop ≡ None
            → StopCause (S.faults src.old) (S.faults src.new) result }
        // After a stop each call answers it again, and nothing is read.
        ensures kept { IfSome self.old.stop (λ stop. (result ≡ Err stop) × (self.new ≡ self.old)
            × (S.rest src.new ≡ S.rest src.old) × (S.faults src.new ≡ S.faults src.old)) }
        // After the end each call answers it again, and nothing is read.
        ensures ended { self.old.stop ≡ None → self.old.ended ≡ true → (result ≡ Ok items.End)
            × (self.new ≡ self.old) × (S.rest src.new ≡ S.rest src.old)
            × (S.faults src.new ≡ S.faults src.old) }
    {
        let answer = answer_of(self.reader.next(src));
        self.shows = is_shown(&answer);
        answer
    }

    /// The header that was read last; none before the first `Sequence`.
    pub fn header(&self) -> Option<&SequenceHeader>
        ensures some { IfSome result (λ header. self.now.header ≡ Some header.now) }
        ensures none { IsNone result ↔ (self.now.header ≡ None) }
    {
        self.reader.table().header()
    }

    /// The picture of the unit that the last call of `next` answered; none where it didn't answer `Picture`.
    pub fn picture(&self) -> Option<&Picture>
        ensures some { IfSome result (λ picture. self.now.picture ≡ Some picture.now) }
        ensures none { IsNone result ↔ (self.now.picture ≡ None) }
    {
        match self.reader.table().decoder() {
            Some(decoder) if self.shows => Some(decoder.picture()),
            _ => None,
        }
    }

    // Its decoder.
    fn decoder(&self) -> Option<&PictureDecoder>
        ensures some { IfSome result (λ decoder. (self.now.decoder ≡ Some decoder.now)
            × HasAllSlices decoder.now) }
        ensures none { IsNone result ↔ (self.now.decoder ≡ None) }
    {
        match self.reader.table().decoder() {
            Some(decoder) if self.shows => Some(decoder),
            _ => None,
        }
    }

    /// The bands of the picture of the unit that the last call of `next` answered; none where it didn't answer `Picture`.
    pub fn bands(&self) -> Option<&DecodedBands>
        ensures some { IfSome result (λ bands. (d : PictureDecoderSeen)
            × (self.now.decoder ≡ Some d) × AreBandsOf d bands.now) }
        ensures none { IsNone result ↔ (self.now.decoder ≡ None) }
    {
        match self.decoder() {
            Some(decoder) => Some(decoder.bands()),
            None => None,
        }
    }

    /// Its transform parameters.
    pub fn params(&self) -> Option<&TransformParams>
        ensures some { IfSome result (λ params. (d : PictureDecoderSeen)
            × (self.now.decoder ≡ Some d) × (params_of params.now ≡ d.params)) }
        ensures none { IsNone result ↔ (self.now.decoder ≡ None) }
    {
        match self.decoder() {
            Some(decoder) => Some(decoder.params()),
            None => None,
        }
    }

    /// The units so far, by their lengths.
    pub fn shapes(&self) -> &UnitShapes
        ensures units { result.now.units ≡ self.now.shapes }
        ensures total { result.now.total ≡ self.now.past.place }
    {
        self.reader.table().shapes()
    }

    /// The bytes of the units so far, at most 2^40.
    pub fn taken(&self) -> u64
        ensures value { result ≡ self.now.past.place }
        ensures most { result ≤ INPUT_LIMIT }
    {
        self.reader.table().earlier().place()
    }

    /// How many bytes are held.
    pub fn held(&self) -> usize
        ensures { result ≡ length self.now.held }
    {
        self.reader.held()
    }
}
