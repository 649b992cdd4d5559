//! The reader of a stream whose pictures aren't made.

ghost use Rattle.vc2_io.specs.declared.TheConstants.{INPUT_LIMIT};
ghost use Rattle.std.specs.Prelude.{◌≡◌, ◌≤◌, Ok, Err, Some, None, true, false, length, IfOk, IfSome, IsNone, ◌↔◌};
ghost use Rattle.unit_reader.specs.Stops.{StopCause};
ghost use Rattle.transform_params.specs.Views.{params_of};
ghost use Rattle.picture_codec.specs.Decoding.{PictureDecoderSeen};
ghost use Rattle.stream_reader.specs.Turns.{HasAllSlices};
ghost use Rattle.stream_reader.specs.Reader.{NextUnshown, GreatestOver, AreBandsOf, new_reader};
ghost use Rattle.stream_reader.specs.Held.{held_most};
ghost use Rattle.stream_reader.specs.declared.stop.Item.TheVariants as items;

use crate::reader::{answer_of, is_shown};
use crate::stop::{Item, ReadStop};
use crate::table::StreamTable;
use picture_codec::{DecodedBands, PictureDecoder};
use planes::NoMemory;
use sequence_header::SequenceHeader;
use slice_geometry::{PictureShape, UnitShapes};
use std::alloc::Global;
use std::marker::Model;
use transform_params::TransformParams;
use unit_reader::Reader;
use vc2_io::Source;

/// Reads the units of a stream as `StreamReader` does, and shows no picture: the slices of each are decoded, since they may
/// be refused, and no samples are made of them. It shows their bands. Contracts see what they see of a `StreamReader`.
#[derive(Drop)]
pub struct StreamChecker {
    reader: Reader<StreamTable>,
    shows: bool,
}

impl Model for StreamChecker {
    ghost use Rattle.stream_reader.specs.Reader.{StreamReaderSeen};
    ghost use Rattle.stream_reader.specs.ReaderInside.{unshown_by, IsShowing};

    ghost Value = { StreamReaderSeen };

    ghost view = { λ a. unshown_by a.reader a.shows };

    ghost invariant = { λ a. IsShowing a.reader a.shows };
}

impl StreamChecker {
    /// A reader that holds no byte, has taken none and keeps no stop.
    pub fn new(alloc: Global) -> Result<StreamChecker, NoMemory>
        ensures { IfOk result (λ reader. reader ≡ new_reader) }
    {
        match Reader::made(alloc, StreamTable::new(alloc, false)) {
            Ok(reader) => Ok(StreamChecker {
                reader,
                shows: false,
            }),
            Err(_) => Err(NoMemory),
        }
    }

    /// Takes the unit in front of the bytes that are held and then the source's. The source is asked only while that
    /// unit neither stands whole nor is refused in what was read, an end of sequence being whole only where a byte
    /// follows it; at most 4096 bytes a read.
    pub fn next<S: Source>(&mut self, src: &mut S) -> Result<Item, ReadStop>
        // The unit is taken, or refused as the grammar of a stream refuses it, or something outside failed.
        ensures next { self.old.stop ≡ None → self.old.ended ≡ false
            → NextUnshown self.old self.new (S.rest src.old) (S.rest src.new) result }
        // Behind each call, whatever it answers, at most 8192 bytes are held, and beside them the
        // greatest share where there is one.
        ensures held { length self.new.held ≤ held_most self.new.greatest }
        // The greatest share is that of the picture that was taken or in which the call stops; else
        // it stays, and 8192 bytes are held at most.
        ensures greatest { self.old.stop ≡ None → self.old.ended ≡ false
            → GreatestOver self.old self.new (S.rest src.old) result }
        // A failed read is answered where the count rose, and nothing else is.
        ensures cause { self.old.stop ≡ None
            → StopCause (S.faults src.old) (S.faults src.new) result }
        // After a stop each call answers it again, and nothing is read.
        ensures kept { IfSome self.old.stop (λ stop. (result ≡ Err stop) × (self.new ≡ self.old)
            × (S.rest src.new ≡ S.rest src.old) × (S.faults src.new ≡ S.faults src.old)) }
        // After the end each call answers it again, and nothing is read.
        ensures ended { self.old.stop ≡ None → self.old.ended ≡ true → (result ≡ Ok items.End)
            × (self.new ≡ self.old) × (S.rest src.new ≡ S.rest src.old)
            × (S.faults src.new ≡ S.faults src.old) }
    {
        let answer = answer_of(self.reader.next(src));
        self.shows = is_shown(&answer);
        answer
    }

    /// The header that was read last; none before the first `Sequence`.
    pub fn header(&self) -> Option<&SequenceHeader>
        ensures some { IfSome result (λ header. self.now.header ≡ Some header.now) }
        ensures none { IsNone result ↔ (self.now.header ≡ None) }
    {
        self.reader.table().header()
    }

    // The decoder of the picture of the unit that the last call of `next` answered; none where it didn't answer `Picture`.
    fn decoder(&self) -> Option<&PictureDecoder>
        ensures some { IfSome result (λ decoder. (self.now.decoder ≡ Some decoder.now)
            × HasAllSlices decoder.now) }
        ensures none { IsNone result ↔ (self.now.decoder ≡ None) }
    {
        match self.reader.table().decoder() {
            Some(decoder) if self.shows => Some(decoder),
            _ => None,
        }
    }

    /// The bands of the picture of the unit that the last call of `next` answered; none where it didn't answer `Picture`.
    pub fn bands(&self) -> Option<&DecodedBands>
        ensures some { IfSome result (λ bands. (d : PictureDecoderSeen)
            × (self.now.decoder ≡ Some d) × AreBandsOf d bands.now) }
        ensures none { IsNone result ↔ (self.now.decoder ≡ None) }
    {
        match self.decoder() {
            Some(decoder) => Some(decoder.bands()),
            None => None,
        }
    }

    /// Its transform parameters.
    pub fn params(&self) -> Option<&TransformParams>
        ensures some { IfSome result (λ params. (d : PictureDecoderSeen)
            × (self.now.decoder ≡ Some d) × (params_of params.now ≡ d.params)) }
        ensures none { IsNone result ↔ (self.now.decoder ≡ None) }
    {
        match self.decoder() {
            Some(decoder) => Some(decoder.params()),
            None => None,
        }
    }

    /// Its shape.
    pub fn picture_shape(&self) -> Option<&PictureShape>
        ensures some { IfSome result (λ shape. (d : PictureDecoderSeen)
            × (self.now.decoder ≡ Some d) × (shape.now ≡ d.shape)) }
        ensures none { IsNone result ↔ (self.now.decoder ≡ None) }
    {
        match self.decoder() {
            Some(decoder) => Some(decoder.shape()),
            None => None,
        }
    }

    /// The units so far, by their lengths.
    pub fn shapes(&self) -> &UnitShapes
        ensures units { result.now.units ≡ self.now.shapes }
        ensures total { result.now.total ≡ self.now.past.place }
    {
        self.reader.table().shapes()
    }

    /// The bytes of the units so far, at most 2^40.
    pub fn taken(&self) -> u64
        ensures value { result ≡ self.now.past.place }
        ensures most { result ≤ INPUT_LIMIT }
    {
        self.reader.table().earlier().place()
    }

    /// How many bytes are held.
    pub fn held(&self) -> usize
        ensures { result ≡ length self.now.held }
    {
        self.reader.held()
    }
}
