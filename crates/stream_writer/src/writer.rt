//! The writer of a stream.

ghost use Rattle.std.specs.Prelude.{◌≡◌, ◌%◌, [], ◌∷◌, Err, Some, None, true, false, IfSome, IfOk, MatchResult};
ghost use Rattle.transform_params.specs.Views.{params_of};
ghost use Rattle.sequence_header.specs.Coding.{IsShapeOf};
ghost use Rattle.picture_codec.specs.Encoding.{slices_of};
ghost use Rattle.stream_rows.specs.Streams.{frame_under};
ghost use Rattle.stream_writer.specs.EncodedStream.{begins_at, IsGroup, header_length, header_unit};
ghost use Rattle.stream_writer.specs.Writer.{total_length, plain_shape, Starts, WritesPicture, WritesEnd, Wrote, EndStops, WriteCause};
ghost use Rattle.stream_writer.specs.WriterInside.{IsNewWriter, IsUnready};

use crate::due_units::DueUnits;
use crate::write_stop::WriteStop;
use crate::written_units::{end_unit, plain_shape};
use parse_info::Chain;
use picture_codec::{EncoderFault, Picture, PictureEncoder};
use sequence_header::SequenceHeader;
use slice_geometry::UnitShapes;
use std::alloc::Global;
use std::marker::Model;
use transform_params::TransformParams;
use vc2_io::{INPUT_LIMIT, Sink, write_whole};

// A new sequence begins before the picture at this position.
fn begins_at(group: Option<u32>, position: u64) -> bool
    ensures { result ≡ begins_at group position }
{
    match group {
        None | Some(0) => false,
        Some(group) => position > 0 && position % u64::from(group) == 0,
    }
}

/// Writes a stream to any sink. Contracts see what it is written under, the units so far by their lengths, whether it was
/// ended, and the stop that is kept.
#[derive(Drop)]
pub struct StreamWriter {
    due: DueUnits,
    first: u32,
    group: Option<u32>,
    chain: Chain,
    // The next picture's.
    number: u32,
    position: u64,
    shapes: UnitShapes,
    stop: Option<WriteStop>,
    ended: bool,
}

impl Model for StreamWriter {
    ghost use Rattle.stream_writer.specs.Writer.{StreamWriterSeen};
    ghost use Rattle.stream_writer.specs.WriterInside.{IsWriterSound};

    ghost Value = { StreamWriterSeen };

    ghost view = { λ w. record { settings = record { parts = w.due.parts; params = w.due.params; first = w.first; group = w.group }; shapes = w.shapes.units; ended = w.ended; stop = w.stop } };

    ghost invariant = { λ w. IsWriterSound w.first w.chain w.number w.position w.shapes w.stop w.ended };
}

impl StreamWriter {
    // A writer that wrote nothing yet.
    fn ready(
        alloc: Global,
        header: &SequenceHeader,
        params: &TransformParams,
        first: u32,
        group: Option<u32>,
    ) -> Result<StreamWriter, WriteStop>
        ensures { MatchResult result (IsNewWriter
            (record {
              parts = header.now;
              params = params_of params.now;
              first = first;
              group = group;
            })) (IsUnready (record
            { parts = header.now; params = params_of params.now; first = first; group = group })) }
    {
        let encoder = match PictureEncoder::new(alloc, &header.picture_shape(), params) {
            Ok(made) => made,
            Err(EncoderFault::MatrixTooSteep) => return Err(WriteStop::MatrixTooSteep),
            Err(EncoderFault::NoMemory) => return Err(WriteStop::NoMemory),
        };
        match DueUnits::new(alloc, header, params, encoder) {
            Ok(due) => Ok(StreamWriter {
                due,
                first,
                group,
                chain: Chain::new(),
                number: first,
                position: 0,
                shapes: UnitShapes::new(alloc),
                stop: None,
                ended: false,
            }),
            Err(_) => Err(WriteStop::NoMemory),
        }
    }

    // Writes the sequence header unit, before all others.
    fn begin<K: Sink>(&mut self, sink: &mut K) -> Result<(), WriteStop>
        requires nothing { self.old.shapes ≡ [] }
        requires open { self.old.ended ≡ false }
        ensures wrote { Wrote (header_unit self.old.settings.parts) (K.written sink.old)
            (K.written sink.new) result }
        ensures after { IfOk result (λ _. self.new
            ≡ record self.old {
              shapes = plain_shape 0
                  (header_length self.old.settings.parts) ∷ [];
            }) }
        ensures why { EndStops result }
        ensures cause { WriteCause (K.faults sink.old) (K.faults sink.new) result }
    {
        if self.shapes.reserve(1).is_err() {
            return Err(WriteStop::NoMemory);
        }
        match write_whole(sink, self.due.header_unit()) {
            Ok(()) => {}
            Err(_) => return Err(WriteStop::OutFault),
        }
        let size = self.due.header_len();
        self.shapes
            .push(plain_shape(self.chain.place(), u64::from(size)));
        self.chain.step(size);
        Ok(())
    }

    /// Writes the sequence header unit. Where pictures are fields, the number of the first one is even, and so is the group.
    /// The pictures will have these parameters, and a new sequence begins behind every group of them. `MatrixTooSteep` comes
    /// exactly where an entry of the quantisation matrix is too great for the header's depths.
    pub fn start<K: Sink>(
        alloc: Global,
        header: &SequenceHeader,
        params: &TransformParams,
        first: u32,
        group: Option<u32>,
        sink: &mut K,
    ) -> Result<StreamWriter, WriteStop>
        requires even { header.now.coding ≡ 1 → first % 2 ≡ 0 }
        requires group { IsGroup header.now.coding group }
        ensures starts { Starts (record {
          parts = header.now;
          params = params_of params.now;
          first = first;
          group = group;
        }) (K.written sink.old) (K.written sink.new) result }
        ensures cause { WriteCause (K.faults sink.old) (K.faults sink.new) result }
    {
        let mut writer = StreamWriter::ready(alloc, header, params, first, group)?;
        match writer.begin(sink) {
            Ok(()) => Ok(writer),
            Err(stop) => {
                drop(writer);
                Err(stop)
            }
        }
    }

    /// Writes the unit of a picture of the header's shape, whose number is the next one; where a new sequence begins with it,
    /// behind an end and a header. Where these units and the last end don't fit into 2^40 bytes or memory is wanting, nothing
    /// is written.
    pub fn picture<K: Sink>(&mut self, picture: &Picture, sink: &mut K) -> Result<(), WriteStop>
        requires open { self.old.ended ≡ false }
        requires shape { IsShapeOf picture.now.shape self.old.settings.parts }
        ensures picture { self.old.stop ≡ None
            → WritesPicture self.old self.new
            (slices_of (frame_under self.old.settings.parts) self.old.settings.params
            picture.now.samples) (K.written sink.old) (K.written sink.new) result }
        ensures cause { self.old.stop ≡ None
            → WriteCause (K.faults sink.old) (K.faults sink.new) result }
        ensures kept { IfSome self.old.stop (λ stop. (result ≡ Err stop) × (self.new ≡ self.old)
            × (K.written sink.new ≡ K.written sink.old) × (K.faults sink.new ≡ K.faults sink.old)) }
    {
        if let Some(stop) = self.stop {
            return Err(stop);
        }
        let begins = begins_at(self.group, self.position);
        let room = self.due.len_before(begins) + u64::from(self.due.picture_len()) + 13;
        if self.chain.place() + room > INPUT_LIMIT {
            self.stop = Some(WriteStop::StreamTooLong);
            return Err(WriteStop::StreamTooLong);
        }
        if self.shapes.reserve(3).is_err() {
            self.stop = Some(WriteStop::NoMemory);
            return Err(WriteStop::NoMemory);
        }
        self.due
            .put(picture, begins, self.chain.previous(), self.number);
        match write_whole(sink, self.due.due()) {
            Ok(()) => {}
            Err(_) => {
                self.stop = Some(WriteStop::OutFault);
                return Err(WriteStop::OutFault);
            }
        }
        self.due.step(begins, &mut self.shapes, &mut self.chain);
        self.number = self.number.wrapping_add(1);
        self.position += 1;
        Ok(())
    }

    /// Writes the end of the last sequence. There is room for it. Only `shapes` may be called behind it.
    pub fn end<K: Sink>(&mut self, sink: &mut K) -> Result<(), WriteStop>
        requires { self.old.ended ≡ false }
        ensures end { self.old.stop ≡ None
            → WritesEnd self.old self.new (K.written sink.old) (K.written sink.new) result }
        ensures cause { self.old.stop ≡ None
            → WriteCause (K.faults sink.old) (K.faults sink.new) result }
        ensures kept { IfSome self.old.stop (λ stop. (result ≡ Err stop) × (self.new ≡ self.old)
            × (K.written sink.new ≡ K.written sink.old) × (K.faults sink.new ≡ K.faults sink.old)) }
    {
        if let Some(stop) = self.stop {
            return Err(stop);
        }
        if self.shapes.reserve(1).is_err() {
            self.stop = Some(WriteStop::NoMemory);
            return Err(WriteStop::NoMemory);
        }
        let unit = end_unit(self.chain.previous());
        match write_whole(sink, &unit) {
            Ok(()) => {}
            Err(_) => {
                self.stop = Some(WriteStop::OutFault);
                return Err(WriteStop::OutFault);
            }
        }
        self.shapes.push(plain_shape(self.chain.place(), 13));
        self.chain.step(13);
        self.ended = true;
        Ok(())
    }

    /// The units so far, by their lengths.
    pub fn shapes(&self) -> &UnitShapes
        ensures units { result.now.units ≡ self.now.shapes }
        ensures total { result.now.total ≡ total_length self.now.shapes }
    {
        &self.shapes
    }
}
