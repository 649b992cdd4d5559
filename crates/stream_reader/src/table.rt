//! The table of the units of a stream.

ghost use Rattle.stream_rows.specs.Units.{units};
ghost use Rattle.stream_rows.specs.declared.reason.Reason.TheVariants as reasons;
ghost use Rattle.stream_rows.proofs.UnitsLaws.{units_laws};
ghost use Rattle.stream_rows.proofs.Answering.{after-place};
ghost use Rattle.stream_reader.specs.StreamTable.{IsFoundBy, TellsUnit, StopsTable};
ghost use Rattle.stream_reader.specs.StreamTableLaws.{stops_before, stops_otherwise, stops_behind};

use crate::earlier::Earlier;
use crate::parts::Found;
use crate::steps::{header_behind, keep, shape_of, step};
use crate::stop::Item;
use crate::units::unit;
use picture_codec::PictureDecoder;
use sequence_header::SequenceHeader;
use slice_geometry::UnitShapes;
use std::alloc::Global;
use std::marker::Model;
use stream_rows::Reason;
use unit_reader::{After, ReadStop, Table, Units, Window};
use vc2_io::Source;

/// Names what earlier units of a stream leave, for contracts alone: none is made.
pub struct StreamPast {}

impl Model for StreamPast {
    ghost use Rattle.stream_rows.specs.Units.{Past, nothing_yet};

    ghost Value = { Past };

    ghost view = { λ a. nothing_yet };
}

/// Names what the rows of a unit of a stream make, for contracts alone: none is made.
pub struct StreamUnit {}

impl Model for StreamUnit {
    ghost use Rattle.stream_rows.specs.Units.{DataUnit, End};

    ghost Value = { DataUnit };

    ghost view = { λ a. End };
}

/// What the units of a stream so far leave, the header that was read last, their shapes, the decoder of the last picture
/// unit whose parameters were read, and whether it makes pictures.
#[derive(Drop)]
pub struct StreamTable {
    alloc: Global,
    makes_pictures: bool,
    earlier: Earlier,
    header: Option<SequenceHeader>,
    shapes: UnitShapes,
    decoder: Option<PictureDecoder>,
}

impl Model for StreamTable {
    ghost use Rattle.std.specs.Prelude.{◌≡◌};
    ghost use Rattle.stream_reader.specs.StreamTable.{StreamTableSeen};

    ghost Value = { StreamTableSeen };

    ghost view = { λ a. record { makes_pictures = a.makes_pictures; past = a.earlier; header = a.header; shapes = a.shapes; decoder = a.decoder } };

    ghost invariant = { λ a. a.shapes.total ≡ a.earlier.place };
}

impl StreamTable {
    ghost use Rattle.std.specs.Prelude.{◌≡◌, ◌↔◌, IfSome, IsNone, Some, None};
    ghost use Rattle.stream_reader.specs.StreamTable.{IsNewStreamTable};

    /// Before the first unit. Pictures are made of their slices where they are asked for.
    pub fn new(alloc: Global, makes_pictures: bool) -> StreamTable
        ensures { IsNewStreamTable makes_pictures result }
    {
        StreamTable {
            alloc,
            makes_pictures,
            earlier: Earlier::new(),
            header: None,
            shapes: UnitShapes::new(alloc),
            decoder: None,
        }
    }

    /// What the units so far leave.
    pub fn earlier(&self) -> &Earlier
        ensures { result.now ≡ self.now.past }
    {
        &self.earlier
    }

    /// The header that was read last.
    pub fn header(&self) -> Option<&SequenceHeader>
        ensures some { IfSome result (λ header. self.now.header ≡ Some header.now) }
        ensures none { IsNone result ↔ (self.now.header ≡ None) }
    {
        self.header.as_ref()
    }

    /// The units so far, by their lengths.
    pub fn shapes(&self) -> &UnitShapes
        ensures value { result.now ≡ self.now.shapes }
        ensures total { result.now.total ≡ self.now.past.place }
    {
        &self.shapes
    }

    /// The decoder of the last picture unit whose parameters were read.
    pub fn decoder(&self) -> Option<&PictureDecoder>
        ensures some { IfSome result (λ decoder. self.now.decoder ≡ Some decoder.now) }
        ensures none { IsNone result ↔ (self.now.decoder ≡ None) }
    {
        self.decoder.as_ref()
    }
}

impl Units for StreamTable {
    type Reason = Reason;

    type Past = StreamPast;

    type Made = StreamUnit;

    ghost grammar = { units };

    ghost past = { λ table. table.past };

    ghost beyond = { reasons.StreamTooLong };

    fn is_short(reason: Reason) -> bool {
        reason.is_truncated()
    }

    fn too_long() -> Reason {
        Reason::StreamTooLong
    }

    ghost laws = { units_laws };

    ghost along = { after-place };
}

impl Table for StreamTable {
    type Found = Found;

    type Item = Item;

    ghost is_found = { IsFoundBy };

    ghost tells = { TellsUnit };

    ghost stopped = { StopsTable };

    ghost stops_before = { stops_before };

    ghost stops_otherwise = { stops_otherwise };

    ghost stops_behind = { stops_behind };

    fn place(&self) -> u64 {
        self.earlier.place()
    }

    fn rests(&self) -> bool {
        false
    }

    fn behind(&self, found: &Found) -> After {
        if found.is_end() {
            return After::Final;
        }
        After::Inner
    }

    // There is memory for the unit's shape before any byte of it is read.
    fn unit<S: Source>(
        &mut self,
        window: &mut Window,
        src: &mut S,
    ) -> Result<Found, ReadStop<Reason>> {
        match self.shapes.reserve(1) {
            Ok(()) => {}
            Err(_) => return Err(ReadStop::NoMemory),
        }
        unit(self.alloc, window, src, &self.earlier, &mut self.decoder)
    }

    fn step(&mut self, found: Found, size: u64) -> Item {
        let size = size as u32;
        self.shapes
            .push(shape_of(&found, self.earlier.place(), size));
        self.header = header_behind(&found, self.header);
        let (item, took) = step(&mut self.earlier, found, size);
        keep(&mut self.decoder, took, self.makes_pictures);
        item
    }
}
