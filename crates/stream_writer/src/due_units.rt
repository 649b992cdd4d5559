//! The units that are written at once with a picture.

ghost use Rattle.std.specs.Prelude.{◌≡◌, ◌≤◌, ◌+◌, ◌++◌, IfOk};
ghost use Rattle.transform_params.specs.Views.{params_of};
ghost use Rattle.transform_params.specs.ParameterFields.{unit_length};
ghost use Rattle.sequence_header.specs.Coding.{IsShapeOf};
ghost use Rattle.picture_codec.specs.Encoding.{slices_of};
ghost use Rattle.stream_rows.specs.Streams.{frame_under};
ghost use Rattle.stream_writer.specs.EncodedStream.{header_length, header_unit, units_with};
ghost use Rattle.stream_writer.specs.Writer.{head_bytes_before, shapes_before, due_shapes};
ghost use Rattle.slice_geometry.specs.Slicing.{slice_count};
ghost use Rattle.vc2_io.specs.declared.TheConstants.{INPUT_LIMIT};

use crate::written_units::{
    end_unit, picture_shape, plain_shape, write_header_unit, write_picture_unit,
};
use parse_info::Chain;
use picture_codec::{Picture, PictureEncoder};
use planes::NoMemory;
use sequence_header::SequenceHeader;
use slice_geometry::UnitShapes;
use std::alloc::Global;
use std::marker::Model;
use transform_params::TransformParams;

/// A buffer for a picture's unit and what is due before it. Contracts see what the units are written under, and those that
/// were put there last.
#[derive(Drop)]
pub(crate) struct DueUnits {
    header: SequenceHeader,
    params: TransformParams,
    encoder: PictureEncoder,
    // An end, a header, which stays, and a picture's unit.
    buffer: Vec<u8>,
    // Where the units that are due begin.
    from: usize,
}

impl Model for DueUnits {
    ghost use Rattle.std.specs.Prelude.{drop};
    ghost use Rattle.transform_params.specs.Views.{params_of};
    ghost use Rattle.stream_writer.specs.WriterInside.{DueSeen, HoldsHeader, Encodes};

    ghost Value = { DueSeen };

    ghost view = { λ a. record { parts = a.header; params = params_of a.params; due = drop a.from a.buffer.items } };

    ghost invariant = { λ a. HoldsHeader a.header (params_of a.params) a.buffer.items a.from × Encodes a.header (params_of a.params) a.encoder };
}

impl DueUnits {
    ghost use Rattle.stream_writer.specs.WriterInside.{Encodes};

    /// A buffer for units under a header and parameters, which the encoder has too.
    pub fn new(
        alloc: Global,
        header: &SequenceHeader,
        params: &TransformParams,
        encoder: PictureEncoder,
    ) -> Result<DueUnits, NoMemory>
        requires { Encodes header.now (params_of params.now) encoder }
        ensures parts { IfOk result (λ units. units.parts ≡ header.now) }
        ensures params { IfOk result (λ units. units.params ≡ params_of params.now) }
    {
        let front = 26 + header.byte_len();
        let long = front + params.unit_len() as usize;
        let mut buffer = match Vec::from_elem(alloc, 0u8, long) {
            Ok(made) => made,
            Err(_) => {
                // By name, since the proof would else take it apart field by field.
                drop(encoder);
                return Err(NoMemory);
            }
        };
        write_header_unit(header, &mut buffer.as_mut_slice()[13..front]);
        Ok(DueUnits {
            header: *header,
            params: *params,
            encoder,
            buffer,
            from: front,
        })
    }

    /// The length of the header's unit.
    pub fn header_len(&self) -> u32
        ensures value { result ≡ header_length self.now.parts }
        ensures most { result ≤ 250 }
    {
        13 + self.header.byte_len() as u32
    }

    /// The header's unit.
    pub fn header_unit(&self) -> &[u8]
        ensures { result.now ≡ header_unit self.now.parts }
    {
        let front = 26 + self.header.byte_len();
        &self.buffer.as_slice()[13..front]
    }

    /// The length of a picture's unit.
    pub fn picture_len(&self) -> u32
        ensures { result ≡ unit_length self.now.params }
    {
        self.params.unit_len()
    }

    /// The length of what is due before a picture, by whether a new sequence begins with it.
    pub fn len_before(&self, begins: bool) -> u64
        ensures value { result ≡ head_bytes_before self.now.parts begins }
        ensures most { result ≤ 263 }
    {
        if begins {
            return 13 + u64::from(self.header_len());
        }
        0
    }

    // Goes on behind what stands before a picture.
    fn step_before(&self, begins: bool, shapes: &mut UnitShapes, chain: &mut Chain)
        requires spare { 3 ≤ shapes.old.spare }
        requires place { chain.old.place ≡ shapes.old.total }
        requires most { shapes.old.total + head_bytes_before self.now.parts begins ≤ INPUT_LIMIT }
        ensures units { shapes.new.units
            ≡ shapes.old.units ++ shapes_before self.now.parts begins shapes.old.total }
        ensures total { shapes.new.total
            ≡ shapes.old.total + head_bytes_before self.now.parts begins }
        ensures spare { 1 ≤ shapes.new.spare }
        ensures place { chain.new.place ≡ shapes.new.total }
    {
        if begins {
            let size = self.header_len();
            shapes.push(plain_shape(chain.place(), 13));
            chain.step(13);
            shapes.push(plain_shape(chain.place(), u64::from(size)));
            chain.step(size);
        }
    }

    /// Goes on behind a picture's unit, and what is due before it.
    pub fn step(&self, begins: bool, shapes: &mut UnitShapes, chain: &mut Chain)
        requires spare { 3 ≤ shapes.old.spare }
        requires place { chain.old.place ≡ shapes.old.total }
        requires most { shapes.old.total + head_bytes_before self.now.parts begins
            + unit_length self.now.params ≤ INPUT_LIMIT }
        ensures units { shapes.new.units
            ≡ shapes.old.units ++ due_shapes self.now.parts self.now.params begins
            shapes.old.total }
        ensures total { shapes.new.total
            ≡ shapes.old.total + head_bytes_before self.now.parts begins
            + unit_length self.now.params }
        ensures chain { chain.new ≡ record {
          place = shapes.new.total;
          previous = unit_length self.now.params;
        } }
        ensures some { 1 ≤ slice_count self.now.params.slicing }
    {
        self.step_before(begins, shapes, chain);
        let shape = picture_shape(&self.params, chain.place());
        shapes.push(shape);
        chain.step(self.picture_len());
    }

    /// Puts a picture's unit there, and where a new sequence begins with it an end before the header, behind a unit of so
    /// many bytes.
    pub fn put(&mut self, picture: &Picture, begins: bool, previous: u32, number: u32)
        requires shape { IsShapeOf picture.now.shape self.old.parts }
        ensures { self.new ≡ record {
          parts = self.old.parts;
          params = self.old.params;
          due = units_with self.old.parts self.old.params begins previous number
              (slices_of (frame_under self.old.parts) self.old.params picture.now.samples);
        } }
    {
        let header_len = self.header_len();
        let front = 13 + header_len as usize;
        let units = self.buffer.as_mut_slice();
        if begins {
            units[..13].copy_from_slice(&end_unit(previous));
            write_picture_unit(
                &mut self.encoder,
                picture,
                header_len,
                number,
                &mut units[front..],
            );
            self.from = 0;
            return;
        }
        write_picture_unit(
            &mut self.encoder,
            picture,
            previous,
            number,
            &mut units[front..],
        );
        self.from = front;
    }

    /// The units that were put there last.
    pub fn due(&self) -> &[u8]
        ensures { result.now ≡ self.now.due }
    {
        &self.buffer.as_slice()[self.from..]
    }
}
