//! The bands that slices are decoded into: those of 16 bits slice by slice, until one needs more, and then rows.

ghost use Rattle.std.specs.Prelude.{◌≡◌, ◌^◌, ◌<◌, ◌≤◌, length, true, false, IfOk, MatchResult};
ghost use Rattle.slice_geometry.specs.Slicing.{IsAllowed, slice_count};
ghost use Rattle.slice_geometry.specs.Frames.{frame_of};
ghost use Rattle.slice_decoder.specs.Slice.{slice_at};
ghost use Rattle.slice_decoder.specs.Decoded.{AreReady, AllKeepOthers, IsDecoded, IsRefused};
ghost use Rattle.slice_store.specs.ShortBands.{short_stack, IsShortSound};
ghost use Rattle.slice_decoder.specs.Short.{shown_trio};
ghost use Rattle.picture_codec.specs.ShortSlices.{AreShortSound};
ghost use Rattle.picture_codec.specs.Pictures as pictures;
ghost use Rattle.picture_codec.specs.Decoding.{AreTaken, HasSynthesisRoom, AreNewBands, stack_of, with_synthesised};
ghost use Rattle.picture_codec.specs.DecodedBands.{IsShownAs};

use crate::picture::Picture;
use crate::row_bands::RowBands;
use crate::short_slices::{ShortSlices, are_short};
use crate::showing::show_rows;
use crate::workspace::{SynthesisRoom, depth_of};
use planes::{Bands, NarrowBands, NoMemory};
use slice_decoder::SliceFault;
use slice_geometry::{Component, Layout, PictureShape, SliceHead};
use slice_store::{ShortBands, ShortTrio};
use std::alloc::Global;
use std::marker::Model;
use transform_params::TransformParams;

// The most numbers in a row of bands.
const LONGEST_ROW: usize = 8208;

/// The bands of a component, in the width that serves.
#[derive(Clone, Copy)]
pub enum ShownBands<'a> {
    /// In 16 bits, slice by slice.
    Short(&'a ShortBands),
    /// In 64 bits.
    Wide(&'a Bands),
    /// In 32 bits, no magnitude being above 2^18.
    Narrow(&'a NarrowBands),
}

// The bands of a component in 16 bits.
fn short_bands(bands: &ShortTrio, c: Component) -> &ShortBands
    requires { AreShortSound bands.now }
    ensures value { short_stack result.now ≡ stack_of (shown_trio bands.now) c }
    ensures sound { IsShortSound result.now }
{
    match c {
        Component::Luma => &bands.luma,
        Component::C1 => &bands.c1,
        Component::C2 => &bands.c2,
    }
}

// The samples of a component from its bands in 16 bits, and whether these have room for it. Where they have not, the picture
// stays.
fn show_in_16_bits(
    params: &TransformParams,
    bands: &ShortBands,
    row: &mut [i16],
    room: &mut SynthesisRoom,
    c: Component,
    picture: &mut Picture,
) -> bool
    requires sound { IsShortSound bands.now }
    requires row { length row.old ≡ 8208 }
    requires taken { AreTaken params.now.layout (pictures.size_of (frame_of picture.old.shape) c)
        (slice_count params.now.layout) (short_stack bands.now) }
    requires room { HasSynthesisRoom params.now.layout
        (pictures.size_of (frame_of picture.old.shape) c) room.old }
    ensures picture { result ≡ true → picture.new
        ≡ with_synthesised params.now.wavelet picture.old c (short_stack bands.now) }
    ensures left { result ≡ false → picture.new ≡ picture.old }
    ensures room { HasSynthesisRoom params.now.layout
        (pictures.size_of (frame_of picture.old.shape) c) room.new }
    ensures allowed { IsAllowed params.now.layout }
{
    // The rules of a layout.
    let _ = params.layout.depth();
    if depth_of(picture.shape(), c) > 15 {
        return false;
    }
    bands.slices.shows();
    room.gathered.make();
    if !bands.gather(&mut room.gathered.bands, row) {
        return false;
    }
    show_rows(params, &room.gathered.bands, &mut room.short, c, picture)
}

/// The bands of the three components. Those of 16 bits serve where samples have at most 15 bits, until a slice has a greater
/// number. From then on rows do, as long as the decoder lives: to bring these back slice by slice would take a copy
/// that few streams gain by.
#[derive(Drop)]
pub struct DecodedBands {
    short: ShortSlices,
    rows: RowBands,
    row: Vec<i16>,
    is_short: bool,
}

impl Model for DecodedBands {
    ghost use Rattle.std.specs.Prelude.{◌≡◌, true, if◌then◌else◌};
    ghost use Rattle.planes.specs.declared.Trio as trio;
    ghost use Rattle.slice_decoder.specs.Short.{shown_trio};
    ghost use Rattle.picture_codec.specs.ShortSlices.{AreBandsKept};

    ghost Value = { trio.Trio };

    ghost view = { λ b. if b.is_short then shown_trio b.short else b.rows.bands };

    ghost invariant = { λ b. AreBandsKept b.short b.rows b.row.items b.is_short };
}

impl DecodedBands {
    /// The bands of pictures of this shape, all zero.
    pub(crate) fn new(
        alloc: Global,
        layout: &Layout,
        shape: &PictureShape,
    ) -> Result<DecodedBands, NoMemory>
        ensures { IfOk result (λ b. AreNewBands layout.now shape.now.luma b.luma
            × AreNewBands layout.now shape.now.colour b.c1
            × AreNewBands layout.now shape.now.colour b.c2) }
    {
        let is_short = are_short(shape);
        let row = Vec::from_elem(alloc, 0i16, LONGEST_ROW)?;
        let short = ShortSlices::new(alloc, layout, shape, is_short)?;
        let mut rows = match RowBands::new(alloc, layout, shape) {
            Ok(rows) => rows,
            Err(NoMemory) => {
                // By name, since the proof would else take it apart field by field.
                drop(short);
                return Err(NoMemory);
            }
        };
        if !is_short {
            rows.make();
        }
        Ok(DecodedBands {
            short,
            rows,
            row,
            is_short,
        })
    }

    /// The bands of a component.
    pub fn component(&self, c: Component) -> ShownBands<'_>
        ensures { IsShownAs (stack_of self.now c) result }
    {
        if self.is_short {
            ShownBands::Short(short_bands(self.short.bands(), c))
        } else {
            self.rows.component(c)
        }
    }

    /// Decodes a slice as `decode_slice` does.
    pub(crate) fn decode(
        &mut self,
        params: &TransformParams,
        shape: &PictureShape,
        sx: u32,
        sy: u32,
        bytes: &[u8],
    ) -> Result<SliceHead, SliceFault>
        requires across { sx < params.now.layout.slices_x }
        requires down { sy < params.now.layout.slices_y }
        requires some { 1 ≤ length bytes.now }
        requires most { length bytes.now ≤ 2 ^ 28 }
        requires entries { params.now.matrix.depth ≡ params.now.layout.depth }
        requires ready { AreReady params.now.layout shape.now sx sy self.old }
        ensures decoded { let slice = slice_at params.now.layout shape.now.luma shape.now.colour sx
            sy bytes.now in
            MatchResult result
            (λ head. IsDecoded params.now.layout shape.now sx sy params.now.matrix slice head
            self.new)
            (IsRefused params.now.layout shape.now sx sy params.now.matrix slice) }
        ensures others { AllKeepOthers params.now.layout shape.now sx sy self.old self.new }
    {
        let (layout, matrix) = (&params.layout, &params.matrix);
        if !self.is_short {
            return self.rows.decode(layout, shape, matrix, sx, sy, bytes);
        }
        let codes = self.rows.codes();
        match self.short.decode(params, shape, sx, sy, bytes, codes) {
            Ok(Some(head)) => Ok(head),
            Err(fault) => Err(fault),
            Ok(None) => {
                self.rows.take(self.short.bands(), self.row.as_mut_slice());
                self.is_short = false;
                self.rows.decode(layout, shape, matrix, sx, sy, bytes)
            }
        }
    }

    /// Goes back to 32 bits where the numbers allow that. All numbers stay.
    pub(crate) fn settle(&mut self)
        ensures { self.new ≡ self.old }
    {
        if !self.is_short {
            self.rows.settle();
        }
    }

    /// The samples of a component from its bands.
    pub(crate) fn show(
        &mut self,
        c: Component,
        params: &TransformParams,
        room: &mut SynthesisRoom,
        picture: &mut Picture,
    )
        requires taken { AreTaken params.now.layout
            (pictures.size_of (frame_of picture.old.shape) c) (slice_count params.now.layout)
            (stack_of self.old c) }
        requires room { HasSynthesisRoom params.now.layout
            (pictures.size_of (frame_of picture.old.shape) c) room.old }
        ensures same { self.new ≡ self.old }
        ensures picture { picture.new
            ≡ with_synthesised params.now.wavelet picture.old c (stack_of self.old c) }
        ensures room { HasSynthesisRoom params.now.layout
            (pictures.size_of (frame_of picture.old.shape) c) room.new }
        ensures allowed { IsAllowed params.now.layout }
    {
        if !self.is_short {
            self.rows.show(c, params, room, picture);
            return;
        }
        let short = self.short.bands();
        let row = self.row.as_mut_slice();
        if !show_in_16_bits(params, short_bands(short, c), row, room, c, picture) {
            self.rows.show_short(
                self.short.bands(),
                self.row.as_mut_slice(),
                c,
                params,
                room,
                picture,
            );
        }
    }
}
