//! Bands row by row: those of 32 bits, until a slice needs more.

ghost use Rattle.std.specs.Prelude.{◌≡◌, ◌^◌, ◌<◌, ◌≤◌, length, pos, true, IfOk, MatchResult};
ghost use Rattle.planes.specs.Bounded.{AreBandsWithin};
ghost use Rattle.slice_geometry.specs.Slicing.{IsAllowed, slice_count};
ghost use Rattle.slice_geometry.specs.Frames.{frame_of};
ghost use Rattle.slice_decoder.specs.Slice.{slice_at};
ghost use Rattle.slice_decoder.specs.Decoded.{AreReady, AllKeepOthers, IsDecoded, IsRefused};
ghost use Rattle.slice_decoder.specs.Narrow.{trio_of, AreNarrowBands};
ghost use Rattle.slice_decoder.specs.Short.{shown_trio};
ghost use Rattle.picture_codec.specs.ShortSlices.{AllShowTheSame, AreShortSound, AreBeside};
ghost use Rattle.picture_codec.specs.Pictures as pictures;
ghost use Rattle.picture_codec.specs.Decoding.{AreTaken, HasSynthesisRoom, AreNewBands, stack_of, with_synthesised};
ghost use Rattle.picture_codec.specs.DecodedBands.{narrow_of, IsShownAs};

use crate::decoded_bands::ShownBands;
use crate::late_narrow::LateNarrow;
use crate::picture::Picture;
use crate::showing::{show_in_32_bits, show_in_64_bits};
use crate::wide_bands::WideBands;
use crate::workspace::SynthesisRoom;
use bit_codes::MAX_NARROW;
use bounded_blocks::CodeTable;
use planes::{Bands, NarrowBands, NarrowTrio, NoMemory, Trio};
use quant_factors::Matrix;
use slice_decoder::SliceFault;
use slice_geometry::{Component, Layout, PictureShape, SliceHead};
use slice_store::ShortTrio;
use std::alloc::Global;
use std::marker::Model;
use transform_params::TransformParams;

// The greatest magnitude in bands of 32 bits.
const MOST_NARROW: i64 = MAX_NARROW as i64;

// The bands of a component.
fn wide_stack(bands: &Trio, c: Component) -> &Bands
    ensures { result.now ≡ stack_of bands.now c }
{
    match c {
        Component::Luma => &bands.luma,
        Component::C1 => &bands.c1,
        Component::C2 => &bands.c2,
    }
}

fn narrow_stack(bands: &NarrowTrio, c: Component) -> &NarrowBands
    requires { AreNarrowBands bands.now }
    ensures value { result.now ≡ stack_of (trio_of bands.now) c }
    ensures narrow { AreBandsWithin (pos (2 ^ 18)) result.now }
{
    match c {
        Component::Luma => &bands.luma,
        Component::C1 => &bands.c1,
        Component::C2 => &bands.c2,
    }
}

// Whether bands of 32 bits may hold all numbers.
fn are_narrow(wide: &Trio) -> bool
    ensures { result ≡ true → AreNarrowBands (narrow_of wide.now) }
{
    wide.luma.within(MOST_NARROW) && wide.c1.within(MOST_NARROW) && wide.c2.within(MOST_NARROW)
}

/// The bands of the three components, row by row. Those of 32 bits hold no magnitude above 2^18. They serve until a slice has
/// a greater one, or more values of a block than there is room for; from then on those of 64 bits do, until `settle`.
/// Contracts see the bands, and whether they are made.
#[derive(Drop)]
pub struct RowBands {
    narrow: LateNarrow,
    wide: WideBands,
    is_wide: bool,
}

impl Model for RowBands {
    ghost use Rattle.std.specs.Prelude.{if◌then◌else◌};
    ghost use Rattle.planes.specs.declared.Trio as trio;
    ghost use Rattle.slice_decoder.specs.Narrow.{trio_of};
    ghost use Rattle.picture_codec.specs.DecodedBands.{LateSeen, AreRowsKept};

    ghost Value = { LateSeen trio.Trio };

    ghost view = { λ b. record {
      bands = if b.is_wide then b.wide.bands else trio_of b.narrow.bands;
      is_made = b.narrow.is_made;
    } };

    ghost invariant = { λ b. AreRowsKept b.narrow b.wide b.is_wide };
}

impl RowBands {
    /// The bands of pictures of this shape, all zero.
    pub(crate) fn new(
        alloc: Global,
        layout: &Layout,
        shape: &PictureShape,
    ) -> Result<RowBands, NoMemory>
        ensures { IfOk result (λ b. AreNewBands layout.now shape.now.luma b.bands.luma
            × AreNewBands layout.now shape.now.colour b.bands.c1
            × AreNewBands layout.now shape.now.colour b.bands.c2) }
    {
        let wide = WideBands::new(alloc, layout, shape)?;
        match LateNarrow::new(alloc, layout, shape) {
            Ok(narrow) => Ok(RowBands {
                narrow,
                wide,
                is_wide: false,
            }),
            Err(NoMemory) => {
                // By name, since the proof would else take it apart field by field.
                drop(wide);
                Err(NoMemory)
            }
        }
    }

    /// Sees to it that the bands of 32 bits are made.
    pub(crate) fn make(&mut self)
        ensures { self.new ≡ record self.old { is_made = true } }
    {
        self.narrow.make();
    }

    /// The codes that slices are read with.
    pub(crate) fn codes(&self) -> &CodeTable {
        self.narrow.codes()
    }

    /// The bands of a component, which are made.
    pub(crate) fn component(&self, c: Component) -> ShownBands<'_>
        requires { self.now.is_made ≡ true }
        ensures { IsShownAs (stack_of self.now.bands c) result }
    {
        if self.is_wide {
            ShownBands::Wide(wide_stack(self.wide.bands(), c))
        } else {
            ShownBands::Narrow(narrow_stack(self.narrow.bands(), c))
        }
    }

    /// Decodes a slice as `decode_slice` does.
    pub(crate) fn decode(
        &mut self,
        layout: &Layout,
        shape: &PictureShape,
        matrix: &Matrix,
        sx: u32,
        sy: u32,
        bytes: &[u8],
    ) -> Result<SliceHead, SliceFault>
        requires across { sx < layout.now.slices_x }
        requires down { sy < layout.now.slices_y }
        requires some { 1 ≤ length bytes.now }
        requires most { length bytes.now ≤ 2 ^ 28 }
        requires entries { matrix.now.depth ≡ layout.now.depth }
        requires ready { AreReady layout.now shape.now sx sy self.old.bands }
        ensures made { self.new.is_made ≡ true }
        ensures decoded { let slice = slice_at layout.now shape.now.luma shape.now.colour sx sy
            bytes.now in
            MatchResult result
            (λ head. IsDecoded layout.now shape.now sx sy matrix.now slice head self.new.bands)
            (IsRefused layout.now shape.now sx sy matrix.now slice) }
        ensures others { AllKeepOthers layout.now shape.now sx sy self.old.bands self.new.bands }
    {
        if self.is_wide {
            return self.wide.decode(layout, shape, matrix, sx, sy, bytes);
        }
        match self
            .narrow
            .decode_narrow(layout, shape, matrix, sx, sy, bytes)
        {
            Ok(Some(head)) => Ok(head),
            Err(fault) => Err(fault),
            Ok(None) => {
                self.wide.widen(self.narrow.bands());
                self.is_wide = true;
                self.wide.decode(layout, shape, matrix, sx, sy, bytes)
            }
        }
    }

    /// Goes back to 32 bits where the numbers allow that. All numbers stay.
    pub(crate) fn settle(&mut self)
        ensures { self.new ≡ self.old }
    {
        if self.is_wide && are_narrow(self.wide.bands()) {
            self.narrow.narrow(self.wide.bands());
            self.is_wide = false;
        }
    }

    /// The samples of a component from its bands.
    pub(crate) fn show(
        &self,
        c: Component,
        params: &TransformParams,
        room: &mut SynthesisRoom,
        picture: &mut Picture,
    )
        requires made { self.now.is_made ≡ true }
        requires taken { AreTaken params.now.layout
            (pictures.size_of (frame_of picture.old.shape) c) (slice_count params.now.layout)
            (stack_of self.now.bands c) }
        requires room { HasSynthesisRoom params.now.layout
            (pictures.size_of (frame_of picture.old.shape) c) room.old }
        ensures picture { picture.new
            ≡ with_synthesised params.now.wavelet picture.old c (stack_of self.now.bands c) }
        ensures room { HasSynthesisRoom params.now.layout
            (pictures.size_of (frame_of picture.old.shape) c) room.new }
        ensures allowed { IsAllowed params.now.layout }
    {
        if self.is_wide {
            show_in_64_bits(
                params,
                wide_stack(self.wide.bands(), c),
                &mut room.late,
                c,
                picture,
            );
        } else {
            let bands = narrow_stack(self.narrow.bands(), c);
            show_in_32_bits(params, bands, &mut room.narrow, c, picture);
        }
    }

    /// Takes what bands of 16 bits show, by a row of 16 bits.
    pub(crate) fn take(&mut self, short: &ShortTrio, row: &mut [i16])
        requires sound { AreShortSound short.now }
        requires beside { AreBeside short.now self.old.bands }
        requires room { length row.old ≡ 8208 }
        ensures made { self.new.is_made ≡ true }
        ensures same { AllShowTheSame (shown_trio short.now) self.new.bands }
    {
        self.narrow.take(short, row);
        self.is_wide = false;
    }

    /// The samples of a component from bands of 16 bits, in 32. The component's own rows take what these show.
    pub(crate) fn show_short(
        &mut self,
        short: &ShortTrio,
        row: &mut [i16],
        c: Component,
        params: &TransformParams,
        room: &mut SynthesisRoom,
        picture: &mut Picture,
    )
        requires sound { AreShortSound short.now }
        requires beside { AreBeside short.now self.old.bands }
        requires row { length row.old ≡ 8208 }
        requires taken { AreTaken params.now.layout
            (pictures.size_of (frame_of picture.old.shape) c) (slice_count params.now.layout)
            (stack_of (shown_trio short.now) c) }
        requires room { HasSynthesisRoom params.now.layout
            (pictures.size_of (frame_of picture.old.shape) c) room.old }
        ensures beside { AreBeside short.now self.new.bands }
        ensures made { self.new.is_made ≡ true }
        ensures picture { picture.new
            ≡ with_synthesised params.now.wavelet picture.old c
            (stack_of (shown_trio short.now) c) }
        ensures room { HasSynthesisRoom params.now.layout
            (pictures.size_of (frame_of picture.old.shape) c) room.new }
        ensures allowed { IsAllowed params.now.layout }
    {
        self.is_wide = false;
        self.narrow.take_component(short, c, row);
        let bands = narrow_stack(self.narrow.bands(), c);
        show_in_32_bits(params, bands, &mut room.narrow, c, picture);
    }
}
