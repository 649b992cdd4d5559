//! The bands of 32 bits, which are made once a slice needs them.

ghost use Rattle.std.specs.Prelude.{◌≡◌, ◌^◌, ◌<◌, ◌≤◌, length, pos, true, false, ⊤, IfOk, MatchResult, MatchOption};
ghost use Rattle.planes.specs.Bounded.{AreBandsWithin};
ghost use Rattle.slice_store.specs.Gathered.{ShowTheSame};
ghost use Rattle.slice_store.specs.ShortBands.{short_stack, IsShortSound};
ghost use Rattle.slice_decoder.specs.Slice.{slice_at};
ghost use Rattle.slice_decoder.specs.Decoded.{AreReady, AllKeepOthers, IsDecoded, IsRefused};
ghost use Rattle.slice_decoder.specs.Narrow.{trio_of, AreNarrowBands};
ghost use Rattle.slice_decoder.specs.Short.{shown_trio};
ghost use Rattle.picture_codec.specs.Decoding.{AreNewBands, stack_of};
ghost use Rattle.picture_codec.specs.ShortSlices.{AllShowTheSame, AreShortSound, AreBeside};
ghost use Rattle.picture_codec.specs.DecodedBands.{AllAgree, narrow_of};

use crate::workspace::{late_zero_trio, rowless_narrow_trio};
use bounded_blocks::{CodeTable, SPARE};
use planes::{LateTrio, NarrowTrio, NoMemory, Trio};
use quant_factors::Matrix;
use slice_decoder::{CodedSlice, SliceFault, decode_narrow};
use slice_geometry::{Component, Layout, PictureShape, SliceHead};
use slice_store::ShortTrio;
use std::alloc::Global;
use std::marker::Model;

/// The most values of a block that are read into bands of 16 or 32 bits.
pub(crate) const MOST_VALUES: usize = 1 << 20;

// How many values there is room for: those of about the greatest block of a picture's slices, and the places behind them
// that reading takes. A block of more is read into wider bands.
fn room_of(layout: &Layout, shape: &PictureShape) -> usize {
    let depth = layout.depth();
    let across = shape.luma.w / layout.slices_x() + (2 << depth);
    let down = shape.luma.h / layout.slices_y() + (2 << depth);
    let values = across as usize * down as usize;
    (2 * values).min(MOST_VALUES) + SPARE
}

/// The bands of 32 bits, no magnitude being above 2^18. Their memory is taken with them, and isn't touched before they are
/// made. Contracts see the bands, all zero until then, and whether they are made.
#[derive(Drop)]
pub struct LateNarrow {
    late: LateTrio<i32>,
    made: NarrowTrio,
    is_made: bool,
    codes: CodeTable,
    buffer: Vec<i32>,
}

impl Model for LateNarrow {
    ghost use Rattle.std.specs.Prelude.{◌≡◌, false, if◌then◌else◌};
    ghost use Rattle.planes.specs.declared.NarrowTrio as trio;
    ghost use Rattle.picture_codec.specs.DecodedBands.{LateSeen, narrow_of, late_of, IsLateNarrow};

    ghost Value = { LateSeen trio.NarrowTrio };

    ghost view = { λ b. record { bands = if b.is_made then b.made else narrow_of (late_of b.late); is_made = b.is_made } };

    ghost invariant = { λ b. IsLateNarrow b.late b.made b.is_made };
}

impl LateNarrow {
    /// The bands of pictures of this shape, all zero and not yet made.
    pub(crate) fn new(
        alloc: Global,
        layout: &Layout,
        shape: &PictureShape,
    ) -> Result<LateNarrow, NoMemory>
        ensures zero { IfOk result (λ b. AreNewBands layout.now shape.now.luma b.bands.luma
            × AreNewBands layout.now shape.now.colour b.bands.c1
            × AreNewBands layout.now shape.now.colour b.bands.c2) }
        ensures late { IfOk result (λ b. b.is_made ≡ false) }
    {
        let buffer = Vec::from_elem(alloc, 0i32, room_of(layout, shape))?;
        let codes = CodeTable::new(alloc)?;
        let made = rowless_narrow_trio(alloc, layout.depth())?;
        let late = late_zero_trio(alloc, layout, shape)?;
        Ok(LateNarrow {
            late,
            made,
            is_made: false,
            codes,
            buffer,
        })
    }

    /// Sees to it that the bands are made.
    pub(crate) fn make(&mut self)
        ensures { self.new ≡ record self.old { is_made = true } }
    {
        if self.is_made {
            return;
        }
        self.late.luma.make(&mut self.made.luma);
        self.late.c1.make(&mut self.made.c1);
        self.late.c2.make(&mut self.made.c2);
        self.is_made = true;
    }

    /// The bands, which are made.
    pub(crate) fn bands(&self) -> &NarrowTrio
        requires { self.now.is_made ≡ true }
        ensures value { result.now ≡ self.now.bands }
        ensures narrow { AreNarrowBands result.now }
    {
        &self.made
    }

    /// The codes that slices are read with.
    pub(crate) fn codes(&self) -> &CodeTable {
        &self.codes
    }

    /// Gives them the numbers of those of 64 bits, which fit.
    pub(crate) fn narrow(&mut self, wide: &Trio)
        requires sizes { AllAgree self.old.bands wide.now }
        requires small { AreNarrowBands (narrow_of wide.now) }
        ensures { self.new ≡ record { bands = narrow_of wide.now; is_made = true } }
    {
        self.make();
        self.made.luma.narrow(&wide.luma);
        self.made.c1.narrow(&wide.c1);
        self.made.c2.narrow(&wide.c2);
    }

    /// Gives them what bands of 16 bits show, by a row of 16 bits.
    pub(crate) fn take(&mut self, short: &ShortTrio, row: &mut [i16])
        requires sound { AreShortSound short.now }
        requires beside { AreBeside short.now (trio_of self.old.bands) }
        requires room { length row.old ≡ 8208 }
        ensures made { self.new.is_made ≡ true }
        ensures same { AllShowTheSame (shown_trio short.now) (trio_of self.new.bands) }
    {
        self.make();
        short.luma.slices.shows();
        short.c1.slices.shows();
        short.c2.slices.shows();
        short.luma.widen(&mut self.made.luma, row);
        short.c1.widen(&mut self.made.c1, row);
        short.c2.widen(&mut self.made.c2, row);
    }

    /// Gives those of one component what bands of 16 bits show.
    pub(crate) fn take_component(&mut self, short: &ShortTrio, c: Component, row: &mut [i16])
        requires sound { AreShortSound short.now }
        requires beside { AreBeside short.now (trio_of self.old.bands) }
        requires room { length row.old ≡ 8208 }
        ensures made { self.new.is_made ≡ true }
        ensures same { ShowTheSame (stack_of (shown_trio short.now) c)
            (stack_of (trio_of self.new.bands) c) }
        ensures beside { AreBeside short.now (trio_of self.new.bands) }
    {
        self.make();
        match c {
            Component::Luma => {
                short.luma.slices.shows();
                short.luma.widen(&mut self.made.luma, row)
            }
            Component::C1 => {
                short.c1.slices.shows();
                short.c1.widen(&mut self.made.c1, row)
            }
            Component::C2 => {
                short.c2.slices.shows();
                short.c2.widen(&mut self.made.c2, row)
            }
        }
    }

    /// Decodes a slice as `decode_slice` does. It gives no head where 32 bits don't serve.
    pub(crate) fn decode_narrow(
        &mut self,
        layout: &Layout,
        shape: &PictureShape,
        matrix: &Matrix,
        sx: u32,
        sy: u32,
        bytes: &[u8],
    ) -> Result<Option<SliceHead>, SliceFault>
        requires across { sx < layout.now.slices_x }
        requires down { sy < layout.now.slices_y }
        requires some { 1 ≤ length bytes.now }
        requires most { length bytes.now ≤ 2 ^ 28 }
        requires entries { matrix.now.depth ≡ layout.now.depth }
        requires ready { AreReady layout.now shape.now sx sy (trio_of self.old.bands) }
        ensures made { self.new.is_made ≡ true }
        ensures decoded { let slice = slice_at layout.now shape.now.luma shape.now.colour sx sy
            bytes.now in
            MatchResult result
            (λ answer. MatchOption answer ⊤
            (λ head. IsDecoded layout.now shape.now sx sy matrix.now slice head
            (trio_of self.new.bands)))
            (IsRefused layout.now shape.now sx sy matrix.now slice) }
        ensures others { AllKeepOthers layout.now shape.now sx sy (trio_of self.old.bands)
            (trio_of self.new.bands) }
    {
        self.make();
        let coded = CodedSlice {
            layout,
            shape,
            matrix,
            sx,
            sy,
            bytes,
        };
        match decode_narrow(coded, &self.codes, &mut self.made, &mut self.buffer) {
            Ok(answer) => Ok(answer),
            Err(fault) => Err(fault),
        }
    }
}
