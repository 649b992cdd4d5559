//! Bands of 16 bits slice by slice.

ghost use Rattle.std.specs.Prelude.{◌≡◌, ◌↔◌, ◌^◌, ◌<◌, ◌≤◌, length, true, ⊤, IfOk, MatchResult, MatchOption};
ghost use Rattle.planes.specs.declared.Trio.{Trio};
ghost use Rattle.slice_geometry.specs.Shape.{IsSize};
ghost use Rattle.slice_store.specs.ShortBands.{short_stack, IsShortSound};
ghost use Rattle.slice_decoder.specs.Slice.{slice_at};
ghost use Rattle.slice_decoder.specs.Decoded.{AreReady, AllKeepOthers, IsDecoded, IsRefused};
ghost use Rattle.slice_decoder.specs.Short.{shown_trio, IsCut, AreCut};
ghost use Rattle.picture_codec.specs.Decoding.{AreNewBands};
ghost use Rattle.picture_codec.specs.ShortSlices.{AreShortSound, AreBeside};

use crate::late_narrow::MOST_VALUES;
use crate::workspace::all_made;
use bounded_blocks::CodeTable;
use planes::NoMemory;
use slice_decoder::{CodedSlice, ShortRoom, SliceFault, decode_short};
use slice_geometry::{Layout, PictureShape, Size, SliceHead};
use slice_store::{ShortBands, ShortTrio};
use std::alloc::Global;
use std::marker::Model;
use transform_params::TransformParams;

/// Whether bands of 16 bits may serve: no sample has more than 15 bits.
pub(crate) fn are_short(shape: &PictureShape) -> bool
    ensures { (result ≡ true) ↔ ((shape.now.luma_depth ≤ 15) × (shape.now.colour_depth ≤ 15)) }
{
    shape.luma_depth <= 15 && shape.colour_depth <= 15
}

// The bands of a component in 16 bits, all zero. Where they don't serve they are those of one sample.
fn short_zero_bands(
    alloc: Global,
    layout: &Layout,
    size: Size,
    is_short: bool,
) -> Result<ShortBands, NoMemory>
    requires { IsSize size.w size.h }
    ensures zero { IfOk result (λ b. is_short ≡ true → AreNewBands layout.now size (short_stack b)) }
    ensures sound { IfOk result IsShortSound }
{
    let none = Size { w: 1, h: 1 };
    ShortBands::new(alloc, *layout, if is_short { size } else { none })
}

/// The same of all three components.
pub(crate) fn short_zero_trio(
    alloc: Global,
    layout: &Layout,
    shape: &PictureShape,
    is_short: bool,
) -> Result<ShortTrio, NoMemory>
    ensures luma { IfOk result (λ b. is_short ≡ true
        → AreNewBands layout.now shape.now.luma (short_stack b.luma)) }
    ensures c1 { IfOk result (λ b. is_short ≡ true
        → AreNewBands layout.now shape.now.colour (short_stack b.c1)) }
    ensures c2 { IfOk result (λ b. is_short ≡ true
        → AreNewBands layout.now shape.now.colour (short_stack b.c2)) }
    ensures sound { IfOk result AreShortSound }
{
    let (luma, c1, c2) = all_made(
        short_zero_bands(alloc, layout, shape.luma, is_short),
        short_zero_bands(alloc, layout, shape.colour, is_short),
        short_zero_bands(alloc, layout, shape.colour, is_short),
    )?;
    Ok(ShortTrio { luma, c1, c2 })
}

// How many places a slice has at most in a band of a level.
fn most_in_band(layout: &Layout, size: Size, level: u32) -> usize
    requires size { IsSize size.w size.h }
    requires level { level ≤ layout.now.depth }
    ensures { result ≤ 2 ^ 26 }
{
    let band = layout.band_size(size, level);
    band.w.div_ceil(layout.slices_x()) as usize * band.h.div_ceil(layout.slices_y()) as usize
}

// And in the bands of all levels.
fn most_places(layout: &Layout, size: Size) -> usize
    requires { IsSize size.w size.h }
    ensures { result ≤ 2 ^ 30 }
{
    let mut sum = most_in_band(layout, size, 0);
    for level in 0..layout.depth() {
        sum += 3 * most_in_band(layout, size, level + 1);
    }
    sum
}

// Whether a component's slices are cut as a layout has it.
fn is_cut(bands: &ShortBands, layout: &Layout, size: Size) -> bool
    requires { IsShortSound bands.now }
    ensures { result ≡ true → IsCut layout.now size bands.now }
{
    bands.slices.is_cut(layout, size)
}

// How many values there is room for: those of the greatest block of a slice. Blocks of very many are read into wider bands.
fn most_values(layout: &Layout, shape: &PictureShape, is_short: bool) -> usize {
    if !is_short {
        return 1;
    }
    let luma = most_places(layout, shape.luma);
    let colour = most_places(layout, shape.colour);
    luma.max(2 * colour).min(MOST_VALUES)
}

/// The bands of the three components in 16 bits, slice by slice.
#[derive(Drop)]
pub struct ShortSlices {
    bands: ShortTrio,
    room: ShortRoom,
}

impl Model for ShortSlices {
    ghost use Rattle.slice_store.specs.declared.short_bands.ShortTrio as trio;
    ghost use Rattle.picture_codec.specs.ShortSlices.{AreShortSound};

    ghost Value = { trio.ShortTrio };

    ghost view = { λ b. b.bands };

    ghost invariant = { λ b. AreShortSound b.bands };
}

impl ShortSlices {
    /// The bands of pictures of this shape, all zero, where they may serve; else they are those of one sample.
    pub(crate) fn new(
        alloc: Global,
        layout: &Layout,
        shape: &PictureShape,
        is_short: bool,
    ) -> Result<ShortSlices, NoMemory>
        ensures luma { IfOk result (λ b. is_short ≡ true
            → AreNewBands layout.now shape.now.luma (short_stack b.luma)) }
        ensures c1 { IfOk result (λ b. is_short ≡ true
            → AreNewBands layout.now shape.now.colour (short_stack b.c1)) }
        ensures c2 { IfOk result (λ b. is_short ≡ true
            → AreNewBands layout.now shape.now.colour (short_stack b.c2)) }
    {
        let room = ShortRoom::new(alloc, most_values(layout, shape, is_short))?;
        let bands = short_zero_trio(alloc, layout, shape, is_short)?;
        Ok(ShortSlices { bands, room })
    }

    /// The bands.
    pub(crate) fn bands(&self) -> &ShortTrio
        ensures value { result.now ≡ self.now }
        ensures sound { AreShortSound result.now }
    {
        &self.bands
    }

    // Whether a layout cuts the components as their slices lie.
    fn are_cut(&self, layout: &Layout, shape: &PictureShape) -> bool
        ensures { result ≡ true → AreCut layout.now shape.now self.now }
    {
        // The contract alone names it.
        let _ = &self.room;
        is_cut(&self.bands.luma, layout, shape.luma)
            && is_cut(&self.bands.c1, layout, shape.colour)
            && is_cut(&self.bands.c2, layout, shape.colour)
    }

    /// Decodes a slice as `decode_slice` does. It gives no head where 16 bits don't serve, or where these slices don't lie as the
    /// layout cuts the picture. That is asked at each slice, since no clause says that they were made for this layout.
    pub(crate) fn decode(
        &mut self,
        params: &TransformParams,
        shape: &PictureShape,
        sx: u32,
        sy: u32,
        bytes: &[u8],
        codes: &CodeTable,
    ) -> Result<Option<SliceHead>, SliceFault>
        requires across { sx < params.now.layout.slices_x }
        requires down { sy < params.now.layout.slices_y }
        requires some { 1 ≤ length bytes.now }
        requires most { length bytes.now ≤ 2 ^ 28 }
        requires entries { params.now.matrix.depth ≡ params.now.layout.depth }
        requires ready { AreReady params.now.layout shape.now sx sy (shown_trio self.old) }
        ensures decoded { let slice = slice_at params.now.layout shape.now.luma shape.now.colour sx
            sy bytes.now in
            MatchResult result
            (λ answer. MatchOption answer ⊤
            (λ head. IsDecoded params.now.layout shape.now sx sy params.now.matrix slice head
            (shown_trio self.new)))
            (IsRefused params.now.layout shape.now sx sy params.now.matrix slice) }
        ensures others { AllKeepOthers params.now.layout shape.now sx sy (shown_trio self.old)
            (shown_trio self.new) }
        ensures beside { (rows : Trio) → AreBeside self.old rows → AreBeside self.new rows }
    {
        if !self.are_cut(&params.layout, shape) {
            return Ok(None);
        }
        let (layout, matrix) = (&params.layout, &params.matrix);
        let coded = CodedSlice {
            layout,
            shape,
            matrix,
            sx,
            sy,
            bytes,
        };
        match decode_short(coded, codes, &mut self.bands, &mut self.room) {
            Ok(answer) => Ok(answer),
            Err(fault) => Err(fault),
        }
    }
}
