// A slice of which the index is found, listed and written.

ghost use Rattle.std.specs.Prelude.{◌≡◌, ◌^◌, ◌<◌, ◌≤◌, length, true, IfOk};
ghost use Rattle.bit_codes.specs.Bits.{bits_of};
ghost use Rattle.planes.specs.declared.Trio.{Trio};
ghost use Rattle.slice_geometry.specs.Slicing.{Slicing};
ghost use Rattle.slice_encoder.specs.Buffers.{HoldsLists, high_lists, lists_held};
ghost use Rattle.slice_encoder.specs.Choice.{slice_bits};
ghost use Rattle.slice_encoder.specs.GatheredSlices.{AreAllGathered};
ghost use Rattle.slice_encoder.specs.Jobs.{picture_of};
ghost use Rattle.slice_encoder.specs.Room.{HasHighRoom};

use crate::block_texts::BlockValues;
use crate::code_tables::Texts;
use crate::gathered::GatheredSlice;
use crate::jobs::SliceJob;
use crate::listing::{list_colour, list_luma};
use crate::packing::put_slice;
use crate::room::most_places;
use crate::scale_rows::ScaledSizes;
use crate::search::Found;
use planes::NoMemory;
use slice_geometry::{Layout, PictureShape};
use std::alloc::Global;

/// Room for the values of a slice outside its lowest subbands and for their places in the table of pairs, and that table.
#[derive(Drop)]
pub struct SliceWriter {
    pub luma: Vec<i32>,
    pub colour: Vec<i32>,
    pub luma_places: Vec<u8>,
    pub colour_places: Vec<u8>,
    pub texts: Texts,
    pub scaled: ScaledSizes,
}

impl SliceWriter {
    /// Room for the values of the greatest slice.
    pub fn new(
        alloc: Global,
        layout: &Layout,
        shape: &PictureShape,
    ) -> Result<SliceWriter, NoMemory>
        ensures { IfOk result (HasHighRoom layout.now shape.now) }
    {
        let lumas = most_places(layout, shape.luma);
        let colours = 2 * most_places(layout, shape.colour);
        let luma = Vec::from_elem(alloc, 0i32, lumas)?;
        let colour = Vec::from_elem(alloc, 0i32, colours)?;
        let luma_places = Vec::from_elem(alloc, 0u8, lumas)?;
        let colour_places = Vec::from_elem(alloc, 0u8, colours)?;
        let texts = Texts::new(alloc)?;
        let scaled = ScaledSizes::new(alloc, lumas.max(colours))?;
        Ok(SliceWriter {
            luma,
            colour,
            luma_places,
            colour_places,
            texts,
            scaled,
        })
    }

    /// Writes a slice at the index that was found, by the values of its lowest subbands, which two buffers hold.
    pub fn put(
        &mut self,
        job: SliceJob<'_>,
        gathered: &GatheredSlice,
        found: Found,
        luma: &[i64],
        colour: &[i64],
        bytes: &mut [u8],
    )
        ghost coefficients: { Trio }
        requires some { 1 ≤ length bytes.old }
        requires most { length bytes.old ≤ 2 ^ 28 }
        requires across { job.sx < job.layout.now.slices_x }
        requires down { job.sy < job.layout.now.slices_y }
        requires entries { job.matrix.now.depth ≡ job.layout.now.depth }
        requires index { found.index ≤ 127 }
        requires gathered { AreAllGathered (picture_of job coefficients) job.sx job.sy gathered.now }
        requires room { HasHighRoom job.layout.now job.shape.now self.old }
        requires holds { HoldsLists (lists_held (picture_of job coefficients) job.sx job.sy found.index
            found.trying luma.now colour.now) (high_lists (picture_of job coefficients) found.index job.sx
            job.sy) (length bytes.old) found.trying luma.now colour.now }
        requires fits { found.trying.fits ≡ true }
        ensures room { (s : Slicing) → HasHighRoom s job.entry.shape.now self.old
            → HasHighRoom s job.entry.shape.now self.new }
        ensures bits { bits_of bytes.new ≡ slice_bits (length bytes.old) found.index
            (lists_held (picture_of job.entry coefficients) job.entry.sx job.entry.sy found.index found.trying
            luma.now colour.now) }
    {
        let (index, trying) = (found.index, found.trying);
        let lumas = trying.looks.luma.last as usize;
        let colours = trying.looks.colour.last as usize;
        list_luma(
            gathered,
            job.matrix,
            index,
            lumas,
            &mut self.scaled,
            &mut self.luma,
            &mut self.luma_places,
        );
        list_colour(
            gathered,
            job.matrix,
            index,
            colours,
            &mut self.scaled,
            &mut self.colour,
            &mut self.colour_places,
        );
        let luma = BlockValues {
            lowest: &luma[..trying.luma],
            high: &self.luma[..lumas],
            places: &self.luma_places[..lumas],
        };
        let colour = BlockValues {
            lowest: &colour[..trying.colour],
            high: &self.colour[..colours],
            places: &self.colour_places[..colours],
        };
        put_slice(bytes, index, trying.luma_need, luma, colour, &self.texts);
    }
}
