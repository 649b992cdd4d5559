//! The memory that slices are decoded with in 16 bits.

ghost use Rattle.std.specs.Prelude.{◌≡◌, ◌+◌, IfOk};
ghost use Rattle.bounded_blocks.specs.declared.TheConstants.{SPARE};
ghost use Rattle.slice_store.specs.declared.short_bands.TheConstants.{MAX_SHORT};
ghost use Rattle.slice_store.specs.ShortBands.{short_stack};
ghost use Rattle.slice_decoder.specs.Components.{BandsKeep};
ghost use Rattle.slice_decoder.specs.Jobs.{short_part, IsShortJob, AllHold};
ghost use Rattle.slice_decoder.specs.Narrow.{block_values, Answers};
ghost use Rattle.slice_decoder.specs.Short.{IsCut};

use crate::jobs::ShortJob;
use crate::short::{read_colour, read_luma};
use crate::step_rows::StepRows;
use bounded_blocks::{Block, CodeTable, SPARE};
use planes::NoMemory;
use slice_store::ShortBands;
use std::alloc::Global;
use std::marker::Model;

/// Room for the values of a block, and how each is restored at the indices that were met. Contracts see how many values there
/// is room for, with the places behind them that reading takes.
#[derive(Drop)]
pub struct ShortRoom {
    buffer: Vec<i16>,
    luma: StepRows,
    colour: StepRows,
}

impl Model for ShortRoom {
    ghost use Rattle.std.specs.Prelude.{ℕ, ◌+◌, ◌≤◌, length};
    ghost use Rattle.bounded_blocks.specs.declared.TheConstants.{SPARE};

    ghost Value = { ℕ };

    ghost view = { λ r. length r.buffer.items };

    ghost invariant = { λ r. (length r.buffer.items ≤ r.luma + SPARE) × (length r.buffer.items ≤ r.colour + SPARE) };
}

impl ShortRoom {
    /// Room for blocks of so many values.
    pub fn new(alloc: Global, places: usize) -> Result<ShortRoom, NoMemory>
        ensures { IfOk result (λ r. r ≡ places + SPARE) }
    {
        Ok(ShortRoom {
            buffer: Vec::from_elem(alloc, 0i16, places.saturating_add(SPARE))?,
            luma: StepRows::new(alloc, places)?,
            colour: StepRows::new(alloc, places)?,
        })
    }

    // Reads the values of a block into a component's subbands. It answers false where these don't serve.
    pub(crate) fn read_luma(
        &mut self,
        block: &Block<'_>,
        codes: &CodeTable,
        bands: &mut ShortBands,
        job: ShortJob<'_>,
    ) -> bool
        requires job { IsShortJob job }
        requires cut { IsCut job.layout.now job.size bands.old }
        ensures answer { Answers MAX_SHORT self.old
            (block_values 1 (short_part job.entry) block.now)
            (AllHold 1 0 (short_part job.entry) block.now (short_stack bands.old)
            (short_stack bands.new)) result }
        ensures keeps { BandsKeep (short_part job.entry) (short_stack bands.old)
            (short_stack bands.new) }
        ensures cut { IsCut job.entry.layout.now job.entry.size bands.new }
        ensures room { self.new ≡ self.old }
    {
        read_luma(block, codes, bands, job, &mut self.luma, &mut self.buffer)
    }

    // The same of the two colour components, which take the values in turn.
    pub(crate) fn read_colour(
        &mut self,
        block: &Block<'_>,
        codes: &CodeTable,
        first: &mut ShortBands,
        second: &mut ShortBands,
        job: ShortJob<'_>,
    ) -> bool
        requires job { IsShortJob job }
        requires first_cut { IsCut job.layout.now job.size first.old }
        requires second_cut { IsCut job.layout.now job.size second.old }
        ensures answer { Answers MAX_SHORT self.old
            (block_values 2 (short_part job.entry) block.now)
            (AllHold 2 0 (short_part job.entry) block.now (short_stack first.old)
            (short_stack first.new)
            × AllHold 2 1 (short_part job.entry) block.now (short_stack second.old)
            (short_stack second.new)) result }
        ensures first_keeps { BandsKeep (short_part job.entry) (short_stack first.old)
            (short_stack first.new) }
        ensures second_keeps { BandsKeep (short_part job.entry) (short_stack second.old)
            (short_stack second.new) }
        ensures first_cut { IsCut job.entry.layout.now job.entry.size first.new }
        ensures second_cut { IsCut job.entry.layout.now job.entry.size second.new }
        ensures room { self.new ≡ self.old }
    {
        let steps = &mut self.colour;
        read_colour(block, codes, first, second, job, steps, &mut self.buffer)
    }
}
