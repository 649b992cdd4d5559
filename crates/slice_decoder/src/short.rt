//! A slice into bands of 16 bits.

ghost use Rattle.std.specs.Prelude.{◌≡◌, ℕ, ◌+◌, ◌-◌, ◌*◌, ◌<◌, ◌≤◌, true, length, slice_index_or, pos};
ghost use Rattle.bit_codes.specs.declared.TheConstants as bits;
ghost use Rattle.bounded_blocks.specs.declared.TheConstants.{SPARE};
ghost use Rattle.planes.specs.Bounded.{IsWithin};
ghost use Rattle.slice_store.specs.declared.short_bands.TheConstants.{MAX_SHORT};
ghost use Rattle.slice_store.specs.ShortBands.{short_stack};
ghost use Rattle.slice_decoder.specs.Components.{BandsKeep};
ghost use Rattle.slice_decoder.specs.Dealing.{dealt};
ghost use Rattle.slice_decoder.specs.Jobs.{short_part, IsShortJob, AllHold, AllTake, RestStays, places_of};
ghost use Rattle.slice_decoder.specs.Narrow.{block_values, Answers};
ghost use Rattle.slice_decoder.specs.Restored.{StayWithin};
ghost use Rattle.slice_decoder.specs.RestoredBands.{all_quantisers};
ghost use Rattle.slice_decoder.specs.Short.{IsCut};

use crate::jobs::ShortJob;
use crate::placing::put_rect;
use crate::step_rows::{StepRows, key_of};
use bounded_blocks::{Block, CodeTable, SPARE};
use slice_store::ShortBands;

// Puts the values of a slice at its places in a component's subbands.
#[inline(always)]
fn put_values(values: &[i16], bands: &mut ShortBands, job: ShortJob<'_>)
    requires job { IsShortJob job }
    requires cut { IsCut job.layout.now job.size bands.old }
    requires count { length values.now ≡ 1 * places_of (short_part job) }
    requires short { (k : ℕ) → k < length values.now
        → IsWithin MAX_SHORT (slice_index_or values.now k (pos 0)) }
    ensures takes { AllTake 1 0 (short_part job.entry) values.now (short_stack bands.old)
        (short_stack bands.new) }
    ensures rest { RestStays (short_part job.entry) (short_stack bands.old)
        (short_stack bands.new) }
    ensures cut { IsCut job.entry.layout.now job.entry.size bands.new }
{
    put_rect::<i16, i32, 1>(values, 0, 0, &mut bands.lowest, job.lowest);
    bands.slices.put_run(job.place.sx, job.place.sy, values);
}

// Puts the values of a slice at its places in two components, which take them in turn.
fn put_in_turn(values: &[i16], first: &mut ShortBands, second: &mut ShortBands, job: ShortJob<'_>)
    requires job { IsShortJob job }
    requires first_cut { IsCut job.layout.now job.size first.old }
    requires second_cut { IsCut job.layout.now job.size second.old }
    requires count { length values.now ≡ 2 * places_of (short_part job) }
    requires short { (k : ℕ) → k < length values.now
        → IsWithin MAX_SHORT (slice_index_or values.now k (pos 0)) }
    ensures first_takes { AllTake 2 0 (short_part job.entry) values.now (short_stack first.old)
        (short_stack first.new) }
    ensures second_takes { AllTake 2 1 (short_part job.entry) values.now (short_stack second.old)
        (short_stack second.new) }
    ensures first_rest { RestStays (short_part job.entry) (short_stack first.old)
        (short_stack first.new) }
    ensures second_rest { RestStays (short_part job.entry) (short_stack second.old)
        (short_stack second.new) }
    ensures first_cut { IsCut job.entry.layout.now job.entry.size first.new }
    ensures second_cut { IsCut job.entry.layout.now job.entry.size second.new }
{
    let (sx, sy) = (job.place.sx, job.place.sy);
    put_rect::<i16, i32, 2>(values, 0, 0, &mut first.lowest, job.lowest);
    put_rect::<i16, i32, 2>(values, 0, 1, &mut second.lowest, job.lowest);
    first.slices.put_in_turn(&mut second.slices, sx, sy, values);
}

// Reads the values of a slice in one component, or of two that take them in turn, dequantised, into the front of a
// buffer. It answers false where a magnitude passes 2^14 - 1.
fn read_values(
    block: &Block<'_>,
    codes: &CodeTable,
    buffer: &mut [i16],
    count: usize,
    each: usize,
    steps: &mut StepRows,
    job: ShortJob<'_>,
) -> bool
    requires job { IsShortJob job }
    requires count { count ≡ each * places_of (short_part job) }
    requires room { count + SPARE ≤ length buffer.old }
    requires places { count ≤ steps.old }
    ensures within { StayWithin bits.MAX_SHORT result (λ k. slice_index_or
        (dealt block.now (all_quantisers each (short_part job.entry))) k (pos 0)) 0 count }
    ensures values { result ≡ true → (k : ℕ) → k < count → slice_index_or buffer.new k (pos 0)
        ≡ slice_index_or (dealt block.now (all_quantisers each (short_part job.entry))) k (pos 0) }
    ensures places { steps.new ≡ steps.old }
{
    if !block.short_values(codes, count, buffer) {
        return false;
    }
    steps.restore(key_of(each, job), &mut buffer[..count])
}

/// Reads the values of a block into a component's subbands. It answers false where these don't serve: there are more
/// values than the buffer has room for, or the magnitude of one passes `MAX_SHORT`.
pub fn read_luma(
    block: &Block<'_>,
    codes: &CodeTable,
    bands: &mut ShortBands,
    job: ShortJob<'_>,
    steps: &mut StepRows,
    buffer: &mut [i16],
) -> bool
    requires job { IsShortJob job }
    requires cut { IsCut job.layout.now job.size bands.old }
    requires places { length buffer.old ≤ steps.old + SPARE }
    ensures answer { Answers MAX_SHORT (length buffer.old)
        (block_values 1 (short_part job.entry) block.now)
        (AllHold 1 0 (short_part job.entry) block.now (short_stack bands.old)
        (short_stack bands.new))
        result }
    ensures keeps { BandsKeep (short_part job.entry) (short_stack bands.old)
        (short_stack bands.new) }
    ensures cut { IsCut job.entry.layout.now job.entry.size bands.new }
    ensures places { steps.new ≡ steps.old }
{
    let _ = job.layout.depth();
    let count = bands.slices.run_length(job.place.sx, job.place.sy);
    if count + SPARE > buffer.len() {
        return false;
    }
    if !read_values(block, codes, buffer, count, 1, steps, job) {
        return false;
    }
    put_values(&buffer[..count], bands, job);
    true
}

/// Reads the values of a block into the subbands of the two colour components, which take them in turn. It answers false
/// where these don't serve.
pub fn read_colour(
    block: &Block<'_>,
    codes: &CodeTable,
    first: &mut ShortBands,
    second: &mut ShortBands,
    job: ShortJob<'_>,
    steps: &mut StepRows,
    buffer: &mut [i16],
) -> bool
    requires job { IsShortJob job }
    requires first_cut { IsCut job.layout.now job.size first.old }
    requires second_cut { IsCut job.layout.now job.size second.old }
    requires places { length buffer.old ≤ steps.old + SPARE }
    ensures answer { Answers MAX_SHORT (length buffer.old)
        (block_values 2 (short_part job.entry) block.now)
        (AllHold 2 0 (short_part job.entry) block.now (short_stack first.old)
        (short_stack first.new)
        × AllHold 2 1 (short_part job.entry) block.now (short_stack second.old)
        (short_stack second.new)) result }
    ensures first_keeps { BandsKeep (short_part job.entry) (short_stack first.old)
        (short_stack first.new) }
    ensures second_keeps { BandsKeep (short_part job.entry) (short_stack second.old)
        (short_stack second.new) }
    ensures first_cut { IsCut job.entry.layout.now job.entry.size first.new }
    ensures second_cut { IsCut job.entry.layout.now job.entry.size second.new }
    ensures places { steps.new ≡ steps.old }
{
    let _ = job.layout.depth();
    let count = 2 * first.slices.run_length(job.place.sx, job.place.sy);
    if count + SPARE > buffer.len() {
        return false;
    }
    if !read_values(block, codes, buffer, count, 2, steps, job) {
        return false;
    }
    put_in_turn(&buffer[..count], first, second, job);
    true
}
