//! A slice into bands of 32 bits, whose magnitudes are at most 2^18.

ghost use Rattle.std.specs.Prelude.{◌+◌, ◌*◌, ◌^◌, ◌<◌, length, pos};
ghost use Rattle.planes.specs.Bounded.{AreBandsWithin};
ghost use Rattle.slice_decoder.specs.Components.{BandsKeep};
ghost use Rattle.slice_decoder.specs.Jobs.{part_in, IsPartJob, AreSizedBands, AllHold};
ghost use Rattle.slice_decoder.specs.Narrow.{block_values, Answers};

use crate::jobs::PartJob;
use crate::levels::count_places;
use crate::narrow_placing::{put_colour, put_luma};
use crate::narrow_restoring::read_values;
use bounded_blocks::{Block, CodeTable, SPARE};
use planes::NarrowBands;

/// Reads the values of a block into a component's subbands. It answers false where these don't serve: there are more
/// values than the buffer has room for, or the magnitude of one passes 2^18.
pub fn read_luma(
    block: &Block<'_>,
    codes: &CodeTable,
    bands: &mut NarrowBands,
    job: PartJob<'_>,
    buffer: &mut [i32],
) -> bool
    requires job { IsPartJob job }
    requires sizes { AreSizedBands (part_in job) bands.old }
    requires narrow { AreBandsWithin (pos (2 ^ 18)) bands.old }
    ensures answer { Answers (pos (2 ^ 18)) (length buffer.old)
        (block_values 1 (part_in job.entry) block.now)
        (AllHold 1 0 (part_in job.entry) block.now bands.old bands.new) result }
    ensures keeps { BandsKeep (part_in job.entry) bands.old bands.new }
    ensures narrow { AreBandsWithin (pos (2 ^ 18)) bands.new }
{
    let count = count_places(job);
    if count + SPARE > buffer.len() {
        return false;
    }
    if !read_values(block, codes, buffer, count, 1, job) {
        return false;
    }
    put_luma(&buffer[..count], bands, job);
    true
}

/// Reads the values of a block into the subbands of the two colour components, which take them in turn. It answers false
/// where these don't serve.
pub fn read_colour(
    block: &Block<'_>,
    codes: &CodeTable,
    first: &mut NarrowBands,
    second: &mut NarrowBands,
    job: PartJob<'_>,
    buffer: &mut [i32],
) -> bool
    requires job { IsPartJob job }
    requires first_sizes { AreSizedBands (part_in job) first.old }
    requires second_sizes { AreSizedBands (part_in job) second.old }
    requires first_narrow { AreBandsWithin (pos (2 ^ 18)) first.old }
    requires second_narrow { AreBandsWithin (pos (2 ^ 18)) second.old }
    ensures answer { Answers (pos (2 ^ 18)) (length buffer.old)
        (block_values 2 (part_in job.entry) block.now)
        (AllHold 2 0 (part_in job.entry) block.now first.old first.new
        × AllHold 2 1 (part_in job.entry) block.now second.old second.new) result }
    ensures first_keeps { BandsKeep (part_in job.entry) first.old first.new }
    ensures second_keeps { BandsKeep (part_in job.entry) second.old second.new }
    ensures first_narrow { AreBandsWithin (pos (2 ^ 18)) first.new }
    ensures second_narrow { AreBandsWithin (pos (2 ^ 18)) second.new }
{
    let count = 2 * count_places(job);
    if count + SPARE > buffer.len() {
        return false;
    }
    if !read_values(block, codes, buffer, count, 2, job) {
        return false;
    }
    put_colour(&buffer[..count], first, second, job);
    true
}
