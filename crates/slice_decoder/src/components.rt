// The values of a block, dealt out to the subbands of one component, or of the two colour components in turn.

ghost use Rattle.std.specs.Prelude.{◌≡◌, ◌+◌, ◌*◌, ◌<◌, ◌≤◌, true};
ghost use Rattle.planes.specs.Subbands.{orient_number};
ghost use Rattle.slice_geometry.specs.Shape.{IsSize};
ghost use Rattle.slice_decoder.specs.Slice.{are_small};
ghost use Rattle.slice_decoder.specs.Dealing.{dealt};
ghost use Rattle.slice_decoder.specs.Components.{BandsKeep};
ghost use Rattle.slice_decoder.specs.Jobs.{part_in, IsPartJob, AreSizedBands, AllHold};
ghost use Rattle.slice_decoder.specs.RestoredBands.{all_quantisers};

use crate::bands::{fill_rect, fill_rects};
use crate::jobs::PartJob;
use crate::levels::count_places;
use crate::placing::put_values;
use crate::restoring::read_values;
use bounded_blocks::Block;
use planes::{Bands, Orient};
use slice_geometry::band_numbered;

// The orientation of a number.
pub fn orient_numbered(number: u32) -> Orient
    requires { number ≤ 3 }
    ensures { orient_number result ≡ number }
{
    match number {
        0 => Orient::Ll,
        1 => Orient::Hl,
        2 => Orient::Lh,
        _ => Orient::Hh,
    }
}

// Fills a component's subbands with the next values, row by row. It answers false where a magnitude passes 2^36.
fn luma_by_rows(block: &mut Block<'_>, bands: &mut Bands, job: PartJob<'_>) -> bool
    requires size { IsSize job.size.w job.size.h }
    requires job { IsPartJob job }
    requires sizes { AreSizedBands (part_in job) bands.old }
    ensures small { result ≡ are_small (dealt block.old (all_quantisers 1 (part_in job.entry))) }
    ensures holds { result ≡ true → AllHold 1 0 (part_in job.entry) block.old bands.old bands.new }
    ensures keeps { BandsKeep (part_in job.entry) bands.old bands.new }
{
    for k in 0..3 * job.layout.depth() + 1 {
        let (level, orient) = band_numbered(k);
        let rect = job
            .layout
            .band_rect(job.size, level, job.place.sx, job.place.sy);
        let index = job
            .matrix
            .quantiser(job.place.qindex, level, orient_numbered(orient));
        if !fill_rect(block, bands.band_mut(level, orient), rect, index) {
            return false;
        }
    }
    true
}

// Fills the subbands of the two colour components, whose places take the values in turn, row by row. It answers false
// where a magnitude passes 2^36.
fn colour_by_rows(
    block: &mut Block<'_>,
    first: &mut Bands,
    second: &mut Bands,
    job: PartJob<'_>,
) -> bool
    requires size { IsSize job.size.w job.size.h }
    requires job { IsPartJob job }
    requires first_sizes { AreSizedBands (part_in job) first.old }
    requires second_sizes { AreSizedBands (part_in job) second.old }
    ensures small { result ≡ are_small (dealt block.old (all_quantisers 2 (part_in job.entry))) }
    ensures first { result ≡ true → AllHold 2 0 (part_in job.entry) block.old first.old first.new }
    ensures second { result ≡ true
        → AllHold 2 1 (part_in job.entry) block.old second.old second.new }
    ensures first_keeps { BandsKeep (part_in job.entry) first.old first.new }
    ensures second_keeps { BandsKeep (part_in job.entry) second.old second.new }
{
    let mut buffer = [0; 128];
    for k in 0..3 * job.layout.depth() + 1 {
        let (level, orient) = band_numbered(k);
        let rect = job
            .layout
            .band_rect(job.size, level, job.place.sx, job.place.sy);
        let index = job
            .matrix
            .quantiser(job.place.qindex, level, orient_numbered(orient));
        let one = first.band_mut(level, orient);
        let two = second.band_mut(level, orient);
        if !fill_rects(block, one, two, rect, index, &mut buffer) {
            return false;
        }
    }
    true
}

// Fills a component's subbands with the next values. It answers false where a magnitude passes 2^36. The values are
// read whole into the buffer where they have room there.
pub fn read_luma(
    block: &mut Block<'_>,
    bands: &mut Bands,
    job: PartJob<'_>,
    buffer: &mut [i64],
) -> bool
    requires size { IsSize job.size.w job.size.h }
    requires job { IsPartJob job }
    requires sizes { AreSizedBands (part_in job) bands.old }
    ensures small { result ≡ are_small (dealt block.old (all_quantisers 1 (part_in job.entry))) }
    ensures holds { result ≡ true → AllHold 1 0 (part_in job.entry) block.old bands.old bands.new }
    ensures keeps { BandsKeep (part_in job.entry) bands.old bands.new }
{
    let count = count_places(job);
    if count > buffer.len() {
        return luma_by_rows(block, bands, job);
    }
    let values = &mut buffer[..count];
    if !read_values(block, values, 1, job) {
        return false;
    }
    put_values::<1>(values, 0, bands, job);
    true
}

// Fills the subbands of the two colour components, whose places take the values in turn. It answers false where a
// magnitude passes 2^36. The values are read whole into the buffer where they have room there.
pub fn read_colour(
    block: &mut Block<'_>,
    first: &mut Bands,
    second: &mut Bands,
    job: PartJob<'_>,
    buffer: &mut [i64],
) -> bool
    requires size { IsSize job.size.w job.size.h }
    requires job { IsPartJob job }
    requires first_sizes { AreSizedBands (part_in job) first.old }
    requires second_sizes { AreSizedBands (part_in job) second.old }
    ensures small { result ≡ are_small (dealt block.old (all_quantisers 2 (part_in job.entry))) }
    ensures first { result ≡ true → AllHold 2 0 (part_in job.entry) block.old first.old first.new }
    ensures second { result ≡ true
        → AllHold 2 1 (part_in job.entry) block.old second.old second.new }
    ensures first_keeps { BandsKeep (part_in job.entry) first.old first.new }
    ensures second_keeps { BandsKeep (part_in job.entry) second.old second.new }
{
    let count = 2 * count_places(job);
    if count > buffer.len() {
        return colour_by_rows(block, first, second, job);
    }
    let values = &mut buffer[..count];
    if !read_values(block, values, 2, job) {
        return false;
    }
    put_values::<2>(values, 0, first, job);
    put_values::<2>(values, 1, second, job);
    true
}
