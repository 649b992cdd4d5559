// The least index at which a slice fits.

ghost use Rattle.std.specs.Prelude.{◌≡◌, ℕ, ◌+◌, ◌*◌, ◌^◌, ◌<◌, ◌≤◌, max, true, length, slice_index};
ghost use Rattle.planes.specs.declared.Trio.{Trio};
ghost use Rattle.slice_encoder.specs.Choice.{IsLeastIndex};
ghost use Rattle.slice_geometry.specs.Slicing.{slice_bytes, slice_number};
ghost use Rattle.slice_encoder.specs.TrialLaws.{IsSteepOk};
ghost use Rattle.slice_encoder.specs.Tries.{AreTried, tried_lists};
ghost use Rattle.slice_encoder.specs.Buffers.{HasListRoom, HoldsTrial};
ghost use Rattle.slice_encoder.specs.GatheredSlices.{AreAllGathered, HasSizes, AreLooks};
ghost use Rattle.slice_encoder.specs.RestoredSlice.{ListsLowest, WasTried, HoldsWhatWasTried};
ghost use Rattle.slice_encoder.specs.Jobs.{picture_of};
ghost use Rattle.slice_encoder.specs.Ready.{AreReadyToWrite};

use crate::candidates::{First, find_first};
use crate::first_residuals::first_residuals;
use crate::fitting::do_fit;
use crate::gathered::{GatheredSlice, Looks, SliceLimits};
use crate::jobs::SliceJob;
use crate::needs::need_by_look;
use crate::trying::{count_places, try_lowest};
use planes::ThreePlanes;
use quant_factors::Matrix;
use slice_geometry::Layout;

/// How many values of the lowest subbands a trial listed, the looks at the others, what all need, and whether they fit.
#[derive(Clone, Copy)]
pub struct Trying {
    pub luma: usize,
    pub colour: usize,
    pub looks: Looks,
    pub luma_need: u64,
    pub colour_need: u64,
    pub fits: bool,
}

/// The least index that fits and its trial, and the first index that may have fitted.
#[derive(Clone, Copy)]
pub struct Found {
    pub first: u32,
    pub index: u32,
    pub trying: Trying,
}

// The bytes of a slice.
pub fn share_of(layout: &Layout, sx: u32, sy: u32) -> u32
    requires across { sx < layout.now.slices_x }
    requires down { sy < layout.now.slices_y }
    ensures value { result ≡ slice_bytes layout.now.a layout.now.b (slice_number layout.now sx sy) }
    ensures some { 1 ≤ result }
    ensures most { result ≤ 2 ^ 28 }
{
    layout.share(sy * layout.slices_x() + sx)
}

// Counts what all values of a restored slice need: those of the lowest subbands are listed, the others are known by looks.
fn count_needs(
    job: SliceJob<'_>,
    index: u32,
    gathered: &GatheredSlice,
    looks: Looks,
    kept: &ThreePlanes,
    luma: &[i64],
    colour: &[i64],
) -> Trying
    ghost coefficients: { Trio }
    requires index { index ≤ 127 }
    requires some { 1 ≤ job.bytes }
    requires most { job.bytes ≤ 2 ^ 28 }
    requires looks { AreLooks looks gathered.now job.matrix.now index }
    requires restored { WasTried (picture_of job coefficients) job.sx job.sy index kept.now }
    requires gathered { AreAllGathered (picture_of job coefficients) job.sx job.sy gathered.now }
    requires listed { ListsLowest (picture_of job coefficients) job.sx job.sy index kept.now gathered.now.lowest
        luma.now
        colour.now }
    requires room { HasListRoom (picture_of job coefficients) job.sx job.sy (length luma.now)
        (length colour.now) }
    ensures { HoldsWhatWasTried (picture_of job.entry coefficients) job.entry.sx job.entry.sy index kept.now
        job.entry.bytes result luma.now colour.now }
{
    // The contract alone names it.
    let _ = kept;
    let _depth = job.layout.depth();
    let lumas = count_places(gathered.lowest.luma);
    let colours = 2 * count_places(gathered.lowest.colour);
    let (first, second) = (&gathered.c1, &gathered.c2);
    let last_luma = gathered
        .luma
        .value_numbered(job.matrix, index, looks.luma.last);
    let last_colour = first.pair_value_numbered(second, job.matrix, index, looks.colour.last);
    let luma_need = need_by_look(&luma[..lumas], looks.luma, last_luma);
    let colour_need = need_by_look(&colour[..colours], looks.colour, last_colour);
    Trying {
        luma: lumas,
        colour: colours,
        looks,
        luma_need,
        colour_need,
        fits: do_fit(job.bytes, luma_need, colour_need),
    }
}

// Tries one index: its restored values are kept, and what its values need is counted.
pub fn try_at(
    job: SliceJob<'_>,
    index: u32,
    gathered: &GatheredSlice,
    looks: Looks,
    kept: &mut ThreePlanes,
    luma: &mut [i64],
    colour: &mut [i64],
) -> Trying
    ghost coefficients: { Trio }
    requires index { index ≤ 127 }
    requires some { 1 ≤ job.bytes }
    requires most { job.bytes ≤ 2 ^ 28 }
    requires ready { AreReadyToWrite (picture_of job coefficients) job.sx job.sy kept.old }
    requires gathered { AreAllGathered (picture_of job coefficients) job.sx job.sy gathered.now }
    requires looks { AreLooks looks gathered.now job.matrix.now index }
    requires room { HasListRoom (picture_of job coefficients) job.sx job.sy (length luma.old)
        (length colour.old) }
    ensures holds { HoldsTrial (picture_of job.entry coefficients) kept.old job.entry.sx job.entry.sy index
        job.entry.bytes result luma.new colour.new }
    ensures kept { AreTried (picture_of job.entry coefficients) job.entry.sx job.entry.sy index kept.old
        kept.new }
{
    try_lowest(job, index, gathered, kept, luma, colour);
    count_needs(job, index, gathered, looks, kept, luma, colour)
}

// The looks at the index behind one, which may have been taken with the first candidate's.
fn looks_behind(
    gathered: &GatheredSlice,
    matrix: &Matrix,
    first: First,
    index: u32,
    limits: &mut SliceLimits,
) -> Looks
    requires index { index < 127 }
    requires luma { matrix.now.depth ≡ gathered.now.luma.depth }
    requires c1 { matrix.now.depth ≡ gathered.now.c1.depth }
    requires c2 { matrix.now.depth ≡ gathered.now.c2.depth }
    requires ends { (k : ℕ) → k ≤ 3 * gathered.now.c1.depth
        → slice_index gathered.now.c2.ends k ≡ slice_index gathered.now.c1.ends k }
    requires sizes { HasSizes gathered.now matrix.now }
    requires next { first.has_next ≡ true
        → AreLooks first.next gathered.now matrix.now (first.index + 1) }
    ensures { AreLooks result gathered.now matrix.now (index + 1) }
{
    if first.has_next && first.index == index {
        return first.next;
    }
    gathered.looks(matrix, index + 1, limits)
}

// Tries the indices from the first candidate on, and keeps the trial of the first that fits.
pub fn find_least(
    job: SliceJob<'_>,
    gathered: &GatheredSlice,
    near: u32,
    limits: &mut SliceLimits,
    kept: &mut ThreePlanes,
    luma: &mut [i64],
    colour: &mut [i64],
) -> Found
    ghost coefficients: { Trio }
    requires some { 1 ≤ job.bytes }
    requires most { job.bytes ≤ 2 ^ 28 }
    requires ready { AreReadyToWrite (picture_of job coefficients) job.sx job.sy kept.old }
    requires gathered { AreAllGathered (picture_of job coefficients) job.sx job.sy gathered.now }
    requires near { near ≤ 127 }
    requires steep { IsSteepOk job.layout.now.depth
        (max job.shape.now.luma_depth job.shape.now.colour_depth) job.matrix.now }
    requires room { HasListRoom (picture_of job coefficients) job.sx job.sy (length luma.old)
        (length colour.old) }
    ensures near { result.first ≤ 127 }
    ensures least { IsLeastIndex job.entry.bytes (tried_lists
        (picture_of job.entry coefficients) kept.old job.entry.sx job.entry.sy) result.index }
    ensures holds { HoldsTrial (picture_of job.entry coefficients) kept.old job.entry.sx job.entry.sy
        result.index job.entry.bytes result.trying luma.new colour.new }
    ensures kept { AreTried (picture_of job.entry coefficients) job.entry.sx job.entry.sy result.index kept.old
        kept.new }
{
    let firsts = first_residuals(job, gathered, kept);
    let first = find_first(gathered, job.matrix, job.bytes, near, firsts, limits);
    let mut looks = first.looks;
    for index in first.index..127 {
        let trying = try_at(job, index, gathered, looks, kept, luma, colour);
        if trying.fits {
            return Found {
                first: first.index,
                index,
                trying,
            };
        }
        looks = looks_behind(gathered, job.matrix, first, index, limits);
    }
    let coarsest = try_at(job, 127, gathered, looks, kept, luma, colour);
    Found {
        first: first.index,
        index: 127,
        trying: coarsest,
    }
}
