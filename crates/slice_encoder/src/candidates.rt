// The first index that may fit.

ghost use Rattle.std.specs.Prelude.{◌≡◌, ℕ, ◌+◌, ◌*◌, ◌^◌, ◌<◌, ◌≤◌, max, true, length, slice_index};
ghost use Rattle.slice_encoder.specs.TrialLaws.{IsSteepOk};
ghost use Rattle.slice_encoder.specs.LowNeeds.{lower_of, may_fit, IsFirstCandidate};
ghost use Rattle.slice_encoder.specs.FirstResiduals.{AreSmallFirsts};
ghost use Rattle.slice_encoder.specs.GatheredSlices.{HasSizes, AreLooks, gathered_low};
ghost use Rattle.slice_encoder.specs.Ready.{coded_picture, AreGiven};

use crate::bounding::lower_at;
use crate::first_residuals::FirstResiduals;
use crate::fitting::do_fit;
use crate::gathered::{GatheredSlice, Looks, SliceLimits};
use crate::looks::NO_LOOK;
use planes::Trio;
use quant_factors::Matrix;
use slice_geometry::{Layout, PictureShape};

// What stands in for looks that weren't taken.
const NO_LOOKS: Looks = Looks {
    luma: NO_LOOK,
    colour: NO_LOOK,
};

// Halves the range of indices: none below its start may fit, and its end may.
pub fn find_candidate(
    layout: &Layout,
    shape: &PictureShape,
    matrix: &Matrix,
    sx: u32,
    sy: u32,
    bytes: u32,
    coefficients: &Trio,
) -> u32
    requires some { 1 ≤ bytes }
    requires most { bytes ≤ 2 ^ 28 }
    requires across { sx < layout.now.slices_x }
    requires down { sy < layout.now.slices_y }
    requires given { AreGiven (coded_picture layout.now shape.now matrix.now coefficients.now) }
    requires steep { IsSteepOk layout.now.depth (max shape.now.luma_depth shape.now.colour_depth)
        matrix.now }
    ensures { IsFirstCandidate bytes (lower_of
        (coded_picture layout.now shape.now matrix.now coefficients.now) sx sy) result }
{
    let mut start = 0;
    let mut end = 127;
    while start < end {
        let middle = (start + end) / 2;
        let low = lower_at(layout, shape, matrix, sx, sy, middle, coefficients);
        let may = do_fit(bytes, low.luma, low.colour);
        if may {
            end = middle;
        } else {
            start = middle + 1;
        }
    }
    start
}

// The next index to look at from a start to before an end: at first one wanted, later the middle.
fn probe(start: u32, end: u32, wanted: u32, step: u32) -> u32
    requires some { start < end }
    requires most { end ≤ 127 }
    ensures low { start ≤ result }
    ensures high { result < end }
{
    if step > 16 {
        (start + end) / 2
    } else if wanted < start {
        start
    } else if wanted < end {
        wanted
    } else {
        end - 1
    }
}

// The step after a step.
fn longer(step: u32) -> u32
    requires { step ≤ 32 }
    ensures { result ≤ 32 }
{
    if step > 16 { step } else { 2 * step }
}

/// The first index that may fit, the looks there, and those at the next index, where they were taken too.
#[derive(Clone, Copy)]
pub struct First {
    pub index: u32,
    pub looks: Looks,
    pub has_next: bool,
    pub next: Looks,
}

// Whether the end is known, and just behind an index.
fn is_next(known: bool, end: u32, index: u32) -> bool
    requires { index < end }
    ensures known { result ≡ true → known ≡ true }
    ensures next { result ≡ true → end ≡ index + 1 }
{
    known && end - index == 1
}

// The first index that may fit by how far the codes of what was gathered reach, and by the first residuals. It is looked
// for from an index near it, in steps of 1, 1, 2, 4 and 8, and then by halves: none below the start may fit, and the end
// may.
pub fn find_first(
    gathered: &GatheredSlice,
    matrix: &Matrix,
    bytes: u32,
    near: u32,
    firsts: FirstResiduals,
    limits: &mut SliceLimits,
) -> First
    requires some { 1 ≤ bytes }
    requires most { bytes ≤ 2 ^ 28 }
    requires near { near ≤ 127 }
    requires luma { matrix.now.depth ≡ gathered.now.luma.depth }
    requires c1 { matrix.now.depth ≡ gathered.now.c1.depth }
    requires c2 { matrix.now.depth ≡ gathered.now.c2.depth }
    requires ends { (k : ℕ) → k ≤ 3 * gathered.now.c1.depth
        → slice_index gathered.now.c2.ends k ≡ slice_index gathered.now.c1.ends k }
    requires sizes { HasSizes gathered.now matrix.now }
    requires small { AreSmallFirsts firsts }
    requires last { may_fit bytes (gathered_low gathered.now firsts matrix.now 127) ≡ true }
    ensures first { IsFirstCandidate bytes (gathered_low gathered.now firsts matrix.now)
        result.index }
    ensures looks { AreLooks result.looks gathered.now matrix.now result.index }
    ensures next { result.has_next ≡ true
        → AreLooks result.next gathered.now matrix.now (result.index + 1) }
{
    let mut start = 0;
    let mut end = 127;
    let mut wanted = near;
    let mut step = 1;
    let mut known = false;
    let mut looks = NO_LOOKS;
    let mut has_next = false;
    let mut next = looks;
    while start < end {
        let index = probe(start, end, wanted, step);
        let here = gathered.looks(matrix, index, limits);
        let low = gathered.low(matrix, index, here, firsts);
        let may = do_fit(bytes, low.luma, low.colour);
        let taken = (step + 1) / 2;
        step = longer(step);
        if may {
            has_next = is_next(known, end, index);
            next = looks;
            end = index;
            looks = here;
            known = true;
            wanted = index.saturating_sub(taken);
        } else {
            start = index + 1;
            wanted = index + taken;
        }
    }
    if !known {
        looks = gathered.looks(matrix, start, limits);
    }
    First {
        index: start,
        looks,
        has_next,
        next,
    }
}
