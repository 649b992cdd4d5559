// One index tried.

ghost use Rattle.std.specs.Prelude.{◌≡◌, ◌*◌, ◌^◌, ◌<◌, ◌≤◌, length};
ghost use Rattle.quant_factors.specs.Weights as weights;
ghost use Rattle.quant_factors.specs.Weights.{band_quantiser};
ghost use Rattle.planes.specs.declared.Trio.{Trio};
ghost use Rattle.slice_geometry.specs.SliceOrder.{level_of, orient_of, area};
ghost use Rattle.slice_encoder.specs.Jobs.{picture_of};
ghost use Rattle.slice_encoder.specs.Buffers.{HasListRoom};
ghost use Rattle.slice_encoder.specs.Tries.{AreTried};
ghost use Rattle.slice_encoder.specs.GatheredSlices.{AreAllGathered};
ghost use Rattle.slice_encoder.specs.RestoredSlice.{ListsLowest};
ghost use Rattle.slice_encoder.specs.Ready.{AreReadyToWrite};

use crate::gathered::GatheredSlice;
use crate::jobs::SliceJob;
use crate::rect_trials::try_rect;
use planes::{Orient, Rect, ThreePlanes};
use quant_factors::Matrix;

/// The places of a slice in the lowest subbands.
#[derive(Clone, Copy)]
pub struct LowRects {
    pub luma: Rect,
    pub colour: Rect,
}

// A rectangle without places.
const NO_RECT: Rect = Rect {
    x0: 0,
    x1: 0,
    y0: 0,
    y1: 0,
};

/// Those of a slice without places.
pub const NO_RECTS: LowRects = LowRects {
    luma: NO_RECT,
    colour: NO_RECT,
};

// How many places a rectangle has.
#[inline(always)]
pub fn count_places(rect: Rect) -> usize
    requires across { rect.x0 ≤ rect.x1 }
    requires down { rect.y0 ≤ rect.y1 }
    requires few { area rect ≤ 2 ^ 32 }
    ensures { result ≡ area rect }
{
    (rect.x1 - rect.x0) as usize * (rect.y1 - rect.y0) as usize
}

// Restores the slice's places of the lowest subbands at an index, and lists their values, those of both colour components
// in turn.
pub fn try_lowest(
    job: SliceJob<'_>,
    index: u32,
    gathered: &GatheredSlice,
    kept: &mut ThreePlanes,
    luma: &mut [i64],
    colour: &mut [i64],
)
    ghost coefficients: { Trio }
    requires index { index ≤ 127 }
    requires ready { AreReadyToWrite (picture_of job coefficients) job.sx job.sy kept.old }
    requires gathered { AreAllGathered (picture_of job coefficients) job.sx job.sy gathered.now }
    requires room { HasListRoom (picture_of job coefficients) job.sx job.sy (length luma.old)
        (length colour.old) }
    ensures tried { AreTried (picture_of job.entry coefficients) job.entry.sx job.entry.sy index
        kept.old kept.new }
    ensures listed { ListsLowest (picture_of job.entry coefficients) job.entry.sx job.entry.sy
        index kept.new gathered.now.lowest luma.new colour.new }
{
    let _depth = job.layout.depth();
    let quantiser = job.matrix.quantiser(index, 0, Orient::Ll);
    let rects = gathered.lowest;
    let lowest = gathered.luma.lowest_values();
    let first = gathered.c1.lowest_values();
    let second = gathered.c2.lowest_values();
    try_rect(lowest, &mut kept.luma, rects.luma, quantiser, luma, 0, 1);
    try_rect(first, &mut kept.c1, rects.colour, quantiser, colour, 0, 2);
    try_rect(second, &mut kept.c2, rects.colour, quantiser, colour, 1, 2);
}

// The matrix's entry of band number k.
#[inline(always)]
pub fn entry_of(matrix: &Matrix, k: u32) -> u32
    requires { k ≤ 3 * matrix.now.depth }
    ensures { result ≡ weights.entry_of matrix.now (level_of k) (orient_of k) }
{
    matrix.entries()[k as usize]
}

// The quantisation index of band number k.
#[inline(always)]
pub fn quantiser_at(matrix: &Matrix, index: u32, k: u32) -> u32
    requires { k ≤ 3 * matrix.now.depth }
    ensures value { result ≡ band_quantiser matrix.now index (level_of k) (orient_of k) }
    ensures most { result ≤ index }
{
    index.saturating_sub(entry_of(matrix, k))
}
