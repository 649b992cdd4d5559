// The residuals of the first places of a slice's lowest subbands, before they are quantised.

ghost use Rattle.bit_codes.specs.declared.TheConstants.{MAX_MAGNITUDE};
ghost use Rattle.std.specs.Prelude.{◌≡◌, ◌≤◌, length, unsigned_abs};
ghost use Rattle.planes.specs.Raster.{at};
ghost use Rattle.planes.specs.declared.Trio.{Trio};
ghost use Rattle.slice_geometry.specs.SliceOrder.{area};
ghost use Rattle.slice_encoder.specs.FirstResiduals.{first_in, bits_beyond_one, AreFirst, AreSmallFirsts};
ghost use Rattle.slice_encoder.specs.Jobs.{picture_of};
ghost use Rattle.slice_encoder.specs.RectTrials.{CanTryRect, grid_in};
ghost use Rattle.slice_encoder.specs.Ready.{AreReadyToWrite};
ghost use Rattle.slice_encoder.specs.GatheredSlices.{AreAllGathered};

use crate::gathered::GatheredSlice;
use crate::jobs::SliceJob;
use bit_codes::sint_len;
use dc_prediction::predict;
use planes::{Plane, Rect, ThreePlanes};
use quant_factors::forward;

/// The residual of the first place of the lowest subband in each component, before it is quantised. It is the same at
/// each index, since what the place is predicted from lies outside the slice. It is 0 where the slice has no such place.
#[derive(Clone, Copy)]
pub struct FirstResiduals {
    pub luma: i64,
    pub c1: i64,
    pub c2: i64,
}

// That of one component, where the slice's places are those of a rectangle, whose coefficients stand row by row.
fn first_of(coefficients: &[i32], kept: &Plane, rect: Rect) -> i64
    requires count { length coefficients.now ≡ area rect }
    requires can { CanTryRect rect (grid_in rect coefficients.now) kept.now }
    ensures value { result ≡ first_in rect (grid_in rect coefficients.now) (at kept.now) }
    ensures small { unsigned_abs result ≤ MAX_MAGNITUDE }
{
    if rect.x0 < rect.x1 && rect.y0 < rect.y1 {
        i64::from(coefficients[0]) - predict(kept, rect.y0, rect.x0)
    } else {
        0
    }
}

/// Those of a slice, where the planes hold what is restored before it.
pub fn first_residuals(
    job: SliceJob<'_>,
    gathered: &GatheredSlice,
    kept: &ThreePlanes,
) -> FirstResiduals
    ghost coefficients: { Trio }
    requires ready { AreReadyToWrite (picture_of job coefficients) job.sx job.sy kept.now }
    requires gathered { AreAllGathered (picture_of job coefficients) job.sx job.sy gathered.now }
    ensures first { AreFirst (picture_of job.entry coefficients) job.entry.sx job.entry.sy kept.now
        result }
    ensures small { AreSmallFirsts result }
{
    let _depth = job.layout.depth();
    let rects = gathered.lowest;
    FirstResiduals {
        luma: first_of(gathered.luma.lowest_values(), &kept.luma, rects.luma),
        c1: first_of(gathered.c1.lowest_values(), &kept.c1, rects.colour),
        c2: first_of(gathered.c2.lowest_values(), &kept.c2, rects.colour),
    }
}

/// How many bits beyond one the code of a residual takes, quantised.
pub fn bits_beyond(residual: i64, quantiser: u32) -> u64
    requires index { quantiser ≤ 127 }
    requires small { unsigned_abs residual ≤ MAX_MAGNITUDE }
    ensures value { result ≡ bits_beyond_one residual quantiser }
    ensures few { result ≤ 74 }
{
    u64::from(sint_len(forward(residual, quantiser))) - 1
}
