// The places of a slice in the bands of each level of one component.

ghost use Rattle.std.specs.Prelude.{◌≡◌, ℕ, ◌+◌, ◌*◌, ◌/◌, ◌^◌, ◌<◌, ◌≤◌};
ghost use Rattle.slice_geometry.specs.Shape.{IsSize};
ghost use Rattle.slice_geometry.specs.declared.Size.{Size};
ghost use Rattle.slice_geometry.specs.Slicing.{Slicing};
ghost use Rattle.slice_geometry.specs.SliceOrder.{area, level_rect};
ghost use Rattle.slice_decoder.specs.Levels.{IsLowRect, AreRects};
ghost use Rattle.slice_decoder.specs.Jobs.{part_in, places_of};

use crate::jobs::{PartJob, Place};
use planes::Rect;
use slice_geometry::{Layout, Size};

// How many places a rectangle has.
pub fn area_of(rect: Rect) -> usize
    requires { IsLowRect rect }
    ensures area { result ≡ area rect }
    ensures few { result ≤ 2 ^ 26 }
{
    (rect.x1 - rect.x0) as usize * (rect.y1 - rect.y0) as usize
}

// The same places where each way there are half as many.
fn halved(rect: Rect) -> Rect
    ensures { result ≡ record {
      x0 = rect.x0 / 2;
      x1 = rect.x1 / 2;
      y0 = rect.y0 / 2;
      y1 = rect.y1 / 2;
    } }
{
    Rect {
        x0: rect.x0 / 2,
        x1: rect.x1 / 2,
        y0: rect.y0 / 2,
        y1: rect.y1 / 2,
    }
}

// The slice's rectangle in the bands of each level. There are five levels at most. The bands of a level are half as large
// each way as those of the next one, and those of level 0 as large as those of level 1: so only the last level's rectangle
// takes divisions by the number of slices.
pub fn level_rects(layout: &Layout, size: Size, place: Place) -> [Rect; 5]
    requires size { IsSize size.w size.h }
    requires across { place.sx < layout.now.slices_x }
    requires down { place.sy < layout.now.slices_y }
    ensures { AreRects layout.now size place.sx place.sy result }
{
    let depth = layout.depth();
    let mut rects = [layout.band_rect(size, depth, place.sx, place.sy); 5];
    for k in 1..depth {
        let level = (depth - k) as usize;
        rects[level] = halved(rects[level + 1]);
    }
    rects[0] = rects[depth.min(1) as usize];
    rects
}

// The slice's rectangle in the lowest subband.
pub fn lowest_of(rects: &[Rect; 5]) -> Rect
    ensures { (s : Slicing) (size : Size) (sx sy : ℕ) → AreRects s size sx sy rects.now
        → result ≡ level_rect s size sx sy 0 }
{
    rects[0]
}

// How many places the slice has.
pub fn count_places(job: PartJob<'_>) -> usize
    requires { AreRects job.layout.now job.size job.place.sx job.place.sy job.rects.now }
    ensures count { result ≡ places_of (part_in job.entry) }
    ensures few { result ≤ 2 ^ 30 }
{
    let mut count = area_of(job.rects[0]);
    for level in 0..job.layout.depth() {
        count += 3 * area_of(job.rects[level as usize + 1]);
    }
    count
}
