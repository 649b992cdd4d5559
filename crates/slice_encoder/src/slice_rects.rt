// Where slices lie in the subbands of a component, by tables, since a slice is not to cost divisions.

ghost use Rattle.std.specs.Prelude.{◌≡◌, ◌+◌, ◌-◌, ◌*◌, ◌^◌, ◌<◌, ◌≤◌, IfOk};
ghost use Rattle.slice_geometry.specs.Shape.{IsSize};
ghost use Rattle.slice_geometry.specs.SliceOrder.{level_rect, area, level_of, place_count};
ghost use Rattle.slice_encoder.specs.Gathering.{AreEnds};
ghost use Rattle.slice_encoder.specs.SliceRects.{AreTop, AreLeft};

use crate::trying::count_places;
use planes::{NoMemory, Rect};
use slice_geometry::{Layout, Size, band_numbered};
use std::alloc::Global;
use std::marker::Model;

/// The rectangles of slices in the subbands of a component: each has its columns from the slice above it in the top row,
/// and its rows from the slice beside it in the left column. Contracts see the layout, and the component's size.
#[derive(Drop)]
pub struct SliceRects {
    layout: Layout,
    size: Size,
    // Level by level.
    top: Vec<Rect>,
    left: Vec<Rect>,
}

impl Model for SliceRects {
    ghost use Rattle.slice_encoder.specs.SliceRects.{SliceRectsSeen, AreRects};

    ghost Value = { SliceRectsSeen };

    ghost view = { λ r. record { slicing = r.layout; size = r.size } };

    ghost invariant = { λ r. AreRects r.layout r.size r.top.items r.left.items };
}

// The rectangles of the slices in the top row, level by level.
fn top_row(alloc: Global, layout: &Layout, size: Size) -> Result<Vec<Rect>, NoMemory>
    requires { IsSize size.w size.h }
    ensures { IfOk result (λ v. AreTop layout.now size v.items) }
{
    let across = layout.slices_x();
    let mut rects = Vec::new(alloc);
    for n in 0..(layout.depth() + 1) * across {
        rects.push(layout.band_rect(size, n / across, n % across, 0))?;
    }
    Ok(rects)
}

// Those of the slices in the left column.
fn left_column(alloc: Global, layout: &Layout, size: Size) -> Result<Vec<Rect>, NoMemory>
    requires { IsSize size.w size.h }
    ensures { IfOk result (λ v. AreLeft layout.now size v.items) }
{
    let down = layout.slices_y();
    let mut rects = Vec::new(alloc);
    for n in 0..(layout.depth() + 1) * down {
        rects.push(layout.band_rect(size, n / down, 0, n % down))?;
    }
    Ok(rects)
}

impl SliceRects {
    /// Those of a component of this size.
    pub fn new(alloc: Global, layout: &Layout, size: Size) -> Result<SliceRects, NoMemory>
        requires { IsSize size.w size.h }
        ensures { IfOk result (λ r. r ≡ record { slicing = layout.now; size = size }) }
    {
        let top = top_row(alloc, layout, size)?;
        let left = left_column(alloc, layout, size)?;
        Ok(SliceRects {
            layout: *layout,
            size,
            top,
            left,
        })
    }

    /// The depth of the transform.
    #[inline(always)]
    pub fn depth(&self) -> u32
        ensures value { result ≡ self.now.slicing.depth }
        ensures most { result ≤ 4 }
    {
        self.layout.depth()
    }

    /// The places of slice (sx, sy) in the subbands of a level.
    #[inline(always)]
    pub fn rect(&self, level: u32, sx: u32, sy: u32) -> Rect
        requires level { level ≤ self.now.slicing.depth }
        requires across { sx < self.now.slicing.slices_x }
        requires down { sy < self.now.slicing.slices_y }
        ensures { result ≡ level_rect self.now.slicing self.now.size sx sy level }
    {
        let column = self.top[(level * self.layout.slices_x() + sx) as usize];
        let row = self.left[(level * self.layout.slices_y() + sy) as usize];
        Rect {
            x0: column.x0,
            x1: column.x1,
            y0: row.y0,
            y1: row.y1,
        }
    }

    // How many places a slice has in band number k, by those in the band before it: the bands of a level have as many.
    #[inline(always)]
    fn next_area(&self, sx: u32, sy: u32, k: u32, before: usize) -> usize
        requires across { sx < self.now.slicing.slices_x }
        requires down { sy < self.now.slicing.slices_y }
        requires few { place_count self.now.slicing self.now.size sx sy ≤ 2 ^ 31 }
        requires number { k < 3 * self.now.slicing.depth + 1 }
        requires before { before
            ≡ area (level_rect self.now.slicing self.now.size sx sy (level_of (k - 1))) }
        ensures { result ≡ area (level_rect self.now.slicing self.now.size sx sy (level_of k)) }
    {
        let _depth = self.depth();
        let (level, orient) = band_numbered(k);
        if orient != 1 {
            return before;
        }
        count_places(self.rect(level, sx, sy))
    }

    /// Where the coefficients of each subband end in a slice.
    pub fn ends(&self, sx: u32, sy: u32) -> [usize; 13]
        requires across { sx < self.now.slicing.slices_x }
        requires down { sy < self.now.slicing.slices_y }
        requires few { place_count self.now.slicing self.now.size sx sy ≤ 2 ^ 31 }
        ensures { AreEnds self.now.slicing self.now.size sx sy result }
    {
        let mut ends = [0; 13];
        let mut place = 0;
        let mut area = count_places(self.rect(0, sx, sy));
        for k in 0..3 * self.depth() + 1 {
            area = self.next_area(sx, sy, k, area);
            place += area;
            ends[k as usize] = place;
        }
        ends
    }
}
