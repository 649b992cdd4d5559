//! Rows of bands, read before a row of slices is written into them.
//!
//! A slice writes a few numbers into each of many rows, more rows than a processor follows at a time, so it would wait
//! for nearly every line of memory. Read one row after another before, these lines lie in the processor's cache.

ghost use Rattle.std.specs.Prelude.{◌≡◌, ◌<◌};
ghost use Rattle.slice_geometry.specs.Shape.{IsSize};

use planes::{NarrowBands, NarrowPlane, NarrowTrio};
use slice_geometry::{Layout, PictureShape, Size, band_numbered};

// Numbers in a line of the cache.
const LINE: usize = 16;

// Where a row has fewer slices, they write their rows in longer pieces, and one after another.
const MANY: u32 = 8;

// A number of each line of a row, all put together.
fn read_row(row: &[i32]) -> i32 {
    let mut all = 0;
    for k in 0..row.len() / LINE {
        all ^= row[LINE * k];
    }
    all
}

// The same of the rows from one to another, as far as they are there.
fn read_rows(plane: &NarrowPlane, from: u32, to: u32) -> i32 {
    let mut all = 0;
    for y in from..to.min(plane.h()) {
        all ^= read_row(plane.row(y));
    }
    all
}

// The same of the rows that a row of slices has in a component's bands.
fn read_bands(bands: &NarrowBands, layout: &Layout, size: Size, sy: u32) -> i32
    requires size { IsSize size.w size.h }
    requires across { 0 < layout.now.slices_x }
    requires down { sy < layout.now.slices_y }
    requires depth { bands.now.depth ≡ layout.now.depth }
{
    let mut all = 0;
    for k in 0..3 * layout.depth() + 1 {
        let (level, orient) = band_numbered(k);
        let rect = layout.band_rect(size, level, 0, sy);
        all ^= read_rows(bands.band(level, orient), rect.y0, rect.y1);
    }
    all
}

// Reads the rows of row `sy` of slices, if slice `sx` is its first one and many follow.
pub(crate) fn read_ahead(
    bands: &NarrowTrio,
    layout: &Layout,
    shape: &PictureShape,
    sx: u32,
    sy: u32,
    kept: &mut [i32],
)
    requires across { sx < layout.now.slices_x }
    requires down { sy < layout.now.slices_y }
    requires luma_depth { bands.now.luma.depth ≡ layout.now.depth }
    requires c1_depth { bands.now.c1.depth ≡ layout.now.depth }
    requires c2_depth { bands.now.c2.depth ≡ layout.now.depth }
{
    if sx > 0 || layout.slices_x() < MANY || kept.len() == 0 {
        return;
    }
    let all = read_bands(&bands.luma, layout, shape.luma, sy)
        ^ read_bands(&bands.c1, layout, shape.colour, sy)
        ^ read_bands(&bands.c2, layout, shape.colour, sy);
    // What is kept nowhere a compiler need not read.
    kept[0] = all;
}
