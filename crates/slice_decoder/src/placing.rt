//! Restored values, put at the places of a slice.

ghost use Rattle.std.specs.Prelude.{◌≡◌, ℕ, ◌+◌, ◌-◌, ◌*◌, ◌<◌, ◌≤◌, ◌⊎◌, length, drop};
ghost use Rattle.planes.specs.Raster.{height};
ghost use Rattle.planes.specs.Valued.{valued};
ghost use Rattle.slice_geometry.specs.SliceOrder.{area};
ghost use Rattle.slice_decoder.specs.Dealing.{HoldsRectOf};
ghost use Rattle.slice_decoder.specs.Jobs.{part_in, IsPartJob, AreSizedBands, AllTake, RestStays, places_of};

use crate::jobs::PartJob;
use crate::levels::area_of;
use planes::{Bands, Number, Plane, Rect};
use slice_geometry::band_numbered;

/// The numbers of rows that values of one type are put into.
pub trait Placed<V: Number>: Number {
    /// The same number in a row.
    fn of(v: V) -> Self
        ensures { Self.value result ≡ V.value v };
}

impl Placed<i64> for i64 {
    #[inline(always)]
    fn of(v: i64) -> i64 {
        v
    }
}

impl Placed<i16> for i32 {
    #[inline(always)]
    fn of(v: i16) -> i32 {
        i32::from(v)
    }
}

// Puts values from one on at the places of a row from `start` to `end`: of EACH that a place has, the one that is counted by
// `from`.
#[inline(always)]
fn put_row<V: Number, T: Placed<V>, const EACH: usize>(
    values: &[V],
    at: usize,
    from: usize,
    row: &mut [T],
    start: usize,
    end: usize,
)
    requires few { from < EACH }
    requires order { start ≤ end }
    requires inside { end ≤ length row.old }
    requires room { at + EACH * (end - start) ≤ length values.now }
    ensures inside { (x : ℕ) → start ≤ x → x < end → valued T.value T.none row.new x
        ≡ valued V.value V.none values.now (at + (EACH * (x - start) + from)) }
    ensures outside { (x : ℕ) → (x < start) ⊎ (end ≤ x)
        → valued T.value T.none row.new x ≡ valued T.value T.none row.old x }
{
    for x in start..end {
        row[x] = T::of(values[at + (EACH * (x - start) + from)]);
    }
}

/// Puts values from one on at the places of a rectangle, row by row: of EACH that a place has, the one that is counted by
/// `from`.
pub fn put_rect<V: Number, T: Placed<V>, const EACH: usize>(
    values: &[V],
    at: usize,
    from: usize,
    plane: &mut Plane<T>,
    rect: Rect,
)
    requires few { from < EACH }
    requires across { rect.x0 ≤ rect.x1 }
    requires down { rect.y0 ≤ rect.y1 }
    requires x_inside { rect.x1 ≤ plane.old.w }
    requires y_inside { rect.y1 ≤ height plane.old }
    requires room { at + EACH * area rect ≤ length values.now }
    ensures { HoldsRectOf T.value T.none EACH from rect (valued V.value V.none (drop at values.now))
        plane.old plane.new }
{
    let (start, end) = (rect.x0 as usize, rect.x1 as usize);
    let mut place = at;
    for y in rect.y0..rect.y1 {
        put_row::<V, T, EACH>(values, place, from, plane.row_mut(y), start, end);
        place += EACH * (end - start);
    }
}

/// Puts the values of a slice at its places in a component's subbands: of EACH that a place has, the one that is counted by
/// `from`.
pub fn put_values<const EACH: usize>(
    values: &[i64],
    from: usize,
    bands: &mut Bands,
    job: PartJob<'_>,
)
    requires few { EACH ≤ 2 }
    requires which { from < EACH }
    requires job { IsPartJob job }
    requires sizes { AreSizedBands (part_in job) bands.old }
    requires count { length values.now ≡ EACH * places_of (part_in job) }
    ensures takes { AllTake EACH from (part_in job.entry) values.now bands.old bands.new }
    ensures rest { RestStays (part_in job.entry) bands.old bands.new }
{
    let mut at = 0;
    for k in 0..3 * job.layout.depth() + 1 {
        let (level, orient) = band_numbered(k);
        let rect = job.rects[level as usize];
        put_rect::<i64, i64, EACH>(values, at, from, bands.band_mut(level, orient), rect);
        at += EACH * area_of(rect);
    }
}
