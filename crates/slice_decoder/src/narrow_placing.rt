//! Restored values, put at the places of a slice in bands of 32 bits.

ghost use Rattle.std.specs.Prelude.{◌≡◌, ℕ, ◌+◌, ◌-◌, ◌*◌, ◌<◌, ◌≤◌, length, drop, slice_index_or, pos};
ghost use Rattle.planes.specs.Raster.{height};
ghost use Rattle.slice_geometry.specs.SliceOrder.{area};
ghost use Rattle.slice_decoder.specs.Dealing.{StaysBeside, HoldsRect};
ghost use Rattle.slice_decoder.specs.Jobs.{part_in, IsPartJob, AreSizedBands, AllTake, RestStays, places_of};
ghost use Rattle.dc_prediction.specs.Restoring.{IsNarrow};

use crate::jobs::PartJob;
use crate::levels::area_of;
use planes::{NarrowBands, NarrowPlane, Rect};
use slice_geometry::band_numbered;
use std::simd::prelude::*;

// Puts four numbers at the places from x on.
#[inline(always)]
fn put_all(row: &mut [i32], x: usize, four: [i32; 4])
    requires inside { x + 4 ≤ length row.old }
    ensures inside { (j : ℕ) → x ≤ j → j < x + 4
        → slice_index_or row.new j (pos 0) ≡ slice_index_or four (j - x) (pos 0) }
    ensures outside { StaysBeside x (x + 4) row.old row.new }
{
    for i in 0..4 {
        row[x + i] = four[i];
    }
}

// Puts four values from one on at the places from x on. All are read before one is put, so that they are put at once.
#[inline(always)]
fn put_four(values: &[i32], from: usize, row: &mut [i32], x: usize)
    requires inside { x + 4 ≤ length row.old }
    requires room { from + 4 ≤ length values.now }
    requires narrow { (k : ℕ) → IsNarrow (slice_index_or values.now k (pos 0)) }
    ensures inside { (j : ℕ) → x ≤ j → j < x + 4 →
        slice_index_or row.new j (pos 0) ≡ slice_index_or values.now (from + (j - x)) (pos 0) }
    ensures outside { StaysBeside x (x + 4) row.old row.new }
{
    let four = [
        values[from],
        values[from + 1],
        values[from + 2],
        values[from + 3],
    ];
    put_all(row, x, four);
}

// Puts the values from one on at the places of a row from `start` on, four at a time, as long as four are left before
// `end`. It answers the place behind them.
#[inline(always)]
fn put_fours(values: &[i32], from: usize, row: &mut [i32], start: usize, end: usize) -> usize
    requires order { start ≤ end }
    requires inside { end ≤ length row.old }
    requires room { from + (end - start) ≤ length values.now }
    requires narrow { (k : ℕ) → IsNarrow (slice_index_or values.now k (pos 0)) }
    ensures begun { start ≤ result }
    ensures ended { result ≤ end }
    ensures inside { (j : ℕ) → start ≤ j → j < result →
        slice_index_or row.new j (pos 0) ≡ slice_index_or values.now (from + (j - start)) (pos 0) }
    ensures outside { StaysBeside start result row.old row.new }
{
    let mut x = start;
    while x + 4 <= end {
        put_four(values, from + (x - start), row, x);
        x += 4;
    }
    x
}

// Puts the values from one on at the places of a row from `start` to `end`, one at a time.
#[inline(always)]
fn put_ones(values: &[i32], from: usize, row: &mut [i32], start: usize, end: usize)
    requires order { start ≤ end }
    requires inside { end ≤ length row.old }
    requires room { from + (end - start) ≤ length values.now }
    ensures inside { (x : ℕ) → start ≤ x → x < end →
        slice_index_or row.new x (pos 0) ≡ slice_index_or values.now (from + (x - start)) (pos 0) }
    ensures outside { StaysBeside start end row.old row.new }
{
    for x in start..end {
        row[x] = values[from + (x - start)];
    }
}

// Puts the values from one on at the places of a row from `start` to `end`.
#[inline(always)]
fn put_part(values: &[i32], from: usize, row: &mut [i32], start: usize, end: usize)
    requires order { start ≤ end }
    requires inside { end ≤ length row.old }
    requires room { from + (end - start) ≤ length values.now }
    requires narrow { (k : ℕ) → IsNarrow (slice_index_or values.now k (pos 0)) }
    ensures inside { (x : ℕ) → start ≤ x → x < end →
        slice_index_or row.new x (pos 0) ≡ slice_index_or values.now (from + (x - start)) (pos 0) }
    ensures outside { StaysBeside start end row.old row.new }
{
    let middle = put_fours(values, from, row, start, end);
    put_ones(values, from + (middle - start), row, middle, end);
}

// Puts eight values from one on at the places of two rows from x on in turn, all of them read before one is put.
#[inline(always)]
fn put_four_pairs(values: &[i32], from: usize, first: &mut [i32], second: &mut [i32], x: usize)
    requires first_inside { x + 4 ≤ length first.old }
    requires second_inside { x + 4 ≤ length second.old }
    requires room { from + 8 ≤ length values.now }
    requires narrow { (k : ℕ) → IsNarrow (slice_index_or values.now k (pos 0)) }
    ensures first { (j : ℕ) → x ≤ j → j < x + 4 →
        slice_index_or first.new j (pos 0)
        ≡ slice_index_or values.now (from + 2 * (j - x)) (pos 0) }
    ensures second { (j : ℕ) → x ≤ j → j < x + 4 →
        slice_index_or second.new j (pos 0)
        ≡ slice_index_or values.now (from + (2 * (j - x) + 1)) (pos 0) }
    ensures first_stays { StaysBeside x (x + 4) first.old first.new }
    ensures second_stays { StaysBeside x (x + 4) second.old second.new }
{
    let front = i32x4::from_slice(&values[from..from + 4]);
    let back = i32x4::from_slice(&values[from + 4..from + 8]);
    let (ones, others) = front.deinterleave(back);
    put_all(first, x, ones.to_array());
    put_all(second, x, others.to_array());
}

// Puts the values from one on at the places of two rows from `start` on in turn, four places at a time, as long as four
// are left before `end`. It answers the place behind them.
#[inline(always)]
fn put_pair_fours(
    values: &[i32],
    from: usize,
    first: &mut [i32],
    second: &mut [i32],
    start: usize,
    end: usize,
) -> usize
    requires order { start ≤ end }
    requires first_inside { end ≤ length first.old }
    requires second_inside { end ≤ length second.old }
    requires room { from + 2 * (end - start) ≤ length values.now }
    requires narrow { (k : ℕ) → IsNarrow (slice_index_or values.now k (pos 0)) }
    ensures begun { start ≤ result }
    ensures ended { result ≤ end }
    ensures first { (j : ℕ) → start ≤ j → j < result →
        slice_index_or first.new j (pos 0)
        ≡ slice_index_or values.now (from + 2 * (j - start)) (pos 0) }
    ensures second { (j : ℕ) → start ≤ j → j < result →
        slice_index_or second.new j (pos 0)
        ≡ slice_index_or values.now (from + (2 * (j - start) + 1)) (pos 0) }
    ensures first_stays { StaysBeside start result first.old first.new }
    ensures second_stays { StaysBeside start result second.old second.new }
{
    let mut x = start;
    while x + 4 <= end {
        put_four_pairs(values, from + 2 * (x - start), first, second, x);
        x += 4;
    }
    x
}

// Puts the values from one on at the places of two rows from `start` to `end` in turn, one place at a time.
#[inline(always)]
fn put_pair_ones(
    values: &[i32],
    from: usize,
    first: &mut [i32],
    second: &mut [i32],
    start: usize,
    end: usize,
)
    requires order { start ≤ end }
    requires first_inside { end ≤ length first.old }
    requires second_inside { end ≤ length second.old }
    requires room { from + 2 * (end - start) ≤ length values.now }
    ensures first { (x : ℕ) → start ≤ x → x < end →
        slice_index_or first.new x (pos 0)
        ≡ slice_index_or values.now (from + 2 * (x - start)) (pos 0) }
    ensures second { (x : ℕ) → start ≤ x → x < end →
        slice_index_or second.new x (pos 0)
        ≡ slice_index_or values.now (from + (2 * (x - start) + 1)) (pos 0) }
    ensures first_stays { StaysBeside start end first.old first.new }
    ensures second_stays { StaysBeside start end second.old second.new }
{
    for x in start..end {
        first[x] = values[from + 2 * (x - start)];
        second[x] = values[from + (2 * (x - start) + 1)];
    }
}

// Puts the values from one on at the places of two rows from `start` to `end` in turn.
#[inline(always)]
fn put_pair(
    values: &[i32],
    from: usize,
    first: &mut [i32],
    second: &mut [i32],
    start: usize,
    end: usize,
)
    requires order { start ≤ end }
    requires first_inside { end ≤ length first.old }
    requires second_inside { end ≤ length second.old }
    requires room { from + 2 * (end - start) ≤ length values.now }
    requires narrow { (k : ℕ) → IsNarrow (slice_index_or values.now k (pos 0)) }
    ensures first { (x : ℕ) → start ≤ x → x < end →
        slice_index_or first.new x (pos 0)
        ≡ slice_index_or values.now (from + 2 * (x - start)) (pos 0) }
    ensures second { (x : ℕ) → start ≤ x → x < end →
        slice_index_or second.new x (pos 0)
        ≡ slice_index_or values.now (from + (2 * (x - start) + 1)) (pos 0) }
    ensures first_stays { StaysBeside start end first.old first.new }
    ensures second_stays { StaysBeside start end second.old second.new }
{
    let middle = put_pair_fours(values, from, first, second, start, end);
    put_pair_ones(
        values,
        from + 2 * (middle - start),
        first,
        second,
        middle,
        end,
    );
}

// Puts the values from one on at the places of a rectangle that is so wide.
#[inline(always)]
fn put_rows(values: &[i32], from: usize, plane: &mut NarrowPlane, rect: Rect, w: u32)
    requires across { rect.x0 ≤ rect.x1 }
    requires width { w ≡ rect.x1 - rect.x0 }
    requires down { rect.y0 ≤ rect.y1 }
    requires x_inside { rect.x1 ≤ plane.old.w }
    requires y_inside { rect.y1 ≤ height plane.old }
    requires room { from + area rect ≤ length values.now }
    requires narrow { (k : ℕ) → IsNarrow (slice_index_or values.now k (pos 0)) }
    ensures { HoldsRect 1 0 rect (drop from values.now) plane.old plane.new }
{
    let mut place = from;
    let (start, w) = (rect.x0 as usize, w as usize);
    for y in rect.y0..rect.y1 {
        put_part(values, place, plane.row_mut(y), start, start + w);
        place += w;
    }
}

// The same of any width. For a width that is written out the compiler needs no loop over a row: it sees that as many
// places are left as the width says, since sums of `usize` from a `u32` don't wrap.
pub fn put_rect(values: &[i32], from: usize, plane: &mut NarrowPlane, rect: Rect)
    requires across { rect.x0 ≤ rect.x1 }
    requires down { rect.y0 ≤ rect.y1 }
    requires x_inside { rect.x1 ≤ plane.old.w }
    requires y_inside { rect.y1 ≤ height plane.old }
    requires room { from + area rect ≤ length values.now }
    requires narrow { (k : ℕ) → IsNarrow (slice_index_or values.now k (pos 0)) }
    ensures { HoldsRect 1 0 rect (drop from values.now) plane.old plane.new }
{
    match rect.x1 - rect.x0 {
        8 => put_rows(values, from, plane, rect, 8),
        4 => put_rows(values, from, plane, rect, 4),
        2 => put_rows(values, from, plane, rect, 2),
        w => put_rows(values, from, plane, rect, w),
    }
}

// Puts the values from one on at the places of a rectangle that is so wide in two bands, which take them in turn.
#[inline(always)]
fn put_row_pairs(
    values: &[i32],
    from: usize,
    first: &mut NarrowPlane,
    second: &mut NarrowPlane,
    rect: Rect,
    w: u32,
)
    requires across { rect.x0 ≤ rect.x1 }
    requires width { w ≡ rect.x1 - rect.x0 }
    requires down { rect.y0 ≤ rect.y1 }
    requires first_x_inside { rect.x1 ≤ first.old.w }
    requires first_y_inside { rect.y1 ≤ height first.old }
    requires second_x_inside { rect.x1 ≤ second.old.w }
    requires second_y_inside { rect.y1 ≤ height second.old }
    requires room { from + 2 * area rect ≤ length values.now }
    requires narrow { (k : ℕ) → IsNarrow (slice_index_or values.now k (pos 0)) }
    ensures first { HoldsRect 2 0 rect (drop from values.now) first.old first.new }
    ensures second { HoldsRect 2 1 rect (drop from values.now) second.old second.new }
{
    let mut place = from;
    let (start, w) = (rect.x0 as usize, w as usize);
    for y in rect.y0..rect.y1 {
        let one = first.row_mut(y);
        let two = second.row_mut(y);
        put_pair(values, place, one, two, start, start + w);
        place += 2 * w;
    }
}

// The same of any width.
pub fn put_rects(
    values: &[i32],
    from: usize,
    first: &mut NarrowPlane,
    second: &mut NarrowPlane,
    rect: Rect,
)
    requires across { rect.x0 ≤ rect.x1 }
    requires down { rect.y0 ≤ rect.y1 }
    requires first_x_inside { rect.x1 ≤ first.old.w }
    requires first_y_inside { rect.y1 ≤ height first.old }
    requires second_x_inside { rect.x1 ≤ second.old.w }
    requires second_y_inside { rect.y1 ≤ height second.old }
    requires room { from + 2 * area rect ≤ length values.now }
    requires narrow { (k : ℕ) → IsNarrow (slice_index_or values.now k (pos 0)) }
    ensures first { HoldsRect 2 0 rect (drop from values.now) first.old first.new }
    ensures second { HoldsRect 2 1 rect (drop from values.now) second.old second.new }
{
    match rect.x1 - rect.x0 {
        4 => put_row_pairs(values, from, first, second, rect, 4),
        2 => put_row_pairs(values, from, first, second, rect, 2),
        1 => put_row_pairs(values, from, first, second, rect, 1),
        w => put_row_pairs(values, from, first, second, rect, w),
    }
}

// Puts the values of a slice at its places in a component's subbands.
#[inline(never)]
pub fn put_luma(values: &[i32], bands: &mut NarrowBands, job: PartJob<'_>)
    requires job { IsPartJob job }
    requires sizes { AreSizedBands (part_in job) bands.old }
    requires count { length values.now ≡ 1 * places_of (part_in job) }
    requires narrow { (k : ℕ) → IsNarrow (slice_index_or values.now k (pos 0)) }
    ensures takes { AllTake 1 0 (part_in job.entry) values.now bands.old bands.new }
    ensures rest { RestStays (part_in job.entry) bands.old bands.new }
{
    let mut from = 0;
    for k in 0..3 * job.layout.depth() + 1 {
        let (level, orient) = band_numbered(k);
        let rect = job.rects[level as usize];
        put_rect(values, from, bands.band_mut(level, orient), rect);
        from += area_of(rect);
    }
}

// Puts the values of a slice at its places in the subbands of the two colour components, which take them in turn.
#[inline(never)]
pub fn put_colour(
    values: &[i32],
    first: &mut NarrowBands,
    second: &mut NarrowBands,
    job: PartJob<'_>,
)
    requires job { IsPartJob job }
    requires first_sizes { AreSizedBands (part_in job) first.old }
    requires second_sizes { AreSizedBands (part_in job) second.old }
    requires count { length values.now ≡ 2 * places_of (part_in job) }
    requires narrow { (k : ℕ) → IsNarrow (slice_index_or values.now k (pos 0)) }
    ensures first { AllTake 2 0 (part_in job.entry) values.now first.old first.new }
    ensures second { AllTake 2 1 (part_in job.entry) values.now second.old second.new }
    ensures first_rest { RestStays (part_in job.entry) first.old first.new }
    ensures second_rest { RestStays (part_in job.entry) second.old second.new }
{
    let mut from = 0;
    for k in 0..3 * job.layout.depth() + 1 {
        let (level, orient) = band_numbered(k);
        let rect = job.rects[level as usize];
        let one = first.band_mut(level, orient);
        let two = second.band_mut(level, orient);
        put_rects(values, from, one, two, rect);
        from += 2 * area_of(rect);
    }
}
