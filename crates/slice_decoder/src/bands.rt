// The values of a block, dealt out to the places of a rectangle.

ghost use Rattle.std.specs.Prelude.{◌≡◌, ℕ, ◌+◌, ◌-◌, ◌*◌, ◌<◌, ◌≤◌, true, length, slice_index_or, pos};
ghost use Rattle.planes.specs.Raster.{height};
ghost use Rattle.slice_decoder.specs.Slice.{are_small};
ghost use Rattle.slice_geometry.specs.SliceOrder.{area};
ghost use Rattle.slice_decoder.specs.Dealing.{next_values, behind_next, StaysBeside, HoldsRect, KeepsOutside};

use crate::dealing::{fill_pair, fill_row};
use bounded_blocks::Block;
use planes::{Plane, Rect};

// Fills the places x0..x1 of a row.
fn fill_part(block: &mut Block<'_>, row: &mut [i64], x0: u32, x1: u32, index: u32) -> bool
    requires index { index ≤ 127 }
    requires order { x0 ≤ x1 }
    requires inside { x1 ≤ length row.old }
    ensures small { result ≡ are_small (next_values block.old (x1 - x0) index) }
    ensures left { result ≡ true → block.new ≡ behind_next block.old (x1 - x0) index }
    ensures inside { result ≡ true → (x : ℕ) → x0 ≤ x → x < x1 →
        slice_index_or row.new x (pos 0)
        ≡ slice_index_or (next_values block.old (x1 - x0) index) (x - x0) (pos 0) }
    ensures outside { StaysBeside x0 x1 row.old row.new }
{
    fill_row(block, &mut row[x0 as usize..x1 as usize], index)
}

// Fills a rectangle of a band, row by row. It answers false where a magnitude passes 2^36.
pub fn fill_rect(block: &mut Block<'_>, plane: &mut Plane, rect: Rect, index: u32) -> bool
    requires index { index ≤ 127 }
    requires across { rect.x0 ≤ rect.x1 }
    requires down { rect.y0 ≤ rect.y1 }
    requires x_inside { rect.x1 ≤ plane.old.w }
    requires y_inside { rect.y1 ≤ height plane.old }
    ensures small { result ≡ are_small (next_values block.old (1 * area rect) index) }
    ensures left { result ≡ true → block.new ≡ behind_next block.old (1 * area rect) index }
    ensures holds { result ≡ true →
        HoldsRect 1 0 rect (next_values block.old (1 * area rect) index) plane.old plane.new }
    ensures keeps { KeepsOutside rect plane.old plane.new }
{
    for y in rect.y0..rect.y1 {
        if !fill_part(block, plane.row_mut(y), rect.x0, rect.x1, index) {
            return false;
        }
    }
    true
}

// How many places of a row are read at a time where two components take turns.
const CHUNK: u32 = 64;

// Fills the places x0..x1 of two rows, at most 64.
fn fill_chunk(
    block: &mut Block<'_>,
    first: &mut [i64],
    second: &mut [i64],
    x0: u32,
    x1: u32,
    index: u32,
    buffer: &mut [i64],
) -> bool
    requires index { index ≤ 127 }
    requires order { x0 ≤ x1 }
    requires few { x1 ≤ x0 + 64 }
    requires first_inside { x1 ≤ length first.old }
    requires second_inside { x1 ≤ length second.old }
    requires room { length buffer.old ≡ 128 }
    ensures small { result ≡ are_small (next_values block.old (2 * (x1 - x0)) index) }
    ensures left { result ≡ true → block.new ≡ behind_next block.old (2 * (x1 - x0)) index }
    ensures first { result ≡ true → (x : ℕ) → x0 ≤ x → x < x1 →
        slice_index_or first.new x (pos 0)
        ≡ slice_index_or (next_values block.old (2 * (x1 - x0)) index) (2 * (x - x0)) (pos 0) }
    ensures second { result ≡ true → (x : ℕ) → x0 ≤ x → x < x1 →
        slice_index_or second.new x (pos 0)
        ≡ slice_index_or (next_values block.old (2 * (x1 - x0)) index) (2 * (x - x0) + 1) (pos 0) }
    ensures first_stays { StaysBeside x0 x1 first.old first.new }
    ensures second_stays { StaysBeside x0 x1 second.old second.new }
{
    let (from, to) = (x0 as usize, x1 as usize);
    fill_pair(
        block,
        &mut first[from..to],
        &mut second[from..to],
        index,
        buffer,
    )
}

// Fills the places x0..x1 of two rows, which take the values in turn.
fn fill_parts(
    block: &mut Block<'_>,
    first: &mut [i64],
    second: &mut [i64],
    x0: u32,
    x1: u32,
    index: u32,
    buffer: &mut [i64],
) -> bool
    requires index { index ≤ 127 }
    requires order { x0 ≤ x1 }
    requires first_inside { x1 ≤ length first.old }
    requires second_inside { x1 ≤ length second.old }
    requires room { length buffer.old ≡ 128 }
    ensures small { result ≡ are_small (next_values block.old (2 * (x1 - x0)) index) }
    ensures left { result ≡ true → block.new ≡ behind_next block.old (2 * (x1 - x0)) index }
    ensures first { result ≡ true → (x : ℕ) → x0 ≤ x → x < x1 →
        slice_index_or first.new x (pos 0)
        ≡ slice_index_or (next_values block.old (2 * (x1 - x0)) index) (2 * (x - x0) + 0) (pos 0) }
    ensures second { result ≡ true → (x : ℕ) → x0 ≤ x → x < x1 →
        slice_index_or second.new x (pos 0)
        ≡ slice_index_or (next_values block.old (2 * (x1 - x0)) index) (2 * (x - x0) + 1) (pos 0) }
    ensures first_stays { StaysBeside x0 x1 first.old first.new }
    ensures second_stays { StaysBeside x0 x1 second.old second.new }
{
    let mut x = x0;
    while x < x1 {
        let end = x + CHUNK.min(x1 - x);
        if !fill_chunk(block, first, second, x, end, index, buffer) {
            return false;
        }
        x = end;
    }
    true
}

// Fills a rectangle of two bands, whose places take the values in turn.
pub fn fill_rects(
    block: &mut Block<'_>,
    first: &mut Plane,
    second: &mut Plane,
    rect: Rect,
    index: u32,
    buffer: &mut [i64],
) -> bool
    requires index { index ≤ 127 }
    requires across { rect.x0 ≤ rect.x1 }
    requires down { rect.y0 ≤ rect.y1 }
    requires first_x_inside { rect.x1 ≤ first.old.w }
    requires first_y_inside { rect.y1 ≤ height first.old }
    requires second_x_inside { rect.x1 ≤ second.old.w }
    requires second_y_inside { rect.y1 ≤ height second.old }
    requires room { length buffer.old ≡ 128 }
    ensures small { result ≡ are_small (next_values block.old (2 * area rect) index) }
    ensures left { result ≡ true → block.new ≡ behind_next block.old (2 * area rect) index }
    ensures first { result ≡ true →
        HoldsRect 2 0 rect (next_values block.old (2 * area rect) index) first.old first.new }
    ensures second { result ≡ true →
        HoldsRect 2 1 rect (next_values block.old (2 * area rect) index) second.old second.new }
    ensures first_keeps { KeepsOutside rect first.old first.new }
    ensures second_keeps { KeepsOutside rect second.old second.new }
{
    for y in rect.y0..rect.y1 {
        if !fill_parts(
            block,
            first.row_mut(y),
            second.row_mut(y),
            rect.x0,
            rect.x1,
            index,
            buffer,
        ) {
            return false;
        }
    }
    true
}
