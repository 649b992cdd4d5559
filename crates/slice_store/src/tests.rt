//! A small component in slices of unequal columns and rows.

ghost use Rattle.std.specs.Prelude.{◌≡◌, ◌≤◌, min};
ghost use Rattle.planes.specs.Subbands.{AreFilledBands};
ghost use Rattle.slice_geometry.specs.Shape.{IsSize};
ghost use Rattle.slice_store.specs.Room.{AreStarts};
ghost use Rattle.slice_store.specs.ShortBands.{IsShortSound};

use crate::{ShortBands, SliceStore};
use planes::{Bands, NarrowBands, Number};
use slice_geometry::{Layout, Size};
use std::alloc::Global;
use std::process::Abort;

const SMALL: Size = Size { w: 5, h: 6 };

// Bands of three by three places, in two by two slices.
fn small_layout(rt: &impl Abort) -> Layout {
    Layout::check(1, 2, 2, 1, 1).ok().expect(rt, "a layout")
}

fn store_of<T: Number>(
    rt: &impl Abort,
    alloc: Global,
    layout: Layout,
    size: Size,
    strips: u32,
) -> SliceStore<T>
    requires some { 1 ≤ strips }
    requires fits { IsSize size.w size.h }
    ensures cut { result.slicing ≡ layout }
    ensures size { result.size ≡ size }
    ensures strips { result.strips ≡ min strips layout.slices_y }
    ensures starts { AreStarts result.starts layout size result.strips }
{
    SliceStore::new(alloc, layout, size, strips)
        .ok()
        .expect(rt, "memory")
}

// A row of a band.
fn put(
    rt: &impl Abort,
    store: &mut SliceStore<i32>,
    layout: Layout,
    size: Size,
    place: (u32, u32, u32),
    row: [i32; 3],
)
    requires cut { store.old.slicing ≡ layout }
    requires size { store.old.size ≡ size }
    requires fits { IsSize size.w size.h }
    ensures cut { store.new.slicing ≡ layout }
    ensures size { store.new.size ≡ size }
{
    let (level, orient, y) = place;
    let is_lowest = level == 0 && orient == 0;
    assert!(rt; is_lowest || level >= 1 && level <= layout.depth() && orient >= 1 && orient <= 3);
    let band = layout.band_size(size, level);
    assert!(rt; y < band.h && band.w <= 3);
    store.put_row(level, orient, y, &row);
}

const ROWS: [((u32, u32, u32), [i32; 3]); 12] = [
    ((0, 0, 0), [0, 4, 5]),
    ((0, 0, 1), [12, 20, 21]),
    ((0, 0, 2), [13, 22, 23]),
    ((1, 1, 0), [1, 6, 7]),
    ((1, 1, 1), [14, 24, 25]),
    ((1, 1, 2), [15, 26, 27]),
    ((1, 2, 0), [2, 8, 9]),
    ((1, 2, 1), [16, 28, 29]),
    ((1, 2, 2), [17, 30, 31]),
    ((1, 3, 0), [3, 10, 11]),
    ((1, 3, 1), [18, 32, 33]),
    ((1, 3, 2), [19, 34, 35]),
];

// Rows that are put make runs.
#[test]
fn runs_stand_in_the_order_of_the_stream(rt: HostRuntime) {
    let layout = small_layout(&rt);
    let mut store = store_of(&rt, rt.alloc(), layout, SMALL, 2);
    for k in 0..12usize {
        let (place, row) = ROWS[k];
        put(&rt, &mut store, layout, SMALL, place, row);
    }
    let mut wanted = 0i32;
    for value in store.numbers() {
        assert!(&rt; *value == wanted);
        wanted = wanted.wrapping_add(1);
    }
    assert!(&rt; wanted == 36);
    drop(store);
}

// The last row of HH.
fn last_row(rt: &impl Abort, store: &SliceStore<i64>, layout: Layout, size: Size) -> [i64; 3]
    requires cut { store.now.slicing ≡ layout }
    requires size { store.now.size ≡ size }
    requires fits { IsSize size.w size.h }
{
    assert!(rt; layout.depth() >= 1);
    let band = layout.band_size(size, 1);
    assert!(rt; band.h > 2 && band.w == 3);
    let mut row = [0; 3];
    store.copy_row(1, 3, 2, &mut row);
    row
}

const LAST: [i16; 16] = [
    20, 21, 22, 23, 24, 25, 26, 27, 28, 29, 30, 31, 32, 33, 34, 35,
];

// A slice of 16 bits that is put into a ring of one strip, widened to 64 bits.
#[test]
fn rings_are_widened(rt: HostRuntime) {
    let layout = small_layout(&rt);
    assert!(&rt; layout.slices_x() == 2 && layout.slices_y() == 2);
    let mut narrow: SliceStore<i16> = store_of(&rt, rt.alloc(), layout, SMALL, 1);
    let count = narrow.run(1, 1).len();
    assert!(&rt; count == 16);
    narrow.put_run(1, 1, &LAST);
    let mut wide: SliceStore<i64> = store_of(&rt, rt.alloc(), layout, SMALL, 1);
    wide.widen(&narrow);
    drop(narrow);
    let row = last_row(&rt, &wide, layout, SMALL);
    drop(wide);
    assert!(&rt; row == [0, 34, 35]);
}

const IN_TURN: [i64; 32] = [
    20, 120, 21, 121, 22, 122, 23, 123, 24, 124, 25, 125, 26, 126, 27, 127, 28, 128, 29, 129, 30,
    130, 31, 131, 32, 132, 33, 133, 34, 134, 35, 135,
];

// A slice of two components, whose numbers stand in turn.
#[test]
fn two_stores_take_numbers_in_turn(rt: HostRuntime) {
    let layout = small_layout(&rt);
    assert!(&rt; layout.slices_x() == 2 && layout.slices_y() == 2);
    let mut first: SliceStore<i64> = store_of(&rt, rt.alloc(), layout, SMALL, 2);
    let mut second: SliceStore<i64> = store_of(&rt, rt.alloc(), layout, SMALL, 2);
    assert!(&rt; first.is_cut(&layout, SMALL));
    assert!(&rt; first.run_length(1, 1) == 16);
    first.put_in_turn(&mut second, 1, 1, &IN_TURN);
    let row = last_row(&rt, &first, layout, SMALL);
    let second_row = last_row(&rt, &second, layout, SMALL);
    drop(first);
    drop(second);
    assert!(&rt; row == [0, 34, 35]);
    assert!(&rt; second_row == [0, 134, 135]);
}

// The numbers of a slice, of which those of the lowest band are not looked at.
fn put_short(
    rt: &impl Abort,
    short: &mut ShortBands,
    layout: Layout,
    slice: (u32, u32),
    values: &[i16],
)
    requires cut { short.old.slices.slicing ≡ layout }
    requires size { short.old.slices.size ≡ SMALL }
    requires sound { IsShortSound short.old }
    ensures cut { short.new.slices.slicing ≡ layout }
    ensures size { short.new.slices.size ≡ SMALL }
    ensures sound { IsShortSound short.new }
{
    let (sx, sy) = slice;
    assert!(rt; sx < layout.slices_x() && sy < layout.slices_y());
    assert!(rt; values.len() == short.slices.run_length(sx, sy));
    short.slices.put_run(sx, sy, values);
}

fn rows_of<T: Number>(rt: &impl Abort, alloc: Global, layout: Layout) -> Bands<T>
    ensures depth { layout.depth ≡ 1 }
    ensures zero { AreFilledBands T.none result 1 6 6 }
{
    assert!(rt; layout.depth() == 1);
    Bands::new(alloc, 1, 6, 6).ok().expect(rt, "memory")
}

fn has_row(rt: &impl Abort, bands: &NarrowBands, place: (u32, u32, u32), row: [i32; 3]) -> bool {
    let (level, orient, y) = place;
    let is_lowest = level == 0 && orient == 0;
    assert!(rt; is_lowest || level >= 1 && level <= bands.depth() && orient >= 1 && orient <= 3);
    let plane = bands.band(level, orient);
    assert!(rt; y < plane.h());
    let shown = plane.row(y);
    shown.len() == 3 && shown[0] == row[0] && shown[1] == row[1] && shown[2] == row[2]
}

// The numbers from 0 to 35.
fn counted() -> [i16; 36] {
    let mut numbers = [0; 36];
    for k in 0..36usize {
        numbers[k] = k as i16;
    }
    numbers
}

// Slices of 16 bits, as rows of 16 bits and of 32.
#[test]
fn slices_are_gathered_into_rows(rt: HostRuntime) {
    let layout = small_layout(&rt);
    let mut short = ShortBands::new(rt.alloc(), layout, SMALL)
        .ok()
        .expect(&rt, "memory");
    let numbers = counted();
    put_short(&rt, &mut short, layout, (0, 0), &numbers[0..4]);
    put_short(&rt, &mut short, layout, (1, 0), &numbers[4..12]);
    put_short(&rt, &mut short, layout, (0, 1), &numbers[12..20]);
    put_short(&rt, &mut short, layout, (1, 1), &numbers[20..36]);
    let mut rows: Bands<i16> = rows_of(&rt, rt.alloc(), layout);
    let fits = short.gather(&mut rows, &mut [0; 6]);
    assert!(&rt; fits && rows.depth() == 1);
    let lh = rows.band(1, 2);
    assert!(&rt; lh.h() > 1);
    let row = lh.row(1);
    assert!(&rt; row.len() == 3 && row[0] == 16 && row[1] == 28 && row[2] == 29);
    drop(rows);
    let mut wide: NarrowBands = rows_of(&rt, rt.alloc(), layout);
    short.widen(&mut wide, &mut [0; 6]);
    drop(short);
    for k in 0..12usize {
        let (place, row) = ROWS[k];
        let wanted = if place.0 == 0 { [0; 3] } else { row };
        assert!(&rt; has_row(&rt, &wide, place, wanted));
    }
    drop(wide);
}
