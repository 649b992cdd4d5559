//! How a store is cut, and slices of two components that take the numbers of a list in turn.

ghost use Rattle.std.specs.Prelude.{◌≡◌, ℕ, ◌+◌, ◌*◌, ◌^◌, ◌<◌, ◌≤◌, length, slice_index_or, true};
ghost use Rattle.slice_geometry.specs.SliceOrder as order;
ghost use Rattle.slice_store.specs.Places.{IsCut};
ghost use Rattle.slice_store.specs.Stack.{stack_of, IsSlicePut};
ghost use Rattle.slice_store.specs.Writing.{with_numbers, ShowsRun, OtherRunsStay};

use crate::SliceStore;
use planes::{Number, Rect};
use slice_geometry::{Layout, Size};

// Gives the places of two lists the numbers of a third, in turn.
#[inline(always)]
fn take_in_turn<T: Number>(first: &mut [T], second: &mut [T], values: &[T])
    requires alike { length second.old ≡ length first.old }
    requires whole { length values.now ≡ 2 * length first.old }
    ensures first { (k : ℕ) → k < length first.old
        → slice_index_or first.new k T.none ≡ slice_index_or values.now (2 * k) T.none }
    ensures second { (k : ℕ) → k < length first.old
        → slice_index_or second.new k T.none ≡ slice_index_or values.now (2 * k + 1) T.none }
{
    for k in 0..first.len() {
        first[k] = values[2 * k];
        second[k] = values[2 * k + 1];
    }
}

impl<T: Number> SliceStore<T> {
    /// Whether it is cut as a layout cuts a component of this size.
    pub fn is_cut(&self, layout: &Layout, size: Size) -> bool
        ensures cut { result ≡ true → self.now.slicing ≡ layout.now }
        ensures size { result ≡ true → self.now.size ≡ size }
    {
        self.cuts.is_of(layout, size)
    }

    /// A slice's rectangle in the bands of a level.
    #[inline(always)]
    pub fn rect(&self, level: u32, sx: u32, sy: u32) -> Rect
        requires level { level ≤ self.now.slicing.depth }
        requires across { sx < self.now.slicing.slices_x }
        requires down { sy < self.now.slicing.slices_y }
        ensures value { result ≡ order.level_rect self.now.slicing self.now.size sx sy level }
        ensures cut { IsCut self.now.slicing self.now.size }
    {
        self.cuts.rules();
        Rect {
            x0: self.cuts.left(level, sx),
            x1: self.cuts.left(level, sx + 1),
            y0: self.cuts.top(level, sy),
            y1: self.cuts.top(level, sy + 1),
        }
    }

    /// How many places a slice has in each band of each level.
    pub fn areas(&self, sx: u32, sy: u32) -> [usize; 5]
        requires across { sx < self.now.slicing.slices_x }
        requires down { sy < self.now.slicing.slices_y }
        ensures value { (level : ℕ) → level ≤ self.now.slicing.depth
            → slice_index_or result level 0
            ≡ order.area (order.level_rect self.now.slicing self.now.size sx sy level) }
        ensures few { (level : ℕ) → level ≤ 4 → slice_index_or result level 0 ≤ 2 ^ 26 }
    {
        self.cuts.rules();
        let mut areas = [0usize; 5];
        for level in 0..self.cuts.depth() + 1 {
            areas[level as usize] = self.cuts.wide(level, sx) * self.cuts.tall(level, sy);
        }
        areas
    }

    /// Puts the numbers of a slice of two components that are cut the same, which take those of a list in turn. All else stays.
    pub fn put_in_turn(&mut self, second: &mut SliceStore<T>, sx: u32, sy: u32, values: &[T])
        requires across { sx < self.old.slicing.slices_x }
        requires down { sy < self.old.slicing.slices_y }
        requires slicing { second.old.slicing ≡ self.old.slicing }
        requires size { second.old.size ≡ self.old.size }
        requires whole { length values.now
            ≡ 2 * order.place_count self.old.slicing self.old.size sx sy }
        ensures same { self.new ≡ with_numbers self.old self.new.numbers }
        ensures second_same { second.new ≡ with_numbers second.old second.new.numbers }
        ensures shown { ShowsRun T.value T.none self.new sx sy
            (λ k. slice_index_or values.now (2 * k) T.none) }
        ensures second_shown { ShowsRun T.value T.none second.new sx sy
            (λ k. slice_index_or values.now (2 * k + 1) T.none) }
        ensures others { OtherRunsStay T.value T.none self.old self.new sx sy }
        ensures second_others { OtherRunsStay T.value T.none second.old second.new sx sy }
        ensures stack { self.old.slicing.slices_y ≤ self.old.strips
            → IsSlicePut self.old.slicing self.old.size sx sy
            (λ k. T.value (slice_index_or values.now (2 * k) T.none))
            (stack_of T.value T.none self.old) (stack_of T.value T.none self.new) }
        ensures second_stack { second.old.slicing.slices_y ≤ second.old.strips
            → IsSlicePut second.old.slicing second.old.size sx sy
            (λ k. T.value (slice_index_or values.now (2 * k + 1) T.none))
            (stack_of T.value T.none second.old) (stack_of T.value T.none second.new) }
    {
        let (start, second_start) = (self.run_start(sx, sy), second.run_start(sx, sy));
        let count = self.run_length(sx, sy);
        take_in_turn(
            &mut self.numbers[start..start + count],
            &mut second.numbers[second_start..second_start + count],
            values,
        );
    }
}
