ghost use Rattle.std.specs.Prelude.{◌≡◌, ℕ, ◌+◌, ◌-◌, ◌*◌, ◌%◌, ◌^◌, ◌<◌, ◌≤◌, length, slice_index_or, IfOk, true};
ghost use Rattle.slice_geometry.specs.Shape.{IsSize};
ghost use Rattle.slice_geometry.specs.Geometry as geometry;
ghost use Rattle.slice_geometry.specs.SliceOrder as order;
ghost use Rattle.slice_store.specs.Places.{IsCut};
ghost use Rattle.slice_store.specs.Places as places;
ghost use Rattle.slice_store.specs.Sides as sides;
ghost use Rattle.slice_store.specs.Cut.{IsTable, AreUnders};
ghost use Rattle.slice_store.specs.Room as room;

use planes::NoMemory;
use slice_geometry::{Layout, Size};
use std::alloc::Global;
use std::marker::Model;

// How a component is cut into slices. Where columns and rows of slices begin stands in tables, level by level, so that nothing
// is divided for a slice.
#[derive(Drop)]
pub(crate) struct Cuts {
    layout: Layout,
    size: Size,
    lefts: Vec<u32>,
    tops: Vec<u32>,
    even: bool,
}

impl Model for Cuts {
    ghost use Rattle.slice_store.specs.Cut.{Cut, AreTables};

    ghost Value = { Cut };

    ghost view = { λ c. record { slicing = c.layout; size = c.size } };

    ghost invariant = { λ c. AreTables (record { slicing = c.layout; size = c.size }) c.lefts.items
        c.tops.items c.even };
}

// The widths of the bands of all levels.
fn widths(layout: Layout, size: Size) -> [u32; 5]
    requires { IsSize size.w size.h }
    ensures value { (level : ℕ) → level ≤ layout.depth → slice_index_or result level 0
        ≡ (geometry.band_size layout.depth level size).w }
    ensures most { (level : ℕ) → level ≤ layout.depth → slice_index_or result level 0 ≤ 8192 }
{
    let mut widths = [0u32; 5];
    for level in 0..layout.depth() + 1 {
        widths[level as usize] = layout.band_size(size, level).w;
    }
    widths
}

// And their heights.
fn heights(layout: Layout, size: Size) -> [u32; 5]
    requires { IsSize size.w size.h }
    ensures value { (level : ℕ) → level ≤ layout.depth → slice_index_or result level 0
        ≡ (geometry.band_size layout.depth level size).h }
    ensures most { (level : ℕ) → level ≤ layout.depth → slice_index_or result level 0 ≤ 8192 }
{
    let mut heights = [0u32; 5];
    for level in 0..layout.depth() + 1 {
        heights[level as usize] = layout.band_size(size, level).h;
    }
    heights
}

// For each level, where `count` parts of its length begin, and the last one ends.
fn edges(alloc: Global, lengths: [u32; 5], levels: u32, count: u32) -> Result<Vec<u32>, NoMemory>
    requires levels { levels ≤ 5 }
    requires some { 1 ≤ count }
    requires few { count ≤ 8192 }
    requires short { (level : ℕ) → level < levels → slice_index_or lengths level 0 ≤ 8192 }
    ensures { IfOk result (λ v. IsTable v.items
        (λ level i. geometry.slice_start (slice_index_or lengths level 0) count i) levels (count + 1)) }
{
    let step = count + 1;
    let mut edges = Vec::from_elem(alloc, 0u32, (levels * step) as usize)?;
    for k in 0..levels * step {
        edges[k as usize] = lengths[(k / step) as usize] * (k % step) / count;
    }
    Ok(edges)
}

// Whether so many parts divide all of these lengths.
fn are_even(lengths: [u32; 5], levels: u32, count: u32) -> bool
    requires levels { levels ≤ 5 }
    requires some { 1 ≤ count }
    ensures { result ≡ true → (level : ℕ) → level < levels
        → slice_index_or lengths level 0 % count ≡ 0 }
{
    for level in 0..levels {
        if lengths[level as usize] % count != 0 {
            return false;
        }
    }
    true
}

// How many numbers a row of slices has at most, in the bands of all levels.
fn strip_room(layout: Layout, size: Size) -> usize
    requires { IsSize size.w size.h }
    ensures most { result ≤ 2 ^ 30 }
    ensures value { result ≡ room.strip_room layout size layout.depth }
{
    let mut sum = part_room(layout, size, 0);
    for level in 0..layout.depth() {
        sum += 3 * part_room(layout, size, level + 1);
    }
    sum
}

// In a band.
fn part_room(layout: Layout, size: Size, level: u32) -> usize
    requires size { IsSize size.w size.h }
    requires level { level ≤ layout.depth }
    ensures value { result ≡ room.part_room layout size level }
    ensures most { result ≤ 2 ^ 26 }
{
    let _ = layout.depth();
    let band = layout.band_size(size, level);
    band.w as usize * ((band.h + layout.slices_y() - 1) / layout.slices_y()) as usize
}

impl Cuts {
    pub(crate) fn new(alloc: Global, layout: Layout, size: Size) -> Result<Cuts, NoMemory>
        requires { IsSize size.w size.h }
        ensures { IfOk result (λ c. c ≡ record { slicing = layout; size = size }) }
    {
        let levels = layout.depth() + 1;
        let widths = widths(layout, size);
        let heights = heights(layout, size);
        let even = are_even(widths, levels, layout.slices_x());
        let lefts = edges(alloc, widths, levels, layout.slices_x())?;
        let tops = edges(alloc, heights, levels, layout.slices_y())?;
        Ok(Cuts {
            layout,
            size,
            lefts,
            tops,
            even,
        })
    }

    // The rules of the cut.
    #[inline(always)]
    pub(crate) fn rules(&self)
        ensures { IsCut self.now.slicing self.now.size }
    {
        let _ = &self.lefts;
    }

    #[inline(always)]
    pub(crate) fn depth(&self) -> u32
        ensures { result ≡ self.now.slicing.depth }
    {
        self.layout.depth()
    }

    #[inline(always)]
    pub(crate) fn across(&self) -> u32
        ensures { result ≡ self.now.slicing.slices_x }
    {
        self.layout.slices_x()
    }

    #[inline(always)]
    pub(crate) fn down(&self) -> u32
        ensures { result ≡ self.now.slicing.slices_y }
    {
        self.layout.slices_y()
    }

    // Whether a layout cuts a component of this size so.
    #[inline(always)]
    pub(crate) fn is_of(&self, layout: &Layout, size: Size) -> bool
        ensures cut { result ≡ true → self.now.slicing ≡ layout.now }
        ensures size { result ≡ true → self.now.size ≡ size }
    {
        self.layout == *layout && self.size == size
    }

    // Whether the columns of slices have one width, in the bands of all levels.
    #[inline(always)]
    pub(crate) fn is_even(&self) -> bool
        ensures { result ≡ true → sides.AreEven self.now.slicing self.now.size }
    {
        self.even
    }

    // The first column of slice column sx in a level's bands.
    #[inline(always)]
    pub(crate) fn left(&self, level: u32, sx: u32) -> u32
        requires level { level ≤ self.now.slicing.depth }
        requires across { sx ≤ self.now.slicing.slices_x }
        ensures { result ≡ sides.left self.now.slicing self.now.size level sx }
    {
        self.lefts[(level * (self.layout.slices_x() + 1) + sx) as usize]
    }

    // The first row of row sy of slices.
    #[inline(always)]
    pub(crate) fn top(&self, level: u32, sy: u32) -> u32
        requires level { level ≤ self.now.slicing.depth }
        requires down { sy ≤ self.now.slicing.slices_y }
        ensures { result ≡ sides.top self.now.slicing self.now.size level sy }
    {
        self.tops[(level * (self.layout.slices_y() + 1) + sy) as usize]
    }

    // How many rows of a level's bands a row of slices has.
    #[inline(always)]
    pub(crate) fn tall(&self, level: u32, sy: u32) -> usize
        requires level { level ≤ self.now.slicing.depth }
        requires down { sy < self.now.slicing.slices_y }
        ensures { result ≡ sides.tall self.now.slicing self.now.size level sy }
    {
        self.rules();
        (self.top(level, sy + 1) - self.top(level, sy)) as usize
    }

    // And how many columns a column of slices.
    #[inline(always)]
    pub(crate) fn wide(&self, level: u32, sx: u32) -> usize
        requires level { level ≤ self.now.slicing.depth }
        requires across { sx < self.now.slicing.slices_x }
        ensures { result ≡ sides.wide self.now.slicing self.now.size level sx }
    {
        self.rules();
        (self.left(level, sx + 1) - self.left(level, sx)) as usize
    }

    // The row of slices that has a row of a level's bands.
    pub(crate) fn row_with(&self, level: u32, y: u32) -> u32
        requires level { level ≤ self.now.slicing.depth }
        requires inside { y < (geometry.band_size self.now.slicing.depth level self.now.size).h }
        ensures value { result ≡ geometry.holding self.now.slicing.slices_y
            (geometry.band_size self.now.slicing.depth level self.now.size).h y }
        ensures down { result < self.now.slicing.slices_y }
        ensures top { sides.top self.now.slicing self.now.size level result ≤ y }
        ensures bottom { y < sides.top self.now.slicing self.now.size level (result + 1) }
    {
        self.rules();
        ((y + 1) * self.down() - 1) / self.top(level, self.down())
    }

    // How many numbers the slices in front of column sx have in their row.
    pub(crate) fn numbers_before(&self, sx: u32, sy: u32) -> usize
        requires across { sx ≤ self.now.slicing.slices_x }
        requires down { sy < self.now.slicing.slices_y }
        ensures value { result ≡ places.numbers_before self.now.slicing self.now.size sx sy }
        ensures most { result ≤ 2 ^ 30 }
    {
        self.rules();
        let mut sum = self.left(0, sx) as usize * self.tall(0, sy);
        for level in 0..self.depth() {
            sum += 3 * (self.left(level + 1, sx) as usize * self.tall(level + 1, sy));
        }
        sum
    }

    // How many numbers a slice has in the bands of the levels up to this one.
    pub(crate) fn places_to(&self, level: u32, sx: u32, sy: u32) -> usize
        requires level { level ≤ self.now.slicing.depth }
        requires across { sx < self.now.slicing.slices_x }
        requires down { sy < self.now.slicing.slices_y }
        ensures value { result ≡ order.places_to self.now.slicing self.now.size sx sy level }
        ensures most { result ≤ 2 ^ 30 }
    {
        self.rules();
        let mut sum = self.wide(0, sx) * self.tall(0, sy);
        for l in 0..level {
            sum += 3 * (self.wide(l + 1, sx) * self.tall(l + 1, sy));
        }
        sum
    }

    // How many of a slice's numbers come before those of a level.
    fn places_under(&self, level: u32, sx: u32, sy: u32) -> usize
        requires level { level ≤ self.now.slicing.depth }
        requires across { sx < self.now.slicing.slices_x }
        requires down { sy < self.now.slicing.slices_y }
        ensures value { result ≡ order.places_before self.now.slicing self.now.size sx sy level 1 }
        ensures most { result ≤ 2 ^ 30 }
    {
        self.rules();
        if level == 0 {
            return 0;
        }
        self.places_to(level - 1, sx, sy)
    }

    // The same of each level of each row of slices.
    pub(crate) fn unders(&self, alloc: Global) -> Result<Vec<u32>, NoMemory>
        ensures { IfOk result (λ v. AreUnders v.items self.now.slicing self.now.size) }
    {
        self.rules();
        let (levels, across) = (self.depth() + 1, self.across());
        let count = self.down() * levels * across;
        let mut unders = Vec::from_elem(alloc, 0u32, count as usize)?;
        for k in 0..count {
            let (row, sx) = (k / across, k % across);
            unders[k as usize] = self.places_under(row % levels, sx, row / levels) as u32;
        }
        Ok(unders)
    }

    // For each row of slices, how many numbers stand in front of each of its slices, and behind the last one.
    pub(crate) fn befores(&self, alloc: Global) -> Result<Vec<u32>, NoMemory>
        ensures { IfOk result (λ v. IsTable v.items
            (λ sy sx. places.numbers_before self.now.slicing self.now.size sx sy)
            self.now.slicing.slices_y (self.now.slicing.slices_x + 1)) }
    {
        self.rules();
        let step = self.across() + 1;
        let mut befores = Vec::from_elem(alloc, 0u32, (self.down() * step) as usize)?;
        for k in 0..self.down() * step {
            befores[k as usize] = self.numbers_before(k % step, k / step) as u32;
        }
        Ok(befores)
    }

    // How many numbers a row of slices has at most.
    fn row_room(&self) -> usize
        ensures most { result ≤ 2 ^ 30 }
        ensures value { result ≡ room.strip_room self.now.slicing self.now.size
            self.now.slicing.depth }
    {
        strip_room(self.layout, self.size)
    }

    // How many numbers strip k has, of so many: where there is one for each row of slices those of its row, else as many as a
    // row may have.
    pub(crate) fn strip_length(&self, strips: u32, k: u32) -> usize
        requires few { strips ≤ self.now.slicing.slices_y }
        requires less { k < strips }
        ensures value { result ≡ room.strip_numbers self.now.slicing self.now.size strips k }
        ensures most { result ≤ 2 ^ 30 }
    {
        self.rules();
        if strips == self.down() {
            return self.numbers_before(self.across(), k);
        }
        self.row_room()
    }
}
