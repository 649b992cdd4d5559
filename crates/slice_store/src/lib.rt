//! The coefficients of a component, slice by slice: slices of any sizes, in a ring of rows of slices.
#![tactic(auto)]

ghost use Rattle.std.specs.Prelude.{◌≡◌, ℕ, ◌+◌, ◌-◌, ◌*◌, ◌%◌, ◌^◌, ◌<◌, ◌≤◌, length, min, pos, replicate, slice_index_or, IfOk, true};
ghost use Rattle.planes.specs.Raster.{at};
ghost use Rattle.planes.specs.Subbands.{BandExists, HaveSizes, band_of};
ghost use Rattle.planes.specs.Valued.{valued};
ghost use Rattle.slice_geometry.specs.Shape.{IsSize};
ghost use Rattle.slice_geometry.specs.Geometry as geometry;
ghost use Rattle.slice_geometry.specs.SliceOrder as order;
ghost use Rattle.slice_store.specs.Laws.{EachPlaceIsInside, PlacesAreApart, RowsComeInTurn};
ghost use Rattle.slice_store.specs.Places as places;
ghost use Rattle.slice_store.specs.Places.{IsPlace, IsStoreSound, band, run_start, number_at};
ghost use Rattle.slice_store.specs.Sides as sides;
ghost use Rattle.slice_store.specs.Sides.{left, top, piece, AreEven};
ghost use Rattle.slice_store.specs.Room.{AreStarts};
ghost use Rattle.slice_store.specs.Stack.{stack_of, HoldsSlice, IsBandRowPut, IsSlicePut};
ghost use Rattle.slice_store.specs.Writing.{with_numbers, LiesLike, OthersStay, ShowsRun, OtherRunsStay};

mod cuts;
mod gathered;
mod in_turn;
mod short_bands;
#[cfg(test)]
mod tests;

use cuts::Cuts;
use planes::{NoMemory, Number};
pub use short_bands::{MAX_SHORT, ShortBands, ShortTrio};
use slice_geometry::{Layout, Size};
use std::alloc::Global;
use std::marker::Model;

/// Each place of a band lies in the run of its slice, and of rows of slices that are in the ring at once no two are one.
pub fn each_place_is_alone()
    ensures inside { EachPlaceIsInside }
    ensures apart { PlacesAreApart }
{}

// N numbers from one place on. All are read before one is put, so that they are put at once.
#[inline(always)]
fn read_fixed<T: Number, const N: usize>(from: &[T], at: usize) -> [T; N]
    requires there { at + N ≤ length from.now }
    ensures { (i : ℕ) → i < N
        → slice_index_or result i T.none ≡ slice_index_or from.now (at + i) T.none }
{
    let mut block = [T::one(); N];
    for i in 0..N {
        block[i] = from[at + i];
    }
    block
}

// Puts N numbers from one place on.
#[inline(always)]
fn put_fixed<T: Number, const N: usize>(out: &mut [T], to: usize, block: [T; N])
    requires room { to + N ≤ length out.old }
    ensures done { (i : ℕ) → i < N
        → slice_index_or out.new (to + i) T.none ≡ slice_index_or block i T.none }
    ensures before { (j : ℕ) → j < to
        → slice_index_or out.new j T.none ≡ slice_index_or out.old j T.none }
    ensures behind { (j : ℕ) → to + N ≤ j
        → slice_index_or out.new j T.none ≡ slice_index_or out.old j T.none }
{
    for i in 0..N {
        out[to + i] = block[i];
    }
}

// Copies N numbers from one place to another.
#[inline(always)]
fn copy_fixed<T: Number, const N: usize>(out: &mut [T], to: usize, from: &[T], at: usize)
    requires room { to + N ≤ length out.old }
    requires there { at + N ≤ length from.now }
    ensures done { (i : ℕ) → i < N
        → slice_index_or out.new (to + i) T.none ≡ slice_index_or from.now (at + i) T.none }
    ensures before { (j : ℕ) → j < to
        → slice_index_or out.new j T.none ≡ slice_index_or out.old j T.none }
    ensures behind { (j : ℕ) → to + N ≤ j
        → slice_index_or out.new j T.none ≡ slice_index_or out.old j T.none }
{
    put_fixed::<T, N>(out, to, read_fixed::<T, N>(from, at));
}

// Copies `count` numbers from one place to another, one by one.
fn copy_each<T: Number>(out: &mut [T], to: usize, from: &[T], at: usize, count: usize)
    requires room { to + count ≤ length out.old }
    requires there { at + count ≤ length from.now }
    ensures done { (i : ℕ) → i < count
        → slice_index_or out.new (to + i) T.none ≡ slice_index_or from.now (at + i) T.none }
    ensures before { (j : ℕ) → j < to
        → slice_index_or out.new j T.none ≡ slice_index_or out.old j T.none }
    ensures behind { (j : ℕ) → to + count ≤ j
        → slice_index_or out.new j T.none ≡ slice_index_or out.old j T.none }
{
    for i in 0..count {
        out[to + i] = from[at + i];
    }
}

// Copies N to 2N numbers: the first N, and the last N, which may be some of the first.
#[inline(always)]
fn copy_ends<T: Number, const N: usize>(
    out: &mut [T],
    to: usize,
    from: &[T],
    at: usize,
    count: usize,
)
    requires few { N ≤ count }
    requires most { count ≤ 2 * N }
    requires room { to + count ≤ length out.old }
    requires there { at + count ≤ length from.now }
    ensures done { (i : ℕ) → i < count
        → slice_index_or out.new (to + i) T.none ≡ slice_index_or from.now (at + i) T.none }
    ensures before { (j : ℕ) → j < to
        → slice_index_or out.new j T.none ≡ slice_index_or out.old j T.none }
    ensures behind { (j : ℕ) → to + count ≤ j
        → slice_index_or out.new j T.none ≡ slice_index_or out.old j T.none }
{
    copy_fixed::<T, N>(out, to, from, at);
    copy_fixed::<T, N>(out, to + (count - N), from, at + (count - N));
}

// Copies `count` numbers from one place to another. So few as a slice has in a row of a band are copied by two copies of fixed
// width.
#[inline(always)]
fn copy_part<T: Number>(out: &mut [T], to: usize, from: &[T], at: usize, count: usize)
    requires room { to + count ≤ length out.old }
    requires there { at + count ≤ length from.now }
    ensures done { (i : ℕ) → i < count
        → slice_index_or out.new (to + i) T.none ≡ slice_index_or from.now (at + i) T.none }
    ensures before { (j : ℕ) → j < to
        → slice_index_or out.new j T.none ≡ slice_index_or out.old j T.none }
    ensures behind { (j : ℕ) → to + count ≤ j
        → slice_index_or out.new j T.none ≡ slice_index_or out.old j T.none }
{
    if count > 16 || count == 0 {
        copy_each(out, to, from, at, count);
    } else if count >= 8 {
        copy_ends::<T, 8>(out, to, from, at, count);
    } else if count >= 4 {
        copy_ends::<T, 4>(out, to, from, at, count);
    } else if count >= 2 {
        copy_ends::<T, 2>(out, to, from, at, count);
    } else {
        copy_fixed::<T, 1>(out, to, from, at);
    }
}

// Gives each of so many pieces, `size` places apart, N numbers of a list.
#[inline(always)]
fn deal_fixed<T: Number, const N: usize>(
    numbers: &mut [T],
    row: &[T],
    at: usize,
    size: usize,
    across: usize,
)
    requires whole { across * N ≤ length row.now }
    requires apart { N ≤ size }
    requires there { (sx : ℕ) → sx < across → at + sx * size + N ≤ length numbers.old }
    ensures put { (sx i : ℕ) → sx < across → i < N
        → slice_index_or numbers.new (at + sx * size + i) T.none
        ≡ slice_index_or row.now (sx * N + i) T.none }
    ensures rest { (p : ℕ) → ((sx i : ℕ) → sx < across → i < N → p ≡ at + sx * size + i → ⊥)
        → slice_index_or numbers.new p T.none ≡ slice_index_or numbers.old p T.none }
{
    for sx in 0..across {
        copy_fixed::<T, N>(numbers, at + sx * size, row, sx * N);
    }
}

// Gives each of so many pieces, `size` places apart, `count` numbers of a list.
fn deal<T: Number>(
    numbers: &mut [T],
    row: &[T],
    at: usize,
    size: usize,
    across: usize,
    count: usize,
)
    requires whole { across * count ≤ length row.now }
    requires apart { count ≤ size }
    requires there { (sx : ℕ) → sx < across → at + sx * size + count ≤ length numbers.old }
    ensures put { (sx i : ℕ) → sx < across → i < count
        → slice_index_or numbers.new (at + sx * size + i) T.none
        ≡ slice_index_or row.now (sx * count + i) T.none }
    ensures rest { (p : ℕ) → ((sx i : ℕ) → sx < across → i < count → p ≡ at + sx * size + i → ⊥)
        → slice_index_or numbers.new p T.none ≡ slice_index_or numbers.old p T.none }
{
    if count == 8 {
        deal_fixed::<T, 8>(numbers, row, at, size, across);
    } else if count == 4 {
        deal_fixed::<T, 4>(numbers, row, at, size, across);
    } else if count == 2 {
        deal_fixed::<T, 2>(numbers, row, at, size, across);
    } else if count == 1 {
        deal_fixed::<T, 1>(numbers, row, at, size, across);
    } else {
        for sx in 0..across {
            copy_part(numbers, at + sx * size, row, sx * count, count);
        }
    }
}

// Collects N numbers from each of so many pieces, `size` places apart.
#[inline(always)]
fn collect_fixed<T: Number, const N: usize>(
    out: &mut [T],
    numbers: &[T],
    at: usize,
    size: usize,
    across: usize,
)
    requires room { length out.old ≡ across * N }
    requires there { (sx : ℕ) → sx < across → at + sx * size + N ≤ length numbers.now }
    ensures { (sx i : ℕ) → sx < across → i < N
        → slice_index_or out.new (sx * N + i) T.none
        ≡ slice_index_or numbers.now (at + sx * size + i) T.none }
{
    for sx in 0..across {
        copy_fixed::<T, N>(out, sx * N, numbers, at + sx * size);
    }
}

// Collects so many numbers from each piece.
fn collect<T: Number>(
    out: &mut [T],
    numbers: &[T],
    at: usize,
    size: usize,
    across: usize,
    count: usize,
)
    requires room { length out.old ≡ across * count }
    requires there { (sx : ℕ) → sx < across → at + sx * size + count ≤ length numbers.now }
    ensures { (sx i : ℕ) → sx < across → i < count
        → slice_index_or out.new (sx * count + i) T.none
        ≡ slice_index_or numbers.now (at + sx * size + i) T.none }
{
    if count == 8 {
        collect_fixed::<T, 8>(out, numbers, at, size, across);
    } else if count == 4 {
        collect_fixed::<T, 4>(out, numbers, at, size, across);
    } else if count == 2 {
        collect_fixed::<T, 2>(out, numbers, at, size, across);
    } else if count == 1 {
        collect_fixed::<T, 1>(out, numbers, at, size, across);
    } else {
        for sx in 0..across {
            copy_part(out, sx * count, numbers, at + sx * size, count);
        }
    }
}

/// The coefficients of a component, slice by slice.
///
/// A row of slices lies in a strip: row t in strip t % strips. In a strip slice stands behind slice, and in a slice the numbers
/// stand in the order of the stream.
#[derive(Drop)]
pub struct SliceStore<T> {
    cuts: Cuts,
    befores: Vec<u32>,
    unders: Vec<u32>,
    strips: usize,
    starts: Vec<usize>,
    numbers: Vec<T>,
}

impl<T> Model for SliceStore<T> {
    ghost use Rattle.slice_store.specs.Store.{Store};
    ghost use Rattle.slice_store.specs.Cut.{IsTable, AreUnders};
    ghost use Rattle.slice_store.specs.Places.{IsStoreSound, numbers_before};
    ghost use Rattle.std.specs.Prelude.{◌+◌};

    ghost Value = { Store T };

    ghost view = { λ b. record {
      slicing = b.cuts.slicing;
      size = b.cuts.size;
      strips = b.strips;
      starts = b.starts.items;
      numbers = b.numbers.items;
    } };

    ghost invariant = { λ b. IsTable b.befores.items
        (λ sy sx. numbers_before b.cuts.slicing b.cuts.size sx sy)
        b.cuts.slicing.slices_y (b.cuts.slicing.slices_x + 1)
        × AreUnders b.unders.items b.cuts.slicing b.cuts.size
        × IsStoreSound (record {
          slicing = b.cuts.slicing;
          size = b.cuts.size;
          strips = b.strips;
          starts = b.starts.items;
          numbers = b.numbers.items;
        }) };
}

// Where so many strips begin, and the last one ends.
fn starts_of(alloc: Global, cuts: &Cuts, strips: u32) -> Result<Vec<usize>, NoMemory>
    requires { strips ≤ cuts.now.slicing.slices_y }
    ensures short { IfOk result (λ v. slice_index_or v.items strips 0 ≤ 2 ^ 43) }
    ensures starts { IfOk result (λ v. AreStarts v.items cuts.now.slicing cuts.now.size strips) }
{
    cuts.rules();
    let mut starts = Vec::from_elem(alloc, 0usize, strips as usize + 1)?;
    for k in 0..strips {
        starts[k as usize + 1] = starts[k as usize] + cuts.strip_length(strips, k);
    }
    Ok(starts)
}

impl<T: Number> SliceStore<T> {
    /// Zeros, with room for so many rows of slices, or for all if these are fewer. The error is want of memory alone.
    ///
    /// With room for all rows each has as many numbers as it needs. With less each has as many as the greatest may need.
    pub fn new(
        alloc: Global,
        layout: Layout,
        size: Size,
        strips: u32,
    ) -> Result<SliceStore<T>, NoMemory>
        requires size { IsSize size.w size.h }
        requires some { 1 ≤ strips }
        ensures cut { IfOk result (λ s. s.slicing ≡ layout) }
        ensures size { IfOk result (λ s. s.size ≡ size) }
        ensures strips { IfOk result (λ s. s.strips ≡ min strips layout.slices_y) }
        ensures starts { IfOk result (λ s. AreStarts s.starts layout size s.strips) }
        ensures exact { layout.slices_y ≤ strips → IfOk result (λ s. length s.numbers
            ≡ geometry.padded_length layout.depth size.w
            * geometry.padded_length layout.depth size.h) }
        ensures zero { IfOk result (λ s. s.numbers
            ≡ replicate (slice_index_or s.starts s.strips 0) T.none) }
    {
        let cuts = Cuts::new(alloc, layout, size)?;
        cuts.rules();
        let befores = cuts.befores(alloc)?;
        let unders = cuts.unders(alloc)?;
        let strips = strips.min(cuts.down());
        let starts = starts_of(alloc, &cuts, strips)?;
        let numbers = T::zeros(alloc, starts[strips as usize])?;
        Ok(SliceStore {
            cuts,
            befores,
            unders,
            strips: strips as usize,
            starts,
            numbers,
        })
    }

    /// All numbers, strip behind strip.
    #[inline(always)]
    pub fn numbers(&self) -> &[T]
        ensures value { result.now ≡ self.now.numbers }
        ensures sound { IsStoreSound self.now }
    {
        &self.numbers
    }

    /// The bands have the sizes of a component's, and their numbers stand at their places.
    pub fn shows(&self)
        ensures sound { IsStoreSound self.now }
        ensures sizes { HaveSizes (stack_of T.value T.none self.now)
            (geometry.padded_length self.now.slicing.depth self.now.size.w)
            (geometry.padded_length self.now.slicing.depth self.now.size.h) }
        ensures places { (level orient y x : ℕ) → IsPlace self.now level orient y x
            → at (band_of (stack_of T.value T.none self.now) level orient) y x
            ≡ number_at T.value T.none self.now level orient y x }
    {
        // The rules of the store.
        let _ = self.numbers();
    }

    /// The depth of the transform.
    #[inline(always)]
    pub fn depth(&self) -> u32
        ensures { result ≡ self.now.slicing.depth }
    {
        self.cuts.depth()
    }

    /// The slices across.
    #[inline(always)]
    pub fn across(&self) -> u32
        ensures { result ≡ self.now.slicing.slices_x }
    {
        self.cuts.across()
    }

    // The slices down.
    #[inline(always)]
    fn down(&self) -> u32
        ensures { result ≡ self.now.slicing.slices_y }
    {
        self.cuts.down()
    }

    // The first column of slice column sx in a level's bands.
    #[inline(always)]
    fn left(&self, level: u32, sx: u32) -> u32
        requires level { level ≤ self.now.slicing.depth }
        requires across { sx ≤ self.now.slicing.slices_x }
        ensures { result ≡ left self.now.slicing self.now.size level sx }
    {
        self.cuts.left(level, sx)
    }

    // How many columns of a level's bands a column of slices has.
    #[inline(always)]
    fn wide(&self, level: u32, sx: u32) -> usize
        requires level { level ≤ self.now.slicing.depth }
        requires across { sx < self.now.slicing.slices_x }
        ensures { result ≡ sides.wide self.now.slicing self.now.size level sx }
    {
        self.cuts.wide(level, sx)
    }

    // The first row of row sy of slices.
    #[inline(always)]
    fn top(&self, level: u32, sy: u32) -> u32
        requires level { level ≤ self.now.slicing.depth }
        requires down { sy ≤ self.now.slicing.slices_y }
        ensures { result ≡ top self.now.slicing self.now.size level sy }
    {
        self.cuts.top(level, sy)
    }

    // The row of slices that has a row of a level's bands.
    fn row_with(&self, level: u32, y: u32) -> u32
        requires level { level ≤ self.now.slicing.depth }
        requires inside { y < (band self.now level).h }
        ensures value { result ≡ places.row_with self.now level y }
        ensures down { result < self.now.slicing.slices_y }
        ensures top { top self.now.slicing self.now.size level result ≤ y }
        ensures bottom { y < top self.now.slicing self.now.size level (result + 1) }
    {
        self.cuts.row_with(level, y)
    }

    // How many numbers the slices in front of column sx have in their row.
    #[inline(always)]
    fn numbers_before(&self, sx: u32, sy: u32) -> usize
        requires across { sx ≤ self.now.slicing.slices_x }
        requires down { sy < self.now.slicing.slices_y }
        ensures { result ≡ places.numbers_before self.now.slicing self.now.size sx sy }
    {
        self.befores[(sy * (self.cuts.across() + 1) + sx) as usize] as usize
    }

    // How many of a slice's numbers come before those of a band.
    #[inline(always)]
    fn places_before(&self, level: u32, orient: u32, sx: u32, sy: u32) -> usize
        requires exists { BandExists self.now.slicing.depth level orient }
        requires across { sx < self.now.slicing.slices_x }
        requires down { sy < self.now.slicing.slices_y }
        ensures { result ≡ order.places_before self.now.slicing self.now.size sx sy level orient }
    {
        self.cuts.rules();
        let row = sy * (self.depth() + 1) + level;
        let under = self.unders[(row * self.across() + sx) as usize] as usize;
        let area = self.cuts.wide(level, sx) * self.cuts.tall(level, sy);
        under + orient.saturating_sub(1) as usize * area
    }

    // The strip of a row of slices. Where there is room for all rows nothing is divided.
    #[inline(always)]
    fn strip_of(&self, sy: u32) -> usize
        requires { sy < self.now.slicing.slices_y }
        ensures { result ≡ sy % self.now.strips }
    {
        let _ = self.numbers();
        let strip = sy as usize;
        if strip < self.strips {
            strip
        } else {
            strip % self.strips
        }
    }

    // Where the strip of a row of slices begins.
    #[inline(always)]
    fn strip_start(&self, sy: u32) -> usize
        requires { sy < self.now.slicing.slices_y }
        ensures { result ≡ slice_index_or self.now.starts (sy % self.now.strips) 0 }
    {
        let _ = self.numbers();
        let strip = self.strip_of(sy);
        self.starts[strip]
    }

    // Where a row of a slice's part of a band begins.
    #[inline(always)]
    fn row_at(&self, level: u32, orient: u32, y: u32, sx: u32, sy: u32) -> usize
        requires exists { BandExists self.now.slicing.depth level orient }
        requires across { sx < self.now.slicing.slices_x }
        requires down { sy < self.now.slicing.slices_y }
        requires top { top self.now.slicing self.now.size level sy ≤ y }
        requires bottom { y < top self.now.slicing self.now.size level (sy + 1) }
        ensures value { result ≡ piece self.now level orient y sx sy }
        ensures inside { result + sides.wide self.now.slicing self.now.size level sx
            ≤ length self.now.numbers }
    {
        let _ = self.numbers();
        self.strip_start(sy)
            + self.numbers_before(sx, sy)
            + self.places_before(level, orient, sx, sy)
            + (y - self.top(level, sy)) as usize * self.wide(level, sx)
    }

    // Whether the columns of slices have one width, in the bands of all levels.
    #[inline(always)]
    fn is_even(&self) -> bool
        ensures { result ≡ true → AreEven self.now.slicing self.now.size }
    {
        self.cuts.is_even()
    }

    // Gives each of so many pieces, `size` places apart, `count` numbers of a list.
    fn deal_row(&mut self, at: usize, row: &[T], size: usize, across: usize, count: usize)
        requires whole { across * count ≤ length row.now }
        requires apart { count ≤ size }
        requires there { (sx : ℕ) → sx < across → at + sx * size + count ≤ length self.old.numbers }
        ensures same { self.new ≡ with_numbers self.old self.new.numbers }
        ensures put { (sx i : ℕ) → sx < across → i < count
            → slice_index_or self.new.numbers (at + sx * size + i) T.none
            ≡ slice_index_or row.now (sx * count + i) T.none }
        ensures rest { (p : ℕ)
            → ((sx i : ℕ) → sx < across → i < count → p ≡ at + sx * size + i → ⊥)
            → slice_index_or self.new.numbers p T.none ≡ slice_index_or self.old.numbers p T.none }
    {
        deal(self.numbers.as_mut_slice(), row, at, size, across, count);
    }

    // Writes numbers of a list from one place on.
    fn write(&mut self, at: usize, row: &[T], from: usize, count: usize)
        requires room { at + count ≤ length self.old.numbers }
        requires there { from + count ≤ length row.now }
        ensures same { self.new ≡ with_numbers self.old self.new.numbers }
        ensures done { (i : ℕ) → i < count
            → slice_index_or self.new.numbers (at + i) T.none
            ≡ slice_index_or row.now (from + i) T.none }
        ensures before { (j : ℕ) → j < at
            → slice_index_or self.new.numbers j T.none ≡ slice_index_or self.old.numbers j T.none }
        ensures behind { (j : ℕ) → at + count ≤ j
            → slice_index_or self.new.numbers j T.none ≡ slice_index_or self.old.numbers j T.none }
    {
        copy_part(self.numbers.as_mut_slice(), at, row, from, count);
    }

    /// Row y of a band, collected from its slices.
    pub fn copy_row(&self, level: u32, orient: u32, y: u32, out: &mut [T])
        requires exists { BandExists self.now.slicing.depth level orient }
        requires inside { y < (band self.now level).h }
        requires room { length out.old ≡ (band self.now level).w }
        ensures { (x : ℕ) → x < (band self.now level).w
            → T.value (slice_index_or out.new x T.none)
            ≡ number_at T.value T.none self.now level orient y x }
    {
        let _ = self.numbers();
        let sy = self.row_with(level, y);
        if self.is_even() {
            let at = self.row_at(level, orient, y, 0, sy);
            let size = self.numbers_before(1, sy);
            let wide = self.wide(level, 0);
            let across = self.across() as usize;
            collect(out, self.numbers(), at, size, across, wide);
            return;
        }
        for sx in 0..self.across() {
            let at = self.row_at(level, orient, y, sx, sy);
            let left = self.left(level, sx) as usize;
            copy_part(out, left, self.numbers(), at, self.wide(level, sx));
        }
    }

    /// Puts the first numbers of a list into row y of a band, as many as the row has. All else stays.
    pub fn put_row(&mut self, level: u32, orient: u32, y: u32, row: &[T])
        requires exists { BandExists self.old.slicing.depth level orient }
        requires inside { y < (band self.old level).h }
        requires whole { (band self.old level).w ≤ length row.now }
        ensures same { self.new ≡ with_numbers self.old self.new.numbers }
        ensures put { (x : ℕ) → x < (band self.old level).w
            → number_at T.value T.none self.new level orient y x
            ≡ T.value (slice_index_or row.now x T.none) }
        ensures others { OthersStay T.value T.none self.old self.new level orient y }
        ensures stack { self.old.slicing.slices_y ≤ self.old.strips
            → IsBandRowPut level orient y (valued T.value T.none row.now)
            (stack_of T.value T.none self.old) (stack_of T.value T.none self.new) }
    {
        let _ = self.numbers();
        let sy = self.row_with(level, y);
        if self.is_even() {
            let at = self.row_at(level, orient, y, 0, sy);
            let size = self.numbers_before(1, sy);
            let wide = self.wide(level, 0);
            let across = self.across() as usize;
            self.deal_row(at, row, size, across, wide);
            return;
        }
        for sx in 0..self.across() {
            let at = self.row_at(level, orient, y, sx, sy);
            let left = self.left(level, sx) as usize;
            let wide = self.wide(level, sx);
            self.write(at, row, left, wide);
        }
    }

    // Where the numbers of a slice begin.
    fn run_start(&self, sx: u32, sy: u32) -> usize
        requires across { sx < self.now.slicing.slices_x }
        requires down { sy < self.now.slicing.slices_y }
        ensures value { result ≡ run_start self.now sx sy }
        ensures inside { result + order.place_count self.now.slicing self.now.size sx sy
            ≤ length self.now.numbers }
        ensures short { result + order.place_count self.now.slicing self.now.size sx sy ≤ 2 ^ 50 }
    {
        let _ = self.numbers();
        self.strip_start(sy) + self.numbers_before(sx, sy)
    }

    /// How many numbers a slice has.
    pub fn run_length(&self, sx: u32, sy: u32) -> usize
        requires across { sx < self.now.slicing.slices_x }
        requires down { sy < self.now.slicing.slices_y }
        ensures { result ≡ order.place_count self.now.slicing self.now.size sx sy }
    {
        let _ = self.numbers();
        self.numbers_before(sx + 1, sy) - self.numbers_before(sx, sy)
    }

    // The numbers of a slice.
    fn run_numbers(&self, sx: u32, sy: u32) -> &[T]
        requires across { sx < self.now.slicing.slices_x }
        requires down { sy < self.now.slicing.slices_y }
        ensures long { length result.now ≡ order.place_count self.now.slicing self.now.size sx sy }
        ensures value { (k : ℕ) → k < order.place_count self.now.slicing self.now.size sx sy
            → slice_index_or result.now k T.none
            ≡ slice_index_or self.now.numbers (run_start self.now sx sy + k) T.none }
    {
        let start = self.run_start(sx, sy);
        let end = start + self.run_length(sx, sy);
        &self.numbers()[start..end]
    }

    /// The numbers of a slice, in the order of the stream.
    pub fn run(&self, sx: u32, sy: u32) -> &[T]
        requires across { sx < self.now.slicing.slices_x }
        requires down { sy < self.now.slicing.slices_y }
        ensures holds { HoldsSlice T.value T.none self.now.slicing self.now.size
            (stack_of T.value T.none self.now) sx sy result.now }
        ensures shown { ShowsRun T.value T.none self.now sx sy
            (λ k. slice_index_or result.now k T.none) }
    {
        let _ = self.numbers();
        self.run_numbers(sx, sy)
    }

    /// Puts the numbers of a slice, which stand in the order of the stream. All else stays.
    pub fn put_run(&mut self, sx: u32, sy: u32, values: &[T])
        requires across { sx < self.old.slicing.slices_x }
        requires down { sy < self.old.slicing.slices_y }
        requires whole { length values.now
            ≡ order.place_count self.old.slicing self.old.size sx sy }
        ensures same { self.new ≡ with_numbers self.old self.new.numbers }
        ensures shown { ShowsRun T.value T.none self.new sx sy
            (λ k. slice_index_or values.now k T.none) }
        ensures others { OtherRunsStay T.value T.none self.old self.new sx sy }
        ensures stack { self.old.slicing.slices_y ≤ self.old.strips
            → IsSlicePut self.old.slicing self.old.size sx sy (valued T.value T.none values.now)
            (stack_of T.value T.none self.old) (stack_of T.value T.none self.new) }
    {
        let _ = self.numbers();
        let start = self.run_start(sx, sy);
        self.write(start, values, 0, values.len());
    }
}

/// Numbers that have all of 16 bits.
pub trait Wider: Number {
    /// The same number.
    fn from_short(short: i16) -> Self
        ensures { Self.value result ≡ short };
}

impl Wider for i32 {
    #[inline(always)]
    fn from_short(short: i16) -> i32 {
        i32::from(short)
    }
}

impl Wider for i64 {
    #[inline(always)]
    fn from_short(short: i16) -> i64 {
        i64::from(short)
    }
}

// Gives a list the numbers of another.
fn widen_all<T: Wider>(to: &mut [T], from: &[i16])
    requires { length from.now ≡ length to.old }
    ensures { (k : ℕ) → k < length from.now
        → T.value (slice_index_or to.new k T.none) ≡ slice_index_or from.now k (pos 0) }
{
    for k in 0..to.len() {
        to[k] = T::from_short(from[k]);
    }
}

impl<T: Wider> SliceStore<T> {
    // Takes so many numbers as there are.
    fn take_all(&mut self, from: &[i16])
        requires { length from.now ≡ length self.old.numbers }
        ensures same { self.new ≡ with_numbers self.old self.new.numbers }
        ensures done { (k : ℕ) → k < length from.now
            → T.value (slice_index_or self.new.numbers k T.none)
            ≡ slice_index_or from.now k (pos 0) }
    {
        widen_all(self.numbers.as_mut_slice(), from);
    }

    /// Takes all numbers of a store of 16 bits that lies the same.
    pub fn widen(&mut self, narrow: &SliceStore<i16>)
        requires { LiesLike narrow.now self.old }
        ensures same { self.new ≡ with_numbers self.old self.new.numbers }
        ensures widened { (level orient y x : ℕ) → IsPlace narrow.now level orient y x
            → number_at T.value T.none self.new level orient y x
            ≡ number_at (λ z. z) (pos 0) narrow.now level orient y x }
    {
        let _ = self.numbers();
        self.take_all(narrow.numbers());
    }
}

/// A row that is put: it is shown, and all rows that were shown stay, of the rows of slices that are open with it.
pub fn rows_come_in_turn()
    ensures { RowsComeInTurn }
{}
