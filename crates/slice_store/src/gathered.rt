//! Slices of 16 bits gathered into rows, of 16 bits or of 32.

ghost use Rattle.std.specs.Prelude.{◌≡◌, ◌↔◌, ℕ, ◌+◌, ◌*◌, ◌^◌, ◌<◌, ◌≤◌, length, slice_index_or, pos, true, false};
ghost use Rattle.planes.specs.Bounded.{IsWithin, IsPlaneWithin};
ghost use Rattle.planes.specs.Raster.{height};
ghost use Rattle.planes.specs.Subbands.{BandExists, band_of, AgreeInSizes};
ghost use Rattle.planes.specs.Valued.{valued};
ghost use Rattle.slice_geometry.specs.Geometry.{padded_length};
ghost use Rattle.slice_store.specs.declared.short_bands.TheConstants.{MAX_SHORT};
ghost use Rattle.slice_store.specs.Sides.{top};
ghost use Rattle.slice_store.specs.Gathered.{ShowTheSame, HaveRows, HaveStrips};
ghost use Rattle.slice_store.specs.ShortBands.{short_stack, shorts_of, IsShortSound};

use crate::{MAX_SHORT, ShortBands, SliceStore};
use planes::{Bands, NarrowPlane, Number, Plane};
use slice_geometry::band_numbered;

/// Numbers of rows that slices of 16 bits are gathered into.
pub trait Gathered: Number {
    /// The number that is a number of 16 bits.
    fn of(short: i16) -> Self
        ensures value { Self.value result ≡ short }
        ensures within { IsWithin (pos (2 ^ 18)) (Self.value result) };
}

impl Gathered for i16 {
    #[inline(always)]
    fn of(short: i16) -> i16 {
        short
    }
}

impl Gathered for i32 {
    #[inline(always)]
    fn of(short: i16) -> i32 {
        i32::from(short)
    }
}

// Gives a row the numbers of a row of 16 bits.
#[inline(always)]
fn take_row<T: Gathered>(to: &mut [T], row: &[i16])
    requires { length row.now ≡ length to.old }
    ensures value { (x : ℕ) → x < length to.old
        → valued T.value T.none to.new x ≡ slice_index_or row.now x (pos 0) }
    ensures within { (x : ℕ) → x < length to.old
        → IsWithin (pos (2 ^ 18)) (valued T.value T.none to.new x) }
{
    for x in 0..to.len() {
        to[x] = T::of(row[x]);
    }
}

// Gives a row of 16 bits the numbers of a row of 32, which fit.
fn narrow_row(to: &mut [i16], row: &[i32])
    requires len { length row.now ≡ length to.old }
    requires short { (k : ℕ) → k < length row.now
        → IsWithin MAX_SHORT (slice_index_or row.now k (pos 0)) }
    ensures { to.new ≡ row.now }
{
    for x in 0..to.len() {
        to[x] = row[x] as i16;
    }
}

// Whether a magnitude doesn't pass `MAX_SHORT`.
#[inline(always)]
fn is_short(v: i32) -> bool
    ensures { (result ≡ true) ↔ IsWithin MAX_SHORT v }
{
    -MAX_SHORT <= v && v <= MAX_SHORT
}

// Whether no magnitude passes `MAX_SHORT`. All are looked at, with no branch for each.
fn are_short(values: &[i32]) -> bool
    ensures { (result ≡ true)
        ↔ ((k : ℕ) → k < length values.now
        → IsWithin MAX_SHORT (slice_index_or values.now k (pos 0))) }
{
    let mut all = true;
    for k in 0..values.len() {
        all = all & is_short(values[k]);
    }
    all
}

// Whether no magnitude in a plane passes `MAX_SHORT`.
fn is_short_plane(plane: &NarrowPlane) -> bool
    ensures { (result ≡ true) ↔ IsPlaneWithin MAX_SHORT plane.now }
{
    for y in 0..plane.h() {
        if !are_short(plane.row(y)) {
            return false;
        }
    }
    true
}

// Gives a plane of 16 bits the numbers of a plane of 32, which fit.
fn narrow_plane(to: &mut Plane<i16>, from: &NarrowPlane)
    requires same_width { from.now.w ≡ to.old.w }
    requires same_height { height from.now ≡ height to.old }
    requires short { IsPlaneWithin MAX_SHORT from.now }
    ensures { to.new ≡ from.now }
{
    for y in 0..to.h() {
        narrow_row(to.row_mut(y), from.row(y));
    }
}

impl SliceStore<i16> {
    // Gives a plane the rows that a row of slices has in a band, by a row.
    fn gather_rows<T: Gathered>(
        &self,
        level: u32,
        orient: u32,
        sy: u32,
        plane: &mut Plane<T>,
        row: &mut [i16],
    )
        requires exists { BandExists self.now.slicing.depth level orient }
        requires strip { sy < self.now.slicing.slices_y }
        requires room { length row.old ≡ plane.old.w }
        requires before { HaveRows T.value T.none (band_of (shorts_of self.now) level orient)
            plane.old (top self.now.slicing self.now.size level sy) }
        ensures { HaveRows T.value T.none (band_of (shorts_of self.now) level orient) plane.new
            (top self.now.slicing self.now.size level (sy + 1)) }
    {
        self.shows();
        for y in self.top(level, sy)..self.top(level, sy + 1) {
            self.copy_row(level, orient, y, row);
            take_row(plane.row_mut(y), row);
        }
    }

    // The same in all bands.
    fn gather_strip<T: Gathered>(&self, sy: u32, bands: &mut Bands<T>, row: &mut [i16])
        requires strip { sy < self.now.slicing.slices_y }
        requires depth { bands.old.depth ≡ self.now.slicing.depth }
        requires room { padded_length self.now.slicing.depth self.now.size.w ≤ length row.old }
        requires before { HaveStrips T.value T.none self.now bands.old sy }
        ensures depth { bands.new.depth ≡ self.now.slicing.depth }
        ensures strips { HaveStrips T.value T.none self.now bands.new (sy + 1) }
    {
        // The rules of the store: its depth is 4 at most.
        let _ = self.numbers();
        for k in 0..3 * self.depth() + 1 {
            let (level, orient) = band_numbered(k);
            let w = self.left(level, self.across()) as usize;
            self.gather_rows(
                level,
                orient,
                sy,
                bands.band_mut(level, orient),
                &mut row[..w],
            );
        }
    }

    // Gives bands of rows the numbers of these, by a row.
    pub(crate) fn gather<T: Gathered>(&self, bands: &mut Bands<T>, row: &mut [i16])
        requires depth { bands.old.depth ≡ self.now.slicing.depth }
        requires sizes { HaveStrips T.value T.none self.now bands.old 0 }
        requires room { padded_length self.now.slicing.depth self.now.size.w ≤ length row.old }
        ensures depth { bands.new.depth ≡ self.now.slicing.depth }
        ensures strips { HaveStrips T.value T.none self.now bands.new self.now.slicing.slices_y }
    {
        // By rows of slices, so that each line of memory is read once.
        for sy in 0..self.down() {
            self.gather_strip(sy, bands, row);
        }
    }
}

impl ShortBands {
    /// Gives bands of rows the numbers of these, by a row. It answers false, and leaves the bands, where a magnitude of the
    /// lowest band passes `MAX_SHORT`.
    pub fn gather(&self, bands: &mut Bands<i16>, row: &mut [i16]) -> bool
        requires sound { IsShortSound self.now }
        requires sizes { AgreeInSizes (short_stack self.now) bands.old }
        requires room { padded_length self.now.slices.slicing.depth self.now.slices.size.w
            ≤ length row.old }
        ensures answer { (result ≡ true) ↔ IsPlaneWithin MAX_SHORT self.now.lowest }
        ensures same { result ≡ true → ShowTheSame (short_stack self.now) bands.new }
        ensures left { result ≡ false → bands.new ≡ bands.old }
    {
        if !is_short_plane(&self.lowest) {
            return false;
        }
        self.slices.shows();
        self.slices.gather(bands, row);
        narrow_plane(bands.band_mut(0, 0), &self.lowest);
        true
    }
}
