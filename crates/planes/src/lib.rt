//! Planes of signed numbers, and the subbands of a transform as planes. Rows are lent; one that is
//! written beside others is copied out of its place meanwhile.
#![tactic(auto)]

ghost use Rattle.std.specs.Prelude.{◌≡◌, ◌≢◌, ◌↔◌, ℕ, ◌-◌, ◌*◌, ◌<◌, ◌≤◌, min, length, slice_index_or, pos, IfOk, true, []};
ghost use Rattle.std.specs.Borrow.{sem};
ghost use Rattle.planes.specs.Raster.{height, row_of, at, with_place, filled_with, IsEdgeFilled};
ghost use Rattle.planes.specs.Inside.{rows_of, numbers_of};
ghost use Rattle.planes.specs.Lending.{LendsRow, LendsNumbers};
ghost use Rattle.planes.specs.Bounded.{IsWithin, IsPlaneWithin};

mod band_set;
mod late;
mod narrow_bands;
mod number;
mod number_list;
mod row_store;

pub use band_set::Bands;
pub use late::{LateBands, LatePlane};
pub use number::Number;
pub use row_store::Three;
use row_store::{Rows, start_of};
use std::alloc::{AllocError, AllocFailed, Global};
use std::marker::Model;

/// Memory ran out.
#[derive(Clone, Copy, Debug, PartialEq, Eq)]
pub struct NoMemory;

impl From<AllocError> for NoMemory {
    fn from(_error: AllocError) -> NoMemory {
        NoMemory
    }
}

impl<T: Drop> From<AllocFailed<T>> for NoMemory {
    fn from(_failed: AllocFailed<T>) -> NoMemory {
        NoMemory
    }
}

/// The orientation of a subband: low or high frequencies across, then down.
#[derive(Clone, Copy, Debug, PartialEq, Eq)]
pub enum Orient {
    Ll,
    Hl,
    Lh,
    Hh,
}

/// The places in the columns `x0..x1` and the rows `y0..y1`; the end places lie outside.
#[derive(Clone, Copy, Debug, PartialEq, Eq)]
pub struct Rect {
    pub x0: u32,
    pub x1: u32,
    pub y0: u32,
    pub y1: u32,
}

/// A plane of signed numbers, of 64 bits where no other width is named, row by row. Contracts see its width and its rows.
///
/// A plane of w by h takes the bytes of (h + 1) * w numbers, and a few words.
#[derive(Drop)]
pub struct Plane<T = i64> {
    rows: Rows<T>,
}

/// A plane of numbers of 32 bits.
pub type NarrowPlane = Plane<i32>;

/// Three rows of a narrow plane: `dst` to write, `a` and `b` to read.
pub type NarrowThree<'a> = Three<'a, i32>;

/// The subbands of one component in numbers of 32 bits.
pub type NarrowBands = Bands<i32>;

impl<T> Model for Plane<T> {
    ghost use Rattle.planes.specs.Raster.{Raster};

    ghost Value = { Raster T };

    ghost view = { λ p. p.rows };
}

/// The subbands of the three components.
#[derive(Drop)]
pub struct Trio {
    pub luma: Bands,
    pub c1: Bands,
    pub c2: Bands,
}

/// The subbands of the three components, in numbers of 32 bits.
#[derive(Drop)]
pub struct NarrowTrio {
    pub luma: NarrowBands,
    pub c1: NarrowBands,
    pub c2: NarrowBands,
}

/// The memory of the subbands of the three components.
#[derive(Drop)]
pub struct LateTrio<T = i64> {
    pub luma: LateBands<T>,
    pub c1: LateBands<T>,
    pub c2: LateBands<T>,
}

/// A plane for each of the three components.
#[derive(Drop)]
pub struct ThreePlanes {
    pub luma: Plane,
    pub c1: Plane,
    pub c2: Plane,
}

// Gives each place from w on the number of the last place before w.
fn fill_right(row: &mut [i64], w: usize)
    requires some { 1 ≤ w }
    requires inside { w ≤ length row.old }
    ensures { (x : ℕ) → x < length row.old
        → slice_index_or row.new x (pos 0) ≡ slice_index_or row.old (min x (w - 1)) (pos 0) }
{
    let last = row[w - 1];
    for x in w..row.len() {
        row[x] = last;
    }
}

// Whether the magnitude of v is at most `bound`.
#[inline(always)]
fn is_within(v: &i64, bound: i64) -> bool
    ensures { (result ≡ true) ↔ IsWithin bound v.now }
{
    // No magnitude is at most a number below 0: no number lies from 1 to that.
    let least = if bound < 0 { 1 } else { -bound };
    least <= *v && *v <= bound
}

// Whether each number of a row has a magnitude of at most `bound`. All are looked at, with no branch for each.
fn is_row_within(row: &[i64], bound: i64) -> bool
    ensures { (result ≡ true)
        ↔ ((x : ℕ) → x < length row.now → IsWithin bound (slice_index_or row.now x (pos 0))) }
{
    let mut all = true;
    for value in row {
        all = all & is_within(value, bound);
    }
    all
}

impl<T: Number> Plane<T> {
    /// A plane of w by h zeros, both at most 8208.
    pub fn new(alloc: Global, w: u32, h: u32) -> Result<Plane<T>, NoMemory>
        requires w_fits { w ≤ 8208 }
        requires h_fits { h ≤ 8208 }
        ensures { IfOk result (λ p. p ≡ filled_with T.none w h) }
    {
        let numbers = T::zeros(alloc, start_of(h, w))?;
        let spare = T::zeros(alloc, w as usize)?;
        Ok(Plane {
            rows: Rows::new(w, h, numbers, spare),
        })
    }

    /// The width, at most 8208.
    pub fn w(&self) -> u32
        ensures value { result ≡ self.now.w }
        ensures most { result ≤ 8208 }
    {
        self.rows.w()
    }

    /// The height, at most 8208.
    pub fn h(&self) -> u32
        ensures value { result ≡ height self.now }
        ensures most { result ≤ 8208 }
    {
        self.rows.h()
    }

    /// The number in row y and column x.
    pub fn get(&self, y: u32, x: u32) -> T
        requires y_inside { y < height self.now }
        requires x_inside { x < self.now.w }
        ensures { result ≡ slice_index_or (row_of self.now y) x T.none }
    {
        self.row(y)[x as usize]
    }

    /// Puts v into row y and column x, and leaves all else.
    pub fn set(&mut self, y: u32, x: u32, v: T)
        requires y_inside { y < height self.old }
        requires x_inside { x < self.old.w }
        ensures whole { self.new ≡ with_place self.old y x v }
        ensures here { slice_index_or (row_of self.new y) x T.none ≡ v }
    {
        self.row_mut(y)[x as usize] = v;
    }

    /// Row y.
    pub fn row(&self, y: u32) -> &[T]
        requires { y < height self.now }
        ensures value { result.now ≡ row_of self.now y }
        ensures len { length result.now ≡ self.now.w }
    {
        self.rows.row(y)
    }

    /// Row y, to write. After the loan the row is what its holder left, and all other rows stay.
    pub fn row_mut(&mut self, y: u32) -> &mut [T]
        requires { y < height self.old }
        ensures* writes_back { sem 𝓛 (LendsRow T.row self.entry y result) }
        ensures value { result.now ≡ row_of self.old y }
        ensures len { length result.now ≡ self.old.w }
    {
        self.rows.row_mut(y)
    }

    /// All numbers, row by row from the top, to write. After the loan the rows are what its holder left.
    pub fn numbers_mut(&mut self) -> &mut [T]
        ensures* writes_back { sem 𝓛 (LendsNumbers T.row self.entry result) }
        ensures value { result.now ≡ numbers_of self.old }
        ensures len { length result.now ≡ height self.old * self.old.w }
    {
        self.rows.numbers_mut()
    }

    /// Row `dst` to write, beside the rows a and b to read, which may be one row. After the loan row `dst` is what
    /// its holder left, and all other rows stay.
    pub fn rows_three(&mut self, dst: u32, a: u32, b: u32) -> Three<'_, T>
        requires dst_inside { dst < height self.old }
        requires a_inside { a < height self.old }
        requires b_inside { b < height self.old }
        requires not_a { dst ≢ a }
        requires not_b { dst ≢ b }
        ensures* writes_back { sem 𝓛 (LendsRow T.row self.entry dst result.dst) }
        ensures dst_row { result.dst.now ≡ row_of self.old dst }
        ensures a_row { result.a.now ≡ row_of self.old a }
        ensures b_row { result.b.now ≡ row_of self.old b }
        ensures dst_len { length result.dst.now ≡ self.old.w }
        ensures a_len { length result.a.now ≡ self.old.w }
        ensures b_len { length result.b.now ≡ self.old.w }
    {
        self.rows.rows_three(dst, a, b)
    }
}

impl<T: Number> Plane<T> {
    // Takes these numbers, row after row, in the place of none, and a spare row for its own.
    pub(crate) fn take(&mut self, w: u32, h: u32, numbers: &mut Vec<T>, spare: &mut Vec<T>)
        requires width { w ≤ 8208 }
        requires fits { h ≤ 8208 }
        requires count { length numbers.old.items ≡ h * w }
        requires spare_width { length spare.old.items ≡ w }
        requires none { height self.old ≡ 0 }
        ensures value { self.new ≡ record { w = w; rows = rows_of w h numbers.old.items } }
        ensures left { numbers.new.items ≡ [] }
        ensures spare_left { length spare.new.items ≡ self.old.w }
    {
        self.rows.take(w, h, numbers, spare);
    }
}

impl Plane<i64> {
    /// Gives each place beyond the first w columns and h rows the number of the nearest place within them.
    pub fn fill_edges(&mut self, w: u32, h: u32)
        requires some_columns { 1 ≤ w }
        requires some_rows { 1 ≤ h }
        requires w_fits { w ≤ self.old.w }
        requires h_fits { h ≤ height self.old }
        ensures { IsEdgeFilled self.old self.new w h }
    {
        self.fill_columns(w, h);
        self.fill_rows(h);
    }

    /// Whether each number has a magnitude of at most `bound`.
    pub(crate) fn within(&self, bound: i64) -> bool
        ensures { (result ≡ true) ↔ IsPlaneWithin bound self.now }
    {
        for y in 0..self.h() {
            if !is_row_within(self.row(y), bound) {
                return false;
            }
        }
        true
    }

    // Gives each place of the first h rows beyond the first w columns the number of the last of these columns.
    fn fill_columns(&mut self, w: u32, h: u32)
        requires some_columns { 1 ≤ w }
        requires w_fits { w ≤ self.old.w }
        requires h_fits { h ≤ height self.old }
        ensures same_width { self.new.w ≡ self.old.w }
        ensures same_height { height self.new ≡ height self.old }
        ensures filled { (y x : ℕ) → y < h → x < self.old.w
            → at self.new y x ≡ at self.old y (min x (w - 1)) }
    {
        for y in 0..h {
            fill_right(self.row_mut(y), w as usize);
        }
    }

    // Makes each row beyond the first h the last of these.
    fn fill_rows(&mut self, h: u32)
        requires some_rows { 1 ≤ h }
        requires h_fits { h ≤ height self.old }
        ensures same_width { self.new.w ≡ self.old.w }
        ensures same_height { height self.new ≡ height self.old }
        ensures filled { (y : ℕ) → y < height self.old
            → row_of self.new y ≡ row_of self.old (min y (h - 1)) }
    {
        for y in h..self.h() {
            let Three { dst, a, .. } = self.rows_three(y, h - 1, h - 1);
            dst.copy_from_slice(a);
        }
    }
}
