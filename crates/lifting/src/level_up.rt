//! A level of synthesis whose pairs of rows come one after another. A row is given as soon as the pairs that it is made of have come.

ghost use Rattle.std.specs.Prelude.{◌≡◌, ◌≢◌, ℕ, min, ◌+◌, ◌-◌, ◌*◌, ◌%◌, ◌<◌, ◌≤◌, length, slice_index_or};
ghost use Rattle.planes.specs.Valued.{valued};
ghost use Rattle.lifting.specs.declared.Wavelet.TheVariants.{LeGall};
ghost use Rattle.lifting.specs.Clipping.{sample_of};
ghost use Rattle.lifting.specs.Fits.{LevelFits};
ghost use Rattle.lifting.specs.LevelPairs.{rows_final, evened_row, raised_row, HoldsPair, HoldsPairs, HasPairs, IsOpen, IsSameUp};
ghost use Rattle.lifting.specs.Lines.{after};
ghost use Rattle.lifting.specs.Places.{row_grid};
ghost use Rattle.lifting.specs.Transform.{Grid, synthesis_level};

use crate::halves::synthesise_sides;
use crate::laned::Laned;
use crate::ring::{copy_row, raise_row, start_of};
use crate::roll::{Between, step_sides};
use crate::samples::{Sampled, sample_sides};
use crate::{PairStep, Wavelet};

/// A row of each of the four bands.
#[derive(Drop)]
pub struct Pair<'a, 'b, T> {
    /// LL's.
    pub ll: &'a [T],
    /// HL's.
    pub hl: &'b [T],
    /// LH's.
    pub lh: &'b [T],
    /// HH's.
    pub hh: &'b [T],
}

/// A level of synthesis of 2h rows of 2w columns, which takes the rows of its bands from above downward.
#[derive(Drop)]
pub struct LevelUp<'a, T> {
    /// Rows of 2w places: two where even rows of the level wait by turns, and one for the row that is given next. A level of two rows
    /// needs only the first two.
    pub ring: &'a mut [T],
    /// The columns of a band.
    pub w: u32,
    /// The rows of a band.
    pub h: u32,
    /// The wavelet.
    pub wavelet: Wavelet,
    /// How many rows of the bands have come.
    pub came: u32,
    /// How many rows of the level were given.
    pub given: u32,
}

/// How many rows of a level of 2h rows are final when so many pairs have come.
pub(crate) fn rows_final(wavelet: Wavelet, h: u32, pairs: u32) -> u32
    requires low { h ≤ 4104 }
    requires few { pairs ≤ h }
    ensures { result ≡ rows_final wavelet h pairs }
{
    match wavelet {
        Wavelet::LeGall => {
            if pairs == h {
                2 * h
            } else {
                (2 * pairs).saturating_sub(1)
            }
        }
        Wavelet::HaarFlat => 2 * pairs,
        Wavelet::HaarShift => 2 * pairs,
    }
}

impl<'a, T: Laned> LevelUp<'a, T> {
    /// A level of which no pair has come.
    pub fn new(ring: &'a mut [T], w: u32, h: u32, wavelet: Wavelet) -> LevelUp<'a, T>
        requires some { 1 ≤ w }
        requires some_rows { 1 ≤ h }
        requires short { w ≤ 4104 }
        requires low { h ≤ 4104 }
        requires ring { min 3 (2 * h) * (2 * w) ≤ length ring.old }
        ensures same_reference { result.ring.ghost_name ≡ ring.entry.ghost_name }
        ensures ring { result.ring.now ≡ ring.old }
        ensures size { (result.w ≡ w) × (result.h ≡ h) × (result.wavelet ≡ wavelet) }
        ensures none { (result.came ≡ 0) × (result.given ≡ 0) }
        ensures open { IsOpen result }
        ensures pairs { (g : Grid) → HasPairs T.value T.none g result }
    {
        LevelUp {
            ring,
            w,
            h,
            wavelet,
            came: 0,
            given: 0,
        }
    }

    // The even row of the next pair.
    fn put_even(&mut self, above: &Pair<T>, pair: &Pair<T>)
        ghost g: { Grid }
        requires open { IsOpen self.old }
        requires more { self.old.came < self.old.h }
        requires above { HoldsPair T.value T.none self.old.w (self.old.came - 1) g above.now }
        requires pair { HoldsPair T.value T.none self.old.w self.old.came g pair.now }
        requires has_room { LevelFits self.old.wavelet (2 * self.old.h) (2 * self.old.w) T.reach g }
        ensures same_level { IsSameUp self.old self.new }
        ensures counts { (self.new.came ≡ self.old.came) × (self.new.given ≡ self.old.given) }
        ensures row { (x : ℕ) → x < 2 * self.old.w
            → row_grid T.value T.none (2 * self.old.w) self.new.ring.now (self.old.came % 2) x
            ≡ evened_row self.old.wavelet self.old.h self.old.w g (2 * self.old.came) x }
        ensures others { let grid = row_grid T.value T.none (2 * self.old.w) in
            (j x : ℕ) → j ≢ self.old.came % 2 → x < 2 * self.old.w
            → grid self.new.ring.now j x ≡ grid self.old.ring.now j x }
    {
        let left = Between {
            v: pair.ll,
            a: above.lh,
            b: pair.lh,
        };
        let right = Between {
            v: pair.hl,
            a: above.hh,
            b: pair.hh,
        };
        let (w, wavelet) = (self.w as usize, self.wavelet);
        let start = start_of(self.came % 2, 2 * w);
        let dst = &mut self.ring[start..start + 2 * w];
        step_sides(dst, &left, &right, w, wavelet, PairStep::EvenDown);
    }

    // The odd row of pair y into a row of the ring, between the even rows beside it. Behind the last pair, and of Haar, its own is
    // looked at.
    #[inline(always)]
    fn put_odd(&mut self, row: u32, y: u32, pair: &Pair<T>)
        ghost g: { Grid }
        requires open { IsOpen self.old }
        requires more { self.old.came < self.old.h }
        requires three { row < 3 }
        requires apart { (row ≢ y % 2) × (row ≢ self.old.came % 2) }
        requires inside { row * (2 * self.old.w) + 2 * self.old.w ≤ length self.old.ring.now }
        requires near { (y ≤ self.old.came) × (self.old.came ≤ y + 1) }
        requires behind { self.old.wavelet ≡ LeGall
            → after (2 * self.old.h) (2 * y + 1) ≡ 2 * self.old.came }
        requires pair { HoldsPair T.value T.none self.old.w y g pair.now }
        requires has_room { LevelFits self.old.wavelet (2 * self.old.h) (2 * self.old.w) T.reach g }
        requires own { (x : ℕ) → x < 2 * self.old.w
            → row_grid T.value T.none (2 * self.old.w) self.old.ring.now (y % 2) x
            ≡ evened_row self.old.wavelet self.old.h self.old.w g (2 * y) x }
        requires last { (x : ℕ) → x < 2 * self.old.w
            → row_grid T.value T.none (2 * self.old.w) self.old.ring.now (self.old.came % 2) x
            ≡ evened_row self.old.wavelet self.old.h self.old.w g (2 * self.old.came) x }
        ensures same_level { IsSameUp self.old self.new }
        ensures counts { (self.new.came ≡ self.old.came) × (self.new.given ≡ self.old.given) }
        ensures row { (x : ℕ) → x < 2 * self.old.w
            → row_grid T.value T.none (2 * self.old.w) self.new.ring.now row x
            ≡ raised_row self.old.wavelet self.old.h self.old.w g (2 * y + 1) x }
        ensures others { let grid = row_grid T.value T.none (2 * self.old.w) in
            (j x : ℕ) → j ≢ row → x < 2 * self.old.w
            → grid self.new.ring.now j x ≡ grid self.old.ring.now j x }
    {
        let (w, wavelet) = (self.w as usize, self.wavelet);
        raise_row(self.ring, row, y % 2, self.came % 2, pair, w, wavelet);
    }

    /// Takes the next pair, beside the one before it, which its holder still has; the first stands beside itself. All rows that
    /// are final were given.
    pub fn put_pair(&mut self, above: &Pair<T>, pair: &Pair<T>)
        ghost g: { Grid }
        requires open { IsOpen self.old }
        requires more { self.old.came < self.old.h }
        requires given { self.old.given ≡ rows_final self.old.wavelet self.old.h self.old.came }
        requires above { HoldsPair T.value T.none self.old.w (self.old.came - 1) g above.now }
        requires pair { HoldsPair T.value T.none self.old.w self.old.came g pair.now }
        requires has_room { LevelFits self.old.wavelet (2 * self.old.h) (2 * self.old.w) T.reach g }
        requires before { HasPairs T.value T.none g self.old }
        ensures same_level { IsSameUp self.old self.new }
        ensures open { IsOpen self.new }
        ensures counts { (self.new.came ≡ self.old.came + 1) × (self.new.given ≡ self.old.given) }
        ensures after { HasPairs T.value T.none g self.new }
    {
        self.put_even(above, pair);
        if self.given < 2 * self.came {
            self.put_odd(2, self.came - 1, above);
        }
        if rows_final(self.wavelet, self.h, self.came + 1) == 2 * self.came + 2 {
            self.put_odd((self.came + 1) % 2, self.came, pair);
        }
        self.came += 1;
    }

    /// How many rows are final.
    pub fn rows_final(&self) -> u32
        requires open { IsOpen self.now }
        ensures { result ≡ rows_final self.now.wavelet self.now.h self.now.came }
    {
        rows_final(self.wavelet, self.h, self.came)
    }

    // The row of the ring where the next row stands, which is free from then on. An even row that an odd one waits for is copied.
    #[inline(always)]
    fn fetch(&mut self) -> u32
        ghost g: { Grid }
        requires open { IsOpen self.old }
        requires more { self.old.given < rows_final self.old.wavelet self.old.h self.old.came }
        requires before { HasPairs T.value T.none g self.old }
        ensures same_level { IsSameUp self.old self.new }
        ensures counts { (self.new.came ≡ self.old.came) × (self.new.given ≡ self.old.given) }
        ensures three { result < 3 }
        ensures inside { result * (2 * self.old.w) + 2 * self.old.w ≤ length self.old.ring.now }
        ensures row { (x : ℕ) → x < 2 * self.old.w
            → row_grid T.value T.none (2 * self.old.w) self.new.ring.now result x
            ≡ raised_row self.old.wavelet self.old.h self.old.w g self.old.given x }
        ensures free { (ring : Grid) → ((j x : ℕ) → j ≢ result → x < 2 * self.old.w
            → ring j x ≡ row_grid T.value T.none (2 * self.old.w) self.new.ring.now j x)
            → HoldsPairs self.old.wavelet self.old.h self.old.w self.old.came
            (self.old.given + 1) g ring }
    {
        let row = (self.given + 1) / 2 % 2;
        if self.given + 2 < 2 * self.came {
            return 2;
        }
        if self.rows_final() < 2 * self.came {
            copy_row(self.ring, 2, row, 2 * self.w as usize);
            return 2;
        }
        row
    }

    /// Gives the next row.
    pub fn row(&mut self, out: &mut [T])
        ghost g: { Grid }
        requires open { IsOpen self.old }
        requires more { self.old.given < rows_final self.old.wavelet self.old.h self.old.came }
        requires has_room { LevelFits self.old.wavelet (2 * self.old.h) (2 * self.old.w) T.reach g }
        requires before { HasPairs T.value T.none g self.old }
        requires wide { 2 * self.old.w ≤ length out.old }
        ensures same_level { IsSameUp self.old self.new }
        ensures open { IsOpen self.new }
        ensures counts { (self.new.came ≡ self.old.came) × (self.new.given ≡ self.old.given + 1) }
        ensures after { HasPairs T.value T.none g self.new }
        ensures row { (x : ℕ) → x < 2 * self.old.w → valued T.value T.none out.new x
            ≡ synthesis_level self.old.wavelet (2 * self.old.h) (2 * self.old.w) g
            self.old.given x }
        ensures beside { (x : ℕ) → 2 * self.old.w ≤ x
            → valued T.value T.none out.new x ≡ valued T.value T.none out.old x }
    {
        let (w, wavelet) = (self.w as usize, self.wavelet);
        let start = start_of(self.fetch(), 2 * w);
        self.given += 1;
        let row = &mut self.ring[start..start + 2 * w];
        synthesise_sides(&mut out[..2 * w], row, w, wavelet);
    }

    /// Passes the next row over.
    pub fn skip(&mut self)
        requires open { IsOpen self.old }
        requires more { self.old.given < rows_final self.old.wavelet self.old.h self.old.came }
        ensures same_level { IsSameUp self.old self.new }
        ensures open { IsOpen self.new }
        ensures counts { (self.new.came ≡ self.old.came) × (self.new.given ≡ self.old.given + 1) }
        ensures after { (g : Grid) → HasPairs T.value T.none g self.old
            → HasPairs T.value T.none g self.new }
    {
        self.given += 1;
    }
}

impl<'a, T: Sampled> LevelUp<'a, T> {
    /// Gives the first places of the next row as samples.
    pub fn sample_row(&mut self, out: &mut [u16], depth: u32)
        ghost g: { Grid }
        requires open { IsOpen self.old }
        requires more { self.old.given < rows_final self.old.wavelet self.old.h self.old.came }
        requires has_room { LevelFits self.old.wavelet (2 * self.old.h) (2 * self.old.w) T.reach g }
        requires before { HasPairs T.value T.none g self.old }
        requires some_bits { 1 ≤ depth }
        requires bits { depth ≤ T.depths }
        requires fits { length out.old ≤ 2 * self.old.w }
        ensures same_level { IsSameUp self.old self.new }
        ensures open { IsOpen self.new }
        ensures counts { (self.new.came ≡ self.old.came) × (self.new.given ≡ self.old.given + 1) }
        ensures after { HasPairs T.value T.none g self.new }
        ensures row { (x : ℕ) → x < length out.old → slice_index_or out.new x 0
            ≡ sample_of depth (synthesis_level self.old.wavelet (2 * self.old.h)
            (2 * self.old.w) g self.old.given x) }
    {
        let (w, wavelet) = (self.w as usize, self.wavelet);
        let start = start_of(self.fetch(), 2 * w);
        self.given += 1;
        let row = &mut self.ring[start..start + 2 * w];
        sample_sides(out, row, w, wavelet, depth);
    }
}
