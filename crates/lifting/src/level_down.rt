//! A level of analysis whose rows come one after another. A pair of rows of its bands is finished as soon as the rows that it
//! needs have come.

ghost use Rattle.std.specs.Prelude.{◌≡◌, ◌≢◌, ℕ, min, ◌+◌, ◌*◌, ◌%◌, ◌^◌, ◌<◌, ◌≤◌, length, true, false};
ghost use Rattle.planes.specs.Valued.{valued};
ghost use Rattle.lifting.specs.declared.PairStep.TheVariants.{OddDown, EvenUp};
ghost use Rattle.lifting.specs.LevelRows.{rows_for, pairs_whole, lifted_row, made_row, HoldsRows, HasRows, IsReady, IsSameLevel};
ghost use Rattle.lifting.specs.Lines.{before};
ghost use Rattle.lifting.specs.Places.{side_place, row_grid};
ghost use Rattle.lifting.specs.Ranges.{LineWithin, GridWithin};
ghost use Rattle.lifting.specs.Steps.{step};
ghost use Rattle.lifting.specs.Transform.{Grid};

use crate::halves_back::analyse_sides;
use crate::level_up::Pair;
use crate::lifted::Analysed;
use crate::ring::{lift_row_between, pair_in, place_before, start_of};
use crate::{PairStep, Wavelet};

/// A level of analysis of 2h rows of 2w columns, which takes its rows from above downward.
#[derive(Drop)]
pub struct LevelDown<'a, T> {
    /// Where rows wait: row j of the level in row j % 4 of 2w places. A level of two rows has only these.
    pub ring: &'a mut [T],
    /// The columns of a band.
    pub w: u32,
    /// The rows of a band.
    pub h: u32,
    /// The wavelet.
    pub wavelet: Wavelet,
    /// How many rows of the level have come.
    pub came: u32,
    /// How many rows of the bands are whole.
    pub made: u32,
}

// How many rows have to come until so many pairs are whole.
fn rows_for(wavelet: Wavelet, h: u32, pairs: u32) -> u32
    requires low { h ≤ 4104 }
    requires few { pairs ≤ 10000 }
    ensures { result ≡ rows_for wavelet h pairs }
{
    match wavelet {
        Wavelet::LeGall => (2 * h).min(2 * pairs + 1),
        Wavelet::HaarFlat => 2 * pairs,
        Wavelet::HaarShift => 2 * pairs,
    }
}

// The row of the ring that stands below pair y. Where the row below hasn't come, there is none, or it isn't looked at.
fn row_below(came: u32, y: u32) -> u32
    requires low { y < 4104 }
    ensures inner { 2 * y + 2 < came → result ≡ (2 * y + 2) % 4 }
    ensures last { came ≤ 2 * y + 2 → result ≡ 2 * y % 4 }
{
    if 2 * y + 2 < came {
        (2 * y + 2) % 4
    } else {
        2 * y % 4
    }
}

// The last steps on rows 2y + 1 and 2y: down between 2y and the row below, and then up between 2y - 1 and 2y + 1.
fn finish_two<T: Analysed>(ring: &mut [T], y: u32, below: u32, w: u32, wavelet: Wavelet)
    requires low { y < 4104 }
    requires short { w ≤ 4104 }
    requires four { below < 4 }
    requires even_inside { (2 * y % 4) * (2 * w) + 2 * w ≤ length ring.old }
    requires odd_inside { ((2 * y + 1) % 4) * (2 * w) + 2 * w ≤ length ring.old }
    requires above_inside { (before (2 * y) % 4) * (2 * w) + 2 * w ≤ length ring.old }
    requires below_inside { below * (2 * w) + 2 * w ≤ length ring.old }
    requires apart { below ≢ (2 * y + 1) % 4 }
    requires even_small { LineWithin (2 * w) (2 ^ 28)
        (row_grid T.value T.none (2 * w) ring.old (2 * y % 4)) }
    requires odd_small { LineWithin (2 * w) (2 ^ 28)
        (row_grid T.value T.none (2 * w) ring.old ((2 * y + 1) % 4)) }
    requires above_small { 1 ≤ y → LineWithin (2 * w) (2 ^ 28)
        (row_grid T.value T.none (2 * w) ring.old (before (2 * y) % 4)) }
    requires below_small { LineWithin (2 * w) (2 ^ 28)
        (row_grid T.value T.none (2 * w) ring.old below) }
    ensures odd { let grid = row_grid T.value T.none (2 * w) in
        (x : ℕ) → x < 2 * w → grid ring.new ((2 * y + 1) % 4) x
        ≡ step wavelet OddDown (grid ring.old ((2 * y + 1) % 4) x)
        (grid ring.old (2 * y % 4) x)
        (grid ring.old below x) }
    ensures even { let grid = row_grid T.value T.none (2 * w) in
        (x : ℕ) → x < 2 * w → grid ring.new (2 * y % 4) x
        ≡ step wavelet EvenUp (grid ring.old (2 * y % 4) x)
        (grid ring.new (before (2 * y) % 4) x)
        (grid ring.new ((2 * y + 1) % 4) x) }
    ensures others { let grid = row_grid T.value T.none (2 * w) in
        (k x : ℕ) → k ≢ (2 * y + 1) % 4 → k ≢ 2 * y % 4 → x < 2 * w
        → grid ring.new k x ≡ grid ring.old k x }
{
    let n = 2 * w as usize;
    let (even, odd, above) = (2 * y % 4, (2 * y + 1) % 4, place_before(2 * y) % 4);
    lift_row_between(ring, odd, even, below, n, wavelet, PairStep::OddDown);
    lift_row_between(ring, even, above, odd, n, wavelet, PairStep::EvenUp);
}

// Row `came` of a level, its halves side by side, in its place in a ring of four rows.
fn put_sides<T: Analysed>(ring: &mut [T], row: &[T], w: u32, wavelet: Wavelet, came: u32)
    ghost g: { Grid }
    requires some { 1 ≤ w }
    requires short { w ≤ 4104 }
    requires inside { (came % 4) * (2 * w) + 2 * w ≤ length ring.old }
    requires wide { 2 * w ≤ length row.now }
    requires is_row { (x : ℕ) → x < 2 * w → valued T.value T.none row.now x ≡ g came x }
    requires small { LineWithin (2 * w) (2 ^ 25) (g came) }
    ensures row { (x : ℕ) → x < 2 * w → row_grid T.value T.none (2 * w) ring.new (came % 4) x
        ≡ lifted_row wavelet w g came (side_place w x) }
    ensures others { let grid = row_grid T.value T.none (2 * w) in
        (k x : ℕ) → k ≢ came % 4 → x < 2 * w → grid ring.new k x ≡ grid ring.old k x }
{
    let n = w as usize;
    let start = start_of(came % 4, 2 * n);
    analyse_sides(&mut ring[start..start + 2 * n], row, n, wavelet);
}

/// Takes row `came` of a level of 2h rows into its ring, where `made` pairs of rows of the bands were whole, and says how many are
/// whole with it.
pub(crate) fn take_row<T: Analysed>(
    ring: &mut [T],
    row: &[T],
    w: u32,
    h: u32,
    wavelet: Wavelet,
    came: u32,
    made: u32,
) -> u32
    ghost g: { Grid }
    requires some { 1 ≤ w }
    requires short { w ≤ 4104 }
    requires low { h ≤ 4104 }
    requires ring { min 4 (2 * h) * (2 * w) ≤ length ring.old }
    requires more { came < 2 * h }
    requires made { made ≡ pairs_whole wavelet h came }
    requires wide { 2 * w ≤ length row.now }
    requires is_row { (x : ℕ) → x < 2 * w → valued T.value T.none row.now x ≡ g came x }
    requires small { GridWithin (2 * h) (2 * w) (2 ^ 25) g }
    requires before { HoldsRows wavelet h w came made g (row_grid T.value T.none (2 * w) ring.old) }
    ensures whole { result ≡ pairs_whole wavelet h (came + 1) }
    ensures few { (made ≤ result) × (result ≤ made + 1) }
    ensures after { HoldsRows wavelet h w (came + 1) result g (row_grid T.value T.none (2 * w) ring.new) }
{
    put_sides(ring, row, w, wavelet, came);
    if came + 1 < rows_for(wavelet, h, made + 1) {
        return made;
    }
    finish_two(ring, made, row_below(came + 1, made), w, wavelet);
    made + 1
}

impl<'a, T: Analysed> LevelDown<'a, T> {
    /// A level of which no row has come.
    pub fn new(ring: &'a mut [T], w: u32, h: u32, wavelet: Wavelet) -> LevelDown<'a, T>
        requires some { 1 ≤ w }
        requires short { w ≤ 4104 }
        requires low { h ≤ 4104 }
        requires ring { min 4 (2 * h) * (2 * w) ≤ length ring.old }
        requires rows { 1 ≤ h }
        ensures same_reference { result.ring.ghost_name ≡ ring.entry.ghost_name }
        ensures ring { result.ring.now ≡ ring.old }
        ensures size { (result.w ≡ w) × (result.h ≡ h) × (result.wavelet ≡ wavelet) }
        ensures none { (result.came ≡ 0) × (result.made ≡ 0) }
        ensures ready { IsReady result }
        ensures rows { (g : Grid) → HasRows T.value T.none g result }
    {
        LevelDown {
            ring,
            w,
            h,
            wavelet,
            came: 0,
            made: 0,
        }
    }

    /// Takes the next row. The answer is whether a pair of rows of the bands is whole with it.
    pub fn put_row(&mut self, row: &[T]) -> bool
        ghost g: { Grid }
        requires ready { IsReady self.old }
        requires more { self.old.came < 2 * self.old.h }
        requires wide { 2 * self.old.w ≤ length row.now }
        requires is_row { (x : ℕ) → x < 2 * self.old.w
            → valued T.value T.none row.now x ≡ g self.old.came x }
        requires small { GridWithin (2 * self.old.h) (2 * self.old.w) (2 ^ 25) g }
        requires before { HasRows T.value T.none g self.old }
        ensures same_level { IsSameLevel self.old self.new }
        ensures ready { IsReady self.new }
        ensures came { self.new.came ≡ self.old.came + 1 }
        ensures whole { result ≡ true → self.new.made ≡ self.old.made + 1 }
        ensures waits { result ≡ false → self.new.made ≡ self.old.made }
        ensures after { HasRows T.value T.none g self.new }
    {
        let made = take_row(
            self.ring,
            row,
            self.w,
            self.h,
            self.wavelet,
            self.came,
            self.made,
        );
        let is_whole = self.made < made;
        self.came += 1;
        self.made = made;
        is_whole
    }

    /// The rows of the bands that were made last.
    pub fn pair(&self) -> Pair<'_, '_, T>
        requires ready { IsReady self.now }
        requires some { 1 ≤ self.now.made }
        ensures long { (self.now.w ≤ length result.ll.now) × (self.now.w ≤ length result.hl.now)
            × (self.now.w ≤ length result.lh.now) × (self.now.w ≤ length result.hh.now) }
        ensures ll { (g : Grid) → HasRows T.value T.none g self.now → (x : ℕ) → x < self.now.w
            → valued T.value T.none result.ll.now x ≡ made_row 0 0 g self.now x }
        ensures hl { (g : Grid) → HasRows T.value T.none g self.now → (x : ℕ) → x < self.now.w
            → valued T.value T.none result.hl.now x ≡ made_row 0 1 g self.now x }
        ensures lh { (g : Grid) → HasRows T.value T.none g self.now → (x : ℕ) → x < self.now.w
            → valued T.value T.none result.lh.now x ≡ made_row 1 0 g self.now x }
        ensures hh { (g : Grid) → HasRows T.value T.none g self.now → (x : ℕ) → x < self.now.w
            → valued T.value T.none result.hh.now x ≡ made_row 1 1 g self.now x }
    {
        pair_in(self.ring, self.made - 1, self.w as usize)
    }
}
