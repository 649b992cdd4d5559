//! One level of synthesis, and of analysis, in place: its bands lie interleaved in a plane. Rows that come later stand in the plane
//! still when a row takes its place.

ghost use Rattle.std.specs.Prelude.{◌≡◌, ◌≢◌, ℕ, ◌+◌, ◌-◌, ◌*◌, ◌%◌, ◌^◌, ◌<◌, ◌≤◌, length, pos};
ghost use Rattle.planes.specs.Raster.{height, at};
ghost use Rattle.planes.specs.Valued.{valued, grid_of};
ghost use Rattle.lifting.specs.Transform.{Grid, synthesis_level, analysis_level};
ghost use Rattle.lifting.specs.Fits.{LevelFits};
ghost use Rattle.lifting.specs.InPlace.{HasPair};
ghost use Rattle.lifting.specs.LevelPairs.{rows_final, HasPairs, IsOpen, IsSameUp};
ghost use Rattle.lifting.specs.LevelRows.{HasRows, IsReady};
ghost use Rattle.lifting.specs.Places.{place, side_place, row_grid, woven};
ghost use Rattle.lifting.specs.Ranges.{GridWithin};
ghost use Rattle.lifting.specs.Turns.{SameSize};

use crate::Wavelet;
use crate::halves::weave;
use crate::laned::Laned;
use crate::level_down::LevelDown;
use crate::level_up::LevelUp;
use crate::ring::{pair_in, start_of};
use crate::synthesis::take_rows;
use planes::{Number, Plane};

// The places of the longest row.
const LONGEST: usize = 8208;

// The first w even places of a row, and behind them the odd ones.
fn unweave<T: Number>(dst: &mut [T], row: &[T], w: usize)
    requires short { w ≤ 4104 }
    requires inside { 2 * w ≤ length row.now }
    requires room { 2 * w ≤ length dst.old }
    ensures evens { let at = valued T.value T.none in
        (k : ℕ) → k < w → at dst.new k ≡ at row.now (2 * k) }
    ensures odds { let at = valued T.value T.none in
        (k : ℕ) → k < w → at dst.new (w + k) ≡ at row.now (2 * k + 1) }
{
    for k in 0..w {
        dst[k] = row[2 * k];
        dst[w + k] = row[2 * k + 1];
    }
}

// Row j of a plane into row j % 4 of a ring, its even places first.
fn take_row<T: Number>(ring: &mut [T], plane: &Plane<T>, j: u32, w: u32)
    requires short { w ≤ 4104 }
    requires room { 4 * (2 * w) ≤ length ring.old }
    requires inside { j < height plane.now }
    requires fits { 2 * w ≤ plane.now.w }
    ensures row { (x : ℕ) → x < 2 * w
        → row_grid T.value T.none (2 * w) ring.new (j % 4) x ≡ grid_of T.value T.none plane.now j (side_place w x) }
    ensures others { let grid = row_grid T.value T.none (2 * w) in
        (k x : ℕ) → k ≢ j % 4 → x < 2 * w → grid ring.new k x ≡ grid ring.old k x }
{
    let w = w as usize;
    let start = start_of(j % 4, 2 * w);
    unweave(&mut ring[start..start + 2 * w], plane.row(j), w);
}

// The next pair of a level, from its rows in a plane. In the ring the pair before stands beside it.
fn put_next<T: Laned>(up: &mut LevelUp<T>, pairs: &mut [T], plane: &Plane<T>)
    ghost g: { Grid }
    requires open { IsOpen up.old }
    requires more { up.old.came < up.old.h }
    requires given { up.old.given ≡ rows_final up.old.wavelet up.old.h up.old.came }
    requires has_room { LevelFits up.old.wavelet (2 * up.old.h) (2 * up.old.w) T.reach g }
    requires before { HasPairs T.value T.none g up.old }
    requires room { 4 * (2 * up.old.w) ≤ length pairs.old }
    requires fits { 2 * up.old.w ≤ plane.now.w }
    requires inside { 2 * up.old.h ≤ height plane.now }
    requires rows { (j x : ℕ) → 2 * up.old.came ≤ j → grid_of T.value T.none plane.now j x ≡ g j x }
    requires above { 1 ≤ up.old.came → HasPair T.value T.none up.old.w (up.old.came - 1) g pairs.old }
    ensures same_level { IsSameUp up.old up.new }
    ensures open { IsOpen up.new }
    ensures counts { (up.new.came ≡ up.old.came + 1) × (up.new.given ≡ up.old.given) }
    ensures after { HasPairs T.value T.none g up.new }
    ensures pair { HasPair T.value T.none up.old.w up.old.came g pairs.new }
{
    let (y, w) = (up.came, up.w);
    take_row(pairs, plane, 2 * y, w);
    take_row(pairs, plane, 2 * y + 1, w);
    let above = pair_in(pairs, y.saturating_sub(1), w as usize);
    let pair = pair_in(pairs, y, w as usize);
    up.put_pair(&above, &pair);
}

// A level of 2h rows of 2w columns.
fn synth_rows<T: Laned>(
    plane: &mut Plane<T>,
    pairs: &mut [T],
    ring: &mut [T],
    w: u32,
    h: u32,
    wavelet: Wavelet,
)
    ghost g: { Grid }
    requires some { (1 ≤ w) × (1 ≤ h) }
    requires few { (w ≤ 4104) × (h ≤ 4104) }
    requires fits { 2 * w ≤ plane.old.w }
    requires high { 2 * h ≤ height plane.old }
    requires four { 4 * (2 * w) ≤ length pairs.old }
    requires three { 3 * (2 * w) ≤ length ring.old }
    requires wide { 2 ^ 61 ≤ T.reach }
    requires small { GridWithin (2 * h) (2 * w) (2 ^ 58) g }
    requires rows { (j x : ℕ) → grid_of T.value T.none plane.old j x ≡ g j x }
    ensures same_size { SameSize plane.old plane.new }
    ensures level { (j x : ℕ) → j < 2 * h → x < 2 * w
        → grid_of T.value T.none plane.new j x ≡ synthesis_level wavelet (2 * h) (2 * w) g j x }
    ensures below { (j x : ℕ) → 2 * h ≤ j → grid_of T.value T.none plane.new j x ≡ g j x }
    ensures beside { (j x : ℕ) → 2 * w ≤ x → grid_of T.value T.none plane.new j x ≡ g j x }
{
    let mut up = LevelUp::new(ring, w, h, wavelet);
    for _y in 0..h {
        put_next(&mut up, pairs, plane);
        take_rows(&mut up, plane, 0);
    }
}

/// One level of synthesis in the plane's first w columns and h rows, where the bands lie interleaved: place (2y, 2x)
/// is LL's, (2y, 2x + 1) HL's, (2y + 1, 2x) LH's and (2y + 1, 2x + 1) HH's. All else stays.
///
/// w and h are even and at most the plane's, and the values there have magnitudes of at most 2^58. It takes 450 KiB of stack.
pub fn synth_level(wavelet: Wavelet, plane: &mut Plane, w: u32, h: u32)
    requires w_even { w % 2 ≡ 0 }
    requires h_even { h % 2 ≡ 0 }
    requires w_fits { w ≤ plane.old.w }
    requires h_fits { h ≤ height plane.old }
    requires small { GridWithin h w (2 ^ 58) (at plane.old) }
    ensures same_width { plane.new.w ≡ plane.old.w }
    ensures same_height { height plane.new ≡ height plane.old }
    ensures level { (y x : ℕ) → y < h → x < w
        → at plane.new y x ≡ synthesis_level wavelet h w (at plane.old) y x }
    ensures below { (y x : ℕ) → h ≤ y → at plane.new y x ≡ at plane.old y x }
    ensures beside { (y x : ℕ) → w ≤ x → at plane.new y x ≡ at plane.old y x }
{
    // A plane's sizes are at most 8208, so that places of rows are small numbers.
    let _ = (plane.w(), plane.h());
    if w == 0 || h == 0 {
        return;
    }
    let (mut pairs, mut ring) = ([0; 4 * LONGEST], [0; 3 * LONGEST]);
    synth_rows(plane, &mut pairs, &mut ring, w / 2, h / 2, wavelet);
}

// The even and the odd places in the front of a row.
fn weave_front(row: &mut [i64], even: &[i64], odd: &[i64], w: usize)
    requires short { w ≤ 4104 }
    requires inside { 2 * w ≤ length row.old }
    requires long { (w ≤ length even.now) × (w ≤ length odd.now) }
    ensures row { (x : ℕ) → x < 2 * w → place row.new x ≡ woven (place even.now) (place odd.now) x }
    ensures beside { (x : ℕ) → 2 * w ≤ x → place row.new x ≡ place row.old x }
{
    weave(&mut row[..2 * w], &even[..w], &odd[..w]);
}

// The rows that a level made last, into their places in a plane.
fn weave_pair(plane: &mut Plane, down: &LevelDown<i64>)
    requires ready { IsReady down.now }
    requires some { 1 ≤ down.now.made }
    requires inside { 2 * down.now.made ≤ height plane.old }
    requires fits { 2 * down.now.w ≤ plane.old.w }
    ensures same_size { SameSize plane.old plane.new }
    ensures rows { (g : Grid) → HasRows (λ v. v) (pos 0) g down.now → (y x : ℕ)
        → 2 * (down.now.made - 1) ≤ y → y < 2 * down.now.made → x < 2 * down.now.w
        → at plane.new y x
        ≡ analysis_level down.now.wavelet (2 * down.now.h) (2 * down.now.w) g y x }
    ensures above { (y x : ℕ) → y < 2 * (down.now.made - 1) → at plane.new y x ≡ at plane.old y x }
    ensures below { (y x : ℕ) → 2 * down.now.made ≤ y → at plane.new y x ≡ at plane.old y x }
    ensures beside { (y x : ℕ) → 2 * down.now.w ≤ x → at plane.new y x ≡ at plane.old y x }
{
    let (y, w) = (2 * (down.made - 1), down.w as usize);
    let pair = down.pair();
    weave_front(plane.row_mut(y), pair.ll, pair.hl, w);
    weave_front(plane.row_mut(y + 1), pair.lh, pair.hh, w);
}

// A level of 2h rows of 2w columns.
fn analyse_rows(plane: &mut Plane, w: u32, h: u32, wavelet: Wavelet)
    ghost g: { Grid }
    requires some { (1 ≤ w) × (1 ≤ h) }
    requires few { (w ≤ 4104) × (h ≤ 4104) }
    requires fits { 2 * w ≤ plane.old.w }
    requires high { 2 * h ≤ height plane.old }
    requires small { GridWithin (2 * h) (2 * w) (2 ^ 25) g }
    requires rows { (j x : ℕ) → at plane.old j x ≡ g j x }
    ensures same_size { SameSize plane.old plane.new }
    ensures level { (j x : ℕ) → j < 2 * h → x < 2 * w
        → at plane.new j x ≡ analysis_level wavelet (2 * h) (2 * w) g j x }
    ensures below { (j x : ℕ) → 2 * h ≤ j → at plane.new j x ≡ g j x }
    ensures beside { (j x : ℕ) → 2 * w ≤ x → at plane.new j x ≡ g j x }
{
    let mut ring = [0; 4 * LONGEST];
    let mut down = LevelDown::new(&mut ring, w, h, wavelet);
    for j in 0..2 * h {
        if down.put_row(plane.row(j)) {
            weave_pair(plane, &down);
        }
    }
}

/// One level of analysis in the plane's first w columns and h rows. The bands lie interleaved there afterwards, as
/// `synth_level` takes them, and all else stays.
///
/// w and h are even and at most the plane's, and the values there have magnitudes of at most 2^25. It takes 257 KiB of stack.
pub fn analyse_level(wavelet: Wavelet, plane: &mut Plane, w: u32, h: u32)
    requires w_even { w % 2 ≡ 0 }
    requires h_even { h % 2 ≡ 0 }
    requires w_fits { w ≤ plane.old.w }
    requires h_fits { h ≤ height plane.old }
    requires small { GridWithin h w (2 ^ 25) (at plane.old) }
    ensures same_width { plane.new.w ≡ plane.old.w }
    ensures same_height { height plane.new ≡ height plane.old }
    ensures level { (y x : ℕ) → y < h → x < w
        → at plane.new y x ≡ analysis_level wavelet h w (at plane.old) y x }
    ensures below { (y x : ℕ) → h ≤ y → at plane.new y x ≡ at plane.old y x }
    ensures beside { (y x : ℕ) → w ≤ x → at plane.new y x ≡ at plane.old y x }
{
    // A plane's sizes are at most 8208, so that places of rows are small numbers.
    let _ = (plane.w(), plane.h());
    if w == 0 || h == 0 {
        return;
    }
    analyse_rows(plane, w / 2, h / 2, wavelet);
}
