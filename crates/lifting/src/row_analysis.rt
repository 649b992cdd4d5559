//! Analysis of a component whose rows come one after another. Each goes through all levels at once, and the rows of subbands that
//! are finished with it go to a sink.

ghost use Rattle.std.specs.Prelude.{◌≡◌, ◌≢◌, ℕ, suc, min, ◌+◌, ◌-◌, ◌*◌, ◌/◌, ◌%◌, ◌^◌, ◌<◌, ◌≤◌, length, IfOk};
ghost use Rattle.planes.specs.Raster.{Grid, height};
ghost use Rattle.planes.specs.Subbands.{band_of, HaveSizes, AgreeInSizes};
ghost use Rattle.planes.specs.Valued.{valued};
ghost use Rattle.lifting.specs.Bands.{lowest};
ghost use Rattle.lifting.specs.LevelRows.{pairs_whole};
ghost use Rattle.lifting.specs.Ranges.{GridWithin};
ghost use Rattle.lifting.specs.RowAnalysis.{level_at, IsUnused, HasTaken, IsAbove, IsReadyRing, RowsWait, IsMadeRow, lifted_at, Coming, coming_at, rows_behind, AreInTurn, RowsHaveCome, ShowsLevels, ShowsLowest, HasCome, ShowsFinished, IsAnalysisOf, IsSameAnalysis, HasNoRow, HoldAnalysisIn};
ghost use Rattle.lifting.specs.RowSinks.{AreBandsOf, HoldPair, OtherRowsStay, IsBandRowPut};
ghost use Rattle.lifting.specs.Transform.{every_other};

use crate::Wavelet;
use crate::level_down::take_row;
use crate::level_up::Pair;
use crate::lifted::Analysed;
use crate::ring::pair_in;
use crate::row_sink::RowSink;
use planes::NoMemory;
use std::alloc::Global;
use std::marker::Model;

/// A level with memory of its own for the rows that wait.
#[derive(Drop)]
struct LevelRing<T> {
    ring: Vec<T>,
    w: u32,
    h: u32,
    came: u32,
    made: u32,
}

impl<T> Model for LevelRing<T> {
    ghost use Rattle.lifting.specs.RowAnalysis.{LevelSeen};

    ghost Value = { LevelSeen T };

    ghost view = { λ l. record { ring = l.ring.items; w = l.w; h = l.h; came = l.came; made = l.made } };
}

impl<T: Analysed> LevelRing<T> {
    // A level of which no row has come.
    fn new(alloc: Global, w: u32, h: u32) -> Result<LevelRing<T>, NoMemory>
        requires some { 1 ≤ w }
        requires short { w ≤ 4104 }
        requires low { h ≤ 4104 }
        ensures { IfOk result (λ l. IsUnused w h l) }
    {
        let places = (2 * h).min(4) * (2 * w);
        Ok(LevelRing {
            ring: T::zeros(alloc, places as usize)?,
            w,
            h,
            came: 0,
            made: 0,
        })
    }

    fn start(&mut self)
        requires ready { IsReadyRing self.old }
        ensures { IsUnused self.old.w self.old.h self.new }
    {
        self.came = 0;
        self.made = 0;
    }

    // Takes the next row. The answer is whether a pair of rows of the bands is whole with it.
    fn put_row(&mut self, row: &[T], wavelet: Wavelet) -> bool
        ghost g: { Grid }
        requires ready { IsReadyRing self.old }
        requires made { self.old.made ≡ pairs_whole wavelet self.old.h self.old.came }
        requires more { self.old.came < 2 * self.old.h }
        requires wide { 2 * self.old.w ≤ length row.now }
        requires is_row { (x : ℕ) → x < 2 * self.old.w
            → valued T.value T.none row.now x ≡ g self.old.came x }
        requires small { GridWithin (2 * self.old.h) (2 * self.old.w) (2 ^ 25) g }
        requires before { RowsWait T.value T.none wavelet g self.old }
        ensures { HasTaken T.value T.none wavelet g result self.old self.new }
    {
        let made = take_row(
            &mut self.ring,
            row,
            self.w,
            self.h,
            wavelet,
            self.came,
            self.made,
        );
        let is_whole = self.made < made;
        self.came += 1;
        self.made = made;
        is_whole
    }

    // The rows of the bands that were made last.
    fn pair(&self) -> Pair<'_, '_, T>
        requires ready { IsReadyRing self.now }
        requires some { 1 ≤ self.now.made }
        ensures long { (length result.ll.now ≡ self.now.w) × (length result.hl.now ≡ self.now.w)
            × (length result.lh.now ≡ self.now.w) × (length result.hh.now ≡ self.now.w) }
        ensures ll { IsMadeRow T.value T.none 0 0 self.now result.ll.now }
        ensures hl { IsMadeRow T.value T.none 0 1 self.now result.hl.now }
        ensures lh { IsMadeRow T.value T.none 1 0 self.now result.lh.now }
        ensures hh { IsMadeRow T.value T.none 1 1 self.now result.hh.now }
    {
        pair_in(&self.ring, self.made - 1, self.w as usize)
    }
}

// HL, LH and HH of the pair of rows that a level made last.
fn deal_pair<T: Analysed, S: RowSink<T>>(level: &LevelRing<T>, number: u32, sink: &mut S)
    requires ready { IsReadyRing level.now }
    requires some { 1 ≤ level.now.made }
    requires open { S.is_open sink.old }
    requires exists { (1 ≤ number) × (number ≤ (S.stack sink.old).depth) }
    requires fits { AreBandsOf number level.now.w level.now.h (S.stack sink.old) }
    ensures open { S.is_open sink.new }
    ensures stays { S.stays sink.old sink.new }
    ensures put { (k : Wavelet) (g : Grid) → RowsWait T.value T.none k g level.now
        → HoldPair number (level.now.made - 1) level.now.w (lifted_at k g level.now)
        (S.stack sink.new) }
    ensures sizes { AgreeInSizes (S.stack sink.old) (S.stack sink.new) }
    ensures others { OtherRowsStay number (level.now.made - 1) (S.stack sink.old) (S.stack sink.new) }
{
    let (y, pair) = (level.made - 1, level.pair());
    sink.put_row(number, 1, y, pair.hl);
    sink.put_row(number, 2, y, pair.lh);
    sink.put_row(number, 3, y, pair.hh);
}

// The first of some levels takes its next row.
fn take_first<T: Analysed>(levels: &mut [LevelRing<T>], row: &[T], wavelet: Wavelet) -> bool
    ghost g: { Grid }
    requires some { 0 < length levels.old }
    requires ready { IsReadyRing (level_at levels.old 0) }
    requires made { let l = level_at levels.old 0 in l.made ≡ pairs_whole wavelet l.h l.came }
    requires more { (level_at levels.old 0).came < 2 * (level_at levels.old 0).h }
    requires wide { 2 * (level_at levels.old 0).w ≤ length row.now }
    requires is_row { let l = level_at levels.old 0 in
        (x : ℕ) → x < 2 * l.w → valued T.value T.none row.now x ≡ g l.came x }
    requires small { GridWithin (2 * (level_at levels.old 0).h) (2 * (level_at levels.old 0).w)
        (2 ^ 25) g }
    requires before { RowsWait T.value T.none wavelet g (level_at levels.old 0) }
    ensures taken { HasTaken T.value T.none wavelet g result
        (level_at levels.old 0) (level_at levels.new 0) }
    ensures others { (i : ℕ) → i ≢ 0 → level_at levels.new i ≡ level_at levels.old i }
{
    levels[0].put_row(row, wavelet)
}

// Level j takes its next row: the one that has come, or the last row of LL of the level before it. The answer is whether a
// pair of rows of its bands is whole with it.
fn take_next<T: Analysed>(
    levels: &mut [LevelRing<T>],
    j: usize,
    row: &[T],
    wavelet: Wavelet,
) -> bool
    ghost g: { Grid }
    requires inside { j < length levels.old }
    requires ready { (i : ℕ) → i < length levels.old → IsReadyRing (level_at levels.old i) }
    requires made { let l = level_at levels.old j in l.made ≡ pairs_whole wavelet l.h l.came }
    requires more { (level_at levels.old j).came < 2 * (level_at levels.old j).h }
    requires small { GridWithin (2 * (level_at levels.old j).h) (2 * (level_at levels.old j).w)
        (2 ^ 25) g }
    requires before { RowsWait T.value T.none wavelet g (level_at levels.old j) }
    requires wide { j ≡ 0 → 2 * (level_at levels.old j).w ≤ length row.now }
    requires is_row { j ≡ 0 → (x : ℕ) → x < 2 * (level_at levels.old j).w
        → valued T.value T.none row.now x ≡ g (level_at levels.old j).came x }
    requires above { (i : ℕ) → j ≡ suc i → IsAbove T.value T.none wavelet g
        (level_at levels.old i) (level_at levels.old j) }
    ensures taken { HasTaken T.value T.none wavelet g result
        (level_at levels.old j) (level_at levels.new j) }
    ensures others { (i : ℕ) → i ≢ j → level_at levels.new i ≡ level_at levels.old i }
{
    if j == 0 {
        return take_first(levels, row, wavelet);
    }
    let (front, back) = levels.split_at_mut(j);
    let above = &*front;
    let pair = above[j - 1].pair();
    take_first(back, pair.ll, wavelet)
}

// The row of LL that the last level made last.
fn put_lowest<T: Analysed, S: RowSink<T>>(last: &LevelRing<T>, sink: &mut S)
    requires ready { IsReadyRing last.now }
    requires some { 1 ≤ last.now.made }
    requires open { S.is_open sink.old }
    requires inside { last.now.made - 1 < height (band_of (S.stack sink.old) 0 0) }
    requires columns { (band_of (S.stack sink.old) 0 0).w ≡ last.now.w }
    ensures open { S.is_open sink.new }
    ensures stays { S.stays sink.old sink.new }
    ensures put { (k : Wavelet) (g : Grid) → RowsWait T.value T.none k g last.now
        → IsBandRowPut 0 0 (last.now.made - 1) (every_other 0 0 (lifted_at k g last.now) (last.now.made - 1))
        (S.stack sink.old) (S.stack sink.new) }
    ensures sizes { AgreeInSizes (S.stack sink.old) (S.stack sink.new) }
{
    sink.put_row(0, 0, last.made - 1, last.pair().ll);
}

// The next row of what comes goes through the levels, as far as it makes pairs of rows whole.
fn hand_down<T: Analysed, S: RowSink<T>>(
    levels: &mut [LevelRing<T>],
    row: &[T],
    wavelet: Wavelet,
    sink: &mut S,
)
    ghost c: { Coming }
    requires some { 1 ≤ length levels.old }
    requires depth { c.depth ≡ length levels.old }
    requires turn { AreInTurn wavelet c.w c.h (level_at levels.old 0).came levels.old }
    requires more { (level_at levels.old 0).came < c.h }
    requires wide { c.w ≤ length row.now }
    requires is_row { (x : ℕ) → x < c.w
        → valued T.value T.none row.now x ≡ c.grid (level_at levels.old 0).came x }
    requires small { GridWithin c.h c.w (2 ^ 15) c.grid }
    requires come { RowsHaveCome T.value T.none wavelet c levels.old }
    requires open { S.is_open sink.old }
    requires stack { (S.stack sink.old).depth ≡ c.depth }
    requires sizes { HaveSizes (S.stack sink.old) c.w c.h }
    ensures count { length levels.new ≡ length levels.old }
    ensures turn { AreInTurn wavelet c.w c.h ((level_at levels.old 0).came + 1) levels.new }
    ensures come { RowsHaveCome T.value T.none wavelet c levels.new }
    ensures open { S.is_open sink.new }
    ensures stays { S.stays sink.old sink.new }
    ensures sizes { AgreeInSizes (S.stack sink.old) (S.stack sink.new) }
    ensures levels { ShowsLevels wavelet c levels.old (S.stack sink.old)
        → ShowsLevels wavelet c levels.new (S.stack sink.new) }
    ensures lowest { let y = (level_at levels.old 0).came in
        ShowsLowest wavelet c (rows_behind y levels.old c.depth) (S.stack sink.old)
        → ShowsLowest wavelet c (rows_behind (y + 1) levels.new c.depth) (S.stack sink.new) }
{
    let depth = levels.len();
    for j in 0..depth {
        if !take_next(levels, j, row, wavelet) {
            return;
        }
        deal_pair(&levels[j], (depth - j) as u32, sink);
    }
    put_lowest(&levels[depth - 1], sink);
}

/// Analysis of a component of w by h, row by row. All its memory is taken when it is made: four rows of each level.
#[derive(Drop)]
pub struct RowAnalysis<T> {
    wavelet: Wavelet,
    w: u32,
    h: u32,
    came: u32,
    levels: Vec<LevelRing<T>>,
}

impl<T> Model for RowAnalysis<T> {
    ghost use Rattle.lifting.specs.RowAnalysis.{RowAnalysisSeen, AreInTurn};

    ghost Value = { RowAnalysisSeen T };

    ghost view = { λ a. record { wavelet = a.wavelet; w = a.w; h = a.h; came = a.came; levels = a.levels.items } };

    ghost invariant = { λ a. AreInTurn a.wavelet a.w a.h a.came a.levels.items };
}

// The levels of a component, the finest one first.
fn level_rings<T: Analysed>(
    alloc: Global,
    depth: u32,
    w: u32,
    h: u32,
) -> Result<Vec<LevelRing<T>>, NoMemory>
    requires depth { depth ≤ 4 }
    requires some { 1 ≤ w }
    requires w_fits { w ≤ 8208 }
    requires h_fits { h ≤ 8208 }
    requires w_whole { w % 2 ^ depth ≡ 0 }
    requires h_whole { h % 2 ^ depth ≡ 0 }
    ensures count { IfOk result (λ levels. length levels.items ≡ depth) }
    ensures each { IfOk result (λ levels. (j : ℕ) → j < depth
        → IsUnused (w / 2 ^ suc j) (h / 2 ^ suc j) (level_at levels.items j)) }
{
    let mut levels = Vec::with_capacity(alloc, depth as usize)?;
    for j in 0..depth {
        levels.push(LevelRing::new(alloc, w >> (j + 1), h >> (j + 1))?)?;
    }
    Ok(levels)
}

fn start_all<T: Analysed>(levels: &mut [LevelRing<T>])
    requires ready { (i : ℕ) → i < length levels.old → IsReadyRing (level_at levels.old i) }
    ensures each { (i : ℕ) → i < length levels.old → IsUnused (level_at levels.old i).w
        (level_at levels.old i).h (level_at levels.new i) }
{
    for j in 0..levels.len() {
        levels[j].start();
    }
}

impl<T: Analysed> RowAnalysis<T> {
    /// Analysis of a component of this padded size, of which no row has come. The sizes are multiples of 2^depth, and at most
    /// 8208; the depth is at most 4. The error is want of memory alone.
    pub fn new(
        alloc: Global,
        wavelet: Wavelet,
        depth: u32,
        w: u32,
        h: u32,
    ) -> Result<RowAnalysis<T>, NoMemory>
        requires depth { depth ≤ 4 }
        requires some { 1 ≤ w }
        requires w_fits { w ≤ 8208 }
        requires h_fits { h ≤ 8208 }
        requires w_whole { w % 2 ^ depth ≡ 0 }
        requires h_whole { h % 2 ^ depth ≡ 0 }
        ensures size { IfOk result (λ a. IsAnalysisOf wavelet depth w h a) }
        ensures none { IfOk result (λ a. HasNoRow T.value T.none a) }
    {
        let levels = level_rings(alloc, depth, w, h)?;
        Ok(RowAnalysis {
            wavelet,
            w,
            h,
            came: 0,
            levels,
        })
    }

    /// Begins anew: no row of the next picture has come.
    pub fn start(&mut self)
        ensures same { IsSameAnalysis self.old self.new }
        ensures none { HasNoRow T.value T.none self.new }
    {
        start_all(&mut self.levels);
        self.came = 0;
    }

    /// Takes the next row of the component, whose numbers have magnitudes of at most 2^15. The rows of subbands that are
    /// finished with it go to the sink, whose subbands are those of the component. Behind the last row all are finished.
    pub fn put_row<S: RowSink<T>>(&mut self, row: &[T], sink: &mut S)
        ghost g: { Grid }
        requires more { self.old.came < self.old.h }
        requires wide { self.old.w ≤ length row.now }
        requires is_row { (x : ℕ) → x < self.old.w
            → valued T.value T.none row.now x ≡ g self.old.came x }
        requires small { GridWithin self.old.h self.old.w (2 ^ 15) g }
        requires before { HasCome T.value T.none g self.old }
        requires open { S.is_open sink.old }
        requires depth { (S.stack sink.old).depth ≡ length self.old.levels }
        requires sizes { HaveSizes (S.stack sink.old) self.old.w self.old.h }
        ensures same { IsSameAnalysis self.old self.new }
        ensures came { self.new.came ≡ self.old.came + 1 }
        ensures after { HasCome T.value T.none g self.new }
        ensures open { S.is_open sink.new }
        ensures stays { S.stays sink.old sink.new }
        ensures sizes { AgreeInSizes (S.stack sink.old) (S.stack sink.new) }
        ensures shown { ShowsFinished g self.old (S.stack sink.old)
            → ShowsFinished g self.new (S.stack sink.new) }
        ensures whole { self.new.came ≡ self.new.h → ShowsFinished g self.new (S.stack sink.new)
            → HoldAnalysisIn self.new.wavelet (S.stack sink.new) self.new.w self.new.h g }
    {
        let y = self.came;
        self.came += 1;
        if self.levels.is_empty() {
            sink.put_row(0, 0, y, row);
            return;
        }
        hand_down(&mut self.levels, row, self.wavelet, sink);
    }
}
