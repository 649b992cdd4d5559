//! Whether 16 bits have room for a level of synthesis, by the greatest magnitudes of LL and of its other bands. The bound
//! suffices: where it holds, no step leaves 16 bits. It supposes that the greatest numbers meet, so where it does not hold the
//! steps may fit all the same.

ghost use Rattle.std.specs.Prelude.{◌≡◌, ◌↔◌, ℕ, ◌+◌, ◌*◌, ◌^◌, ◌-◌, ◌≤◌, ◌<◌, length, true, pos};
ghost use Rattle.planes.specs.Raster.{height, at};
ghost use Rattle.lifting.specs.Places.{place};
ghost use Rattle.lifting.specs.Ranges.{LineWithin};
ghost use Rattle.lifting.specs.Turns.{HasBands};
ghost use Rattle.lifting.specs.Carried.{level_entered, IsShortLevel, IsShortAt};
ghost use Rattle.lifting.specs.LevelRoom.{HaveLevelRoom, HoldsLevels, last_rows};

use crate::Wavelet;
use crate::level_up::Pair;
use crate::roll::Level;
use crate::synthesis::{PaddedSize, level_of};
use planes::{Bands, Plane};

// The greatest magnitude that a step takes in 16 bits.
const MOST: u32 = (1 << 14) - 2;

// The greatest number that enters a step of a level.
fn entered_of(low: u32, high: u32) -> u32
    requires low { low < 2 ^ 16 }
    requires high { high < 2 ^ 16 }
    ensures { result ≡ level_entered low high }
{
    let half = (high + 1) / 2;
    low + high + half + (2 * high + half + 1) / 2
}

// The greatest magnitude of the first w places of a row. Of -32768 it is 32768.
fn front_greatest(row: &[i16], w: usize) -> u16
    requires { w ≤ length row.now }
    ensures { (m : ℕ) → (result ≤ m) ↔ LineWithin w m (place row.now) }
{
    let mut most = 0u16;
    for i in 0..w {
        most = most.max(row[i].unsigned_abs());
    }
    most
}

/// The greatest magnitudes of the rows of a level's bands that have come: of LL, and of the others.
#[derive(Clone, Copy)]
pub struct Carried {
    /// LL's.
    pub low: u16,
    /// The others'.
    pub high: u16,
}

impl Carried {
    /// Takes the first w places of a pair, and says whether 16 bits still have room.
    pub fn take(&mut self, pair: &Pair<i16>, w: u32) -> bool
        requires ll { w ≤ length pair.now.ll.now }
        requires hl { w ≤ length pair.now.hl.now }
        requires lh { w ≤ length pair.now.lh.now }
        requires hh { w ≤ length pair.now.hh.now }
        ensures low { (m : ℕ) → (self.new.low ≤ m)
            ↔ ((self.old.low ≤ m) × LineWithin w m (place pair.now.ll.now)) }
        ensures high { (m : ℕ) → (self.new.high ≤ m)
            ↔ ((self.old.high ≤ m) × LineWithin w m (place pair.now.hl.now)
            × LineWithin w m (place pair.now.lh.now) × LineWithin w m (place pair.now.hh.now)) }
        ensures answer { (result ≡ true) ↔ (level_entered self.new.low self.new.high ≤ 2 ^ 14 - 2) }
    {
        let w = w as usize;
        let (ll, hl) = (front_greatest(pair.ll, w), front_greatest(pair.hl, w));
        let (lh, hh) = (front_greatest(pair.lh, w), front_greatest(pair.hh, w));
        let low = self.low.max(ll);
        let high = self.high.max(hl).max(lh).max(hh);
        self.low = low;
        self.high = high;
        entered_of(u32::from(low), u32::from(high)) <= MOST
    }
}

// Of a level, of which LL stands in the plane's last h rows, how many pairs of rows 16 bits have room for.
fn rows_with_room(plane: &Plane<i16>, level: &Level<i16>) -> u32
    requires columns { level.now.w ≤ plane.now.w }
    requires rows { level.now.h ≤ height plane.now }
    requires bands { HasBands level.now }
    ensures few { result ≤ level.now.h }
    ensures room { let l = level.now in
        (result ≡ l.h)
        ↔ IsShortLevel l.h l.w (last_rows (λ v. v) (pos 0) l.h plane.now) (at l.hl.now)
        (at l.lh.now) (at l.hh.now) }
{
    // A plane's height is at most 8208, so that places of rows are small numbers.
    let top = plane.h() - level.h;
    let mut carried = Carried { low: 0, high: 0 };
    for y in 0..level.h {
        if !carried.take(&level.pair(plane.row(top + y), y), level.w) {
            return y;
        }
    }
    level.h
}

/// Whether 16 bits have room for level n + 1, from what n levels made in the plane.
pub(crate) fn is_short(
    wavelet: Wavelet,
    bands: &Bands<i16>,
    n: u32,
    size: PaddedSize,
    plane: &Plane<i16>,
) -> bool
    requires some { n < bands.now.depth }
    requires room { HaveLevelRoom bands.now n size.w size.h plane.now plane.now }
    requires below { HoldsLevels (λ v. v) (pos 0) wavelet bands.now size.w size.h n plane.now }
    ensures { (result ≡ true) ↔ IsShortAt wavelet bands.now size.w size.h n }
{
    // A depth is at most 4.
    let _ = bands.depth();
    let level = level_of(wavelet, bands, n + 1);
    rows_with_room(plane, &level) == level.h
}
