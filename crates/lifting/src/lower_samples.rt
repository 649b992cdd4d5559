//! Samples of a component from the first levels of its synthesis.

ghost use Rattle.std.specs.Prelude.{◌≡◌, ℕ, ◌*◌, ◌/◌, ◌^◌, ◌<◌, ◌≤◌, length};
ghost use Rattle.planes.specs.Raster.{height};
ghost use Rattle.planes.specs.Valued.{valued, EachValued, grid_of};
ghost use Rattle.lifting.specs.Transform.{synthesis};
ghost use Rattle.lifting.specs.Ranges.{GridWithin};
ghost use Rattle.lifting.specs.Bands.{coefficients_of, coefficients_in, lowest};
ghost use Rattle.lifting.specs.Fits.{FitIn};
ghost use Rattle.lifting.specs.Clipping.{AreSamplesOf};
ghost use Rattle.lifting.specs.SampleRoom.{AreNarrowIn, AreSmallIn, IsShownArea};
ghost use Rattle.lifting.specs.LevelRoom.{HaveLevelRoom};
ghost use Rattle.lifting.specs.LowerSamples.{rounded};
ghost use Rattle.lifting.specs.Turns.{SameSize};

use crate::samples::Sampled;
use crate::synthesis::{PaddedSize, synth_levels_of};
use crate::synthesis_samples::{sample_lowest, synth_samples_of};
use crate::{LowerLevel, SampleArea, Wavelet};
use planes::{Bands, NarrowBands, NarrowPlane, Plane};

/// A lower level of a component of this padded size.
#[derive(Clone, Copy)]
pub struct LevelAt {
    /// The level.
    pub level: LowerLevel,
    /// The size of the whole component.
    pub size: PaddedSize,
}

// Each number of a row over 2^shift, rounded.
fn round_row<T: Sampled>(row: &mut [T], shift: u32)
    requires few { shift ≤ 4 }
    requires small { EachValued T.value T.none T.reach row.old }
    ensures { let at = valued T.value T.none in
        (i : ℕ) → i < length row.old → at row.new i ≡ rounded shift (at row.old i) }
{
    if shift == 0 {
        return;
    }
    let half = T::half_range(shift);
    for i in 0..row.len() {
        row[i] = T::rounded(row[i], half, shift);
    }
}

// The same of a plane.
fn round_plane<T: Sampled>(plane: &mut Plane<T>, shift: u32)
    requires few { shift ≤ 4 }
    requires small { GridWithin (height plane.old) plane.old.w T.reach
        (grid_of T.value T.none plane.old) }
    ensures same_size { SameSize plane.old plane.new }
    ensures rounded { let grid = grid_of T.value T.none in
        (y x : ℕ) → y < height plane.old → x < plane.old.w
        → grid plane.new y x ≡ rounded shift (grid plane.old y x) }
{
    for y in 0..plane.h() {
        round_row(plane.row_mut(y), shift);
    }
}

/// The samples of a component at a lower level, from its bands: synthesis of the first levels, and of the first columns and rows
/// each number rounded by the level's shift, clipped to the area's bits and offset to begin at 0.
///
/// The bands are those of a component of padded size w by h. The plane has the size of the level, and the scratch room for it.
/// Both hold any values afterwards.
pub fn synth_lower_samples(
    wavelet: Wavelet,
    bands: &Bands,
    at: LevelAt,
    plane: &mut Plane,
    scratch: &mut Plane,
    samples: &mut [u16],
    area: SampleArea,
)
    requires few { at.level.levels ≤ bands.now.depth }
    requires shift { at.level.shift ≤ 4 }
    requires room { HaveLevelRoom bands.now at.level.levels at.size.w at.size.h plane.old
        scratch.old }
    requires columns { plane.old.w ≡ lowest bands.now.depth at.size.w * 2 ^ at.level.levels }
    requires rows { height plane.old ≡ lowest bands.now.depth at.size.h * 2 ^ at.level.levels }
    requires small { AreSmallIn bands.now at.size.w at.size.h }
    requires shown { IsShownArea area (lowest bands.now.depth at.size.w * 2 ^ at.level.levels)
        (lowest bands.now.depth at.size.h * 2 ^ at.level.levels) samples.old }
    ensures same_width { plane.new.w ≡ plane.old.w }
    ensures same_height { height plane.new ≡ height plane.old }
    ensures same_width_scratch { scratch.new.w ≡ scratch.old.w }
    ensures same_height_scratch { height scratch.new ≡ height scratch.old }
    ensures count { length samples.new ≡ length samples.old }
    ensures samples { let depth = bands.now.depth in
        AreSamplesOf area.w area.h area.depth samples.new
        (λ y x. rounded at.level.shift (synthesis wavelet (lowest depth at.size.h)
        (lowest depth at.size.w) (coefficients_of bands.now) at.level.levels y x)) }
{
    // A depth is at most 4.
    let _ = bands.depth();
    synth_lower_samples_of(wavelet, bands, at, plane, scratch, samples, area);
}

/// The same as `synth_lower_samples` in 32 bits, from bands whose magnitudes are at most 2^18.
pub fn synth_lower_samples_narrow(
    wavelet: Wavelet,
    bands: &NarrowBands,
    at: LevelAt,
    plane: &mut NarrowPlane,
    scratch: &mut NarrowPlane,
    samples: &mut [u16],
    area: SampleArea,
)
    requires few { at.level.levels ≤ bands.now.depth }
    requires shift { at.level.shift ≤ 4 }
    requires room { HaveLevelRoom bands.now at.level.levels at.size.w at.size.h plane.old
        scratch.old }
    requires columns { plane.old.w ≡ lowest bands.now.depth at.size.w * 2 ^ at.level.levels }
    requires rows { height plane.old ≡ lowest bands.now.depth at.size.h * 2 ^ at.level.levels }
    requires small { AreNarrowIn bands.now at.size.w at.size.h }
    requires shown { IsShownArea area (lowest bands.now.depth at.size.w * 2 ^ at.level.levels)
        (lowest bands.now.depth at.size.h * 2 ^ at.level.levels) samples.old }
    ensures same_width { plane.new.w ≡ plane.old.w }
    ensures same_height { height plane.new ≡ height plane.old }
    ensures same_width_scratch { scratch.new.w ≡ scratch.old.w }
    ensures same_height_scratch { height scratch.new ≡ height scratch.old }
    ensures count { length samples.new ≡ length samples.old }
    ensures samples { let depth = bands.now.depth in
        AreSamplesOf area.w area.h area.depth samples.new
        (λ y x. rounded at.level.shift (synthesis wavelet (lowest depth at.size.h)
        (lowest depth at.size.w) (coefficients_of bands.now) at.level.levels y x)) }
{
    // A depth is at most 4.
    let _ = bands.depth();
    synth_lower_samples_of(wavelet, bands, at, plane, scratch, samples, area);
}

// The same at any width.
fn synth_lower_samples_of<T: Sampled>(
    wavelet: Wavelet,
    bands: &Bands<T>,
    at: LevelAt,
    plane: &mut Plane<T>,
    scratch: &mut Plane<T>,
    samples: &mut [u16],
    area: SampleArea,
)
    requires few { at.level.levels ≤ bands.now.depth }
    requires shift { at.level.shift ≤ 4 }
    requires room { HaveLevelRoom bands.now at.level.levels at.size.w at.size.h plane.old
        scratch.old }
    requires columns { plane.old.w ≡ lowest bands.now.depth at.size.w * 2 ^ at.level.levels }
    requires rows { height plane.old ≡ lowest bands.now.depth at.size.h * 2 ^ at.level.levels }
    requires has_room { FitIn T.value T.none wavelet T.reach bands.now at.size.w at.size.h }
    requires made { let depth = bands.now.depth in
        GridWithin (lowest depth at.size.h * 2 ^ at.level.levels)
        (lowest depth at.size.w * 2 ^ at.level.levels)
        T.reach
        (synthesis wavelet (lowest depth at.size.h) (lowest depth at.size.w)
        (coefficients_in T.value T.none bands.now) at.level.levels) }
    requires bits { area.depth ≤ T.depths }
    requires shown { IsShownArea area (lowest bands.now.depth at.size.w * 2 ^ at.level.levels)
        (lowest bands.now.depth at.size.h * 2 ^ at.level.levels) samples.old }
    ensures same_size { SameSize plane.old plane.new }
    ensures same_size_scratch { SameSize scratch.old scratch.new }
    ensures count { length samples.new ≡ length samples.old }
    ensures samples { let depth = bands.now.depth in
        AreSamplesOf area.w area.h area.depth samples.new
        (λ y x. rounded at.level.shift (synthesis wavelet (lowest depth at.size.h)
        (lowest depth at.size.w)
        (coefficients_in T.value T.none bands.now) at.level.levels y x)) }
{
    // A plane's width and height are at most 8208.
    let _ = plane.h();
    let LevelAt { level, size } = at;
    let whole = level.levels == bands.depth() && level.shift == 0;
    if whole && size.w > 0 && size.h > 0 && scratch.h() >= 3 {
        synth_samples_of(wavelet, bands, size, plane, scratch, samples, area);
        return;
    }
    synth_levels_of(wavelet, bands, level.levels, size, plane, scratch);
    round_plane(plane, level.shift);
    sample_lowest(samples, area, plane);
}
