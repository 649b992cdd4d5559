//! Synthesis of all levels, the last one straight into samples.

ghost use Rattle.std.specs.Prelude.{◌≡◌, ℕ, ◌+◌, ◌-◌, ◌*◌, ◌/◌, ◌^◌, ◌<◌, ◌≤◌, length, slice_index_or};
ghost use Rattle.planes.specs.Raster.{height};
ghost use Rattle.planes.specs.Valued.{grid_of};
ghost use Rattle.planes.specs.Subbands.{HaveSizes};
ghost use Rattle.lifting.specs.Transform.{Grid, every_other, synthesis_level};
ghost use Rattle.lifting.specs.declared.Wavelet.{Wavelet};
ghost use Rattle.lifting.specs.Fits.{FitIn, LevelFits, LevelFitsIn};
ghost use Rattle.lifting.specs.LevelPairs.{rows_final, HasPairs, IsOpen, IsSameUp};
ghost use Rattle.lifting.specs.LevelRoom.{HoldsLevels, last_rows};
ghost use Rattle.lifting.specs.Clipping.{sample_of, AreSamplesOf};
ghost use Rattle.lifting.specs.Ranges.{SameInside};
ghost use Rattle.lifting.specs.SampleRoom.{HoldsArea, AreSamplesTo, HaveRoom, IsShownArea, AreNarrowIn, AreSmallIn, synthesis_of, synthesis_in};
ghost use Rattle.lifting.specs.Turns.{SameSize, HasBands, HasGrid};

use crate::level_up::LevelUp;
use crate::roll::Level;
use crate::samples::{Sampled, sample_band};
use crate::synthesis::{PaddedSize, level_of, synth_levels_of};
use crate::{SampleArea, Wavelet};
use planes::{Bands, NarrowBands, NarrowPlane, Plane};

// The next row of a level as that row of the samples, where they have it.
fn sample_next<T: Sampled>(up: &mut LevelUp<'_, T>, samples: &mut [u16], area: SampleArea)
    ghost g: { Grid }
    requires open { IsOpen up.old }
    requires more { up.old.given < rows_final up.old.wavelet up.old.h up.old.came }
    requires has_room { LevelFits up.old.wavelet (2 * up.old.h) (2 * up.old.w) T.reach g }
    requires before { HasPairs T.value T.none g up.old }
    requires shown { HoldsArea T.depths area samples.old }
    requires across { area.w ≤ 2 * up.old.w }
    ensures same_level { IsSameUp up.old up.new }
    ensures open { IsOpen up.new }
    ensures counts { (up.new.came ≡ up.old.came) × (up.new.given ≡ up.old.given + 1) }
    ensures after { HasPairs T.value T.none g up.new }
    ensures count { length samples.new ≡ length samples.old }
    ensures row { up.old.given < area.h → (x : ℕ) → x < area.w
        → slice_index_or samples.new (up.old.given * area.w + x) 0 ≡ sample_of area.depth
        (synthesis_level up.old.wavelet (2 * up.old.h) (2 * up.old.w) g up.old.given x) }
    ensures above { (k : ℕ) → k < up.old.given * area.w
        → slice_index_or samples.new k 0 ≡ slice_index_or samples.old k 0 }
{
    let y = up.given;
    if y < area.h {
        let start = (y * area.w) as usize;
        let end = start + area.w as usize;
        up.sample_row(&mut samples[start..end], area.depth);
    } else {
        up.skip();
    }
}

// The rows of a level that are final.
fn sample_rows<T: Sampled>(up: &mut LevelUp<'_, T>, samples: &mut [u16], area: SampleArea)
    ghost g: { Grid }
    requires open { IsOpen up.old }
    requires has_room { LevelFits up.old.wavelet (2 * up.old.h) (2 * up.old.w) T.reach g }
    requires before { HasPairs T.value T.none g up.old }
    requires shown { HoldsArea T.depths area samples.old }
    requires across { area.w ≤ 2 * up.old.w }
    requires done { AreSamplesTo up.old.given area samples.old
        (synthesis_level up.old.wavelet (2 * up.old.h) (2 * up.old.w) g) }
    ensures same_level { IsSameUp up.old up.new }
    ensures open { IsOpen up.new }
    ensures came { up.new.came ≡ up.old.came }
    ensures given { up.new.given ≡ rows_final up.old.wavelet up.old.h up.old.came }
    ensures after { HasPairs T.value T.none g up.new }
    ensures count { length samples.new ≡ length samples.old }
    ensures done { AreSamplesTo up.new.given area samples.new
        (synthesis_level up.old.wavelet (2 * up.old.h) (2 * up.old.w) g) }
{
    while up.given < up.rows_final() {
        sample_next(up, samples, area);
    }
}

// The samples of a level, of which LL stands in the plane's last h rows.
fn sample_level<T: Sampled>(
    level: &Level<T>,
    plane: &Plane<T>,
    scratch: &mut Plane<T>,
    samples: &mut [u16],
    area: SampleArea,
)
    ghost g: { Grid }
    requires some { (1 ≤ level.now.w) × (1 ≤ level.now.h) }
    requires bands { HasBands level.now }
    requires grid { HasGrid T.value T.none g level.now }
    requires has_room { LevelFits level.now.wavelet (2 * level.now.h) (2 * level.now.w) T.reach g }
    requires low { SameInside level.now.h level.now.w (last_rows T.value T.none level.now.h plane.now)
        (every_other 0 0 g) }
    requires short { level.now.h ≤ 4104 }
    requires fits { level.now.w ≤ plane.now.w }
    requires high { level.now.h ≤ height plane.now }
    requires fits_scratch { 2 * level.now.w ≤ scratch.old.w }
    requires three_rows { 3 ≤ height scratch.old }
    requires shown { HoldsArea T.depths area samples.old }
    requires across { area.w ≤ 2 * level.now.w }
    requires down { area.h ≤ 2 * level.now.h }
    ensures same_size_scratch { SameSize scratch.old scratch.new }
    ensures count { length samples.new ≡ length samples.old }
    ensures samples { AreSamplesOf area.w area.h area.depth samples.new
        (synthesis_level level.now.wavelet (2 * level.now.h) (2 * level.now.w) g) }
{
    // A plane's sizes are at most 8208, so that places of rows are small numbers.
    let _ = (scratch.w(), plane.h());
    let mut up = LevelUp::new(scratch.numbers_mut(), level.w, level.h, level.wavelet);
    let low = plane.h() - level.h;
    let mut above = level.pair(plane.row(low), 0);
    for y in 0..level.h {
        let pair = level.pair(plane.row(low + y), y);
        up.put_pair(&above, &pair);
        sample_rows(&mut up, samples, area);
        above = pair;
    }
}

/// The samples of the last level, from the levels below it in the plane.
pub(crate) fn synth_last<T: Sampled>(
    wavelet: Wavelet,
    bands: &Bands<T>,
    size: PaddedSize,
    plane: &Plane<T>,
    scratch: &mut Plane<T>,
    samples: &mut [u16],
    area: SampleArea,
)
    requires some { 1 ≤ bands.now.depth }
    requires room { HaveRoom bands.now size.w size.h plane.now scratch.old }
    requires has_room { LevelFitsIn T.value T.none wavelet T.reach bands.now size.w size.h
        (bands.now.depth - 1) }
    requires below { HoldsLevels T.value T.none wavelet bands.now size.w size.h
        (bands.now.depth - 1)
        plane.now }
    requires bits { area.depth ≤ T.depths }
    requires shown { IsShownArea area size.w size.h samples.old }
    ensures same_size_scratch { SameSize scratch.old scratch.new }
    ensures count { length samples.new ≡ length samples.old }
    ensures samples { AreSamplesOf area.w area.h area.depth samples.new
        (synthesis_in T.value T.none wavelet bands.now size.w size.h) }
{
    let level = level_of(wavelet, bands, bands.depth());
    sample_level(&level, plane, scratch, samples, area);
}

// Row y of the samples, from that row of a band.
fn sample_row_of<T: Sampled>(samples: &mut [u16], area: SampleArea, y: u32, band: &Plane<T>)
    requires shown { HoldsArea T.depths area samples.old }
    requires down { y < area.h }
    requires high { area.h ≤ height band.now }
    requires fits { area.w ≤ band.now.w }
    ensures count { length samples.new ≡ length samples.old }
    ensures row { (x : ℕ) → x < area.w → slice_index_or samples.new (y * area.w + x) 0
        ≡ sample_of area.depth (grid_of T.value T.none band.now y x) }
    ensures before { (k : ℕ) → k < y * area.w
        → slice_index_or samples.new k 0 ≡ slice_index_or samples.old k 0 }
{
    let start = (y * area.w) as usize;
    let end = start + area.w as usize;
    sample_band(&mut samples[start..end], band.row(y), area.depth);
}

// The samples of the lowest band, where there is no level.
pub(crate) fn sample_lowest<T: Sampled>(samples: &mut [u16], area: SampleArea, band: &Plane<T>)
    requires shown { HoldsArea T.depths area samples.old }
    requires high { area.h ≤ height band.now }
    requires fits { area.w ≤ band.now.w }
    ensures count { length samples.new ≡ length samples.old }
    ensures samples { AreSamplesOf area.w area.h area.depth samples.new
        (grid_of T.value T.none band.now) }
{
    for y in 0..area.h {
        sample_row_of(samples, area, y, band);
    }
}

/// The samples of a component whose bands have no level.
pub(crate) fn sample_only<T: Sampled>(
    bands: &Bands<T>,
    size: PaddedSize,
    samples: &mut [u16],
    area: SampleArea,
)
    requires none { bands.now.depth ≡ 0 }
    requires sizes { HaveSizes bands.now size.w size.h }
    requires bits { area.depth ≤ T.depths }
    requires shown { IsShownArea area size.w size.h samples.old }
    ensures count { length samples.new ≡ length samples.old }
    ensures samples { (k : Wavelet) → AreSamplesOf area.w area.h area.depth samples.new
        (synthesis_in T.value T.none k bands.now size.w size.h) }
{
    sample_lowest(samples, area, bands.band(0, 0));
}

/// The samples of a component, from its bands: synthesis of all levels as `synth` has it, and of the first columns and rows
/// each number clipped to the area's bits and offset to begin at 0.
///
/// The component's padded size is w by h, both at least 1 and multiples of 2^depth, h at most 8208. The magnitudes of LL are
/// at most 2^50, and those of the other bands at most 2^36. The plane has room for half of that size each way, for the levels
/// below the last, which goes straight into the samples. The scratch has room for h / 2 rows of w, and for 3. Both hold any
/// values afterwards.
pub fn synth_samples(
    wavelet: Wavelet,
    bands: &Bands,
    size: PaddedSize,
    plane: &mut Plane,
    scratch: &mut Plane,
    samples: &mut [u16],
    area: SampleArea,
)
    requires room { HaveRoom bands.now size.w size.h plane.old scratch.old }
    requires small { AreSmallIn bands.now size.w size.h }
    requires shown { IsShownArea area size.w size.h samples.old }
    ensures same_width { plane.new.w ≡ plane.old.w }
    ensures same_height { height plane.new ≡ height plane.old }
    ensures same_width_scratch { scratch.new.w ≡ scratch.old.w }
    ensures same_height_scratch { height scratch.new ≡ height scratch.old }
    ensures count { length samples.new ≡ length samples.old }
    ensures samples { AreSamplesOf area.w area.h area.depth samples.new
        (synthesis_of wavelet bands.now size.w size.h) }
{
    // A depth is at most 4.
    let _ = bands.depth();
    synth_samples_of(wavelet, bands, size, plane, scratch, samples, area);
}

/// The samples of a component as `synth_samples` has them, from bands whose magnitudes are at most 2^18, in 32 bits.
///
/// The sizes and the rooms are as `synth_samples` asks them. Both rooms hold any values afterwards.
pub fn synth_samples_narrow(
    wavelet: Wavelet,
    bands: &NarrowBands,
    size: PaddedSize,
    plane: &mut NarrowPlane,
    scratch: &mut NarrowPlane,
    samples: &mut [u16],
    area: SampleArea,
)
    requires room { HaveRoom bands.now size.w size.h plane.old scratch.old }
    requires small { AreNarrowIn bands.now size.w size.h }
    requires shown { IsShownArea area size.w size.h samples.old }
    ensures same_width { plane.new.w ≡ plane.old.w }
    ensures same_height { height plane.new ≡ height plane.old }
    ensures same_width_scratch { scratch.new.w ≡ scratch.old.w }
    ensures same_height_scratch { height scratch.new ≡ height scratch.old }
    ensures count { length samples.new ≡ length samples.old }
    ensures samples { AreSamplesOf area.w area.h area.depth samples.new
        (synthesis_of wavelet bands.now size.w size.h) }
{
    // A depth is at most 4.
    let _ = bands.depth();
    synth_samples_of(wavelet, bands, size, plane, scratch, samples, area);
}

/// The same at any width.
pub(crate) fn synth_samples_of<T: Sampled>(
    wavelet: Wavelet,
    bands: &Bands<T>,
    size: PaddedSize,
    plane: &mut Plane<T>,
    scratch: &mut Plane<T>,
    samples: &mut [u16],
    area: SampleArea,
)
    requires room { HaveRoom bands.now size.w size.h plane.old scratch.old }
    requires has_room { FitIn T.value T.none wavelet T.reach bands.now size.w size.h }
    requires bits { area.depth ≤ T.depths }
    requires shown { IsShownArea area size.w size.h samples.old }
    ensures same_size { SameSize plane.old plane.new }
    ensures same_size_scratch { SameSize scratch.old scratch.new }
    ensures count { length samples.new ≡ length samples.old }
    ensures samples { AreSamplesOf area.w area.h area.depth samples.new
        (synthesis_in T.value T.none wavelet bands.now size.w size.h) }
{
    if bands.depth() == 0 {
        sample_only(bands, size, samples, area);
    } else {
        synth_levels_of(wavelet, bands, bands.depth() - 1, size, plane, scratch);
        synth_last(wavelet, bands, size, plane, scratch, samples, area);
    }
}
