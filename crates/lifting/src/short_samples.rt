//! Synthesis of all levels in 16 bits, where these have room for it.

ghost use Rattle.std.specs.Prelude.{◌≡◌, ◌↔◌, ◌≤◌, length, true, false, pos};
ghost use Rattle.planes.specs.Raster.{height};
ghost use Rattle.lifting.specs.Carried.{AreShortTo, AreShortIn};
ghost use Rattle.lifting.specs.Clipping.{AreSamplesOf};
ghost use Rattle.lifting.specs.LevelRoom.{HaveLevelRoom, HoldsLevels};
ghost use Rattle.lifting.specs.SampleRoom.{HaveRoom, IsShownArea, synthesis_of};
ghost use Rattle.lifting.specs.Turns.{SameSize};

use crate::carried::is_short;
use crate::synthesis::{PaddedSize, put_lowest, synth_next};
use crate::synthesis_samples::{sample_only, synth_last};
use crate::{SampleArea, Wavelet};
use planes::{Bands, Plane};

// The first levels, in the plane's first columns and rows, if 16 bits have room for each. The answer is whether they have.
fn synth_short_levels(
    wavelet: Wavelet,
    bands: &Bands<i16>,
    levels: u32,
    size: PaddedSize,
    plane: &mut Plane<i16>,
    scratch: &mut Plane<i16>,
) -> bool
    requires few { levels ≤ bands.now.depth }
    requires room { HaveLevelRoom bands.now levels size.w size.h plane.old scratch.old }
    ensures same_size { SameSize plane.old plane.new }
    ensures same_size_scratch { SameSize scratch.old scratch.new }
    ensures answer { (result ≡ true) ↔ AreShortTo wavelet bands.now size.w size.h levels }
    ensures levels { result ≡ true
        → HoldsLevels (λ v. v) (pos 0) wavelet bands.now size.w size.h levels plane.new }
{
    put_lowest(bands, size, plane);
    for n in 0..levels {
        if !is_short(wavelet, bands, n, size, plane) {
            return false;
        }
        synth_next(wavelet, bands, n, size, plane, scratch);
    }
    true
}

/// The samples of a component as `synth_samples` has them, in 16 bits, if these have room for each level. The answer is whether
/// they have, by the greatest magnitudes of each level as it stands before it is synthesised, which is a bound that suffices.
/// Where it is false, the samples stay.
///
/// The sizes and the rooms are as `synth_samples` asks them. The samples have at most 15 bits. Both rooms hold any values
/// afterwards.
pub fn synth_samples_short(
    wavelet: Wavelet,
    bands: &Bands<i16>,
    size: PaddedSize,
    plane: &mut Plane<i16>,
    scratch: &mut Plane<i16>,
    samples: &mut [u16],
    area: SampleArea,
) -> bool
    requires room { HaveRoom bands.now size.w size.h plane.old scratch.old }
    requires few_bits { area.depth ≤ 15 }
    requires shown { IsShownArea area size.w size.h samples.old }
    ensures same_width { plane.new.w ≡ plane.old.w }
    ensures same_height { height plane.new ≡ height plane.old }
    ensures same_width_scratch { scratch.new.w ≡ scratch.old.w }
    ensures same_height_scratch { height scratch.new ≡ height scratch.old }
    ensures count { length samples.new ≡ length samples.old }
    ensures answer { (result ≡ true) ↔ AreShortIn wavelet bands.now size.w size.h }
    ensures left { result ≡ false → samples.new ≡ samples.old }
    ensures samples { result ≡ true → AreSamplesOf area.w area.h area.depth samples.new
        (synthesis_of wavelet bands.now size.w size.h) }
{
    if bands.depth() == 0 {
        sample_only(bands, size, samples, area);
        return true;
    }
    let last = bands.depth() - 1;
    if !synth_short_levels(wavelet, bands, last, size, plane, scratch) {
        return false;
    }
    if !is_short(wavelet, bands, last, size, plane) {
        return false;
    }
    synth_last(wavelet, bands, size, plane, scratch, samples, area);
    true
}
