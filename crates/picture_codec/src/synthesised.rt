//! The synthesis of samples at each width.

ghost use Rattle.std.specs.Prelude.{◌≡◌, ℕ, ◌≤◌, Bool, true, false, length};
ghost use Rattle.planes.specs.Raster.{height};
ghost use Rattle.planes.specs.Subbands.{BandsOf};
ghost use Rattle.lifting.specs.SampleRoom.{HaveRoom, AreSmallIn, AreNarrowIn, IsShownArea, synthesis_in};
ghost use Rattle.lifting.specs.Clipping.{AreSamplesOf};

use crate::workspace::Workspace;
use lifting::{
    PaddedSize, SampleArea, Wavelet, synth_samples, synth_samples_narrow, synth_samples_short,
};
use planes::{Bands, Number};
use slice_geometry::Size;

/// Numbers of bands that samples are synthesised from.
pub trait Synthesised: Number {
    // What the bands of a component of w by h keep, whose samples have so many bits.
    ghost serve: { ℕ → BandsOf Self → ℕ → ℕ → Type 0 };

    // Whether such bands always have room.
    ghost is_roomy: { Bool };

    /// The samples of an area from bands of a padded size, and whether the width has room for these. Where it has none, the
    /// samples stay.
    fn synth(
        wavelet: Wavelet,
        bands: &Bands<Self>,
        padded: Size,
        room: &mut Workspace<Self>,
        samples: &mut [u16],
        area: SampleArea,
    ) -> bool
        requires room { HaveRoom bands.now padded.w padded.h room.old.plane room.old.scratch }
        requires serve { serve area.depth bands.now padded.w padded.h }
        requires shown { IsShownArea area padded.w padded.h samples.old }
        ensures same_width { room.new.plane.w ≡ room.old.plane.w }
        ensures same_height { height room.new.plane ≡ height room.old.plane }
        ensures same_width_scratch { room.new.scratch.w ≡ room.old.scratch.w }
        ensures same_height_scratch { height room.new.scratch ≡ height room.old.scratch }
        ensures count { length samples.new ≡ length samples.old }
        ensures roomy { is_roomy ≡ true → result ≡ true }
        ensures left { result ≡ false → samples.new ≡ samples.old }
        ensures samples { result ≡ true → AreSamplesOf area.w area.h area.depth samples.new
            (synthesis_in Self.value Self.none wavelet bands.now padded.w padded.h) };
}

impl Synthesised for i64 {
    ghost serve = { λ depth b w h. AreSmallIn b w h };

    ghost is_roomy = { true };

    fn synth(
        wavelet: Wavelet,
        bands: &Bands<i64>,
        padded: Size,
        room: &mut Workspace<i64>,
        samples: &mut [u16],
        area: SampleArea,
    ) -> bool {
        let size = PaddedSize {
            w: padded.w,
            h: padded.h,
        };
        let Workspace { plane, scratch } = room;
        synth_samples(wavelet, bands, size, plane, scratch, samples, area);
        true
    }
}

impl Synthesised for i32 {
    ghost serve = { λ depth b w h. AreNarrowIn b w h };

    ghost is_roomy = { true };

    fn synth(
        wavelet: Wavelet,
        bands: &Bands<i32>,
        padded: Size,
        room: &mut Workspace<i32>,
        samples: &mut [u16],
        area: SampleArea,
    ) -> bool {
        let size = PaddedSize {
            w: padded.w,
            h: padded.h,
        };
        let Workspace { plane, scratch } = room;
        synth_samples_narrow(wavelet, bands, size, plane, scratch, samples, area);
        true
    }
}

impl Synthesised for i16 {
    ghost serve = { λ depth b w h. depth ≤ 15 };

    ghost is_roomy = { false };

    fn synth(
        wavelet: Wavelet,
        bands: &Bands<i16>,
        padded: Size,
        room: &mut Workspace<i16>,
        samples: &mut [u16],
        area: SampleArea,
    ) -> bool {
        let size = PaddedSize {
            w: padded.w,
            h: padded.h,
        };
        let Workspace { plane, scratch } = room;
        synth_samples_short(wavelet, bands, size, plane, scratch, samples, area)
    }
}
