//! The synthesis of a lower level at each width.

ghost use Rattle.std.specs.Prelude.{◌≡◌, ℕ, ◌*◌, ◌^◌, ◌≤◌, length, IfOk};
ghost use Rattle.planes.specs.Raster.{height};
ghost use Rattle.planes.specs.Subbands.{BandsOf};
ghost use Rattle.lifting.specs.Bands.{coefficients_in, lowest};
ghost use Rattle.lifting.specs.Clipping.{AreSamplesOf};
ghost use Rattle.lifting.specs.LevelRoom.{HaveLevelRoom};
ghost use Rattle.lifting.specs.LowerSamples.{rounded};
ghost use Rattle.lifting.specs.SampleRoom.{AreSmallIn, AreNarrowIn, IsShownArea};
ghost use Rattle.lifting.specs.Transform.{synthesis};
ghost use Rattle.proxy_picture.specs.Making.{AreOfSize};

use lifting::{
    LevelAt, LowerLevel, PaddedSize, SampleArea, Wavelet, synth_lower_samples,
    synth_lower_samples_narrow,
};
use planes::{Bands, NoMemory, Number, Plane};
use slice_geometry::Size;
use std::alloc::Global;

/// A component's lower level: what is made of it, the padded size of the component, and the samples that are kept.
#[derive(Clone, Copy)]
pub struct LowerPart {
    pub(crate) lower: LowerLevel,
    pub(crate) padded: Size,
    pub(crate) area: SampleArea,
}

/// A plane for a lower level, and a scratch.
#[derive(Drop)]
pub struct LevelPlanes<T> {
    pub(crate) plane: Plane<T>,
    pub(crate) scratch: Plane<T>,
}

impl<T: Number> LevelPlanes<T> {
    /// Both w across and h down.
    pub(crate) fn new(alloc: Global, w: u32, h: u32) -> Result<LevelPlanes<T>, NoMemory>
        requires w_most { w ≤ 8208 }
        requires h_most { h ≤ 8208 }
        ensures { IfOk result (λ p. AreOfSize w h p.plane p.scratch) }
    {
        let plane = Plane::new(alloc, w, h)?;
        match Plane::new(alloc, w, h) {
            Ok(scratch) => Ok(LevelPlanes { plane, scratch }),
            Err(NoMemory) => {
                // By name, since the proof would else take it apart field by field.
                drop(plane);
                Err(NoMemory)
            }
        }
    }
}

/// Numbers of bands that a lower level is synthesised from.
pub trait Lowered: Number {
    // What the bands of a component of w by h keep.
    ghost serve: { BandsOf Self → ℕ → ℕ → Type 0 };

    /// The samples of a lower level.
    fn synth_lower(
        wavelet: Wavelet,
        bands: &Bands<Self>,
        part: LowerPart,
        planes: &mut LevelPlanes<Self>,
        samples: &mut [u16],
    )
        requires few { part.lower.levels ≤ bands.now.depth }
        requires shift { part.lower.shift ≤ 4 }
        requires room { HaveLevelRoom bands.now part.lower.levels part.padded.w part.padded.h
            planes.old.plane planes.old.scratch }
        requires columns { planes.old.plane.w
            ≡ lowest bands.now.depth part.padded.w * 2 ^ part.lower.levels }
        requires rows { height planes.old.plane
            ≡ lowest bands.now.depth part.padded.h * 2 ^ part.lower.levels }
        requires serve { serve bands.now part.padded.w part.padded.h }
        requires shown { IsShownArea part.area
            (lowest bands.now.depth part.padded.w * 2 ^ part.lower.levels)
            (lowest bands.now.depth part.padded.h * 2 ^ part.lower.levels) samples.old }
        ensures same_width { planes.new.plane.w ≡ planes.old.plane.w }
        ensures same_height { height planes.new.plane ≡ height planes.old.plane }
        ensures same_width_scratch { planes.new.scratch.w ≡ planes.old.scratch.w }
        ensures same_height_scratch { height planes.new.scratch ≡ height planes.old.scratch }
        ensures count { length samples.new ≡ length samples.old }
        ensures samples { let depth = bands.now.depth in
            AreSamplesOf part.area.w part.area.h part.area.depth samples.new
            (λ y x. rounded part.lower.shift
            (synthesis wavelet (lowest depth part.padded.h) (lowest depth part.padded.w)
            (coefficients_in Self.value Self.none bands.now) part.lower.levels y x)) };
}

impl Lowered for i64 {
    ghost serve = { λ b w h. AreSmallIn b w h };

    fn synth_lower(
        wavelet: Wavelet,
        bands: &Bands<i64>,
        part: LowerPart,
        planes: &mut LevelPlanes<i64>,
        samples: &mut [u16],
    ) {
        let LowerPart {
            lower,
            padded,
            area,
        } = part;
        let size = PaddedSize {
            w: padded.w,
            h: padded.h,
        };
        let at = LevelAt { level: lower, size };
        let LevelPlanes { plane, scratch } = planes;
        synth_lower_samples(wavelet, bands, at, plane, scratch, samples, area);
    }
}

impl Lowered for i32 {
    ghost serve = { λ b w h. AreNarrowIn b w h };

    fn synth_lower(
        wavelet: Wavelet,
        bands: &Bands<i32>,
        part: LowerPart,
        planes: &mut LevelPlanes<i32>,
        samples: &mut [u16],
    ) {
        let LowerPart {
            lower,
            padded,
            area,
        } = part;
        let size = PaddedSize {
            w: padded.w,
            h: padded.h,
        };
        let at = LevelAt { level: lower, size };
        let LevelPlanes { plane, scratch } = planes;
        synth_lower_samples_narrow(wavelet, bands, at, plane, scratch, samples, area);
    }
}
