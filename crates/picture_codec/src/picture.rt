//! A picture.

ghost use Rattle.std.specs.Prelude.{◌≡◌, ◌+◌, ◌*◌, ◌^◌, ◌<◌, ◌≤◌, length, true, false, IfOk};
ghost use Rattle.std.specs.List.{All};
ghost use Rattle.planes.specs.Raster.{height, at};
ghost use Rattle.lifting.specs.SampleRoom.{HaveRoom, synthesis_in};
ghost use Rattle.picture_codec.specs.Samples.{AreBelow, PictureSeen, blank_picture, component_shown, width_of, height_of, sample_bits, sample_at, with_sample, with_run, with_component, with_shown};

use crate::samples::Samples;
use crate::synthesised::Synthesised;
use crate::workspace::Workspace;
use lifting::Wavelet;
use planes::{Bands, NoMemory};
use slice_geometry::{Component, PictureShape, Size};
use std::alloc::Global;
use std::marker::Model;

/// A picture: its shape, and the samples of its three components. Each sample is below 2^d, where d is its
/// component's depth.
#[derive(Drop)]
pub struct Picture {
    shape: PictureShape,
    luma: Samples,
    c1: Samples,
    c2: Samples,
}

impl Model for Picture {
    ghost use Rattle.picture_codec.specs.Samples.{PictureSeen, HaveShape};

    ghost Value = { PictureSeen };

    ghost view = { λ p. record { shape = p.shape; samples = record { luma = p.luma; c1 = p.c1; c2 = p.c2 } } };

    ghost invariant = { λ p. HaveShape p.shape (record { luma = p.luma; c1 = p.c1; c2 = p.c2 }) };
}

impl Picture {
    /// A picture of this shape, all samples 0.
    pub fn new(alloc: Global, shape: &PictureShape) -> Result<Picture, NoMemory>
        ensures { IfOk result (λ p. p
            ≡ record { shape = shape.now; samples = blank_picture shape.now }) }
    {
        Ok(Picture {
            shape: *shape,
            luma: Samples::new(alloc, shape.luma)?,
            c1: Samples::new(alloc, shape.colour)?,
            c2: Samples::new(alloc, shape.colour)?,
        })
    }

    /// The picture's shape.
    pub fn shape(&self) -> &PictureShape
        ensures { result.now ≡ self.now.shape }
    {
        &self.shape
    }

    // The samples of a component.
    fn component(&self, c: Component) -> &Samples
        ensures value { result.now ≡ component_shown self.now c }
        ensures width { result.now.w ≡ width_of self.now c }
        ensures height { result.now.h ≡ height_of self.now c }
        ensures below { AreBelow (2 ^ sample_bits self.now c) result.now.cells }
    {
        match c {
            Component::Luma => &self.luma,
            Component::C1 => &self.c1,
            Component::C2 => &self.c2,
        }
    }

    /// The sample of a component in row y and column x, below 2^d, d being the component's depth.
    pub fn sample(&self, c: Component, y: u32, x: u32) -> u32
        requires down { y < height_of self.now c }
        requires across { x < width_of self.now c }
        ensures value { result ≡ sample_at (component_shown self.now c) y x }
        ensures below { result < 2 ^ sample_bits self.now c }
    {
        u32::from(self.component(c).get(y, x))
    }

    /// All samples of a component, row by row from the top.
    #[tactic(auto, using(crate::proofs::Runs::all_are_below))]
    pub fn samples(&self, c: Component) -> &[u16]
        ensures value { result.now ≡ (component_shown self.now c).cells }
        ensures width { (component_shown self.now c).w ≡ width_of self.now c }
        ensures height { (component_shown self.now c).h ≡ height_of self.now c }
        ensures count { length result.now ≡ height_of self.now c * width_of self.now c }
        ensures below { All (λ v. v < 2 ^ sample_bits self.now c) result.now }
    {
        self.component(c).cells()
    }

    /// Puts v into a component's row y and column x, and leaves all else.
    pub fn set(&mut self, c: Component, y: u32, x: u32, v: u32)
        requires down { y < height_of self.old c }
        requires across { x < width_of self.old c }
        requires small { v < 2 ^ sample_bits self.old c }
        ensures { self.new ≡ record self.old {
          samples = with_component self.old.samples c
              (with_sample (component_shown self.old c) y x v);
        } }
    {
        match c {
            Component::Luma => self.luma.set(y, x, v as u16),
            Component::C1 => self.c1.set(y, x, v as u16),
            Component::C2 => self.c2.set(y, x, v as u16),
        }
    }

    /// Puts samples into a component's places from `from` on, row by row from the top, and leaves all else.
    pub fn put_samples(&mut self, c: Component, from: usize, samples: &[u16])
        requires inside { from + length samples.now ≤ height_of self.old c * width_of self.old c }
        requires small { All (λ v. v < 2 ^ sample_bits self.old c) samples.now }
        ensures { self.new ≡ record self.old {
          samples = with_component self.old.samples c
              (with_run (component_shown self.old c) from samples.now);
        } }
    {
        match c {
            Component::Luma => self.luma.put(from, samples),
            Component::C1 => self.c1.put(from, samples),
            Component::C2 => self.c2.put(from, samples),
        }
    }

    /// A component's samples from its bands: synthesised, trimmed to the component's size, clipped to its depth and offset; and
    /// whether the width has room for that. Where it has none, the picture stays.
    pub(crate) fn synthesise<T: Synthesised>(
        &mut self,
        c: Component,
        wavelet: Wavelet,
        bands: &Bands<T>,
        padded: Size,
        room: &mut Workspace<T>,
    ) -> bool
        requires fits { width_of self.old c ≤ padded.w }
        requires high { height_of self.old c ≤ padded.h }
        requires room { HaveRoom bands.now padded.w padded.h room.old.plane room.old.scratch }
        requires serve { T.serve (sample_bits self.old c) bands.now padded.w padded.h }
        ensures samples { result ≡ true → self.new ≡ with_shown self.old c
            (synthesis_in T.value T.none wavelet bands.now padded.w padded.h) }
        ensures roomy { T.is_roomy ≡ true → result ≡ true }
        ensures left { result ≡ false → self.new ≡ self.old }
        ensures same_width { room.new.plane.w ≡ room.old.plane.w }
        ensures same_height { height room.new.plane ≡ height room.old.plane }
        ensures same_width_scratch { room.new.scratch.w ≡ room.old.scratch.w }
        ensures same_height_scratch { height room.new.scratch ≡ height room.old.scratch }
    {
        let shape = self.shape;
        match c {
            Component::Luma => self
                .luma
                .synthesise(wavelet, bands, padded, room, shape.luma_depth),
            Component::C1 => self
                .c1
                .synthesise(wavelet, bands, padded, room, shape.colour_depth),
            Component::C2 => self
                .c2
                .synthesise(wavelet, bands, padded, room, shape.colour_depth),
        }
    }
}
