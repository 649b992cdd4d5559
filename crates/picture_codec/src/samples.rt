//! The samples of one component.

ghost use Rattle.std.specs.Prelude.{◌≡◌, ℕ, ◌+◌, ◌-◌, ◌*◌, ◌^◌, ◌<◌, ◌≤◌, length, IfOk, slice_index_or, true, false, pos, neg_ℤ, ◌+ℤ◌, ◌-ℤ◌, ◌≤ℤ◌};
ghost use Rattle.std.specs.Int.{int_min, int_max};
ghost use Rattle.planes.specs.Raster.{height, at};
ghost use Rattle.slice_geometry.specs.Shape.{IsSize, IsDepth};
ghost use Rattle.lifting.specs.SampleRoom.{HaveRoom, synthesis_in};
ghost use Rattle.picture_codec.specs.Pictures.{sample_of};
ghost use Rattle.picture_codec.specs.Samples.{sample_at, with_sample, with_run, samples_by, blank};

use crate::synthesised::Synthesised;
use crate::workspace::Workspace;
use lifting::{SampleArea, Wavelet};
use planes::{Bands, NoMemory};
use slice_geometry::Size;
use std::alloc::Global;
use std::marker::Model;

/// h rows of w samples, row by row from the top.
#[derive(Drop)]
pub struct Samples {
    w: u32,
    h: u32,
    cells: Vec<u16>,
}

impl Model for Samples {
    ghost use Rattle.std.specs.Prelude.{◌≡◌, ◌*◌, ◌^◌, ◌≤◌, length};
    ghost use Rattle.slice_geometry.specs.Shape.{IsSize};
    ghost use Rattle.picture_codec.specs.Samples.{SamplesSeen};

    ghost Value = { SamplesSeen };

    ghost view = { λ s. record { w = s.w; h = s.h; cells = s.cells.items } };

    ghost invariant = { λ s. (length s.cells.items ≡ s.h * s.w) × IsSize s.w s.h };
}

impl Samples {
    /// The size's samples, all 0.
    pub fn new(alloc: Global, size: Size) -> Result<Samples, NoMemory>
        requires { IsSize size.w size.h }
        ensures { IfOk result (λ s. s ≡ blank size) }
    {
        let cells = Vec::from_elem(alloc, 0u16, (size.h * size.w) as usize)?;
        Ok(Samples {
            w: size.w,
            h: size.h,
            cells,
        })
    }

    /// The sample in row y and column x.
    pub fn get(&self, y: u32, x: u32) -> u16
        requires down { y < self.now.h }
        requires across { x < self.now.w }
        ensures { result ≡ sample_at self.now y x }
    {
        self.cells[(y * self.w + x) as usize]
    }

    /// Puts v into row y and column x, and leaves all else.
    pub fn set(&mut self, y: u32, x: u32, v: u16)
        requires down { y < self.old.h }
        requires across { x < self.old.w }
        ensures { self.new ≡ with_sample self.old y x v }
    {
        self.cells[(y * self.w + x) as usize] = v;
    }

    /// Puts samples into the places from `from` on, row by row, and leaves all else.
    pub fn put(&mut self, from: usize, samples: &[u16])
        requires { from + length samples.now ≤ self.old.h * self.old.w }
        ensures { self.new ≡ with_run self.old from samples.now }
    {
        self.cells[from..from + samples.len()].copy_from_slice(samples);
    }

    /// All samples, row by row from the top.
    pub fn cells(&self) -> &[u16]
        ensures value { result.now ≡ self.now.cells }
        ensures count { length result.now ≡ self.now.h * self.now.w }
    {
        self.cells.as_slice()
    }

    /// These samples from bands: synthesised, trimmed, clipped to a depth and offset; and whether the width has room for that.
    /// Where it has none, the samples stay.
    pub(crate) fn synthesise<T: Synthesised>(
        &mut self,
        wavelet: Wavelet,
        bands: &Bands<T>,
        padded: Size,
        room: &mut Workspace<T>,
        depth: u32,
    ) -> bool
        requires depth { IsDepth depth }
        requires fits { self.old.w ≤ padded.w }
        requires high { self.old.h ≤ padded.h }
        requires room { HaveRoom bands.now padded.w padded.h room.old.plane room.old.scratch }
        requires serve { T.serve depth bands.now padded.w padded.h }
        ensures samples { result ≡ true → self.new
            ≡ samples_by (record { w = self.old.w; h = self.old.h })
            (λ y x. sample_of depth
            (synthesis_in T.value T.none wavelet bands.now padded.w padded.h y x)) }
        ensures roomy { T.is_roomy ≡ true → result ≡ true }
        ensures left { result ≡ false → self.new ≡ self.old }
        ensures same_width { room.new.plane.w ≡ room.old.plane.w }
        ensures same_height { height room.new.plane ≡ height room.old.plane }
        ensures same_width_scratch { room.new.scratch.w ≡ room.old.scratch.w }
        ensures same_height_scratch { height room.new.scratch ≡ height room.old.scratch }
    {
        let area = SampleArea {
            w: self.w,
            h: self.h,
            depth,
        };
        T::synth(
            wavelet,
            bands,
            padded,
            room,
            self.cells.as_mut_slice(),
            area,
        )
    }
}
