//! A component that comes line by line and is analysed as it comes.

ghost use Rattle.std.specs.Prelude.{◌≡◌, ℕ, ◌+◌, ◌^◌, ◌<◌, ◌≤◌, length, slice_index_or, pos, IfOk};
ghost use Rattle.planes.specs.Subbands.{HaveSizes};
ghost use Rattle.lifting.specs.Transform.{Grid};
ghost use Rattle.lifting.specs.Ranges.{GridWithin};
ghost use Rattle.lifting.specs.RowAnalysis.{HasCome, ShowsFinished, IsSameAnalysis, HoldAnalysisIn};
ghost use Rattle.slice_geometry.specs.Shape.{IsSize};
ghost use Rattle.slice_geometry.specs.Frames.{frame_of};
ghost use Rattle.transform_params.specs.Views.{params_of};
ghost use Rattle.picture_codec.specs.Pictures as pictures;
ghost use Rattle.picture_codec.specs.Samples.{component_shown, width_of, sample_bits};
ghost use Rattle.picture_codec.specs.EncoderInside.{AreLinesOf, HasAllRows, HoldAnalysed, LiesTheSame, bands_of};
ghost use Rattle.picture_codec.specs.Encoding.{centred};

use crate::centring::centre_row;
use crate::picture::Picture;
use crate::stored_bands::StoredBands;
use crate::workspace::{depth_of, size_of};
use lifting::RowAnalysis;
use planes::NoMemory;
use slice_geometry::{Component, Size};
use slice_store::SliceStore;
use std::alloc::Global;
use transform_params::TransformParams;

/// What a component is encoded from: its levels of analysis, a line of its samples, and its subbands.
#[derive(Drop)]
pub(crate) struct ComponentLines {
    pub(crate) analysis: RowAnalysis<i32>,
    pub(crate) line: Vec<i32>,
    pub(crate) bands: StoredBands,
}

impl ComponentLines {
    pub(crate) fn new(
        alloc: Global,
        params: &TransformParams,
        size: Size,
    ) -> Result<ComponentLines, NoMemory>
        requires { IsSize size.w size.h }
        ensures { IfOk result (AreLinesOf (params_of params.now) size) }
    {
        let layout = params.layout;
        let depth = layout.depth();
        let padded = layout.padded_size(size);
        let line = Vec::from_elem(alloc, 0i32, padded.w as usize)?;
        let analysis = RowAnalysis::new(alloc, params.wavelet, depth, padded.w, padded.h)?;
        match SliceStore::new(alloc, layout, size, layout.slices_y()) {
            Ok(store) => Ok(ComponentLines {
                analysis,
                line,
                bands: StoredBands { store },
            }),
            Err(NoMemory) => {
                drop(analysis);
                drop(line);
                Err(NoMemory)
            }
        }
    }

    // The line goes through the levels.
    fn put_line(&mut self)
        ghost g: { Grid }
        requires more { self.old.analysis.came < self.old.analysis.h }
        requires wide { self.old.analysis.w ≤ length self.old.line.items }
        requires is_row { (x : ℕ) → x < self.old.analysis.w
            → slice_index_or self.old.line.items x (pos 0) ≡ g self.old.analysis.came x }
        requires small { GridWithin self.old.analysis.h self.old.analysis.w (2 ^ 15) g }
        requires before { HasCome (λ v. v) (pos 0) g self.old.analysis }
        requires room { HasAllRows self.old.bands.store }
        requires depth { self.old.bands.store.slicing.depth ≡ length self.old.analysis.levels }
        requires sizes { HaveSizes (bands_of self.old) self.old.analysis.w self.old.analysis.h }
        requires shown { ShowsFinished g self.old.analysis (bands_of self.old) }
        ensures same { IsSameAnalysis self.old.analysis self.new.analysis }
        ensures came { self.new.analysis.came ≡ self.old.analysis.came + 1 }
        ensures line { length self.new.line.items ≡ length self.old.line.items }
        ensures lies { LiesTheSame self.old.bands.store self.new.bands.store }
        ensures after { HasCome (λ v. v) (pos 0) g self.new.analysis }
        ensures shown { ShowsFinished g self.new.analysis (bands_of self.new) }
        ensures whole { self.new.analysis.came ≡ self.new.analysis.h
            → HoldAnalysisIn self.new.analysis.wavelet (bands_of self.new) self.new.analysis.w
            self.new.analysis.h g }
    {
        self.analysis.put_row(&self.line, &mut self.bands);
    }

    // Takes line y of a component of a picture; beyond the last one, the last.
    fn take_line(&mut self, picture: &Picture, c: Component, y: u32)
        ghost g: { Grid }
        requires next { y ≡ self.old.analysis.came }
        requires more { self.old.analysis.came < self.old.analysis.h }
        requires line { length self.old.line.items ≡ self.old.analysis.w }
        requires fits { width_of picture.now c ≤ self.old.analysis.w }
        requires is_row { (x : ℕ) → g y x ≡ centred (sample_bits picture.now c)
            (pictures.size_of (frame_of picture.now.shape) c) (component_shown picture.now c) y x }
        requires small { GridWithin self.old.analysis.h self.old.analysis.w (2 ^ 15) g }
        requires before { HasCome (λ v. v) (pos 0) g self.old.analysis }
        requires room { HasAllRows self.old.bands.store }
        requires depth { self.old.bands.store.slicing.depth ≡ length self.old.analysis.levels }
        requires sizes { HaveSizes (bands_of self.old) self.old.analysis.w self.old.analysis.h }
        requires shown { ShowsFinished g self.old.analysis (bands_of self.old) }
        ensures same { IsSameAnalysis self.old.analysis self.new.analysis }
        ensures came { self.new.analysis.came ≡ self.old.analysis.came + 1 }
        ensures line { length self.new.line.items ≡ length self.old.line.items }
        ensures lies { LiesTheSame self.old.bands.store self.new.bands.store }
        ensures after { HasCome (λ v. v) (pos 0) g self.new.analysis }
        ensures shown { ShowsFinished g self.new.analysis (bands_of self.new) }
        ensures whole { self.new.analysis.came ≡ self.new.analysis.h
            → HoldAnalysisIn self.new.analysis.wavelet (bands_of self.new) self.new.analysis.w
            self.new.analysis.h g }
    {
        let (size, depth) = (size_of(picture.shape(), c), depth_of(picture.shape(), c));
        let from = (y.min(size.h - 1) * size.w) as usize;
        let samples = &picture.samples(c)[from..from + size.w as usize];
        centre_row(samples, depth, &mut self.line);
        self.put_line();
    }

    /// Takes all lines of a component of a picture. Beyond the last one its copies come.
    pub(crate) fn take(&mut self, params: &TransformParams, picture: &Picture, c: Component)
        requires { AreLinesOf (params_of params.now)
            (pictures.size_of (frame_of picture.now.shape) c) self.old }
        ensures lines { AreLinesOf (params_of params.now)
            (pictures.size_of (frame_of picture.now.shape) c) self.new }
        ensures analysed { HoldAnalysed params.now.wavelet params.now.layout
            (pictures.size_of (frame_of picture.now.shape) c) (sample_bits picture.now c)
            (component_shown picture.now c) (bands_of self.new) }
    {
        let size = size_of(picture.shape(), c);
        // The bounds of the depth and of the samples.
        let _ = params.layout.depth();
        let _ = depth_of(picture.shape(), c);
        let _ = picture.samples(c);
        self.analysis.start();
        for y in 0..params.layout.padded_size(size).h {
            self.take_line(picture, c, y);
        }
    }
}
