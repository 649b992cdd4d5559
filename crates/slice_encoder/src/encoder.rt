//! A slice written at the least index at which it fits.

ghost use Rattle.std.specs.Prelude.{◌≡◌, ℕ, ◌^◌, ◌<◌, ◌≤◌, max, List, length, IfOk};
ghost use Rattle.planes.specs.declared.Trio.{Trio};
ghost use Rattle.slice_encoder.specs.TrialLaws.{IsSteepOk};
ghost use Rattle.slice_encoder.specs.Trials.{AreKept};
ghost use Rattle.slice_encoder.specs.Tries.{AreTried, IsNext, tried_lists};
ghost use Rattle.slice_encoder.specs.LowNeeds.{lower_of, IsFirstCandidate};
ghost use Rattle.slice_encoder.specs.Ready.{coded_picture, AreReadyToWrite, AreGiven};
ghost use Rattle.slice_encoder.specs.SliceLists.{HoldsSlice};
ghost use Rattle.slice_encoder.specs.Encoded as encoded;
ghost use Rattle.slice_encoder.specs.Encoded.{IsEncoded, IsEncodedAfter, trial_of, IsTriedAfter};

use crate::bounding::{Lower, lower_at};
use crate::candidates::find_candidate;
use crate::gathered::{GatheredSlice, SliceLimits};
use crate::jobs::SliceJob;
use crate::room::most_places;
use crate::search::share_of;
use crate::slices::{encode_gathered, encode_rows, try_rows};
use crate::writer::SliceWriter;
use planes::{NoMemory, ThreePlanes, Trio};
use quant_factors::Matrix;
use slice_geometry::{Layout, PictureShape, SliceHead};
use std::alloc::Global;
use std::marker::Model;

/// What a trial of an index finds: what the slice's values need, and whether they fit into the slice's bytes.
#[derive(Clone, Copy, Debug, PartialEq, Eq)]
pub struct Trial {
    /// The need of the luma values, in bits.
    pub luma_need: u64,
    /// The need of the colour values, in bits.
    pub colour_need: u64,
    /// Whether both fit into the slice's share of bytes.
    pub fits: bool,
}

/// Writes the slices of pictures of one shape. Contracts see the layout and the shape.
#[derive(Drop)]
pub struct SliceEncoder {
    layout: Layout,
    shape: PictureShape,
    gathered: GatheredSlice,
    limits: SliceLimits,
    // The first index that might have fitted the slice before, from which that of the next one is looked for.
    near: u32,
    // The values of the lowest subbands.
    luma: Vec<i64>,
    colour: Vec<i64>,
    writer: SliceWriter,
}

impl Model for SliceEncoder {
    ghost use Rattle.slice_encoder.specs.Encoded.{SliceEncoderSeen};
    ghost use Rattle.slice_encoder.specs.Room.{IsUsable};

    ghost Value = { SliceEncoderSeen };

    ghost view = { λ e. record { slicing = e.layout; shape = e.shape } };

    ghost invariant = { λ e. IsUsable e.layout e.shape e.gathered e.near e.luma e.colour e.writer };
}

impl SliceEncoder {
    /// An encoder with room for the values of the greatest slice. It is the only call that takes memory.
    pub fn new(
        alloc: Global,
        layout: &Layout,
        shape: &PictureShape,
    ) -> Result<SliceEncoder, NoMemory>
        ensures { IfOk result (λ e. e ≡ record { slicing = layout.now; shape = shape.now }) }
    {
        let luma = Vec::from_elem(alloc, 0i64, most_places(layout, shape.luma))?;
        let colour = Vec::from_elem(alloc, 0i64, 2 * most_places(layout, shape.colour))?;
        let writer = SliceWriter::new(alloc, layout, shape)?;
        let limits = SliceLimits::new(alloc, layout, shape)?;
        let gathered = GatheredSlice::new(alloc, layout, shape)?;
        Ok(SliceEncoder {
            layout: *layout,
            shape: *shape,
            gathered,
            limits,
            near: 0,
            luma,
            colour,
            writer,
        })
    }

    /// The shape of the pictures.
    pub fn shape(&self) -> PictureShape
        ensures { result ≡ self.now.shape }
    {
        self.shape
    }

    /// Tries the slice in column sx and row sy at a quantisation index from 0 to 127. The kept planes hold restored
    /// values of the lowest subbands; the slice's places of them are left as a decoder would restore them.
    pub fn trial(
        &mut self,
        matrix: &Matrix,
        sx: u32,
        sy: u32,
        qindex: u32,
        coefficients: &Trio,
        kept: &mut ThreePlanes,
    ) -> Trial
        requires index { qindex ≤ 127 }
        requires ready { AreReadyToWrite (coded_picture self.old.slicing self.old.shape matrix.now
            coefficients.now) sx sy kept.old }
        ensures same { self.new ≡ self.old }
        ensures answer { result ≡ trial_of (encoded.share_of self.old.slicing sx sy)
            (tried_lists (coded_picture self.old.slicing self.old.shape matrix.now
            coefficients.now) kept.old sx sy qindex) }
        ensures kept { AreTried (coded_picture self.old.slicing self.old.shape matrix.now
            coefficients.now) sx sy qindex kept.old kept.new }
        ensures after { (indices : List ℕ)
            → IsNext (coded_picture self.old.slicing self.old.shape matrix.now coefficients.now)
            indices sx sy
            → AreKept (coded_picture self.old.slicing self.old.shape matrix.now coefficients.now)
            indices kept.old
            → IsTriedAfter (coded_picture self.old.slicing self.old.shape matrix.now
            coefficients.now) indices sx sy qindex result kept.new }
    {
        let job = SliceJob {
            layout: &self.layout,
            shape: &self.shape,
            matrix,
            sx,
            sy,
            bytes: share_of(&self.layout, sx, sy),
        };
        let trying = try_rows(
            job,
            coefficients,
            qindex,
            &mut self.gathered,
            &mut self.limits,
            kept,
            &mut self.luma,
            &mut self.colour,
        );
        Trial {
            luma_need: trying.luma_need,
            colour_need: trying.colour_need,
            fits: trying.fits,
        }
    }

    /// How many bits the slice in column sx and row sy needs at least at a quantisation index from 0 to 127, whatever is
    /// restored before it.
    pub fn lower(
        &self,
        matrix: &Matrix,
        sx: u32,
        sy: u32,
        qindex: u32,
        coefficients: &Trio,
    ) -> Lower
        requires index { qindex ≤ 127 }
        requires across { sx < self.now.slicing.slices_x }
        requires down { sy < self.now.slicing.slices_y }
        requires given { AreGiven (coded_picture self.now.slicing self.now.shape matrix.now
            coefficients.now) }
        ensures { result ≡ lower_of (coded_picture self.now.slicing self.now.shape matrix.now
            coefficients.now) sx sy qindex }
    {
        lower_at(
            &self.layout,
            &self.shape,
            matrix,
            sx,
            sy,
            qindex,
            coefficients,
        )
    }

    /// The least quantisation index at which the slice in column sx and row sy may fit into its share of bytes. At no
    /// index below it the slice fits, whatever is restored before it.
    pub fn first_candidate(&self, matrix: &Matrix, sx: u32, sy: u32, coefficients: &Trio) -> u32
        requires across { sx < self.now.slicing.slices_x }
        requires down { sy < self.now.slicing.slices_y }
        requires given { AreGiven (coded_picture self.now.slicing self.now.shape matrix.now
            coefficients.now) }
        requires steep { IsSteepOk self.now.slicing.depth
            (max self.now.shape.luma_depth self.now.shape.colour_depth) matrix.now }
        ensures { IsFirstCandidate (encoded.share_of self.now.slicing sx sy)
            (lower_of (coded_picture self.now.slicing self.now.shape matrix.now coefficients.now)
            sx sy) result }
    {
        let bytes = share_of(&self.layout, sx, sy);
        find_candidate(
            &self.layout,
            &self.shape,
            matrix,
            sx,
            sy,
            bytes,
            coefficients,
        )
    }

    /// Writes the slice in column sx and row sy, in exactly as many bytes as it is given, at the least quantisation index
    /// at which it fits. The slice's places of the kept planes are left as a decoder will restore them.
    pub fn encode_slice(
        &mut self,
        matrix: &Matrix,
        sx: u32,
        sy: u32,
        coefficients: &Trio,
        kept: &mut ThreePlanes,
        bytes: &mut [u8],
    ) -> SliceHead
        requires some { 1 ≤ length bytes.old }
        requires most { length bytes.old ≤ 2 ^ 28 }
        requires ready { AreReadyToWrite (coded_picture self.old.slicing self.old.shape matrix.now
            coefficients.now) sx sy kept.old }
        requires steep { IsSteepOk self.old.slicing.depth
            (max self.old.shape.luma_depth self.old.shape.colour_depth) matrix.now }
        ensures same { self.new ≡ self.old }
        ensures slice { IsEncoded (tried_lists (coded_picture self.old.slicing self.old.shape
            matrix.now coefficients.now) kept.old sx sy) bytes.new result }
        ensures kept { AreTried (coded_picture self.old.slicing self.old.shape matrix.now
            coefficients.now) sx sy result.qindex kept.old kept.new }
        ensures after { (indices : List ℕ)
            → IsNext (coded_picture self.old.slicing self.old.shape matrix.now coefficients.now)
            indices sx sy
            → AreKept (coded_picture self.old.slicing self.old.shape matrix.now coefficients.now)
            indices kept.old
            → IsEncodedAfter (coded_picture self.old.slicing self.old.shape matrix.now
            coefficients.now) indices sx sy bytes.new result kept.new }
    {
        let job = SliceJob {
            layout: &self.layout,
            shape: &self.shape,
            matrix,
            sx,
            sy,
            bytes: bytes.len() as u32,
        };
        let written = encode_rows(
            job,
            coefficients,
            &mut self.gathered,
            self.near,
            &mut self.limits,
            kept,
            &mut self.luma,
            &mut self.colour,
            &mut self.writer,
            bytes,
        );
        self.near = written.first;
        written.head
    }

    /// Writes a slice as `encode_slice` does, of coefficients that stand in lists, in the order of the stream.
    pub fn encode_lists(
        &mut self,
        matrix: &Matrix,
        sx: u32,
        sy: u32,
        luma: &[i32],
        c1: &[i32],
        c2: &[i32],
        kept: &mut ThreePlanes,
        bytes: &mut [u8],
    ) -> SliceHead
        ghost coefficients: { Trio }
        requires some { 1 ≤ length bytes.old }
        requires most { length bytes.old ≤ 2 ^ 28 }
        requires luma { HoldsSlice self.old.slicing self.old.shape.luma coefficients.luma sx sy
            luma.now }
        requires c1 { HoldsSlice self.old.slicing self.old.shape.colour coefficients.c1 sx sy
            c1.now }
        requires c2 { HoldsSlice self.old.slicing self.old.shape.colour coefficients.c2 sx sy
            c2.now }
        requires ready { AreReadyToWrite (coded_picture self.old.slicing self.old.shape matrix.now
            coefficients) sx sy kept.old }
        requires steep { IsSteepOk self.old.slicing.depth
            (max self.old.shape.luma_depth self.old.shape.colour_depth) matrix.now }
        ensures same { self.new ≡ self.old }
        ensures slice { IsEncoded (tried_lists (coded_picture self.old.slicing self.old.shape
            matrix.now coefficients) kept.old sx sy) bytes.new result }
        ensures kept { AreTried (coded_picture self.old.slicing self.old.shape matrix.now
            coefficients) sx sy result.qindex kept.old kept.new }
        ensures after { (indices : List ℕ)
            → IsNext (coded_picture self.old.slicing self.old.shape matrix.now coefficients)
            indices sx sy
            → AreKept (coded_picture self.old.slicing self.old.shape matrix.now coefficients)
            indices kept.old
            → IsEncodedAfter (coded_picture self.old.slicing self.old.shape matrix.now
            coefficients) indices sx sy bytes.new result kept.new }
    {
        let job = SliceJob {
            layout: &self.layout,
            shape: &self.shape,
            matrix,
            sx,
            sy,
            bytes: bytes.len() as u32,
        };
        self.gathered.take_lists(job, luma, c1, c2);
        let written = encode_gathered(
            job,
            &self.gathered,
            self.near,
            &mut self.limits,
            kept,
            &mut self.luma,
            &mut self.colour,
            &mut self.writer,
            bytes,
        );
        self.near = written.first;
        written.head
    }
}
