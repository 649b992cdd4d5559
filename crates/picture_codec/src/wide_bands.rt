//! The bands of 64 bits, which are made once a slice needs them.

ghost use Rattle.std.specs.Prelude.{◌≡◌, ◌^◌, ◌<◌, ◌≤◌, length, true, false, IfOk, MatchResult};
ghost use Rattle.slice_decoder.specs.Slice.{slice_at};
ghost use Rattle.slice_decoder.specs.Decoded.{AreReady, AllKeepOthers, IsDecoded, IsRefused};
ghost use Rattle.slice_decoder.specs.Narrow.{trio_of};
ghost use Rattle.picture_codec.specs.Decoding.{AreNewBands};
ghost use Rattle.picture_codec.specs.DecodedBands.{AllAgree};

use crate::workspace::{all_made, late_zero_trio};
use planes::{Bands, LateTrio, NarrowTrio, NoMemory, Trio};
use quant_factors::Matrix;
use slice_decoder::{SliceFault, decode_slice};
use slice_geometry::{Layout, PictureShape, SliceHead};
use std::alloc::Global;
use std::marker::Model;

/// The bands of 64 bits. Their memory is taken with them, and isn't touched before they are made. Contracts see the bands,
/// all zero until then, and whether they are made.
#[derive(Drop)]
pub struct WideBands {
    late: LateTrio<i64>,
    made: Trio,
    is_made: bool,
}

impl Model for WideBands {
    ghost use Rattle.std.specs.Prelude.{◌≡◌, false, if◌then◌else◌};
    ghost use Rattle.planes.specs.declared.Trio as trio;
    ghost use Rattle.picture_codec.specs.DecodedBands.{LateSeen, late_of, AreRowless};

    ghost Value = { LateSeen trio.Trio };

    ghost view = { λ b. record { bands = if b.is_made then b.made else late_of b.late; is_made = b.is_made } };

    ghost invariant = { λ b. b.is_made ≡ false → AreRowless b.late b.made };
}

impl WideBands {
    /// The bands of pictures of this shape, all zero and not yet made.
    pub(crate) fn new(
        alloc: Global,
        layout: &Layout,
        shape: &PictureShape,
    ) -> Result<WideBands, NoMemory>
        ensures zero { IfOk result (λ b. AreNewBands layout.now shape.now.luma b.bands.luma
            × AreNewBands layout.now shape.now.colour b.bands.c1
            × AreNewBands layout.now shape.now.colour b.bands.c2) }
        ensures late { IfOk result (λ b. b.is_made ≡ false) }
    {
        let depth = layout.depth();
        let (luma, c1, c2) = all_made(
            Bands::new(alloc, depth, 0, 0),
            Bands::new(alloc, depth, 0, 0),
            Bands::new(alloc, depth, 0, 0),
        )?;
        let made = Trio { luma, c1, c2 };
        let late = late_zero_trio(alloc, layout, shape)?;
        Ok(WideBands {
            late,
            made,
            is_made: false,
        })
    }

    /// Sees to it that the bands are made.
    fn make(&mut self)
        ensures { self.new ≡ record self.old { is_made = true } }
    {
        if self.is_made {
            return;
        }
        self.late.luma.make(&mut self.made.luma);
        self.late.c1.make(&mut self.made.c1);
        self.late.c2.make(&mut self.made.c2);
        self.is_made = true;
    }

    /// Gives them the numbers of those of 32 bits.
    pub(crate) fn widen(&mut self, narrow: &NarrowTrio)
        requires { AllAgree narrow.now self.old.bands }
        ensures { self.new ≡ record { bands = trio_of narrow.now; is_made = true } }
    {
        self.make();
        narrow.luma.widen(&mut self.made.luma);
        narrow.c1.widen(&mut self.made.c1);
        narrow.c2.widen(&mut self.made.c2);
    }

    /// The bands, which are made.
    pub(crate) fn bands(&self) -> &Trio
        requires { self.now.is_made ≡ true }
        ensures { result.now ≡ self.now.bands }
    {
        &self.made
    }

    /// Decodes a slice as `decode_slice` does.
    pub(crate) fn decode(
        &mut self,
        layout: &Layout,
        shape: &PictureShape,
        matrix: &Matrix,
        sx: u32,
        sy: u32,
        bytes: &[u8],
    ) -> Result<SliceHead, SliceFault>
        requires made { self.old.is_made ≡ true }
        requires across { sx < layout.now.slices_x }
        requires down { sy < layout.now.slices_y }
        requires some { 1 ≤ length bytes.now }
        requires most { length bytes.now ≤ 2 ^ 28 }
        requires entries { matrix.now.depth ≡ layout.now.depth }
        requires ready { AreReady layout.now shape.now sx sy self.old.bands }
        ensures made { self.new.is_made ≡ true }
        ensures decoded { let slice = slice_at layout.now shape.now.luma shape.now.colour sx sy
            bytes.now in
            MatchResult result
            (λ head. IsDecoded layout.now shape.now sx sy matrix.now slice head self.new.bands)
            (IsRefused layout.now shape.now sx sy matrix.now slice) }
        ensures others { AllKeepOthers layout.now shape.now sx sy self.old.bands self.new.bands }
    {
        decode_slice(layout, shape, matrix, sx, sy, bytes, &mut self.made)
    }
}
