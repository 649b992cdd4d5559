//! The encoder of pictures.

ghost use Rattle.std.specs.Prelude.{◌≡◌, ◌+◌, ◌*◌, ◌<◌, ◌↔◌, length, IfOk, ◌++◌, Err, true};
ghost use Rattle.std.specs.List.{concat};
ghost use Rattle.std.specs.Int.{w32, to_be_bytes};
ghost use Rattle.slice_geometry.specs.Shape.{IsSize};
ghost use Rattle.slice_geometry.specs.Slicing.{total_bytes};
ghost use Rattle.planes.specs.declared.Trio.{Trio};
ghost use Rattle.slice_encoder.specs.Ready.{coded_picture, AreGiven};
ghost use Rattle.slice_encoder.specs.Tries.{KeptHaveSizes};
ghost use Rattle.slice_encoder.specs.Chosen.{written_slices};
ghost use Rattle.transform_params.specs.Views.{params_of};
ghost use Rattle.transform_params.specs.ParameterFields.{byte_length, unit_length, params_bytes};
ghost use Rattle.slice_geometry.specs.Frames.{frame_of};
ghost use Rattle.picture_codec.specs.Encoding.{slices_of, picture_bytes, IsSteepOkFor};
ghost use Rattle.picture_codec.specs.EncoderInside.{AllLinesOf, IsLowest, trio_of};

use crate::component_lines::ComponentLines;
use crate::picture::Picture;
use crate::workspace::all_made;
use planes::{NoMemory, Plane, ThreePlanes};
use quant_factors::Matrix;
use slice_encoder::{SliceEncoder, steep_ok};
use slice_geometry::{Component, Layout, PictureShape, Size};
use std::alloc::Global;
use std::marker::Model;
use transform_params::TransformParams;

/// Why there is no encoder.
#[derive(Clone, Copy, Debug, PartialEq, Eq)]
pub enum EncoderFault {
    /// An entry of the quantisation matrix is so large that a slice may fit at no index.
    MatrixTooSteep,
    NoMemory,
}

/// What the three components are encoded from.
#[derive(Drop)]
pub(crate) struct PictureLines {
    pub(crate) luma: ComponentLines,
    pub(crate) c1: ComponentLines,
    pub(crate) c2: ComponentLines,
}

// A lowest subband, all zero.
fn kept_plane(alloc: Global, layout: &Layout, size: Size) -> Result<Plane, NoMemory>
    requires { IsSize size.w size.h }
    ensures { IfOk result (IsLowest layout.now size) }
{
    let band = layout.band_size(size, 0);
    Plane::new(alloc, band.w, band.h)
}

// Writes the slices of a picture whose coefficients these are, each at the least index at which it fits after those
// before it.
fn encode_slices(
    params: &TransformParams,
    slices: &mut SliceEncoder,
    lines: &PictureLines,
    kept: &mut ThreePlanes,
    bytes: &mut [u8],
)
    ghost coefficients: { Trio }
    requires layout { slices.old.slicing ≡ params.now.layout }
    requires steep { IsSteepOkFor slices.old.shape (params_of params.now) }
    requires lines { AllLinesOf (params_of params.now) slices.old.shape lines.now }
    requires coefficients { coefficients ≡ trio_of lines.now }
    requires given { AreGiven (coded_picture params.now.layout slices.old.shape params.now.matrix
        coefficients) }
    requires kept { KeptHaveSizes (coded_picture params.now.layout slices.old.shape
        params.now.matrix coefficients) kept.old }
    requires room { length bytes.old ≡ total_bytes params.now.layout }
    ensures same { slices.new ≡ slices.old }
    ensures kept { KeptHaveSizes (coded_picture params.now.layout slices.old.shape
        params.now.matrix coefficients) kept.new }
    ensures slices { bytes.new ≡ concat (written_slices (coded_picture params.now.layout
        slices.old.shape params.now.matrix coefficients)) }
{
    let layout = &params.layout;
    let across = layout.slices_x();
    let mut place = 0usize;
    for n in 0..layout.count() {
        let end = place + layout.share(n) as usize;
        let (sx, sy) = (n % across, n / across);
        let luma = lines.luma.bands.store.run(sx, sy);
        let c1 = lines.c1.bands.store.run(sx, sy);
        let c2 = lines.c2.bands.store.run(sx, sy);
        let slice = &mut bytes[place..end];
        slices.encode_lists(&params.matrix, sx, sy, luma, c1, c2, kept, slice);
        place = end;
    }
}

/// Writes pictures of one shape with one set of parameters. Contracts see these two.
///
/// All memory is taken in `new`: about 4 bytes a sample for the subbands, and little for four rows a level of each component and
/// for the lowest subbands as a decoder restores them.
#[derive(Drop)]
pub struct PictureEncoder {
    params: TransformParams,
    shape: PictureShape,
    slices: SliceEncoder,
    lines: PictureLines,
    kept: ThreePlanes,
}

impl Model for PictureEncoder {
    ghost use Rattle.std.specs.Prelude.{◌≡◌};
    ghost use Rattle.transform_params.specs.Views.{params_of};
    ghost use Rattle.picture_codec.specs.Encoding.{PictureEncoderSeen, IsSteepOkFor};
    ghost use Rattle.picture_codec.specs.EncoderInside.{IsReadyToEncode};

    ghost Value = { PictureEncoderSeen };

    ghost view = { λ e. record { shape = e.shape; params = params_of e.params } };

    ghost invariant = { λ e. IsReadyToEncode (params_of e.params) e.shape e.lines e.kept
        × (e.slices ≡ record { slicing = e.params.layout; shape = e.shape }) × IsSteepOkFor e.shape (params_of e.params) };
}

// The lowest subbands of a picture, all zero.
fn kept_planes(
    alloc: Global,
    layout: &Layout,
    shape: &PictureShape,
) -> Result<ThreePlanes, NoMemory>
    ensures { IfOk result (λ kept. IsLowest layout.now shape.now.luma kept.luma
        × IsLowest layout.now shape.now.colour kept.c1
        × IsLowest layout.now shape.now.colour kept.c2) }
{
    let (luma, c1, c2) = all_made(
        kept_plane(alloc, layout, shape.luma),
        kept_plane(alloc, layout, shape.colour),
        kept_plane(alloc, layout, shape.colour),
    )?;
    Ok(ThreePlanes { luma, c1, c2 })
}

// What the components are encoded from.
fn picture_lines(
    alloc: Global,
    params: &TransformParams,
    shape: &PictureShape,
) -> Result<PictureLines, NoMemory>
    ensures { IfOk result (AllLinesOf (params_of params.now) shape.now) }
{
    let (luma, c1, c2) = all_made(
        ComponentLines::new(alloc, params, shape.luma),
        ComponentLines::new(alloc, params, shape.colour),
        ComponentLines::new(alloc, params, shape.colour),
    )?;
    Ok(PictureLines { luma, c1, c2 })
}

// What is let go by name here, the proof would else take apart field by field.

// The same, and the encoder of slices.
fn lines_and_slices(
    alloc: Global,
    params: &TransformParams,
    shape: &PictureShape,
) -> Result<(PictureLines, SliceEncoder), NoMemory>
    ensures lines { IfOk result (λ made. AllLinesOf (params_of params.now) shape.now made.0) }
    ensures slices { IfOk result (λ made. made.1
        ≡ record { slicing = params.now.layout; shape = shape.now }) }
{
    let lines = picture_lines(alloc, params, shape)?;
    match SliceEncoder::new(alloc, &params.layout, shape) {
        Ok(slices) => Ok((lines, slices)),
        Err(NoMemory) => {
            drop(lines);
            Err(NoMemory)
        }
    }
}

// Whether every slice of a picture of this shape can be written by the matrix.
fn is_steep_ok(shape: &PictureShape, params: &TransformParams) -> bool
    ensures { (result ≡ true) ↔ IsSteepOkFor shape.now (params_of params.now) }
{
    let depth = shape.luma_depth.max(shape.colour_depth);
    steep_ok(params.layout.depth(), depth, &params.matrix)
}

// The number of a picture, and its parameters.
fn put_front(params: &TransformParams, number: u32, front: &mut [u8])
    requires { length front.old ≡ 4 + byte_length (params_of params.now) }
    ensures { front.new ≡ to_be_bytes w32 number ++ params_bytes (params_of params.now) }
{
    let (word, others) = front.split_at_mut(4);
    word.copy_from_slice(&number.to_be_bytes());
    params.write(others);
}

impl PictureEncoder {
    // An encoder where the matrix passes.
    fn with_room(
        alloc: Global,
        shape: &PictureShape,
        params: &TransformParams,
    ) -> Result<PictureEncoder, NoMemory>
        requires { IsSteepOkFor shape.now (params_of params.now) }
        ensures { IfOk result (λ e. e
            ≡ record { shape = shape.now; params = params_of params.now }) }
    {
        let kept = kept_planes(alloc, &params.layout, shape)?;
        match lines_and_slices(alloc, params, shape) {
            Ok((lines, slices)) => Ok(PictureEncoder {
                params: *params,
                shape: *shape,
                slices,
                lines,
                kept,
            }),
            Err(NoMemory) => {
                drop(kept);
                Err(NoMemory)
            }
        }
    }

    /// An encoder of pictures of this shape. `MatrixTooSteep` comes exactly where an entry of the quantisation matrix is
    /// too large for the shape's depths.
    pub fn new(
        alloc: Global,
        shape: &PictureShape,
        params: &TransformParams,
    ) -> Result<PictureEncoder, EncoderFault>
        ensures new { IfOk result (λ e. (e
            ≡ record { shape = shape.now; params = params_of params.now })
            × IsSteepOkFor shape.now (params_of params.now)) }
        ensures steep { result ≡ Err EncoderFault.MatrixTooSteep
            → IsSteepOkFor shape.now (params_of params.now) → ⊥ }
        ensures memory { result ≡ Err EncoderFault.NoMemory
            → IsSteepOkFor shape.now (params_of params.now) }
    {
        if !is_steep_ok(shape, params) {
            return Err(EncoderFault::MatrixTooSteep);
        }
        match PictureEncoder::with_room(alloc, shape, params) {
            Ok(encoder) => Ok(encoder),
            Err(NoMemory) => Err(EncoderFault::NoMemory),
        }
    }

    /// The payload of a picture's unit: its number, the parameters and the slices, each at the least quantisation index at
    /// which it fits after those before it. There is no refusal, whatever the samples are.
    pub fn encode(&mut self, picture: &Picture, number: u32, bytes: &mut [u8])
        requires shape { picture.now.shape ≡ self.old.shape }
        requires room { 13 + length bytes.old ≡ unit_length self.old.params }
        ensures same { self.new ≡ self.old }
        ensures payload { bytes.new ≡ picture_bytes self.old.params number
            (slices_of (frame_of self.old.shape) self.old.params picture.now.samples) }
    {
        let params = self.params;
        self.lines.luma.take(&params, picture, Component::Luma);
        self.lines.c1.take(&params, picture, Component::C1);
        self.lines.c2.take(&params, picture, Component::C2);
        let (front, slices) = bytes.split_at_mut(4 + params.byte_len());
        put_front(&params, number, front);
        encode_slices(
            &params,
            &mut self.slices,
            &self.lines,
            &mut self.kept,
            slices,
        );
    }
}
