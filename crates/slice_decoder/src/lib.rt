//! One slice in: its values, dequantised, at their places in the subbands, and the lowest subbands restored.
#![tactic(auto)]

ghost use Rattle.std.specs.Prelude.{◌≡◌, ℕ, ◌+◌, ◌-◌, ◌*◌, ◌^◌, ◌<◌, ◌≤◌, length, take, drop, MatchResult};
ghost use Rattle.bit_codes.specs.Bits.{bits_of, binary_after};
ghost use Rattle.bit_codes.specs.Bits as bits;
ghost use Rattle.bounded_blocks.specs.Parts.{block_of};
ghost use Rattle.dc_prediction.specs.Restoring.{CanRestore, RestoresRect};
ghost use Rattle.slice_geometry.specs.Slicing as slicing;
ghost use Rattle.slice_decoder.specs.Slice.{slice_at};
ghost use Rattle.slice_decoder.specs.Jobs.{luma_part, colour_part, IsSliceJob, AreSizedBands};
ghost use Rattle.slice_geometry.specs.SliceOrder.{numbered};
ghost use Rattle.slice_decoder.specs.Read.{IsRead};
ghost use Rattle.slice_decoder.specs.Decoded.{AreReady, AllKeepOthers, IsDecoded, IsRefused};

mod ahead;
mod bands;
mod components;
mod dealing;
mod jobs;
mod levels;
mod lowest;
mod narrow;
mod narrow_placing;
mod narrow_restoring;
mod narrow_slice;
mod placing;
mod restoring;
mod short;
mod short_restoring;
mod short_room;
mod short_slice;
mod step_rows;

use bit_codes::BitReader;
use bounded_blocks::Block;
use components::{read_colour, read_luma};
use dc_prediction::restore_rect;
pub use jobs::CodedSlice;
use jobs::{Place, SliceJob};
use levels::{level_rects, lowest_of};
pub use narrow_slice::decode_narrow;
use planes::{Bands, Rect, Trio};
use quant_factors::Matrix;
pub use short_room::ShortRoom;
pub use short_slice::decode_short;
use slice_geometry::{Layout, PictureShape, SliceHead, length_bits};

/// Why a slice is refused, the first cause in this order.
#[derive(Clone, Copy, Debug, PartialEq, Eq)]
pub enum SliceFault {
    /// The length of the luma block is above the bits that are left.
    LumaLengthTooLong,
    /// The magnitude of a dequantised number passes 2^36.
    CoefficientTooLarge,
}

// The number of the next n bits.
fn next_bits(reader: &mut BitReader<'_>, n: u32) -> u32
    requires few { n ≤ 31 }
    requires there { n ≤ length reader.old.rest }
    ensures value { result ≡ binary_after 0 (take n reader.old.rest) }
    ensures small { result < 2 ^ n }
    ensures left { reader.new.rest ≡ drop n reader.old.rest }
{
    match reader.bits(n) {
        Ok(number) => number as u32,
        Err(_) => 0,
    }
}

// The quantisation index and the length of the luma block in bits.
fn head_of(bytes: &[u8]) -> SliceHead
    requires some { 1 ≤ length bytes.now }
    requires most { length bytes.now ≤ 2 ^ 28 }
    ensures qindex { result.qindex ≡ binary_after 0 (take 7 (bits_of bytes.now)) }
    ensures small { result.qindex ≤ 127 }
    ensures luma_bits { result.luma_bits
        ≡ binary_after 0 (take (slicing.length_bits (length bytes.now))
        (drop 7 (bits_of bytes.now))) }
{
    let mut reader = BitReader::new(bytes);
    let qindex = next_bits(&mut reader, 7);
    let luma_bits = next_bits(&mut reader, length_bits(bytes.len() as u32));
    SliceHead { qindex, luma_bits }
}

// Restores the residuals of a rectangle in the lowest of a component's subbands.
fn restore(bands: &mut Bands, rect: Rect)
    requires { CanRestore rect (numbered bands.old 0) }
    ensures depth { bands.new.depth ≡ bands.old.depth }
    ensures restored { RestoresRect rect (numbered bands.old 0) (numbered bands.new 0) }
    ensures others { (k : ℕ) → 1 ≤ k → numbered bands.new k ≡ numbered bands.old k }
{
    restore_rect(bands.band_mut(0, 0), rect);
}

// How many values of a block are read whole.
const ROOM: usize = 256;

// Reads the values of both blocks into the subbands. It answers false where a magnitude passes 2^36.
fn read_blocks(job: SliceJob<'_>, bytes: &[u8], luma_bits: u32, bands: &mut Trio) -> bool
    requires some { 1 ≤ length bytes.now }
    requires most { length bytes.now ≤ 2 ^ 28 }
    requires fits { luma_bits + 7 + slicing.length_bits (length bytes.now) ≤ 8 * length bytes.now }
    requires job { IsSliceJob job }
    requires luma_sizes { AreSizedBands (luma_part job) bands.old.luma }
    requires c1_sizes { AreSizedBands (colour_part job) bands.old.c1 }
    requires c2_sizes { AreSizedBands (colour_part job) bands.old.c2 }
    ensures { let start = 7 + slicing.length_bits (length bytes.now) in
        IsRead (luma_part job.entry) (colour_part job.entry)
        (block_of bytes.now start (start + luma_bits))
        (block_of bytes.now (start + luma_bits) (8 * length bytes.now))
        bands.old bands.new result }
{
    let start = 7 + u64::from(length_bits(bytes.len() as u32));
    let middle = start + u64::from(luma_bits);
    let mut luma = Block::new(bytes, start, u64::from(luma_bits));
    let mut colour = Block::new(bytes, middle, 8 * bytes.len() as u64 - middle);
    let mut buffer = [0; ROOM];
    let (c1, c2) = (&mut bands.c1, &mut bands.c2);
    let luma_job = job.luma();
    let colour_job = job.colour();
    read_luma(&mut luma, &mut bands.luma, luma_job, &mut buffer)
        && read_colour(&mut colour, c1, c2, colour_job, &mut buffer)
}

/// Decodes the slice in column sx and row sy from its bytes, 1 to 2^28 of them: its values stand dequantised at their
/// places in the subbands, and those of the lowest subbands restored.
///
/// The matrix has the layout's depth; the bands have the sizes of the layout and the shape; and each value of a lowest
/// subband that is looked at outside the slice has a magnitude of at most (y + x + 1) * 2^36. After a refusal the
/// slice's own places hold any values. All other places stay.
pub fn decode_slice(
    layout: &Layout,
    shape: &PictureShape,
    matrix: &Matrix,
    sx: u32,
    sy: u32,
    bytes: &[u8],
    bands: &mut Trio,
) -> Result<SliceHead, SliceFault>
    requires across { sx < layout.now.slices_x }
    requires down { sy < layout.now.slices_y }
    requires some { 1 ≤ length bytes.now }
    requires most { length bytes.now ≤ 2 ^ 28 }
    requires entries { matrix.now.depth ≡ layout.now.depth }
    requires ready { AreReady layout.now shape.now sx sy bands.old }
    ensures decoded { let slice = slice_at layout.now shape.now.luma shape.now.colour sx sy
        bytes.now in
        MatchResult result
        (λ head. IsDecoded layout.now shape.now sx sy matrix.now slice head bands.new)
        (IsRefused layout.now shape.now sx sy matrix.now slice) }
    ensures others { AllKeepOthers layout.now shape.now sx sy bands.old bands.new }
{
    let depth = layout.depth();
    prove_eq!(matrix.depth(), depth);
    let head = head_of(bytes);
    let left = 8 * bytes.len() - 7 - length_bits(bytes.len() as u32) as usize;
    if head.luma_bits as usize > left {
        return Err(SliceFault::LumaLengthTooLong);
    }
    let place = Place {
        sx,
        sy,
        qindex: head.qindex,
    };
    let luma_rects = level_rects(layout, shape.luma, place);
    let colour_rects = level_rects(layout, shape.colour, place);
    let job = SliceJob {
        layout,
        shape,
        matrix,
        place,
        luma_rects: &luma_rects,
        colour_rects: &colour_rects,
    };
    if !read_blocks(job, bytes, head.luma_bits, bands) {
        return Err(SliceFault::CoefficientTooLarge);
    }
    let luma = lowest_of(&luma_rects);
    let colour = lowest_of(&colour_rects);
    restore(&mut bands.luma, luma);
    restore(&mut bands.c1, colour);
    restore(&mut bands.c2, colour);
    Ok(head)
}
