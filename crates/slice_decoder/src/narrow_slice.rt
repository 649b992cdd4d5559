//! One slice into bands of 32 bits.

ghost use Rattle.std.specs.Prelude.{◌≡◌, ◌+◌, ◌*◌, ◌^◌, ◌<◌, ◌≤◌, length, pos, MatchResult, MatchOption};
ghost use Rattle.bounded_blocks.specs.Parts.{block_of};
ghost use Rattle.slice_geometry.specs.Slicing as slicing;
ghost use Rattle.slice_decoder.specs.Slice.{slice_at};
ghost use Rattle.slice_decoder.specs.Jobs.{luma_part, colour_part, IsSliceJob, AreSizedBands};
ghost use Rattle.slice_decoder.specs.Decoded.{AreReady, AllKeepOthers, IsDecoded, IsRefused};
ghost use Rattle.slice_decoder.specs.Narrow.{trio_of, AreNarrowBands, NeedsWide, AreRead};

use crate::ahead::read_ahead;
use crate::jobs::{CodedSlice, Place, SliceJob};
use crate::levels::{level_rects, lowest_of};
use crate::lowest::restore_all;
use crate::narrow::{read_colour, read_luma};
use crate::{SliceFault, head_of};
use bounded_blocks::{Block, CodeTable};
use planes::NarrowTrio;
use slice_geometry::{SliceHead, length_bits};

// Reads the values of both blocks into the subbands. It answers false where these don't serve.
fn read_blocks(
    job: SliceJob<'_>,
    bytes: &[u8],
    codes: &CodeTable,
    luma_bits: u32,
    bands: &mut NarrowTrio,
    buffer: &mut [i32],
) -> bool
    requires some { 1 ≤ length bytes.now }
    requires most { length bytes.now ≤ 2 ^ 28 }
    requires fits { luma_bits + 7 + slicing.length_bits (length bytes.now) ≤ 8 * length bytes.now }
    requires job { IsSliceJob job }
    requires luma_sizes { AreSizedBands (luma_part job) bands.old.luma }
    requires c1_sizes { AreSizedBands (colour_part job) bands.old.c1 }
    requires c2_sizes { AreSizedBands (colour_part job) bands.old.c2 }
    requires narrow { AreNarrowBands bands.old }
    ensures read { let start = 7 + slicing.length_bits (length bytes.now) in
        AreRead (pos (2 ^ 18)) (length buffer.old) (luma_part job.entry)
        (colour_part job.entry)
        (block_of bytes.now start (start + luma_bits))
        (block_of bytes.now (start + luma_bits) (8 * length bytes.now))
        (trio_of bands.old) (trio_of bands.new) result }
    ensures narrow { AreNarrowBands bands.new }
{
    let start = 7 + u64::from(length_bits(bytes.len() as u32));
    let middle = start + u64::from(luma_bits);
    let luma = Block::new(bytes, start, u64::from(luma_bits));
    let colour = Block::new(bytes, middle, 8 * bytes.len() as u64 - middle);
    let luma_job = job.luma();
    if !read_luma(&luma, codes, &mut bands.luma, luma_job, buffer) {
        return false;
    }
    let (c1, c2) = (&mut bands.c1, &mut bands.c2);
    let colour_job = job.colour();
    read_colour(&colour, codes, c1, c2, colour_job, buffer)
}

/// Decodes a slice as `decode_slice` does, into bands of 32 bits whose magnitudes are at most 2^18 before and after.
///
/// It gives no head where such bands don't serve: a dequantised or a restored magnitude passes 2^18, or the buffer has no
/// room for the values of a block and `SPARE` of `bounded_blocks` more. The slice's own places hold any values then, as
/// after a refusal. All other places stay.
pub fn decode_narrow(
    coded: CodedSlice<'_>,
    codes: &CodeTable,
    bands: &mut NarrowTrio,
    buffer: &mut [i32],
) -> Result<Option<SliceHead>, SliceFault>
    requires across { coded.sx < coded.layout.now.slices_x }
    requires down { coded.sy < coded.layout.now.slices_y }
    requires some { 1 ≤ length coded.bytes.now }
    requires most { length coded.bytes.now ≤ 2 ^ 28 }
    requires entries { coded.matrix.now.depth ≡ coded.layout.now.depth }
    requires ready { AreReady coded.layout.now coded.shape.now coded.sx coded.sy
        (trio_of bands.old) }
    requires narrow { AreNarrowBands bands.old }
    ensures decoded { let c = coded.entry in
        let slice = slice_at c.layout.now c.shape.now.luma c.shape.now.colour c.sx c.sy c.bytes.now
        in
        MatchResult result
        (λ answer. MatchOption answer
        (NeedsWide (pos (2 ^ 18)) (length buffer.old) c.layout.now c.shape.now c.sx c.sy
        c.matrix.now slice (trio_of bands.new))
        (λ head. IsDecoded c.layout.now c.shape.now c.sx c.sy c.matrix.now slice head
        (trio_of bands.new)))
        (IsRefused c.layout.now c.shape.now c.sx c.sy c.matrix.now slice) }
    ensures others { AllKeepOthers coded.entry.layout.now coded.entry.shape.now coded.entry.sx
        coded.entry.sy (trio_of bands.old) (trio_of bands.new) }
    ensures narrow { AreNarrowBands bands.new }
{
    let (layout, shape, matrix) = (coded.layout, coded.shape, coded.matrix);
    let (sx, sy, bytes) = (coded.sx, coded.sy, coded.bytes);
    let depth = layout.depth();
    prove_eq!(matrix.depth(), depth);
    let head = head_of(bytes);
    let left = 8 * bytes.len() - 7 - length_bits(bytes.len() as u32) as usize;
    if head.luma_bits as usize > left {
        return Err(SliceFault::LumaLengthTooLong);
    }
    let place = Place {
        sx,
        sy,
        qindex: head.qindex,
    };
    read_ahead(bands, layout, shape, sx, sy, buffer);
    let luma_rects = level_rects(layout, shape.luma, place);
    let colour_rects = level_rects(layout, shape.colour, place);
    let job = SliceJob {
        layout,
        shape,
        matrix,
        place,
        luma_rects: &luma_rects,
        colour_rects: &colour_rects,
    };
    if !read_blocks(job, bytes, codes, head.luma_bits, bands, buffer) {
        return Ok(None);
    }
    let luma = lowest_of(&luma_rects);
    let colour = lowest_of(&colour_rects);
    let (c1, c2) = (&mut bands.c1, &mut bands.c2);
    if !restore_all(&mut bands.luma, c1, c2, luma, colour) {
        return Ok(None);
    }
    Ok(Some(head))
}
