//! One slice into bands of 16 bits.

ghost use Rattle.std.specs.Prelude.{◌≡◌, ◌+◌, ◌*◌, ◌^◌, ◌<◌, ◌≤◌, length, MatchResult, MatchOption};
ghost use Rattle.bounded_blocks.specs.Parts.{block_of};
ghost use Rattle.slice_store.specs.declared.short_bands.TheConstants.{MAX_SHORT};
ghost use Rattle.slice_geometry.specs.Slicing as slicing;
ghost use Rattle.slice_decoder.specs.Slice.{slice_at};
ghost use Rattle.slice_decoder.specs.Jobs.{short_part, IsShortJob};
ghost use Rattle.slice_decoder.specs.Decoded.{AllKeepOthers, IsDecoded, IsRefused};
ghost use Rattle.slice_decoder.specs.Narrow.{NeedsWide, AreRead};
ghost use Rattle.slice_decoder.specs.Short.{shown_trio, AreCut, AreCutFor};

use crate::jobs::{CodedSlice, Place, ShortJob};
use crate::lowest::restore_all;
use crate::short_room::ShortRoom;
use crate::{SliceFault, head_of};
use bounded_blocks::{Block, CodeTable};
use slice_geometry::{SliceHead, length_bits};
use slice_store::ShortTrio;

// Reads the values of both blocks into the subbands. It answers false where these don't serve.
fn read_blocks(
    luma_job: ShortJob<'_>,
    colour_job: ShortJob<'_>,
    bytes: &[u8],
    codes: &CodeTable,
    luma_bits: u32,
    bands: &mut ShortTrio,
    room: &mut ShortRoom,
) -> bool
    requires some { 1 ≤ length bytes.now }
    requires most { length bytes.now ≤ 2 ^ 28 }
    requires fits { luma_bits + 7 + slicing.length_bits (length bytes.now) ≤ 8 * length bytes.now }
    requires luma_job { IsShortJob luma_job }
    requires colour_job { IsShortJob colour_job }
    requires cut { AreCutFor luma_job colour_job bands.old }
    ensures read { let start = 7 + slicing.length_bits (length bytes.now) in
        AreRead MAX_SHORT room.old (short_part luma_job.entry) (short_part colour_job.entry)
        (block_of bytes.now start (start + luma_bits))
        (block_of bytes.now (start + luma_bits) (8 * length bytes.now))
        (shown_trio bands.old) (shown_trio bands.new) result }
    ensures cut { AreCutFor luma_job.entry colour_job.entry bands.new }
{
    let start = 7 + u64::from(length_bits(bytes.len() as u32));
    let middle = start + u64::from(luma_bits);
    let luma = Block::new(bytes, start, u64::from(luma_bits));
    let colour = Block::new(bytes, middle, 8 * bytes.len() as u64 - middle);
    if !room.read_luma(&luma, codes, &mut bands.luma, luma_job) {
        return false;
    }
    let (c1, c2) = (&mut bands.c1, &mut bands.c2);
    room.read_colour(&colour, codes, c1, c2, colour_job)
}

/// Decodes a slice as `decode_slice` does, into bands of 16 bits, whose slices lie as the layout cuts each component.
///
/// It gives no head where such bands don't serve: a dequantised magnitude passes `MAX_SHORT`, a restored one 2^18, or
/// there is no room for the values of a block and `SPARE` of `bounded_blocks` more. The slice's own places hold any
/// values then, as after a refusal. All other places stay.
pub fn decode_short(
    coded: CodedSlice<'_>,
    codes: &CodeTable,
    bands: &mut ShortTrio,
    room: &mut ShortRoom,
) -> Result<Option<SliceHead>, SliceFault>
    requires across { coded.sx < coded.layout.now.slices_x }
    requires down { coded.sy < coded.layout.now.slices_y }
    requires some { 1 ≤ length coded.bytes.now }
    requires most { length coded.bytes.now ≤ 2 ^ 28 }
    requires entries { coded.matrix.now.depth ≡ coded.layout.now.depth }
    requires cut { AreCut coded.layout.now coded.shape.now bands.old }
    ensures decoded { let c = coded.entry in
        let slice = slice_at c.layout.now c.shape.now.luma c.shape.now.colour c.sx c.sy c.bytes.now
        in
        MatchResult result
        (λ answer. MatchOption answer
        (NeedsWide MAX_SHORT room.old c.layout.now c.shape.now c.sx c.sy c.matrix.now slice
        (shown_trio bands.new))
        (λ head. IsDecoded c.layout.now c.shape.now c.sx c.sy c.matrix.now slice head
        (shown_trio bands.new)))
        (IsRefused c.layout.now c.shape.now c.sx c.sy c.matrix.now slice) }
    ensures others { AllKeepOthers coded.entry.layout.now coded.entry.shape.now coded.entry.sx
        coded.entry.sy (shown_trio bands.old) (shown_trio bands.new) }
    ensures cut { AreCut coded.entry.layout.now coded.entry.shape.now bands.new }
{
    let (layout, shape, matrix) = (coded.layout, coded.shape, coded.matrix);
    let (sx, sy, bytes) = (coded.sx, coded.sy, coded.bytes);
    let depth = layout.depth();
    prove_eq!(matrix.depth(), depth);
    let head = head_of(bytes);
    let left = 8 * bytes.len() - 7 - length_bits(bytes.len() as u32) as usize;
    if head.luma_bits as usize > left {
        return Err(SliceFault::LumaLengthTooLong);
    }
    let place = Place {
        sx,
        sy,
        qindex: head.qindex,
    };
    let (luma_areas, colour_areas) = (
        bands.luma.slices.areas(sx, sy),
        bands.c1.slices.areas(sx, sy),
    );
    let luma = ShortJob {
        layout,
        size: shape.luma,
        matrix,
        place,
        lowest: bands.luma.slices.rect(0, sx, sy),
        areas: &luma_areas,
    };
    let colour = ShortJob {
        layout,
        size: shape.colour,
        matrix,
        place,
        lowest: bands.c1.slices.rect(0, sx, sy),
        areas: &colour_areas,
    };
    if !read_blocks(luma, colour, bytes, codes, head.luma_bits, bands, room) {
        return Ok(None);
    }
    let (c1, c2) = (&mut bands.c1, &mut bands.c2);
    if !restore_all(&mut bands.luma, c1, c2, luma.lowest, colour.lowest) {
        return Ok(None);
    }
    Ok(Some(head))
}
