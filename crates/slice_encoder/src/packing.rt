// The bytes of a slice.

ghost use Rattle.std.specs.Prelude.{◌≡◌, ◌+◌, ◌^◌, ◌<◌, ◌≤◌, ◌++◌, true, length};
ghost use Rattle.bit_codes.specs.Bits.{bits_of, digits_below};
ghost use Rattle.bounded_blocks.specs.Writing.{need};
ghost use Rattle.slice_encoder.specs.Choice.{fits, slice_bits};
ghost use Rattle.slice_encoder.specs.BitQueues.{HasRoom, IsSent};
ghost use Rattle.slice_encoder.specs.BlockValues.{block_list, AreBlockValues};

use crate::bit_queues::{BitQueue, put_bits};
use crate::block_texts::{BlockValues, put_block};
use crate::code_tables::Texts;
use slice_geometry::length_bits;

// Nothing is put yet.
const START: BitQueue = BitQueue {
    whole: 0,
    count: 0,
    number: 0,
};

// The index, and the length of the luma block in so many bits.
fn put_head(room: &mut [u8], index: u32, m: u32, luma_need: u64) -> BitQueue
    requires index { index ≤ 127 }
    requires few { m ≤ 31 }
    requires fits { luma_need < 2 ^ m }
    requires room { HasRoom (length room.old) START (7 + m) }
    ensures { IsSent room.old START room.new result
        (digits_below 7 index ++ digits_below m luma_need) }
{
    let queue = put_bits(room, START, u64::from(index), 7);
    put_bits(room, queue, luma_need, m)
}

/// A slice of values that fit, by the need of its luma values.
pub fn put_slice(
    bytes: &mut [u8],
    index: u32,
    luma_need: u64,
    luma: BlockValues<'_>,
    colour: BlockValues<'_>,
    texts: &Texts,
)
    requires some { 1 ≤ length bytes.old }
    requires most { length bytes.old ≤ 2 ^ 28 }
    requires index { index ≤ 127 }
    requires luma { AreBlockValues luma }
    requires colour { AreBlockValues colour }
    requires need { luma_need ≡ need (block_list luma) }
    requires fits { fits (length bytes.old) (record { luma = block_list luma; colour = block_list colour })
        ≡ true }
    ensures { bits_of bytes.new
        ≡ slice_bits (length bytes.old) index (record { luma = block_list luma.entry; colour = block_list colour.entry }) }
{
    let m = length_bits(bytes.len() as u32);
    let middle = 7 + u64::from(m) + luma_need;
    let end = 8 * bytes.len() as u64;
    let head = put_head(bytes, index, m, luma_need);
    let queue = put_block(bytes, head, luma_need, luma, texts);
    put_block(bytes, queue, end - middle, colour, texts);
}
