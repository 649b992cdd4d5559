// Codes put into a block, and ones up to its end.

ghost use Rattle.std.specs.Prelude.{◌≡◌, ◌≢◌, ◌+◌, ◌-◌, ◌*◌, ◌/◌, ◌%◌, ◌^◌, ◌<◌, ◌≤◌, ◌++◌, List, ℤ, pos, slice_index_or, length, take, replicate, true};
ghost use Rattle.std.specs.List.{All};
ghost use Rattle.bit_codes.specs.Bits.{digits_below};
ghost use Rattle.bit_codes.specs.Codes.{signed_code_of};
ghost use Rattle.bounded_blocks.specs.Parts.{IsSmall};
ghost use Rattle.bounded_blocks.specs.Writing.{codes_of, need, filled};
ghost use Rattle.slice_encoder.specs.BitQueues.{HasRoom, IsSent};
ghost use Rattle.slice_encoder.specs.CodeTexts.{text_bits};
ghost use Rattle.slice_encoder.specs.CodeTables.{ArePlaces, AreSingles};
ghost use Rattle.slice_encoder.specs.BlockValues.{block_list, IsIn32, AreBlockValues};

use crate::bit_queues::{BitQueue, put_bits};
use crate::code_tables::{Texts, pair_entry, single_entry};
use crate::code_texts::{Text, split_text};
use crate::needs::count_to_last;

/// A block's values: those of the lowest subbands, and behind them the others. `places` has the place of each of the
/// others in a row of the table of pairs.
#[derive(Clone, Copy)]
pub struct BlockValues<'a> {
    pub lowest: &'a [i64],
    pub high: &'a [i32],
    pub places: &'a [u8],
}

// Puts the code of any value. It is rare, and so stays out of the loops.
#[inline(never)]
fn put_long(room: &mut [u8], queue: BitQueue, v: i64) -> BitQueue
    requires small { IsSmall v }
    requires room { HasRoom (length room.old) queue (length (signed_code_of v)) }
    ensures { IsSent room.old queue room.new result (signed_code_of v) }
{
    let text = split_text(v);
    let queue = put_bits(room, queue, text.front.number, text.front.length);
    put_bits(room, queue, text.back.number, text.back.length)
}

// Puts the code of a value, by a look-up where it has an entry.
#[inline(always)]
fn put_value(room: &mut [u8], queue: BitQueue, v: i64, singles: &[u32]) -> BitQueue
    requires singles { AreSingles singles.now }
    requires small { IsSmall v }
    requires room { HasRoom (length room.old) queue (length (signed_code_of v)) }
    ensures { IsSent room.old queue room.new result (signed_code_of v) }
{
    if v <= -512 || 512 <= v {
        return put_long(room, queue, v);
    }
    let entry = single_entry(singles, v);
    put_bits(room, queue, u64::from(entry / 256), entry % 256)
}

// Puts the codes of values of the lowest subbands.
fn put_lowest(room: &mut [u8], queue: BitQueue, values: &[i64], texts: &Texts) -> BitQueue
    requires small { All IsSmall values.now }
    requires room { HasRoom (length room.old) queue (length (codes_of values.now)) }
    ensures { IsSent room.old queue room.new result (codes_of values.now) }
{
    let singles = texts.singles();
    let mut queue = queue;
    for k in 0..values.len() {
        queue = put_value(room, queue, values[k], singles);
    }
    queue
}

// Puts the codes of other values, one by one. It is rare, and so stays out of the loop over fours.
#[inline(never)]
fn put_apart(room: &mut [u8], queue: BitQueue, values: &[i32], texts: &Texts) -> BitQueue
    requires small { All IsIn32 values.now }
    requires room { HasRoom (length room.old) queue (length (codes_of values.now)) }
    ensures { IsSent room.old queue room.new result (codes_of values.now) }
{
    let singles = texts.singles();
    let mut queue = queue;
    for k in 0..values.len() {
        queue = put_value(room, queue, i64::from(values[k]), singles);
    }
    queue
}

// Puts the texts of two entries.
#[inline(always)]
fn put_two(room: &mut [u8], queue: BitQueue, front: u32, back: u32) -> BitQueue
    requires front_few { front % 256 ≤ 24 }
    requires back_few { back % 256 ≤ 24 }
    requires front_number { front / 256 < 2 ^ (front % 256) }
    requires back_number { back / 256 < 2 ^ (back % 256) }
    requires room { HasRoom (length room.old) queue (front % 256 + back % 256) }
    ensures { IsSent room.old queue room.new result
        (digits_below (front % 256) (front / 256) ++ digits_below (back % 256) (back / 256)) }
{
    let n = back % 256;
    let text = u64::from(front / 256) * (1 << n) + u64::from(back / 256);
    put_bits(room, queue, text, front % 256 + n)
}

// Puts the codes of values four by four, by the entries of their pairs, and one by one where one of them has no place. That
// call takes and gives copies, so that the queue itself stays in registers.
#[inline(never)]
fn put_fours(
    room: &mut [u8],
    queue: BitQueue,
    values: &[i32],
    places: &[u8],
    texts: &Texts,
) -> BitQueue
    requires small { All IsIn32 values.now }
    requires places { ArePlaces values.now places.now }
    requires room { HasRoom (length room.old) queue (length (codes_of values.now)) }
    ensures { IsSent room.old queue room.new result
        (codes_of (take (length values.now / 4 * 4) values.now)) }
{
    let pairs = texts.pairs();
    let mut queue = queue;
    for four in 0..values.len() / 4 {
        let k = 4 * four;
        let front = pair_entry(pairs, places[k], places[k + 1]);
        let back = pair_entry(pairs, places[k + 2], places[k + 3]);
        if front % 256 + back % 256 < 255 {
            queue = put_two(room, queue, front, back);
        } else {
            let before = queue;
            let next = put_apart(room, before, &values[k..k + 4], texts);
            queue = next;
        }
    }
    queue
}

// Puts the codes of values outside the lowest subbands.
fn put_high(
    room: &mut [u8],
    queue: BitQueue,
    values: &[i32],
    places: &[u8],
    texts: &Texts,
) -> BitQueue
    requires small { All IsIn32 values.now }
    requires places { ArePlaces values.now places.now }
    requires room { HasRoom (length room.old) queue (length (codes_of values.now)) }
    ensures { IsSent room.old queue room.new result (codes_of values.now) }
{
    let queue = put_fours(room, queue, values, places, texts);
    put_apart(room, queue, &values[values.len() / 4 * 4..], texts)
}

// Puts so many ones.
fn put_ones(room: &mut [u8], queue: BitQueue, count: u64) -> BitQueue
    requires { HasRoom (length room.old) queue count }
    ensures { IsSent room.old queue room.new result (replicate count true) }
{
    let mut queue = queue;
    let mut left = count;
    while left > 0 {
        let n = left.min(48) as u32;
        queue = put_bits(room, queue, (1 << n) - 1, n);
        left -= u64::from(n);
    }
    queue
}

// Puts those of a text's first digits that fit.
fn put_front(room: &mut [u8], queue: BitQueue, text: Text, left: u64) -> BitQueue
    requires few { text.length ≤ 50 }
    requires small { text.number < 2 ^ text.length }
    requires room { HasRoom (length room.old) queue left }
    ensures { IsSent room.old queue room.new result (take left (text_bits text)) }
{
    let fit = u64::from(text.length).min(left) as u32;
    put_bits(room, queue, text.number / (1 << (text.length - fit)), fit)
}

// Puts the code of any last value of a block, as far as the block reaches, and ones up to its end. It is rare.
#[inline(never)]
fn put_long_last(room: &mut [u8], queue: BitQueue, left: u64, v: i64) -> BitQueue
    requires small { IsSmall v }
    requires room { HasRoom (length room.old) queue left }
    ensures { IsSent room.old queue room.new result (filled left (signed_code_of v)) }
{
    let text = split_text(v);
    let queue = put_front(room, queue, text.front, left);
    let left = left.saturating_sub(u64::from(text.front.length));
    let queue = put_front(room, queue, text.back, left);
    put_ones(
        room,
        queue,
        left.saturating_sub(u64::from(text.back.length)),
    )
}

// The same, by a look-up where the value has an entry.
fn put_last(room: &mut [u8], queue: BitQueue, left: u64, v: i64, texts: &Texts) -> BitQueue
    requires small { IsSmall v }
    requires room { HasRoom (length room.old) queue left }
    ensures { IsSent room.old queue room.new result (filled left (signed_code_of v)) }
{
    if v <= -512 || 512 <= v {
        return put_long_last(room, queue, left, v);
    }
    let entry = single_entry(texts.singles(), v);
    let text = Text {
        number: u64::from(entry / 256),
        length: entry % 256,
    };
    let queue = put_front(room, queue, text, left);
    put_ones(room, queue, left.saturating_sub(u64::from(text.length)))
}

// How many values there are up to the last one that isn't 0. What they need behind others doesn't change.
fn high_to_last(values: &[i32]) -> usize
    requires { All IsIn32 values.now }
    ensures most { result ≤ length values.now }
    ensures need { (lowest : List ℤ)
        → need (lowest ++ take result values.now) ≡ need (lowest ++ values.now) }
    ensures last { 0 < result → slice_index_or values.now (result - 1) (pos 0) ≢ pos 0 }
{
    for passed in 0..values.len() {
        let count = values.len() - passed;
        if values[count - 1] != 0 {
            return count;
        }
    }
    0
}

// How many bits are put.
fn bits_put(queue: BitQueue) -> u64
    requires whole { queue.whole < 2 ^ 60 }
    requires waits { queue.count < 8 }
    ensures { result ≡ 8 * queue.whole + queue.count }
{
    8 * queue.whole as u64 + u64::from(queue.count)
}

// Puts values of the lowest subbands into a block in which all others are 0.
fn put_lowest_block(
    room: &mut [u8],
    queue: BitQueue,
    bits: u64,
    values: &[i64],
    texts: &Texts,
) -> BitQueue
    requires small { All IsSmall values.now }
    requires most { 8 * queue.whole + bits ≤ 2 ^ 40 }
    requires need { need values.now ≤ bits }
    requires room { HasRoom (length room.old) queue bits }
    ensures { IsSent room.old queue room.new result (filled bits (codes_of values.now)) }
{
    let count = count_to_last(values);
    if count == 0 {
        return put_ones(room, queue, bits);
    }
    let end = bits_put(queue) + bits;
    let queue = put_lowest(room, queue, &values[..count - 1], texts);
    put_last(room, queue, end - bits_put(queue), values[count - 1], texts)
}

/// Puts values into a block of so many bits, which is filled with ones: these are the codes of the zeros at their end, too.
pub fn put_block(
    room: &mut [u8],
    queue: BitQueue,
    bits: u64,
    values: BlockValues<'_>,
    texts: &Texts,
) -> BitQueue
    requires values { AreBlockValues values }
    requires most { 8 * queue.whole + bits ≤ 2 ^ 40 }
    requires need { need (block_list values) ≤ bits }
    requires room { HasRoom (length room.old) queue bits }
    ensures { IsSent room.old queue room.new result
        (filled bits (codes_of (block_list values.entry))) }
{
    let count = high_to_last(values.high);
    if count == 0 {
        return put_lowest_block(room, queue, bits, values.lowest, texts);
    }
    let end = bits_put(queue) + bits;
    let queue = put_lowest(room, queue, values.lowest, texts);
    let last = i64::from(values.high[count - 1]);
    let queue = put_high(
        room,
        queue,
        &values.high[..count - 1],
        &values.places[..count - 1],
        texts,
    );
    put_last(room, queue, end - bits_put(queue), last, texts)
}
