//! Blocks and the values that they spell.

ghost use Rattle.std.specs.Prelude.{◌≤◌, length};

use bounded_blocks::{Block, CodeTable, SPARE, Sint};
use std::process::Abort;

/// Bytes, the bit from which on they hold a block, how many bits it has, its first values, and whether these are read in
/// 32 bits too.
type Case<'a> = (&'a [u8], u64, u64, &'a [i64], bool);

/// Bytes of codes of one to twenty bits.
const MANY_CODES: &[u8] = &[
    0x49, 0x28, 0xC2, 0x27, 0x31, 0x77, 0xC9, 0x88, 0x18, 0x10, 0x04, 0x48, 0x06, 0x69, 0x14, 0x00,
];

/// Each block of at most three bits; codes that run past the end; 2^36, the greatest magnitude that is told, and behind it
/// -1, first in a block and last; and codes of 38 bits: 2^18, -2^18, 2^18 + 1 and -2^18 - 1.
#[rattlefmt::skip]
const CASES: [Case<'static>; 24] = [
    (&[0xA5, 0b0000_0000], 8, 0, &[0, 0, 0, 0, 0], true),
    (&[0xA5, 0b0000_0000], 8, 1, &[-2, 0, 0, 0, 0], true),
    (&[0xA5, 0b1000_0000], 8, 1, &[0, 0, 0, 0, 0], true),
    (&[0xA5, 0b0000_0000], 8, 2, &[-1, 0, 0, 0, 0], true),
    (&[0xA5, 0b0100_0000], 8, 2, &[-2, 0, 0, 0, 0], true),
    (&[0xA5, 0b1000_0000], 8, 2, &[0, -2, 0, 0, 0], true),
    (&[0xA5, 0b1100_0000], 8, 2, &[0, 0, 0, 0, 0], true),
    (&[0xA5, 0b0000_0000], 8, 3, &[-4, 0, 0, 0, 0], true),
    (&[0xA5, 0b0010_0000], 8, 3, &[-1, 0, 0, 0, 0], true),
    (&[0xA5, 0b0100_0000], 8, 3, &[-6, 0, 0, 0, 0], true),
    (&[0xA5, 0b0110_0000], 8, 3, &[-2, 0, 0, 0, 0], true),
    (&[0xA5, 0b1000_0000], 8, 3, &[0, -1, 0, 0, 0], true),
    (&[0xA5, 0b1010_0000], 8, 3, &[0, -2, 0, 0, 0], true),
    (&[0xA5, 0b1100_0000], 8, 3, &[0, 0, -2, 0, 0], true),
    (&[0xA5, 0b1110_0000], 8, 3, &[0, 0, 0, 0, 0], true),
    (MANY_CODES, 3, 56, &[5, 28, -41, 0, -1, -10, -2, 0, 0, 1, 2, -2, 0, 0], true),
    (MANY_CODES, 3, 90, &[5, 28, -41, 0, -1, -10, -2, 0, 0, 1, 2, 1, 8, -2313, 0, 0], true),
    (MANY_CODES, 3, 125, &[5, 28, -41, 0, -1, -10, -2, 0, 0, 1, 2, 1, 8, 2313, 16, 2, 0, 1, 1, 0, -31, 0], true),
    (&[0, 0, 0, 0, 0, 0, 0, 0, 0b0000_0001, 0b1000_1011], 0, 77, &[0x10_0000_0000, -1, 0], false),
    (&[0x80, 0, 0, 0, 0, 0, 0, 0, 0, 0xC7], 0, 80, &[0, 0x10_0000_0000, -1, 0], false),
    (&[0x80, 0x00, 0x00, 0x00, 0x0D], 0, 40, &[0, 262144, 0, 0], true),
    (&[0x80, 0x00, 0x00, 0x00, 0x0F], 0, 40, &[0, -262144, 0, 0], true),
    (&[0x80, 0x00, 0x00, 0x00, 0x25], 0, 40, &[0, 262145, 0, 0], false),
    (&[0x80, 0x00, 0x00, 0x00, 0x27], 0, 40, &[0, -262145, 0, 0], false),
];

/// Whether these are the first values of a block.
fn is_filled(mut block: Block<'_>, values: &[i64]) -> bool
    requires { length values.now ≤ 24 }
{
    let mut out = [7; 24];
    let front = &mut out[..values.len()];
    block.fill(front) && *front == *values
}

/// Whether they are read of it in 32 bits.
fn is_filled_narrow(table: &CodeTable, block: &Block<'_>, values: &[i64]) -> bool
    requires { length values.now ≤ 24 }
{
    let mut out = [7; 24 + SPARE];
    if !block.narrow_values(table, values.len(), &mut out) {
        return false;
    }
    for k in 0..values.len() {
        if i64::from(out[k]) != values[k] {
            return false;
        }
    }
    true
}

fn block<'a>(rt: &impl Abort, bytes: &'a [u8], from: u64, bits: u64) -> Block<'a> {
    assert!(rt; bytes.len() <= 16 && from <= 8 && bits <= 128);
    assert!(rt; from + bits <= 8 * bytes.len() as u64);
    Block::new(bytes, from, bits)
}

fn is_read(rt: &impl Abort, table: &CodeTable, case: &Case<'_>) -> bool {
    let (bytes, from, bits, values, is_narrow) = *case;
    assert!(rt; values.len() <= 24);
    let narrow = is_filled_narrow(table, &block(rt, bytes, from, bits), values);
    narrow == is_narrow && is_filled(block(rt, bytes, from, bits), values)
}

#[test]
fn blocks_are_read(rt: HostRuntime) {
    let table = CodeTable::new(rt.alloc()).expect(&rt, "memory");
    for case in &CASES {
        assert!(&rt; is_read(&rt, &table, case));
    }
    drop(table);
}

/// Blocks of these bytes from bit 3 on, which end at the bits 58 to 128: of the first 24 values of each the sum of each
/// value by its number, from 1 on.
#[rattlefmt::skip]
const WEIGHED: [i64; 71] = [
    -109, -133, -121, -121, -97, -123, -110, -149, -136, -201,
    -201, -201, 7, -21, -7, -49, -35, -105, -105, -245,
    -231, -497, -483, -1001, -987, -2009, -1995, -4025, -4025, -8085,
    -8071, -16177, -16177, -32389, -32375, -32375, 32389, 32359, 32374, 32329,
    32344, 32269, 32284, 32149, 32149, 32149, 32629, 32597, 32597, 32597,
    32661, 32661, 32625, 32643, 32643, 32679, 32641, 32660, 32660, 32698,
    32698, 32656, 32677, 32614, 32635, 32530, 32551, 32362, 32383, 32026,
    32047,
];

/// The sum of values, each by its number.
fn weighed(values: &[i64; 24]) -> i64 {
    let mut sum: i64 = 0;
    for k in 0..24 {
        sum = sum.wrapping_add(values[k].wrapping_mul(k as i64 + 1));
    }
    sum
}

/// Whether the first values of such a block have this sum, and are read in 32 bits too.
fn has_sum(rt: &impl Abort, table: &CodeTable, bits: u64, sum: i64) -> bool {
    let mut out = [7; 24];
    let is_read = block(rt, MANY_CODES, 3, bits).fill(&mut out);
    let narrow = is_filled_narrow(table, &block(rt, MANY_CODES, 3, bits), &out);
    is_read && narrow && weighed(&out) == sum
}

/// Codes that run past the block at each of its last bits.
#[test]
fn codes_past_the_end(rt: HostRuntime) {
    let table = CodeTable::new(rt.alloc()).expect(&rt, "memory");
    for k in 0..71 {
        assert!(&rt; has_sum(&rt, &table, 55 + k as u64, WEIGHED[k]));
    }
    drop(table);
}

/// 2^36 + 1, which isn't told; behind it a 1, of which three bits stand in the block.
#[test]
fn past_the_greatest_magnitude(rt: HostRuntime) {
    let huge = [0, 0, 0, 0, 0, 0, 0, 0, 0b0000_0100, 0b1100_1011];
    let mut block = Block::new(&huge, 0, 77);
    let is_told = block.fill(&mut [7; 3]);
    let values = [block.sint(), block.sint(), block.sint()];
    assert!(&rt; !is_told && values == [Sint::Huge, Sint::Is(-1), Sint::Is(0)]);
}
