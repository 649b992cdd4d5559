//! Values written into blocks, and how many bits they need.

ghost use Rattle.std.specs.Prelude.{◌≡◌, true};
ghost use Rattle.std.specs.List.{All};
ghost use Rattle.bounded_blocks.specs.Parts.{IsSmall};

use bounded_blocks::{Fill, Need};
use std::process::Abort;

// Whether no magnitude passes 2^36.
fn are_small(values: &[i64]) -> bool
    ensures { result ≡ true → All IsSmall values.now }
{
    values.iter().all(|v| v.unsigned_abs() <= 0x10_0000_0000)
}

/// Asserts the need of the first of four values.
fn expect_need(rt: &impl Abort, values: &[i64; 4], count: usize, need: u64) {
    assert!(rt; count <= 4 && are_small(values));
    assert!(rt; Need::of(&values[..count]).bits() == need);
}

/// Four values, how many of them are in a list, and its need, worked out by hand.
const NEEDS: [([i64; 4], usize, u64); 11] = [
    ([0, 0, 0, 0], 0, 0),
    ([0, 0, 0, 0], 3, 0),
    ([-2, 0, 0, 0], 2, 1),
    ([0, -1, 0, 0], 3, 3),
    ([1, 0, 0, 0], 1, 4),
    ([-2, 1, 0, 0], 4, 8),
    ([3, -3, 0, 0], 2, 10),
    ([0x10_0000_0000, 0, 0, 0], 1, 74),
    ([-0x10_0000_0000, 0, 0, 0], 1, 71),
    ([0xF_FFFF_FFFF, 0, 0, 0], 1, 74),
    ([-0xF_FFFF_FFFF, 0, 0, 0], 1, 72),
];

#[test]
fn worked_needs(rt: HostRuntime) {
    for (values, count, need) in &NEEDS {
        expect_need(&rt, values, *count, *need);
    }
}

/// Two bytes of which the bits 3 to 9 are a block of values, among others.
fn filled(rt: &impl Abort, around: u8, values: &[i64]) -> [u8; 2] {
    assert!(rt; are_small(values));
    let mut bytes = [around; 2];
    let mut block = Fill::new(&mut bytes, 3, 7);
    block.put_all(values);
    block.finish();
    bytes
}

/// Codes that are cut, codes with ones behind them, and none, among zeros and among ones: two values, how many of them are put,
/// and the two bytes.
const FILLED: [([i64; 2], usize, [u8; 2], [u8; 2]); 4] = [
    ([0, 0], 0, [0x1F, 0xC0], [0xFF, 0xFF]),
    ([1, 0], 1, [0x05, 0xC0], [0xE5, 0xFF]),
    ([2, 8], 2, [0x0C, 0x00], [0xEC, 0x3F]),
    ([-7, 0], 1, [0x00, 0x40], [0xE0, 0x7F]),
];

/// Asserts what becomes of two bytes that are alike.
fn expect_filled(rt: &impl Abort, around: u8, values: &[i64; 2], count: usize, want: &[u8; 2]) {
    assert!(rt; count <= 2);
    assert!(rt; filled(rt, around, &values[..count]) == *want);
}

/// The bits around a block stay.
#[test]
fn bits_around_a_block_stay(rt: HostRuntime) {
    for (values, count, zeros, ones) in &FILLED {
        expect_filled(&rt, 0x00, values, *count, zeros);
        expect_filled(&rt, 0xFF, values, *count, ones);
    }
}
