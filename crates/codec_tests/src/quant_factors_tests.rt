//! Factors, offsets, quantised numbers, and a matrix.

use crate::told::assert_same;
use planes::Orient;
use quant_factors::{Dequantised, Matrix, factor, forward, inverse, offset};

/// Indices with their factors and offsets.
const FACTORS_AND_OFFSETS: [(u32, u64, u64); 10] = [
    (0, 4, 1),
    (1, 5, 2),
    (2, 6, 3),
    (3, 7, 4),
    (4, 8, 4),
    (5, 10, 5),
    (6, 11, 6),
    (7, 13, 7),
    (8, 16, 8),
    (127, 14446490411, 7223245206),
];

#[test]
fn factors_and_offsets(rt: HostRuntime) {
    for row in &FACTORS_AND_OFFSETS {
        let i = row.0;
        assert!(&rt; i <= 127);
        assert_same(&rt, (i, factor(i), offset(i)), *row);
    }
}

const MOST: i64 = 1 << 36;

/// Quantised numbers, indices, and what is restored.
const RESTORED: [(i64, u32, Dequantised); 10] = [
    (0, 127, Dequantised::Is(0)),
    (1, 127, Dequantised::Is(5417433904)),
    (-2, 127, Dequantised::Is(-9029056507)),
    (-63, 127, Dequantised::TooLarge),
    (-2, 5, Dequantised::Is(-6)),
    (-7, 0, Dequantised::Is(-7)),
    (MOST, 0, Dequantised::Is(MOST)),
    (-MOST, 0, Dequantised::Is(-MOST)),
    (MOST, 1, Dequantised::TooLarge),
    (MOST, 127, Dequantised::TooLarge),
];

#[test]
fn numbers_are_restored(rt: HostRuntime) {
    for row in &RESTORED {
        let (q, i, _) = *row;
        assert!(&rt; i <= 127 && q.unsigned_abs() <= 1 << 36);
        assert_same(&rt, (q, i, inverse(q, i)), *row);
    }
}

/// Numbers, indices, and what is quantised.
const QUANTISED: [(i64, u32, i64); 5] = [
    (-7, 5, -2),
    (7, 5, 2),
    (-1, 1, 0),
    (1 << 40, 0, 1 << 40),
    (-1, 0, -1),
];

#[test]
fn numbers_are_quantised(rt: HostRuntime) {
    for row in &QUANTISED {
        let (c, i, _) = *row;
        assert!(&rt; i <= 127 && c.unsigned_abs() <= 1 << 40);
        assert_same(&rt, (c, i, forward(c, i)), *row);
    }
}

const ENTRIES: [u32; 10] = [4, 2, 2, 0, 4, 4, 2, 5, 5, 3];

#[test]
fn the_matrix_has_an_entry_a_band(rt: HostRuntime) {
    let matrix = Matrix::new(3, &ENTRIES);
    assert_same(&rt, matrix.entries(), ENTRIES.as_slice());
    let entries = [
        matrix.entry(0, Orient::Ll),
        matrix.entry(1, Orient::Hl),
        matrix.entry(1, Orient::Hh),
        matrix.entry(3, Orient::Lh),
        matrix.entry(3, Orient::Hh),
    ];
    assert_same(&rt, entries, [4, 2, 0, 5, 3]);
    let quantisers = [
        matrix.quantiser(7, 0, Orient::Ll),
        matrix.quantiser(4, 3, Orient::Hl),
    ];
    assert_same(&rt, quantisers, [3, 0]);
    assert_same(&rt, Matrix::new(0, &[9]).entry(0, Orient::Ll), 9);
}
