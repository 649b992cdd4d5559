//! The values of a block in 32 bits, read and dequantised in place.

ghost use Rattle.bounded_blocks.specs.declared.TheConstants.{SPARE};
ghost use Rattle.std.specs.Prelude.{◌≡◌, ℕ, ℤ, List, ◌+◌, ◌-◌, ◌*◌, ◌^◌, ◌<◌, ◌≤◌, true, false, length, slice_index_or, pos, unsigned_abs, MatchOption};
ghost use Rattle.quant_factors.specs.Factors.{factor_of, offset_of, restored_of, inverse_of, signed};
ghost use Rattle.quant_factors.specs.Weights.{band_quantiser};
ghost use Rattle.slice_geometry.specs.SliceOrder.{level_of, orient_of};
ghost use Rattle.slice_decoder.specs.Components.{Part};
ghost use Rattle.slice_decoder.specs.Dealing.{dealt, StaysBeside};
ghost use Rattle.slice_decoder.specs.Jobs.{part_in, IsPartJob, places_of};
ghost use Rattle.slice_decoder.specs.Restored.{restored_at, StayWithin, AreLow};
ghost use Rattle.slice_decoder.specs.RestoredBands.{all_quantisers, IsBand, AreBands, IsRestoredTo, OnePasses};

use crate::jobs::PartJob;
use crate::levels::area_of;
use bit_codes::MAX_NARROW;
use bounded_blocks::{Block, CodeTable};
use quant_factors::{Dequantised, Matrix, factor, inverse, offset};

// The least magnitude that has all bits of these: none of theirs is above it.
fn all_magnitudes(values: &[i32]) -> u32
    requires { (k : ℕ) → unsigned_abs (slice_index_or values.now k (pos 0)) ≤ MAX_NARROW }
    ensures { (k : ℕ) → unsigned_abs (slice_index_or values.now k (pos 0)) ≤ result }
{
    let mut all = 0;
    for k in 0..values.len() {
        all |= values[k].unsigned_abs();
    }
    all
}

// Up to this product of a magnitude and one more with the factor, what is restored is at most 2^18.
const LOW: u64 = 1 << 20;

// Whether no value is restored to more than 2^18, nor takes more than 32 bits on the way, at any index up to this one.
// It may answer false where none is.
fn are_low(values: &[i32], index: u32) -> bool
    requires index { index ≤ 127 }
    requires narrow { (k : ℕ) → unsigned_abs (slice_index_or values.now k (pos 0)) ≤ MAX_NARROW }
    ensures { result ≡ true → (i : ℕ) → i ≤ index → AreLow 0 values.now i }
{
    let step = factor(index);
    if step > LOW {
        return false;
    }
    (u64::from(all_magnitudes(values)) + 1) * step <= LOW
}

// m with the sign of z.
#[inline(always)]
fn with_sign(z: i32, m: u32) -> i32
    requires { m ≤ 2 ^ 30 }
    ensures { result ≡ signed z m }
{
    if z < 0 { -(m as i32) } else { m as i32 }
}

// What a magnitude is restored to where 32 bits do, by the factor and the offset of the index. It has no branch, so
// that many are restored at a time.
#[inline(always)]
fn restored(magnitude: u32, index: u32, factor: u32, offset: u32) -> u32
    requires factor { factor ≡ factor_of index }
    requires offset { offset ≡ offset_of index }
    requires half { offset ≤ 2 ^ 20 }
    requires low { magnitude * factor_of index ≤ 2 ^ 20 }
    ensures value { result ≡ restored_of magnitude index }
    ensures small { result ≤ 2 ^ 20 }
{
    let add = if magnitude == 0 { 0 } else { offset + 2 };
    (magnitude * factor + add) / 4
}

// The same of a number with its sign.
#[inline(always)]
fn inverse_low(q: i32, index: u32, factor: u32, offset: u32) -> i32
    requires factor { factor ≡ factor_of index }
    requires offset { offset ≡ offset_of index }
    requires half { offset ≤ 2 ^ 20 }
    requires low { (unsigned_abs q + 1) * factor_of index ≤ 2 ^ 20 }
    ensures { result ≡ inverse_of q index }
{
    with_sign(q, restored(q.unsigned_abs(), index, factor, offset))
}

// Restores each number, all of them low.
#[inline(always)]
fn restore_low(values: &mut [i32], index: u32)
    requires index { index ≤ 127 }
    requires low { AreLow 0 values.old index }
    ensures { (k : ℕ) → k < length values.old
        → slice_index_or values.new k (pos 0)
        ≡ inverse_of (slice_index_or values.old k (pos 0)) index }
{
    let (factor, offset) = (factor(index) as u32, offset(index) as u32);
    for k in 0..values.len() {
        values[k] = inverse_low(values[k], index, factor, offset);
    }
}

// A number restored, or none where its magnitude passes 2^18.
fn inverse_any(q: i32, index: u32) -> Option<i32>
    requires index { index ≤ 127 }
    requires narrow { unsigned_abs q ≤ MAX_NARROW }
    ensures { MatchOption result (MAX_NARROW < unsigned_abs (inverse_of q index))
        (λ v. (v ≡ inverse_of q index) × (unsigned_abs v ≤ MAX_NARROW)) }
{
    match inverse(i64::from(q), index) {
        Dequantised::Is(v) if v.unsigned_abs() <= u64::from(MAX_NARROW) => Some(v as i32),
        _ => None,
    }
}

// Restores each number. It answers false where a magnitude passes 2^18.
#[inline(never)]
fn restore_any(values: &mut [i32], index: u32) -> bool
    requires index { index ≤ 127 }
    requires narrow { (k : ℕ) → unsigned_abs (slice_index_or values.old k (pos 0)) ≤ MAX_NARROW }
    ensures within { StayWithin MAX_NARROW result
        (λ k. inverse_of (slice_index_or values.old k (pos 0)) index) 0 (length values.old) }
    ensures values { result ≡ true → (k : ℕ) → k < length values.old →
        slice_index_or values.new k (pos 0)
        ≡ inverse_of (slice_index_or values.old k (pos 0)) index }
{
    for k in 0..values.len() {
        let Some(value) = inverse_any(values[k], index) else {
            return false;
        };
        values[k] = value;
    }
    true
}

// Dequantises the values of one band. It answers false where a magnitude passes 2^18.
#[inline(always)]
fn restore_run(values: &mut [i32], index: u32, is_low: bool) -> bool
    requires index { index ≤ 127 }
    requires narrow { (k : ℕ) → unsigned_abs (slice_index_or values.old k (pos 0)) ≤ MAX_NARROW }
    requires low { is_low ≡ true → AreLow 0 values.old index }
    ensures within { StayWithin MAX_NARROW result
        (λ k. inverse_of (slice_index_or values.old k (pos 0)) index) 0 (length values.old) }
    ensures values { result ≡ true → (k : ℕ) → k < length values.old →
        slice_index_or values.new k (pos 0)
        ≡ inverse_of (slice_index_or values.old k (pos 0)) index }
{
    if !is_low {
        return restore_any(values, index);
    }
    restore_low(values, index);
    true
}

// Dequantises the values from one place to another.
#[inline(always)]
fn restore_part(values: &mut [i32], from: usize, to: usize, index: u32, is_low: bool) -> bool
    requires index { index ≤ 127 }
    requires order { from ≤ to }
    requires inside { to ≤ length values.old }
    requires narrow { (k : ℕ) → from ≤ k
        → unsigned_abs (slice_index_or values.old k (pos 0)) ≤ MAX_NARROW }
    requires low { is_low ≡ true → AreLow from values.old index }
    ensures within { StayWithin MAX_NARROW result
        (λ k. inverse_of (slice_index_or values.old k (pos 0)) index) from to }
    ensures inside { result ≡ true → (k : ℕ) → from ≤ k → k < to →
        slice_index_or values.new k (pos 0)
        ≡ inverse_of (slice_index_or values.old k (pos 0)) index }
    ensures outside { StaysBeside from to values.old values.new }
{
    restore_run(&mut values[from..to], index, is_low)
}

// The quantisation index of band k.
#[inline(always)]
pub fn index_of_band(matrix: &Matrix, qindex: u32, k: u32) -> u32
    requires band { k < 3 * matrix.now.depth + 1 }
    ensures value { result ≡ band_quantiser matrix.now qindex (level_of k) (orient_of k) }
    ensures most { result ≤ qindex }
{
    qindex.saturating_sub(matrix.entries()[k as usize])
}

// Dequantises the values of band k, so many from one place on. It answers false where a magnitude passes 2^18.
#[inline(always)]
fn restore_band(
    values: &mut [i32],
    from: usize,
    count: usize,
    k: u32,
    matrix: &Matrix,
    qindex: u32,
    is_low: bool,
) -> bool
    requires band { k < 3 * matrix.now.depth + 1 }
    requires qindex { qindex ≤ 127 }
    requires inside { from + count ≤ length values.old }
    requires narrow { (j : ℕ) → from ≤ j
        → unsigned_abs (slice_index_or values.old j (pos 0)) ≤ MAX_NARROW }
    requires low { is_low ≡ true → (i : ℕ) → i ≤ qindex → AreLow from values.old i }
    ensures rest { (j : ℕ) → from + count ≤ j
        → slice_index_or values.new j (pos 0) ≡ slice_index_or values.old j (pos 0) }
    ensures more { result ≡ true → (each : ℕ) (p : Part) (vs : List ℤ)
        → IsBand matrix.now qindex each p k count →
        IsRestoredTo MAX_NARROW each p k from vs values.old →
        IsRestoredTo MAX_NARROW each p (k + 1) (from + count) vs values.new }
    ensures stopped { result ≡ false → (each : ℕ) (p : Part) (vs : List ℤ)
        → IsBand matrix.now qindex each p k count →
        IsRestoredTo MAX_NARROW each p k from vs values.old → OnePasses MAX_NARROW each p vs }
{
    let index = index_of_band(matrix, qindex, k);
    restore_part(values, from, from + count, index, is_low)
}

// The same of the three bands of a level, the first of them band k, with so many values each.
#[inline(always)]
fn restore_level(
    values: &mut [i32],
    from: usize,
    count: usize,
    k: u32,
    matrix: &Matrix,
    qindex: u32,
    is_low: bool,
) -> bool
    requires band { k + 2 < 3 * matrix.now.depth + 1 }
    requires few { k ≤ 10 }
    requires qindex { qindex ≤ 127 }
    requires inside { from + 3 * count ≤ length values.old }
    requires narrow { (j : ℕ) → from ≤ j
        → unsigned_abs (slice_index_or values.old j (pos 0)) ≤ MAX_NARROW }
    requires low { is_low ≡ true → (i : ℕ) → i ≤ qindex → AreLow from values.old i }
    ensures more { result ≡ true → (each : ℕ) (p : Part) (vs : List ℤ)
        → AreBands matrix.now qindex each p k count →
        IsRestoredTo MAX_NARROW each p k from vs values.old →
        IsRestoredTo MAX_NARROW each p (k + 3) (from + 3 * count) vs values.new }
    ensures stopped { result ≡ false → (each : ℕ) (p : Part) (vs : List ℤ)
        → AreBands matrix.now qindex each p k count →
        IsRestoredTo MAX_NARROW each p k from vs values.old → OnePasses MAX_NARROW each p vs }
{
    if !restore_band(values, from, count, k, matrix, qindex, is_low) {
        return false;
    }
    let second = from + count;
    if !restore_band(values, second, count, k + 1, matrix, qindex, is_low) {
        return false;
    }
    restore_band(values, second + count, count, k + 2, matrix, qindex, is_low)
}

// Dequantises the values of a slice in one component, or of two that take them in turn: so many a place. It answers
// false where a magnitude passes 2^18.
fn restore_block(values: &mut [i32], each: usize, job: PartJob<'_>) -> bool
    requires few { each ≤ 2 }
    requires job { IsPartJob job }
    requires count { length values.old ≡ each * places_of (part_in job) }
    requires narrow { (k : ℕ) → unsigned_abs (slice_index_or values.old k (pos 0)) ≤ MAX_NARROW }
    ensures within { StayWithin MAX_NARROW result (restored_at values.old
        (all_quantisers each (part_in job.entry))) 0 (length values.old) }
    ensures values { result ≡ true → (k : ℕ)
        → k < length values.old → slice_index_or values.new k (pos 0)
        ≡ restored_at values.old (all_quantisers each (part_in job.entry)) k }
{
    let is_low = are_low(values, job.place.qindex);
    let mut from = each * area_of(job.rects[0]);
    if !restore_band(values, 0, from, 0, job.matrix, job.place.qindex, is_low) {
        return false;
    }
    for level in 0..job.layout.depth() {
        let count = each * area_of(job.rects[level as usize + 1]);
        let k = 3 * level + 1;
        if !restore_level(values, from, count, k, job.matrix, job.place.qindex, is_low) {
            return false;
        }
        from += 3 * count;
    }
    true
}

// Reads the values of a slice in one component, or of two that take them in turn, dequantised, into the front of a
// buffer. It answers false where a magnitude passes 2^18.
pub fn read_values(
    block: &Block<'_>,
    codes: &CodeTable,
    buffer: &mut [i32],
    count: usize,
    each: usize,
    job: PartJob<'_>,
) -> bool
    requires few { each ≤ 2 }
    requires job { IsPartJob job }
    requires count { count ≡ each * places_of (part_in job) }
    requires room { count + SPARE ≤ length buffer.old }
    ensures within { StayWithin MAX_NARROW result (λ k. slice_index_or
        (dealt block.now (all_quantisers each (part_in job.entry))) k (pos 0)) 0 count }
    ensures values { result ≡ true → (k : ℕ) → k < count → slice_index_or buffer.new k (pos 0)
        ≡ slice_index_or (dealt block.now (all_quantisers each (part_in job.entry))) k (pos 0) }
{
    if !block.narrow_values(codes, count, buffer) {
        return false;
    }
    restore_block(&mut buffer[..count], each, job)
}
