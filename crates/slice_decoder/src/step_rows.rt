//! How each place of a block is restored, kept for each quantisation index.
//!
//! Most bands of a slice have a few values, so a loop for each of them costs more than their arithmetic. What restores the
//! value at a place is the same in all slices of one size and index: it is made once, and then one loop restores a block.

ghost use Rattle.std.specs.Prelude.{◌≡◌, ℕ, ◌+◌, ◌^◌, ◌<◌, ◌≤◌, length, slice_index_or, pos, true, IfOk};
ghost use Rattle.bit_codes.specs.declared.TheConstants.{MAX_SHORT};
ghost use Rattle.slice_decoder.specs.Jobs.{short_part, IsShortJob};
ghost use Rattle.slice_decoder.specs.Restored.{restored_at, StayWithin};
ghost use Rattle.slice_decoder.specs.RestoredBands.{all_quantisers};
ghost use Rattle.slice_decoder.specs.StepRows.{quantisers_by, AreFew};

use crate::jobs::ShortJob;
use crate::narrow_restoring::index_of_band;
use crate::short_restoring::{Step, is_low, restore_one, step_of};
use planes::NoMemory;
use quant_factors::Matrix;
use slice_geometry::band_numbered;
use std::alloc::Global;
use std::marker::Model;

// The most places that all rows have together, unless one row alone has more.
const MOST_PLACES: usize = 32768;

// There are no more indices than these.
const MOST_ROWS: usize = 128;

/// What the steps of a block's places follow from: how many values a place of its slice has, the index of the slice, how many
/// places it has in each band of each level, and the matrix.
#[derive(Clone, Copy, PartialEq, Eq)]
pub(crate) struct StepKey {
    each: usize,
    qindex: u32,
    areas: [usize; 5],
    matrix: Matrix,
}

/// The key of a part of a slice, of whose values each place has so many.
pub(crate) fn key_of(each: usize, job: ShortJob<'_>) -> StepKey
    requires job { IsShortJob job }
    ensures quantisers { quantisers_by result ≡ all_quantisers each (short_part job.entry) }
    ensures index { result.qindex ≤ 127 }
    ensures few { AreFew result.areas }
{
    StepKey {
        each,
        qindex: job.place.qindex,
        areas: *job.areas,
        matrix: *job.matrix,
    }
}

// Writes a number at the places from one to another.
#[inline(always)]
fn put(numbers: &mut [u16], from: usize, to: usize, number: u16)
    requires order { from ≤ to }
    requires inside { to ≤ length numbers.old }
    ensures inside { (k : ℕ) → from ≤ k → k < to → slice_index_or numbers.new k 0 ≡ number }
    ensures before { (k : ℕ) → k < from
        → slice_index_or numbers.new k 0 ≡ slice_index_or numbers.old k 0 }
{
    for k in from..to {
        numbers[k] = number;
    }
}

/// The steps of a block's places, each a factor, what is added to the product and a limit. Contracts see what they follow
/// from, and how many places there is room for.
#[derive(Drop)]
struct StepRow {
    key: StepKey,
    factors: Vec<u16>,
    adds: Vec<u16>,
    limits: Vec<u16>,
}

impl Model for StepRow {
    ghost use Rattle.std.specs.Prelude.{length};
    ghost use Rattle.slice_decoder.specs.StepRows.{StepRowSeen, IsStepRow};

    ghost Value = { StepRowSeen };

    ghost view = { λ r. record { key = r.key; room = length r.factors.items } };

    ghost invariant = { λ r. IsStepRow r.key r.factors.items r.adds.items r.limits.items };
}

impl StepRow {
    // A row with room for so many places, whose key is that of no block: a place has no values.
    fn new(alloc: Global, places: usize) -> Result<StepRow, NoMemory>
        ensures { IfOk result (λ r. r.room ≡ places) }
    {
        Ok(StepRow {
            key: StepKey {
                each: 0,
                qindex: 0,
                areas: [0; 5],
                matrix: Matrix::new(0, &[0]),
            },
            factors: Vec::from_elem(alloc, 0u16, places)?,
            adds: Vec::from_elem(alloc, 0u16, places)?,
            limits: Vec::from_elem(alloc, 0u16, places)?,
        })
    }

    // Makes the steps anew, for another key.
    #[inline(never)]
    fn learn(&mut self, key: StepKey)
        requires index { key.qindex ≤ 127 }
        requires few { AreFew key.areas }
        requires room { length (quantisers_by key) ≤ self.old.room }
        ensures key { self.new.key ≡ key }
        ensures room { self.new.room ≡ self.old.room }
    {
        self.key = key;
        let mut from = 0;
        for k in 0..3 * key.matrix.depth() + 1 {
            let (level, _) = band_numbered(k);
            let to = from + key.each * key.areas[level as usize];
            let step = step_of(index_of_band(&key.matrix, key.qindex, k));
            put(&mut self.factors, from, to, step.factor);
            put(&mut self.adds, from, to, step.add);
            put(&mut self.limits, from, to, step.limit);
            from = to;
        }
    }

    // Dequantises the values of a block. It answers false where a magnitude passes 2^14 - 1: all are looked at, with no branch
    // for each.
    #[inline(always)]
    fn restore(&self, values: &mut [i16]) -> bool
        requires count { length values.old ≡ length (quantisers_by self.now.key) }
        requires room { length values.old ≤ self.now.room }
        ensures within { StayWithin MAX_SHORT result
            (restored_at values.old (quantisers_by self.now.key)) 0 (length values.old) }
        ensures values { result ≡ true → (k : ℕ) → k < length values.old →
            slice_index_or values.new k (pos 0)
            ≡ restored_at values.old (quantisers_by self.now.key) k }
    {
        let (factors, adds, limits) = (&self.factors[..], &self.adds[..], &self.limits[..]);
        let mut all = true;
        for k in 0..values.len() {
            let step = Step {
                factor: factors[k],
                add: adds[k],
                limit: limits[k],
            };
            all = all & is_low(values[k], step.limit);
            values[k] = restore_one(values[k], step);
        }
        all
    }
}

/// The steps of blocks for many indices, which share a row where there are fewer rows than indices. Contracts see how many
/// places each row has room for.
#[derive(Drop)]
pub(crate) struct StepRows {
    rows: Vec<StepRow>,
    places: usize,
}

impl Model for StepRows {
    ghost use Rattle.std.specs.Prelude.{ℕ};
    ghost use Rattle.slice_decoder.specs.StepRows.{HaveRoom};

    ghost Value = { ℕ };

    ghost view = { λ r. r.places };

    ghost invariant = { λ r. HaveRoom r.places r.rows.items };
}

impl StepRows {
    /// Rows with room for blocks of so many values.
    pub(crate) fn new(alloc: Global, places: usize) -> Result<StepRows, NoMemory>
        ensures { IfOk result (λ r. r ≡ places) }
    {
        let count = (MOST_PLACES / places.max(1)).clamp(1, MOST_ROWS);
        let mut rows = Vec::new(alloc);
        for _ in 0..count {
            rows.push(StepRow::new(alloc, places)?)?;
        }
        Ok(StepRows { rows, places })
    }

    /// Dequantises the values of a block. It answers false where a magnitude passes 2^14 - 1.
    #[inline(always)]
    pub(crate) fn restore(&mut self, key: StepKey, values: &mut [i16]) -> bool
        requires index { key.qindex ≤ 127 }
        requires few { AreFew key.areas }
        requires count { length values.old ≡ length (quantisers_by key) }
        requires room { length values.old ≤ self.old }
        ensures within { StayWithin MAX_SHORT result
            (restored_at values.old (quantisers_by key)) 0 (length values.old) }
        ensures values { result ≡ true → (k : ℕ) → k < length values.old →
            slice_index_or values.new k (pos 0) ≡ restored_at values.old (quantisers_by key) k }
        ensures places { self.new ≡ self.old }
    {
        // Slices of several sizes have rows of their own.
        let mixed = values
            .len()
            .wrapping_mul(37)
            .wrapping_add(key.qindex as usize);
        let n = mixed % self.rows.len();
        let row = &mut self.rows[n];
        if row.key != key {
            row.learn(key);
        }
        row.restore(values)
    }
}
