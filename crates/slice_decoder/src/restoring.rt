// The values of a block, dequantised in place.

ghost use Rattle.bit_codes.specs.declared.TheConstants.{MAX_MAGNITUDE};
ghost use Rattle.std.specs.Prelude.{◌≡◌, ℕ, ◌+◌, ◌-◌, ◌*◌, ◌<◌, ◌≤◌, true, length, slice_index_or, pos, unsigned_abs};
ghost use Rattle.quant_factors.specs.Factors.{inverse_of};
ghost use Rattle.slice_decoder.specs.Jobs.{part_in, IsPartJob, places_of};
ghost use Rattle.slice_decoder.specs.Dealing.{dealt, StaysBeside};
ghost use Rattle.slice_decoder.specs.Slice.{are_small};
ghost use Rattle.slice_decoder.specs.RestoredBands.{all_quantisers};
ghost use Rattle.slice_decoder.specs.Restored.{restored_at, StayWithin};

use crate::components::orient_numbered;
use crate::dealing::dequantise;
use crate::jobs::PartJob;
use crate::levels::area_of;
use bounded_blocks::Block;
use slice_geometry::band_numbered;

// Dequantises the values from one place to another.
fn restore_part(values: &mut [i64], from: usize, to: usize, index: u32) -> bool
    requires index { index ≤ 127 }
    requires order { from ≤ to }
    requires inside { to ≤ length values.old }
    requires small { (k : ℕ) → from ≤ k
        → unsigned_abs (slice_index_or values.old k (pos 0)) ≤ MAX_MAGNITUDE }
    ensures small { StayWithin MAX_MAGNITUDE result
        (λ k. inverse_of (slice_index_or values.old k (pos 0)) index) from to }
    ensures inside { result ≡ true → (k : ℕ) → from ≤ k → k < to →
        slice_index_or values.new k (pos 0)
        ≡ inverse_of (slice_index_or values.old k (pos 0)) index }
    ensures outside { StaysBeside from to values.old values.new }
{
    dequantise(&mut values[from..to], index)
}

// Dequantises the values of a slice in one component, or of two that take them in turn: so many a place. It answers
// false where a magnitude passes 2^36.
pub fn restore_block(values: &mut [i64], each: usize, job: PartJob<'_>) -> bool
    requires few { each ≤ 2 }
    requires job { IsPartJob job }
    requires count { length values.old ≡ each * places_of (part_in job) }
    requires small { (k : ℕ) → unsigned_abs (slice_index_or values.old k (pos 0)) ≤ MAX_MAGNITUDE }
    ensures small { StayWithin MAX_MAGNITUDE result
        (restored_at values.old (all_quantisers each (part_in job.entry))) 0 (length values.old) }
    ensures values { result ≡ true → (k : ℕ)
        → k < length values.old → slice_index_or values.new k (pos 0)
        ≡ restored_at values.old (all_quantisers each (part_in job.entry)) k }
{
    let mut from = 0;
    for k in 0..3 * job.layout.depth() + 1 {
        let (level, orient) = band_numbered(k);
        let index = job
            .matrix
            .quantiser(job.place.qindex, level, orient_numbered(orient));
        let to = from + each * area_of(job.rects[level as usize]);
        if !restore_part(values, from, to, index) {
            return false;
        }
        from = to;
    }
    true
}

// Reads the values of a slice in one component, or of two that take them in turn, dequantised. It answers false where
// a magnitude passes 2^36.
pub fn read_values(block: &mut Block<'_>, values: &mut [i64], each: usize, job: PartJob<'_>) -> bool
    requires few { each ≤ 2 }
    requires job { IsPartJob job }
    requires count { length values.old ≡ each * places_of (part_in job) }
    ensures small { result ≡ are_small (dealt block.old (all_quantisers each (part_in job.entry))) }
    ensures values { result ≡ true → (k : ℕ)
        → k < length values.old → slice_index_or values.new k (pos 0)
        ≡ slice_index_or (dealt block.old (all_quantisers each (part_in job.entry))) k (pos 0) }
{
    if !block.fill(values) {
        return false;
    }
    restore_block(values, each, job)
}
