// The values of a block, dealt out to rows.

ghost use Rattle.bit_codes.specs.declared.TheConstants.{MAX_MAGNITUDE};
ghost use Rattle.std.specs.Prelude.{◌≡◌, ℕ, ◌+◌, ◌-◌, ◌*◌, ◌<◌, ◌≤◌, true, length, map, slice_index_or, pos, unsigned_abs};
ghost use Rattle.quant_factors.specs.Factors.{inverse_of};
ghost use Rattle.slice_decoder.specs.Slice.{are_small};
ghost use Rattle.slice_decoder.specs.Dealing.{next_values, behind_next};

use bounded_blocks::Block;
use quant_factors::{Dequantised, inverse};

// Dequantises each value. It answers false where a magnitude passes 2^36.
pub fn dequantise(values: &mut [i64], index: u32) -> bool
    requires index { index ≤ 127 }
    requires small { (k : ℕ) → unsigned_abs (slice_index_or values.old k (pos 0)) ≤ MAX_MAGNITUDE }
    ensures small { result ≡ are_small (map (λ v. inverse_of v index) values.old) }
    ensures values { result ≡ true → (k : ℕ) → k < length values.old →
        slice_index_or values.new k (pos 0)
        ≡ inverse_of (slice_index_or values.old k (pos 0)) index }
{
    for value in values.iter_mut() {
        match inverse(*value, index) {
            Dequantised::Is(restored) => *value = restored,
            Dequantised::TooLarge => return false,
        }
    }
    true
}

// Fills a row with the next values of a block, dequantised. It answers false where a magnitude passes 2^36.
pub fn fill_row(block: &mut Block<'_>, row: &mut [i64], index: u32) -> bool
    requires { index ≤ 127 }
    ensures small { result ≡ are_small (next_values block.old (length row.old) index) }
    ensures left { result ≡ true → block.new ≡ behind_next block.old (length row.old) index }
    ensures values { result ≡ true → (k : ℕ) → k < length row.old →
        slice_index_or row.new k (pos 0)
        ≡ slice_index_or (next_values block.old (length row.old) index) k (pos 0) }
{
    if !block.fill(row) {
        return false;
    }
    dequantise(row, index)
}

// Fills two rows of one length, which take the values in turn.
pub fn fill_pair(
    block: &mut Block<'_>,
    first: &mut [i64],
    second: &mut [i64],
    index: u32,
    buffer: &mut [i64],
) -> bool
    requires index { index ≤ 127 }
    requires pair { length second.old ≡ length first.old }
    requires room { 2 * length first.old ≤ length buffer.old }
    ensures small { result ≡ are_small (next_values block.old (2 * length first.old) index) }
    ensures left { result ≡ true → block.new ≡ behind_next block.old (2 * length first.old) index }
    ensures first { result ≡ true → (k : ℕ) → k < length first.old →
        slice_index_or first.new k (pos 0)
        ≡ slice_index_or (next_values block.old (2 * length first.old) index) (2 * k) (pos 0) }
    ensures second { result ≡ true → (k : ℕ) → k < length first.old →
        slice_index_or second.new k (pos 0)
        ≡ slice_index_or (next_values block.old (2 * length first.old) index) (2 * k + 1) (pos 0) }
{
    let values = &mut buffer[..2 * first.len()];
    if !fill_row(block, values, index) {
        return false;
    }
    part(values, first, second);
    true
}

// Deals values out to two rows in turn.
fn part(values: &[i64], first: &mut [i64], second: &mut [i64])
    requires pair { length second.old ≡ length first.old }
    requires count { length values.now ≡ 2 * length first.old }
    ensures first { (k : ℕ) → k < length first.old →
        slice_index_or first.new k (pos 0) ≡ slice_index_or values.now (2 * k) (pos 0) }
    ensures second { (k : ℕ) → k < length first.old →
        slice_index_or second.new k (pos 0) ≡ slice_index_or values.now (2 * k + 1) (pos 0) }
{
    for k in 0..first.len() {
        first[k] = values[2 * k];
        second[k] = values[2 * k + 1];
    }
}
