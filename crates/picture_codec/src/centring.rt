//! A row of samples in 32 bits, counted from the middle of their range, and padded.

ghost use Rattle.std.specs.Prelude.{◌≡◌, ℕ, ◌-◌, ◌^◌, ◌<◌, ◌≤◌, ◌≤ℤ◌, length, slice_index_or, min, pos, ◌-ℤ◌};
ghost use Rattle.slice_geometry.specs.Shape.{IsDepth};

// Half of the numbers of so many bits.
#[tactic(auto, using(crate::proofs::Halves::half_some, crate::proofs::Halves::half_most))]
fn half_range(depth: u32) -> i32
    requires { IsDepth depth }
    ensures value { result ≡ pos (2 ^ (depth - 1)) }
    ensures some { pos 1 ≤ℤ result }
    ensures most { result ≤ℤ pos 32768 }
{
    1 << (depth - 1)
}

// A row of samples, counted from the middle of their range. What lies behind them in the row stays.
fn put_row(row: &mut [i32], samples: &[u16], half: i32)
    requires len { length samples.now ≤ length row.old }
    requires some { pos 1 ≤ℤ half }
    requires most { half ≤ℤ pos 32768 }
    ensures same_length { length row.new ≡ length row.old }
    ensures row { (x : ℕ) → x < length samples.now
        → slice_index_or row.new x (pos 0) ≡ pos (slice_index_or samples.now x 0) -ℤ half }
{
    for x in 0..samples.len() {
        row[x] = i32::from(samples[x]) - half;
    }
}

// Gives each place from w on the number of the last place before w.
fn fill_right(row: &mut [i32], w: usize)
    requires some { 1 ≤ w }
    requires inside { w ≤ length row.old }
    ensures same_length { length row.new ≡ length row.old }
    ensures filled { (x : ℕ) → x < length row.old
        → slice_index_or row.new x (pos 0) ≡ slice_index_or row.old (min x (w - 1)) (pos 0) }
{
    let last = row[w - 1];
    for x in w..row.len() {
        row[x] = last;
    }
}

/// A row of samples, counted from the middle of their range. Places behind them have the last one's number.
pub(crate) fn centre_row(samples: &[u16], depth: u32, row: &mut [i32])
    requires depth { IsDepth depth }
    requires some { 1 ≤ length samples.now }
    requires room { length samples.now ≤ length row.old }
    ensures same_length { length row.new ≡ length row.old }
    ensures values { (x : ℕ) → x < length row.old → slice_index_or row.new x (pos 0)
        ≡ pos (slice_index_or samples.now (min x (length samples.now - 1)) 0) -ℤ pos (2 ^ (depth - 1)) }
{
    put_row(row, samples, half_range(depth));
    fill_right(row, samples.len());
}
