//! How a quantisation index restores numbers in 16 bits.

ghost use Rattle.std.specs.Prelude.{◌≡◌, ℕ, ◌↔◌, ◌+◌, ◌*◌, ◌^◌, ◌<◌, ◌≤◌, true, unsigned_abs};
ghost use Rattle.quant_factors.specs.Factors.{inverse_of, signed};
ghost use Rattle.slice_decoder.specs.Steps.{IsStep, restored_by};

use quant_factors::{factor, offset};

// The greatest magnitude that each index restores to less than 2^14; at all later ones it is 0.
pub(crate) const LIMITS: [u16; 54] = [
    16383, 13106, 10921, 9361, 8191, 6552, 5957, 5040, 4095, 3448, 2848, 2426, 2047, 1724, 1455,
    1213, 1023, 861, 719, 606, 511, 430, 361, 304, 255, 215, 180, 151, 127, 107, 90, 75, 63, 53,
    44, 37, 31, 26, 22, 18, 15, 12, 10, 9, 7, 6, 5, 4, 3, 2, 2, 1, 1, 1,
];

// How an index restores magnitudes up to a limit: each but 0 by a factor and what is added to the product.
#[derive(Clone, Copy)]
pub(crate) struct Step {
    pub(crate) factor: u16,
    pub(crate) add: u16,
    pub(crate) limit: u16,
}

// What an index does in 16 bits.
pub(crate) fn step_of(index: u32) -> Step
    requires { index ≤ 127 }
    ensures { IsStep index result }
{
    if index >= 54 {
        return Step {
            factor: 0,
            add: 0,
            limit: 0,
        };
    }
    Step {
        factor: factor(index) as u16,
        add: offset(index) as u16 + 2,
        limit: LIMITS[index as usize],
    }
}

// m with the sign of z.
#[inline(always)]
fn with_sign(z: i16, m: u16) -> i16
    requires { m < 2 ^ 15 }
    ensures { result ≡ signed z m }
{
    if z < 0 { -(m as i16) } else { m as i16 }
}

// What a magnitude is restored to. It has no branch, so that many are restored at a time.
#[inline(always)]
fn restored(m: u16, factor: u16, add: u16) -> u16
    requires { m * factor + add < 2 ^ 16 }
    ensures value { result ≡ restored_by factor add m }
    ensures small { result < 2 ^ 14 }
{
    let add = if m == 0 { 0 } else { add };
    (m * factor + add) / 4
}

// Whether a magnitude is within the limit.
#[inline(always)]
pub(crate) fn is_low(v: i16, limit: u16) -> bool
    ensures { (result ≡ true) ↔ (unsigned_abs v ≤ limit) }
{
    v.unsigned_abs() <= limit
}

// A number restored. One past the limit is cut to it, so that the product fits.
#[inline(always)]
pub(crate) fn restore_one(v: i16, step: Step) -> i16
    requires { step.limit * step.factor + step.add < 2 ^ 16 }
    ensures { (index : ℕ) → IsStep index step → unsigned_abs v ≤ step.limit →
        result ≡ inverse_of v index }
{
    let held = v.unsigned_abs().min(step.limit);
    with_sign(v, restored(held, step.factor, step.add))
}
