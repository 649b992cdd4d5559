// What values need, by the length of their codes up to the last one that isn't 0.

ghost use Rattle.bit_codes.specs.declared.TheConstants.{MAX_MAGNITUDE};
ghost use Rattle.std.specs.Prelude.{◌≡◌, ◌≢◌, ℤ, ◌+◌, ◌-◌, ◌*◌, ◌^◌, ◌<◌, ◌≤◌, List, [], ◌∷◌, ◌++◌, get_or, length, pos, slice_index_or, take, unsigned_abs};
ghost use Rattle.bit_codes.specs.Codes.{signed_code_of};
ghost use Rattle.bounded_blocks.specs.Writing.{codes_of, need};
ghost use Rattle.slice_encoder.specs.Gathering.{reach};
ghost use Rattle.slice_encoder.specs.Looks.{IsLook, IsFew};
ghost use Rattle.slice_encoder.specs.TrialLaws.{AreSmallValues};

use crate::looks::Look;
use crate::short_texts::short_text;
use bit_codes::sint_len;
use bounded_blocks::Need;

/// How many values there are up to the last one that isn't 0.
pub fn count_to_last(values: &[i64]) -> usize
    requires { AreSmallValues values.now }
    ensures most { result ≤ length values.now }
    ensures need { need (take result values.now) ≡ need values.now }
    ensures reach { reach (take result values.now) 0 ≡ reach values.now 0 }
    ensures last { 0 < result → slice_index_or values.now (result - 1) (pos 0) ≢ pos 0 }
{
    for passed in 0..values.len() {
        let count = values.len() - passed;
        if values[count - 1] != 0 {
            return count;
        }
    }
    0
}

// How long the code of a value is, by counting. This stays out of the loop that looks lengths up.
#[inline(never)]
fn counted_length(v: i64) -> u32
    requires { unsigned_abs v ≤ MAX_MAGNITUDE }
    ensures { result ≡ length (signed_code_of v) }
{
    sint_len(v)
}

// The same, by a look-up for small values.
#[inline(always)]
fn length_of(v: i64) -> u32
    requires { unsigned_abs v ≤ MAX_MAGNITUDE }
    ensures { result ≡ length (signed_code_of v) }
{
    if -32 < v && v < 32 {
        short_text(v).length
    } else {
        counted_length(v)
    }
}

/// How long the codes of values are.
pub fn total_length(values: &[i64]) -> u64
    requires few { length values.now ≤ 2 ^ 32 }
    requires small { AreSmallValues values.now }
    ensures length { result ≡ length (codes_of values.now) }
    ensures few { result ≤ 75 * 2 ^ 32 }
{
    let mut bits = 0;
    for value in values {
        bits += u64::from(length_of(*value));
    }
    bits
}

// The need of values.
pub fn need_of_values(values: &[i64]) -> u64
    requires few { length values.now ≤ 2 ^ 32 }
    requires small { AreSmallValues values.now }
    ensures { result ≡ need values.now }
{
    let count = count_to_last(values);
    if count == 0 {
        return 0;
    }
    let front = total_length(&values[..count - 1]);
    front + Need::of(&values[count - 1..count]).bits()
}

// How many bits of a value's code aren't needed where it is the last: the ones at its end.
fn bits_not_needed(last: i32) -> u64
    ensures { result + need (last ∷ []) ≡ length (codes_of (last ∷ [])) }
{
    let code = [i64::from(last)];
    total_length(&code) - Need::of(&code).bits()
}

/// The need of values, by those in front, a look at the others, and the last of these that isn't 0.
pub fn need_by_look(front: &[i64], look: Look, last: i32) -> u64
    requires few { length front.now ≤ 2 ^ 32 }
    requires small { AreSmallValues front.now }
    requires look { IsFew look }
    ensures { (behind : List ℤ) → IsLook look behind
        → (0 < look.last → last ≡ get_or behind (look.last - 1) (pos 0))
        → result ≡ need (front.now ++ behind) }
{
    if look.last == 0 {
        return need_of_values(front);
    }
    let bits = total_length(front) + look.reach();
    bits.saturating_sub(bits_not_needed(last))
}
