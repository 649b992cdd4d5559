//! The samples of a row: lifted, shifted, clipped, offset, and woven of its halves.

ghost use Rattle.std.specs.Prelude.{◌≡◌, ℕ, ◌+◌, ◌-◌, ◌*◌, ◌/◌, ◌^◌, ◌<◌, ◌≤◌, length, slice_index_or, ◌%◌, ◌==◌, if◌then◌else◌, pos, neg_ℤ, ◌-ℤ◌, ◌≤ℤ◌};
ghost use Rattle.std.specs.Int.{int_min, int_max};
ghost use Rattle.std.proofs.Common.{lit≤};
ghost use Rattle.planes.specs.Numbers.{Within};
ghost use Rattle.planes.specs.Valued.{valued, EachValued};
ghost use Rattle.lifting.specs.Lanes.{AreLanes, BlockWithin};
ghost use Rattle.lifting.specs.Places.{place, woven};
ghost use Rattle.lifting.specs.Steps.{halved};
ghost use Rattle.lifting.specs.Lines.{synthesis_line};
ghost use Rattle.lifting.specs.Fits.{LineFits};
ghost use Rattle.lifting.specs.Clipping.{sample_of, clipped_up};
ghost use Rattle.lifting.specs.LowerSamples.{rounded};

use crate::halves::{lift_even_half, lift_odd_half};
use crate::kernels::{shifted, shifts};
use crate::laned::{LANES, Laned};
use crate::{PairStep, Wavelet};
use std::simd::prelude::*;

/// Numbers that become samples.
pub trait Sampled: Laned {
    // The most bits of a sample.
    ghost depths: { ℕ };

    ghost some_depths_law: { 4 ≤ depths };

    /// Half of the numbers of so many bits.
    fn half_range(depth: u32) -> Self
        requires some { 1 ≤ depth }
        requires most { depth ≤ depths }
        ensures { Self.value result ≡ pos (2 ^ (depth - 1)) };

    /// The nearest number from -half to half - 1.
    fn clip(v: Self, half: Self) -> Self
        requires some { pos 1 ≤ℤ Self.value half }
        requires most { Self.value half ≤ℤ pos (2 ^ (depths - 1)) }
        ensures { Self.value result
            ≡ int_max (neg_ℤ (Self.value half))
            (int_min (Self.value half -ℤ pos 1) (Self.value v)) };

    /// The same, counted from the lowest of them.
    fn offset(v: Self, half: Self) -> u16
        requires some { pos 1 ≤ℤ Self.value half }
        requires most { Self.value half ≤ℤ pos (2 ^ (depths - 1)) }
        ensures { pos result ≡ clipped_up (Self.value half) (Self.value v) };

    /// The same of each lane.
    fn offset_block(v: Self::Block, half: Self) -> u16x8
        requires some { pos 1 ≤ℤ Self.value half }
        requires most { Self.value half ≤ℤ pos (2 ^ (depths - 1)) }
        requires small { AreLanes (Self.reach + Self.reach) (Self.lanes v) }
        ensures count { length result ≡ 8 }
        ensures each { (i : ℕ) → i < 8 → pos (slice_index_or result i 0)
            ≡ clipped_up (Self.value half) (place (Self.lanes v) i) };

    /// A number over 2^shift, rounded, where half of that is `half`.
    fn rounded(v: Self, half: Self, shift: u32) -> Self
        requires some { 1 ≤ shift }
        requires few { shift ≤ 4 }
        requires half { Self.value half ≡ pos (2 ^ (shift - 1)) }
        requires small { Within Self.reach (Self.value v) }
        ensures { Self.value result ≡ rounded shift (Self.value v) };
}

impl Sampled for i16 {
    ghost depths = { 15 };

    ghost some_depths_law = { lit≤ tt };

    #[inline(always)]
    #[tactic(auto, using(crate::proofs::SampleRows::half_most))]
    fn half_range(depth: u32) -> i16 {
        1 << (depth - 1)
    }

    #[inline(always)]
    fn clip(v: i16, half: i16) -> i16 {
        let most = half - 1;
        let v = if most < v { most } else { v };
        if v < -half { -half } else { v }
    }

    #[inline(always)]
    fn offset(v: i16, half: i16) -> u16 {
        (i16::clip(v, half) + half) as u16
    }

    #[inline(always)]
    fn offset_block(v: i16x8, half: i16) -> u16x8 {
        let (low, high) = (i16x8::splat(-half), i16x8::splat(half - 1));
        (v.simd_min(high).simd_max(low) + i16x8::splat(half)).cast::<u16>()
    }

    #[inline(always)]
    fn rounded(v: i16, half: i16, shift: u32) -> i16 {
        (v + half) >> shift
    }
}

impl Sampled for i32 {
    ghost depths = { 16 };

    ghost some_depths_law = { lit≤ tt };

    #[inline(always)]
    fn half_range(depth: u32) -> i32 {
        1 << (depth - 1)
    }

    #[inline(always)]
    fn clip(v: i32, half: i32) -> i32 {
        let most = half - 1;
        let v = if most < v { most } else { v };
        if v < -half { -half } else { v }
    }

    #[inline(always)]
    fn offset(v: i32, half: i32) -> u16 {
        (i32::clip(v, half) + half) as u16
    }

    #[inline(always)]
    fn offset_block(v: i32x8, half: i32) -> u16x8 {
        let (low, high) = (i32x8::splat(-half), i32x8::splat(half - 1));
        (v.simd_min(high).simd_max(low) + i32x8::splat(half)).cast::<u16>()
    }

    #[inline(always)]
    fn rounded(v: i32, half: i32, shift: u32) -> i32 {
        (v + half) >> shift
    }
}

impl Sampled for i64 {
    ghost depths = { 16 };

    ghost some_depths_law = { lit≤ tt };

    #[inline(always)]
    fn half_range(depth: u32) -> i64 {
        1 << (depth - 1)
    }

    #[inline(always)]
    fn clip(v: i64, half: i64) -> i64 {
        let most = half - 1;
        let v = if most < v { most } else { v };
        if v < -half { -half } else { v }
    }

    #[inline(always)]
    fn offset(v: i64, half: i64) -> u16 {
        (i64::clip(v, half) + half) as u16
    }

    #[inline(always)]
    fn offset_block(v: i64x8, half: i64) -> u16x8 {
        let (low, high) = (i64x8::splat(-half), i64x8::splat(half - 1));
        (v.simd_min(high).simd_max(low) + i64x8::splat(half)).cast::<u16>()
    }

    #[inline(always)]
    fn rounded(v: i64, half: i64, shift: u32) -> i64 {
        (v + half) >> shift
    }
}

// The sample of a lifted number.
#[inline(always)]
fn sample<T: Sampled>(v: T, wavelet: Wavelet, half: T) -> u16
    requires small { Within (T.reach + T.reach) (T.value v) }
    requires some { pos 1 ≤ℤ T.value half }
    requires most { T.value half ≤ℤ pos (2 ^ (T.depths - 1)) }
    ensures { pos result ≡ clipped_up (T.value half) (halved wavelet (T.value v)) }
{
    T::offset(shifted(v, wavelet), half)
}

/// The samples of the first numbers of a band's row.
#[tactic(auto, using(crate::proofs::SampleRows::half_some, crate::proofs::SampleRows::half_most))]
pub(crate) fn sample_band<T: Sampled>(dst: &mut [u16], row: &[T], depth: u32)
    requires some_bits { 1 ≤ depth }
    requires bits { depth ≤ T.depths }
    requires room { length dst.old ≤ length row.now }
    ensures { (i : ℕ) → i < length dst.old → slice_index_or dst.new i 0
        ≡ sample_of depth (valued T.value T.none row.now i) }
{
    let half = T::half_range(depth);
    for i in 0..dst.len() {
        dst[i] = T::offset(row[i], half);
    }
}

// 8 samples of even places and 8 of odd ones, woven, into a row from `at` on.
#[inline(always)]
fn put_woven(dst: &mut [u16], at: usize, even: u16x8, odd: u16x8)
    requires inside { at + 16 ≤ length dst.old }
    requires even_count { length even ≡ 8 }
    requires odd_count { length odd ≡ 8 }
    ensures block { (i : ℕ) → i < 16 → slice_index_or dst.new (at + i) 0
        ≡ (if i % 2 == 0 then slice_index_or even (i / 2) 0 else slice_index_or odd (i / 2) 0) }
    ensures below { (j : ℕ) → j < at → slice_index_or dst.new j 0 ≡ slice_index_or dst.old j 0 }
{
    let (low, high) = even.interleave(odd);
    low.copy_to_slice(&mut dst[at..]);
    high.copy_to_slice(&mut dst[at + 8..]);
}

// A level's last step of synthesis on each lane.
#[inline(always)]
fn block_shifted<T: Laned>(v: T::Block, wavelet: Wavelet) -> T::Block
    requires { AreLanes (T.reach + T.reach) (T.lanes v) }
    ensures small { AreLanes (T.reach + T.reach) (T.lanes result) }
    ensures each { (i : ℕ) → i < 8
        → place (T.lanes result) i ≡ halved wavelet (place (T.lanes v) i) }
{
    if shifts(wavelet) { T::half_of(v) } else { v }
}

// The samples of the 8 even and the 8 odd places from `at` on.
#[inline(always)]
fn weave_block<T: Sampled>(
    dst: &mut [u16],
    even: &[T],
    odd: &[T],
    at: usize,
    wavelet: Wavelet,
    half: T,
)
    requires some { pos 1 ≤ℤ T.value half }
    requires most { T.value half ≤ℤ pos (2 ^ (T.depths - 1)) }
    requires short { length even.now ≤ 8208 }
    requires inside { at + 8 ≤ length even.now }
    requires odd_inside { at + 8 ≤ length odd.now }
    requires room { 2 * at + 16 ≤ length dst.old }
    requires even_small { BlockWithin T.value T.none (T.reach + T.reach) even.now at }
    requires odd_small { BlockWithin T.value T.none (T.reach + T.reach) odd.now at }
    ensures block { let value_at = valued T.value T.none in
        (i : ℕ) → i < 16 → pos (slice_index_or dst.new (2 * at + i) 0)
        ≡ clipped_up (T.value half)
        (halved wavelet (woven (value_at even.now) (value_at odd.now) (2 * at + i))) }
    ensures below { (j : ℕ) → j < 2 * at
        → slice_index_or dst.new j 0 ≡ slice_index_or dst.old j 0 }
{
    let evens = T::offset_block(block_shifted::<T>(T::load(even, at), wavelet), half);
    let odds = T::offset_block(block_shifted::<T>(T::load(odd, at), wavelet), half);
    put_woven(dst, 2 * at, evens, odds);
}

// The first pairs of samples of the even and the odd places.
#[inline(always)]
fn weave_each<T: Sampled>(
    dst: &mut [u16],
    even: &[T],
    odd: &[T],
    count: usize,
    wavelet: Wavelet,
    half: T,
)
    requires some { pos 1 ≤ℤ T.value half }
    requires most { T.value half ≤ℤ pos (2 ^ (T.depths - 1)) }
    requires short { length even.now ≤ 8208 }
    requires same_len { length odd.now ≡ length even.now }
    requires room { 2 * count ≤ length dst.old }
    requires inside { count ≤ length even.now }
    requires even_small { EachValued T.value T.none (T.reach + T.reach) even.now }
    requires odd_small { EachValued T.value T.none (T.reach + T.reach) odd.now }
    ensures { let at = valued T.value T.none in
        (i : ℕ) → i < 2 * count → pos (slice_index_or dst.new i 0)
        ≡ clipped_up (T.value half)
        (halved wavelet (woven (at even.now) (at odd.now) i)) }
{
    let mut at = 0;
    while LANES <= count - at {
        weave_block(dst, even, odd, at, wavelet, half);
        at += LANES;
    }
    for k in at..count {
        dst[2 * k] = sample(even[k], wavelet, half);
        dst[2 * k + 1] = sample(odd[k], wavelet, half);
    }
}

// The same, with a loop for each wavelet by itself, so that no turn of it asks which wavelet it is.
fn weave_pairs<T: Sampled>(
    dst: &mut [u16],
    even: &[T],
    odd: &[T],
    count: usize,
    wavelet: Wavelet,
    half: T,
)
    requires some { pos 1 ≤ℤ T.value half }
    requires most { T.value half ≤ℤ pos (2 ^ (T.depths - 1)) }
    requires short { length even.now ≤ 8208 }
    requires same_len { length odd.now ≡ length even.now }
    requires room { 2 * count ≤ length dst.old }
    requires inside { count ≤ length even.now }
    requires even_small { EachValued T.value T.none (T.reach + T.reach) even.now }
    requires odd_small { EachValued T.value T.none (T.reach + T.reach) odd.now }
    ensures { let at = valued T.value T.none in
        (i : ℕ) → i < 2 * count → pos (slice_index_or dst.new i 0)
        ≡ clipped_up (T.value half)
        (halved wavelet (woven (at even.now) (at odd.now) i)) }
{
    match wavelet {
        Wavelet::LeGall => weave_each(dst, even, odd, count, Wavelet::LeGall, half),
        Wavelet::HaarFlat => weave_each(dst, even, odd, count, Wavelet::HaarFlat, half),
        Wavelet::HaarShift => weave_each(dst, even, odd, count, Wavelet::HaarShift, half),
    }
}

// The samples of the even and the odd places, as many as there is room for.
#[tactic(auto, using(crate::proofs::SampleRows::half_some, crate::proofs::SampleRows::half_most))]
fn weave_samples<T: Sampled>(dst: &mut [u16], even: &[T], odd: &[T], wavelet: Wavelet, depth: u32)
    requires some_bits { 1 ≤ depth }
    requires bits { depth ≤ T.depths }
    requires short { length even.now ≤ 8208 }
    requires same_len { length odd.now ≡ length even.now }
    requires room { length dst.old ≤ 2 * length even.now }
    requires even_small { EachValued T.value T.none (T.reach + T.reach) even.now }
    requires odd_small { EachValued T.value T.none (T.reach + T.reach) odd.now }
    ensures { let at = valued T.value T.none in
        (i : ℕ) → i < length dst.old → slice_index_or dst.new i 0
        ≡ sample_of depth (halved wavelet (woven (at even.now) (at odd.now) i)) }
{
    let half = T::half_range(depth);
    let (n, count) = (dst.len(), dst.len() / 2);
    weave_pairs(dst, even, odd, count, wavelet, half);
    if n > 2 * count {
        dst[2 * count] = sample(even[count], wavelet, half);
    }
}

/// The samples of a line of a level from a row that holds its even places in the first w and its odd ones in the w behind
/// them. The row holds any values afterwards.
pub(crate) fn sample_sides<T: Sampled>(
    dst: &mut [u16],
    row: &mut [T],
    w: usize,
    wavelet: Wavelet,
    depth: u32,
)
    requires some_bits { 1 ≤ depth }
    requires bits { depth ≤ T.depths }
    requires some { 1 ≤ w }
    requires short { w ≤ 4104 }
    requires inside { 2 * w ≤ length row.old }
    requires room { length dst.old ≤ 2 * w }
    requires has_room { let at = valued T.value T.none in
        LineFits wavelet (2 * w) T.reach (woven (at row.old) (λ j. at row.old (w + j))) }
    ensures { let at = valued T.value T.none in
        (i : ℕ) → i < length dst.old → slice_index_or dst.new i 0
        ≡ sample_of depth (halved wavelet
        (synthesis_line wavelet (2 * w) (woven (at row.old) (λ j. at row.old (w + j))) i)) }
{
    let (even, rest) = row.split_at_mut(w);
    let odd = &mut rest[..w];
    lift_even_half(even, odd, wavelet, PairStep::EvenDown);
    lift_odd_half(odd, even, wavelet, PairStep::OddUp);
    weave_samples(dst, even, odd, wavelet, depth);
}
