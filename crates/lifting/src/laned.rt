//! Blocks of 8 numbers in lanes, at each width, and the lifting steps on them.

ghost use Rattle.std.specs.Prelude.{◌≡◌, ℕ, ◌+◌, ◌<◌, ◌≤◌, ℤ, List, length, pos, ◌+ℤ◌, ◌-ℤ◌};
ghost use Rattle.std.specs.Int.{int_shr};
ghost use Rattle.planes.specs.Valued.{valued};
ghost use Rattle.lifting.specs.Lanes.{AreLanes, BlockWithin};
ghost use Rattle.lifting.specs.Places.{place};
ghost use Rattle.lifting.specs.Steps.{pair_step, haar_step, step, halved};

use crate::kernels::shifts;
use crate::{PairStep, Wavelet};
use planes::Number;
use std::simd::prelude::*;

/// How many numbers a block has.
pub(crate) const LANES: usize = 8;

/// Numbers that std has lanes of.
pub trait Laned: Number {
    /// 8 numbers.
    type Block: Copy + Drop;

    // What the lanes hold.
    ghost lanes: { Self.Block → List ℤ };

    /// The 8 numbers of a row from `at` on.
    fn load(row: &[Self], at: usize) -> Self::Block
        requires inside { at + 8 ≤ length row.now }
        requires small { BlockWithin Self.value Self.none (Self.reach + Self.reach) row.now at }
        ensures small { AreLanes (Self.reach + Self.reach) (lanes result) }
        ensures each { (i : ℕ) → i < 8
            → place (lanes result) i ≡ valued Self.value Self.none row.now (at + i) };

    /// Puts a block into a row from `at` on.
    fn store(block: Self::Block, row: &mut [Self], at: usize)
        requires inside { at + 8 ≤ length row.old }
        requires small { AreLanes (Self.reach + Self.reach) (lanes block) }
        ensures each { (i : ℕ) → i < 8
            → valued Self.value Self.none row.new (at + i) ≡ place (lanes block) i }
        ensures below { let value_at = valued Self.value Self.none in
            (j : ℕ) → j < at → value_at row.new j ≡ value_at row.old j }
        ensures above { let value_at = valued Self.value Self.none in
            (j : ℕ) → at + 8 ≤ j → value_at row.new j ≡ value_at row.old j };

    /// The sums of the lanes.
    fn sum(a: Self::Block, b: Self::Block) -> Self::Block
        requires a_small { AreLanes Self.reach (lanes a) }
        requires b_small { AreLanes Self.reach (lanes b) }
        ensures small { AreLanes (Self.reach + Self.reach) (lanes result) }
        ensures each { (i : ℕ) → i < 8
            → place (lanes result) i ≡ place (lanes a) i +ℤ place (lanes b) i };

    /// The differences of the lanes.
    fn difference(a: Self::Block, b: Self::Block) -> Self::Block
        requires a_small { AreLanes Self.reach (lanes a) }
        requires b_small { AreLanes Self.reach (lanes b) }
        ensures small { AreLanes (Self.reach + Self.reach) (lanes result) }
        ensures each { (i : ℕ) → i < 8
            → place (lanes result) i ≡ place (lanes a) i -ℤ place (lanes b) i };

    /// Half of each lane, rounded.
    fn half_of(v: Self::Block) -> Self::Block
        requires { AreLanes (Self.reach + Self.reach) (lanes v) }
        ensures small { AreLanes Self.reach (lanes result) }
        ensures each { (i : ℕ) → i < 8
            → place (lanes result) i ≡ int_shr (place (lanes v) i +ℤ pos 1) 1 };

    /// A quarter of each lane, rounded.
    fn quarter_of(v: Self::Block) -> Self::Block
        requires { AreLanes (Self.reach + Self.reach) (lanes v) }
        ensures small { AreLanes Self.reach (lanes result) }
        ensures each { (i : ℕ) → i < 8
            → place (lanes result) i ≡ int_shr (place (lanes v) i +ℤ pos 2) 2 };
}

impl Laned for i16 {
    type Block = i16x8;

    ghost lanes = { λ v. v };

    #[inline(always)]
    fn load(row: &[i16], at: usize) -> i16x8 {
        i16x8::from_slice(&row[at..])
    }

    #[inline(always)]
    fn store(block: i16x8, row: &mut [i16], at: usize) {
        block.copy_to_slice(&mut row[at..]);
    }

    #[inline(always)]
    fn sum(a: i16x8, b: i16x8) -> i16x8 {
        a + b
    }

    #[inline(always)]
    fn difference(a: i16x8, b: i16x8) -> i16x8 {
        a - b
    }

    #[inline(always)]
    fn half_of(v: i16x8) -> i16x8 {
        (v + i16x8::splat(1)) >> i16x8::splat(1)
    }

    #[inline(always)]
    fn quarter_of(v: i16x8) -> i16x8 {
        (v + i16x8::splat(2)) >> i16x8::splat(2)
    }
}

impl Laned for i32 {
    type Block = i32x8;

    ghost lanes = { λ v. v };

    #[inline(always)]
    fn load(row: &[i32], at: usize) -> i32x8 {
        i32x8::from_slice(&row[at..])
    }

    #[inline(always)]
    fn store(block: i32x8, row: &mut [i32], at: usize) {
        block.copy_to_slice(&mut row[at..]);
    }

    #[inline(always)]
    fn sum(a: i32x8, b: i32x8) -> i32x8 {
        a + b
    }

    #[inline(always)]
    fn difference(a: i32x8, b: i32x8) -> i32x8 {
        a - b
    }

    #[inline(always)]
    fn half_of(v: i32x8) -> i32x8 {
        (v + i32x8::splat(1)) >> i32x8::splat(1)
    }

    #[inline(always)]
    fn quarter_of(v: i32x8) -> i32x8 {
        (v + i32x8::splat(2)) >> i32x8::splat(2)
    }
}

impl Laned for i64 {
    type Block = i64x8;

    ghost lanes = { λ v. v };

    #[inline(always)]
    fn load(row: &[i64], at: usize) -> i64x8 {
        i64x8::from_slice(&row[at..])
    }

    #[inline(always)]
    fn store(block: i64x8, row: &mut [i64], at: usize) {
        block.copy_to_slice(&mut row[at..]);
    }

    #[inline(always)]
    fn sum(a: i64x8, b: i64x8) -> i64x8 {
        a + b
    }

    #[inline(always)]
    fn difference(a: i64x8, b: i64x8) -> i64x8 {
        a - b
    }

    #[inline(always)]
    fn half_of(v: i64x8) -> i64x8 {
        (v + i64x8::splat(1)) >> i64x8::splat(1)
    }

    #[inline(always)]
    fn quarter_of(v: i64x8) -> i64x8 {
        (v + i64x8::splat(2)) >> i64x8::splat(2)
    }
}

// The 8 numbers of a row from `at` on, for which a step has room.
#[inline(always)]
fn loaded<T: Laned>(row: &[T], at: usize) -> T::Block
    requires inside { at + 8 ≤ length row.now }
    requires small { BlockWithin T.value T.none T.reach row.now at }
    ensures small { AreLanes T.reach (T.lanes result) }
    ensures each { (i : ℕ) → i < 8
        → place (T.lanes result) i ≡ valued T.value T.none row.now (at + i) }
{
    T::load(row, at)
}

/// A step on the 8 numbers of `v` from `at` on, between those of `a` and `b`, put into `dst`.
#[inline(always)]
pub(crate) fn step_at<T: Laned>(
    dst: &mut [T],
    v: &[T],
    a: &[T],
    b: &[T],
    at: usize,
    wavelet: Wavelet,
    kind: PairStep,
)
    requires room { at + 8 ≤ length dst.old }
    requires inside { at + 8 ≤ length v.now }
    requires a_inside { at + 8 ≤ length a.now }
    requires b_inside { at + 8 ≤ length b.now }
    requires small { BlockWithin T.value T.none T.reach v.now at }
    requires a_small { BlockWithin T.value T.none T.reach a.now at }
    requires b_small { BlockWithin T.value T.none T.reach b.now at }
    ensures block { let value_at = valued T.value T.none in (i : ℕ) → i < 8
        → value_at dst.new (at + i) ≡ step wavelet kind (value_at v.now (at + i))
        (value_at a.now (at + i)) (value_at b.now (at + i)) }
    ensures below { let value_at = valued T.value T.none in
        (j : ℕ) → j < at → value_at dst.new j ≡ value_at dst.old j }
    ensures above { let value_at = valued T.value T.none in
        (j : ℕ) → at + 8 ≤ j → value_at dst.new j ≡ value_at dst.old j }
{
    let block = block_stepped::<T>(wavelet, kind, loaded(v, at), loaded(a, at), loaded(b, at));
    T::store(block, dst, at);
}

/// The same in place.
#[inline(always)]
pub(crate) fn lift_at<T: Laned>(
    dst: &mut [T],
    a: &[T],
    b: &[T],
    at: usize,
    wavelet: Wavelet,
    kind: PairStep,
)
    requires inside { at + 8 ≤ length dst.old }
    requires a_inside { at + 8 ≤ length a.now }
    requires b_inside { at + 8 ≤ length b.now }
    requires small { BlockWithin T.value T.none T.reach dst.old at }
    requires a_small { BlockWithin T.value T.none T.reach a.now at }
    requires b_small { BlockWithin T.value T.none T.reach b.now at }
    ensures block { let value_at = valued T.value T.none in (i : ℕ) → i < 8
        → value_at dst.new (at + i) ≡ step wavelet kind (value_at dst.old (at + i))
        (value_at a.now (at + i)) (value_at b.now (at + i)) }
    ensures below { let value_at = valued T.value T.none in
        (j : ℕ) → j < at → value_at dst.new j ≡ value_at dst.old j }
    ensures above { let value_at = valued T.value T.none in
        (j : ℕ) → at + 8 ≤ j → value_at dst.new j ≡ value_at dst.old j }
{
    let block = block_stepped::<T>(wavelet, kind, loaded(dst, at), loaded(a, at), loaded(b, at));
    T::store(block, dst, at);
}

/// The halves of the 8 numbers of a row from `at` on, rounded.
#[inline(always)]
pub(crate) fn halve_at<T: Laned>(row: &mut [T], at: usize)
    requires inside { at + 8 ≤ length row.old }
    requires small { BlockWithin T.value T.none (T.reach + T.reach) row.old at }
    ensures block { let value_at = valued T.value T.none in (i : ℕ) → i < 8
        → value_at row.new (at + i) ≡ int_shr (value_at row.old (at + i) +ℤ pos 1) 1 }
    ensures below { let value_at = valued T.value T.none in
        (j : ℕ) → j < at → value_at row.new j ≡ value_at row.old j }
    ensures above { let value_at = valued T.value T.none in
        (j : ℕ) → at + 8 ≤ j → value_at row.new j ≡ value_at row.old j }
{
    T::store(T::half_of(T::load(row, at)), row, at);
}

/// A wavelet's step on each lane.
#[inline(always)]
#[tactic(auto, unfolding(crate::specs::Steps::step))]
pub(crate) fn block_stepped<T: Laned>(
    wavelet: Wavelet,
    kind: PairStep,
    v: T::Block,
    a: T::Block,
    b: T::Block,
) -> T::Block
    requires v_small { AreLanes T.reach (T.lanes v) }
    requires a_small { AreLanes T.reach (T.lanes a) }
    requires b_small { AreLanes T.reach (T.lanes b) }
    ensures small { AreLanes (T.reach + T.reach) (T.lanes result) }
    ensures each { (i : ℕ) → i < 8 → place (T.lanes result) i
        ≡ step wavelet kind (place (T.lanes v) i) (place (T.lanes a) i) (place (T.lanes b) i) }
{
    match wavelet {
        Wavelet::LeGall => pair_block::<T>(v, a, b, kind),
        Wavelet::HaarFlat => haar_block::<T>(v, a, b, kind),
        Wavelet::HaarShift => haar_block::<T>(v, a, b, kind),
    }
}

#[inline(always)]
#[tactic(auto, unfolding(crate::specs::Steps::haar_step, crate::specs::Steps::one_step))]
fn haar_block<T: Laned>(v: T::Block, a: T::Block, b: T::Block, step: PairStep) -> T::Block
    requires v_small { AreLanes T.reach (T.lanes v) }
    requires a_small { AreLanes T.reach (T.lanes a) }
    requires b_small { AreLanes T.reach (T.lanes b) }
    ensures small { AreLanes (T.reach + T.reach) (T.lanes result) }
    ensures each { (i : ℕ) → i < 8 → place (T.lanes result) i
        ≡ haar_step step (place (T.lanes v) i) (place (T.lanes a) i) (place (T.lanes b) i) }
{
    match step {
        PairStep::EvenDown => T::difference(v, T::half_of(b)),
        PairStep::OddUp => T::sum(v, a),
        PairStep::EvenUp => T::sum(v, T::half_of(b)),
        PairStep::OddDown => T::difference(v, a),
    }
}

#[inline(always)]
#[tactic(auto, unfolding(crate::specs::Steps::pair_step))]
fn pair_block<T: Laned>(v: T::Block, a: T::Block, b: T::Block, step: PairStep) -> T::Block
    requires v_small { AreLanes T.reach (T.lanes v) }
    requires a_small { AreLanes T.reach (T.lanes a) }
    requires b_small { AreLanes T.reach (T.lanes b) }
    ensures small { AreLanes (T.reach + T.reach) (T.lanes result) }
    ensures each { (i : ℕ) → i < 8 → place (T.lanes result) i
        ≡ pair_step step (place (T.lanes v) i) (place (T.lanes a) i) (place (T.lanes b) i) }
{
    match step {
        PairStep::EvenDown => T::difference(v, T::quarter_of(T::sum(a, b))),
        PairStep::OddUp => T::sum(v, T::half_of(T::sum(a, b))),
        PairStep::EvenUp => T::sum(v, T::quarter_of(T::sum(a, b))),
        PairStep::OddDown => T::difference(v, T::half_of(T::sum(a, b))),
    }
}
