//! Signed numbers of 16, 32 and 64 bits, under one name.

ghost use Rattle.std.specs.Prelude.{◌≡◌, ℕ, ◌+◌, ◌-◌, ◌^◌, ◌≤◌, ◌+ℤ◌, ◌-ℤ◌, ℤ, pos, FitsSigned, replicate, IfOk};
ghost use Rattle.std.specs.Int.{int_shr, w16, w32, w64};
ghost use Rattle.std.proofs.Common.{refl, lit≤};
ghost use Rattle.planes.specs.Numbers.{Within};
ghost use Rattle.planes.specs.Rooms.{short_fits, narrow_fits, wide_fits, short_shifts, narrow_shifts, wide_shifts};

use std::alloc::{AllocError, Global};
use std::ops::{Add, Shr, Sub};

/// A signed integer type.
pub trait Number: Copy
    + Drop
    + Add<Self, Output = Self>
    + Sub<Self, Output = Self>
    + Shr<u32, Output = Self> {
    // The integer that a value stands for.
    ghost value: { Self → ℤ };

    // The value of 0.
    ghost none: { Self };

    // Whether the type has this integer.
    ghost fits: { ℤ → Type 0 };

    // The greatest magnitude that a step takes: sums of two such numbers, and 2 more, fit.
    ghost reach: { ℕ };

    /// The number 1.
    fn one() -> Self
        ensures { value result ≡ pos 1 };

    /// The number 2.
    fn two() -> Self
        ensures { value result ≡ pos 2 };

    /// So many zeros. The error is want of memory alone.
    fn zeros(alloc: Global, count: usize) -> Result<Vec<Self>, AllocError>
        ensures { IfOk result (λ v. v.items ≡ replicate count none) };

    ghost some_law: { 1 ≤ reach };

    ghost none_law: { value none ≡ pos 0 };

    ghost fits_law: { (z : ℤ) → Within (reach + reach + 2) z → fits z };

    ghost can_add_law: { (a b : Self) → fits (value a +ℤ value b) → Self.can_add a b };

    ghost add_law: { (a b r : Self) → Self.add_gives a b r → fits (value a +ℤ value b) → value r ≡ value a +ℤ value b };

    ghost can_sub_law: { (a b : Self) → fits (value a -ℤ value b) → Self.can_sub a b };

    ghost sub_law: { (a b r : Self) → Self.sub_gives a b r → fits (value a -ℤ value b) → value r ≡ value a -ℤ value b };

    ghost can_shr_law: { (a : Self) (k : ℕ) → k ≤ 2 → Self.can_shr a k };

    ghost shr_law: { (a : Self) (k : ℕ) (r : Self) → k ≤ 2 → Self.shr_gives a k r → value r ≡ int_shr (value a) k };
}

impl Number for i16 {
    ghost value = { λ x. x };

    ghost none = { pos 0 };

    ghost fits = { λ z. FitsSigned w16 z };

    ghost reach = { 2 ^ 14 - 2 };

    #[inline(always)]
    fn one() -> i16 {
        1
    }

    #[inline(always)]
    fn two() -> i16 {
        2
    }

    #[inline(always)]
    fn zeros(alloc: Global, count: usize) -> Result<Vec<i16>, AllocError> {
        Vec::from_elem(alloc, 0i16, count)
    }

    ghost some_law = { lit≤ tt };

    ghost none_law = { refl };

    ghost fits_law = { short_fits };

    ghost can_add_law = { λ a b h. h };

    ghost add_law = { λ a b r h _. h };

    ghost can_sub_law = { λ a b h. h };

    ghost sub_law = { λ a b r h _. h };

    ghost can_shr_law = { λ a k h. short_shifts k h };

    ghost shr_law = { λ a k r _ h. h };
}

impl Number for i32 {
    ghost value = { λ x. x };

    ghost none = { pos 0 };

    ghost fits = { λ z. FitsSigned w32 z };

    ghost reach = { 2 ^ 29 };

    #[inline(always)]
    fn one() -> i32 {
        1
    }

    #[inline(always)]
    fn two() -> i32 {
        2
    }

    #[inline(always)]
    fn zeros(alloc: Global, count: usize) -> Result<Vec<i32>, AllocError> {
        Vec::from_elem(alloc, 0i32, count)
    }

    ghost some_law = { lit≤ tt };

    ghost none_law = { refl };

    ghost fits_law = { narrow_fits };

    ghost can_add_law = { λ a b h. h };

    ghost add_law = { λ a b r h _. h };

    ghost can_sub_law = { λ a b h. h };

    ghost sub_law = { λ a b r h _. h };

    ghost can_shr_law = { λ a k h. narrow_shifts k h };

    ghost shr_law = { λ a k r _ h. h };
}

impl Number for i64 {
    ghost value = { λ x. x };

    ghost none = { pos 0 };

    ghost fits = { λ z. FitsSigned w64 z };

    ghost reach = { 2 ^ 61 };

    #[inline(always)]
    fn one() -> i64 {
        1
    }

    #[inline(always)]
    fn two() -> i64 {
        2
    }

    #[inline(always)]
    fn zeros(alloc: Global, count: usize) -> Result<Vec<i64>, AllocError> {
        Vec::from_elem(alloc, 0i64, count)
    }

    ghost some_law = { lit≤ tt };

    ghost none_law = { refl };

    ghost fits_law = { wide_fits };

    ghost can_add_law = { λ a b h. h };

    ghost add_law = { λ a b r h _. h };

    ghost can_sub_law = { λ a b h. h };

    ghost sub_law = { λ a b r h _. h };

    ghost can_shr_law = { λ a k h. wide_shifts k h };

    ghost shr_law = { λ a k r _ h. h };
}
