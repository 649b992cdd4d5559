// Numbers of 16 and of 32 bits in which magnitudes are held against limits, and counted.

ghost use Rattle.std.specs.Prelude.{◌≡◌, ℕ, ◌+◌, ◌*◌, ◌^◌, ◌<◌, ◌≤◌, ◌+ℤ◌, ◌≤ℤ◌, min, pos, unsigned_abs, int_lt, if◌then◌else◌};
ghost use Rattle.std.proofs.Common.{lit≤};
ghost use Rattle.slice_encoder.specs.Looks.{passes};

use planes::Number;

/// Numbers that magnitudes stand in, and counts of them.
pub trait Magnitude: Number {
    /// How many limits a magnitude may pass.
    const LIMITS: usize;

    ghost LIMITS: { ℕ };

    /// How many rows of limits are kept, for slices of several sizes at several indices.
    const ROWS: usize;

    ghost ROWS: { ℕ };

    /// The greatest magnitude that is looked at in these numbers.
    const TOP: u32;

    ghost TOP: { ℕ };

    // The greatest number.
    ghost greatest: { ℕ };

    /// A number, or the greatest one that there is.
    fn clipped(v: u32) -> Self
        ensures { Self.value result ≡ pos (min v greatest) };

    /// What was counted.
    fn count_of(v: Self) -> u64
        requires { Self.value v ≡ pos (unsigned_abs (Self.value v)) }
        ensures { result ≡ unsigned_abs (Self.value v) };

    /// The next number.
    fn next(v: Self) -> Self
        requires { unsigned_abs (Self.value v) < 2 ^ 14 }
        ensures { Self.value result ≡ Self.value v +ℤ pos 1 };

    /// A count, and one more where a magnitude passes a limit.
    fn counted(count: Self, size: Self, limit: Self) -> Self
        requires { unsigned_abs (Self.value count) < 2 ^ 14 }
        ensures { Self.value result
            ≡ Self.value count +ℤ pos (passes (Self.value limit) (Self.value size)) };

    /// The number where a magnitude passes a limit, and else an earlier one.
    fn later(last: Self, size: Self, limit: Self, number: Self) -> Self
        requires low { pos 0 ≤ℤ Self.value last }
        requires order { Self.value last ≤ℤ Self.value number }
        ensures { Self.value result ≡ (if int_lt (Self.value limit) (Self.value size)
            then Self.value number else Self.value last) };

    ghost one_law: { 1 ≤ greatest };

    ghost some_law: { 4 ≤ LIMITS };

    ghost few_law: { LIMITS ≤ 27 };

    ghost rows_law: { 1 ≤ ROWS };

    ghost top_law: { TOP + 1 < 2 * 2 ^ LIMITS };

    ghost near_law: { TOP ≤ 2 ^ 27 };

    ghost room_law: { TOP ≤ greatest };

    ghost greatest_law: { greatest < 2 ^ 32 };
}

impl Magnitude for i16 {
    const LIMITS: usize = 14;

    ghost LIMITS = { 14 };

    const ROWS: usize = 128;

    ghost ROWS = { 128 };

    const TOP: u32 = 16383;

    ghost TOP = { 16383 };

    ghost greatest = { 32767 };

    #[inline(always)]
    fn clipped(v: u32) -> i16 {
        v.min(32767) as i16
    }

    #[inline(always)]
    fn count_of(v: i16) -> u64 {
        v as u64
    }

    #[inline(always)]
    fn next(v: i16) -> i16 {
        v + 1
    }

    #[inline(always)]
    fn counted(count: i16, size: i16, limit: i16) -> i16 {
        count + if size > limit { 1 } else { 0 }
    }

    #[inline(always)]
    fn later(last: i16, size: i16, limit: i16, number: i16) -> i16 {
        let here = if size > limit { number } else { 0 };
        here.max(last)
    }

    ghost one_law = { lit≤ tt };

    ghost some_law = { lit≤ tt };

    ghost few_law = { lit≤ tt };

    ghost rows_law = { lit≤ tt };

    ghost top_law = { lit≤ tt };

    ghost near_law = { lit≤ tt };

    ghost room_law = { lit≤ tt };

    ghost greatest_law = { lit≤ tt };
}

impl Magnitude for i32 {
    const LIMITS: usize = 27;

    ghost LIMITS = { 27 };

    const ROWS: usize = 32;

    ghost ROWS = { 32 };

    const TOP: u32 = 134217728;

    ghost TOP = { 134217728 };

    ghost greatest = { 2147483647 };

    #[inline(always)]
    fn clipped(v: u32) -> i32 {
        v.min(2147483647) as i32
    }

    #[inline(always)]
    fn count_of(v: i32) -> u64 {
        v as u64
    }

    #[inline(always)]
    fn next(v: i32) -> i32 {
        v + 1
    }

    #[inline(always)]
    fn counted(count: i32, size: i32, limit: i32) -> i32 {
        count + if size > limit { 1 } else { 0 }
    }

    #[inline(always)]
    fn later(last: i32, size: i32, limit: i32, number: i32) -> i32 {
        let here = if size > limit { number } else { 0 };
        here.max(last)
    }

    ghost one_law = { lit≤ tt };

    ghost some_law = { lit≤ tt };

    ghost few_law = { lit≤ tt };

    ghost rows_law = { lit≤ tt };

    ghost top_law = { lit≤ tt };

    ghost near_law = { lit≤ tt };

    ghost room_law = { lit≤ tt };

    ghost greatest_law = { lit≤ tt };
}
