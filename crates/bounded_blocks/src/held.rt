//! The widths that a block's values are read into.

ghost use Rattle.std.specs.Prelude.{◌≡◌, ◌-◌, ◌^◌, ◌≤◌, ℕ, ℤ, unsigned_abs};
ghost use Rattle.std.proofs.Common.{lit≤};

use bit_codes::{MAX_NARROW, MAX_SHORT};

/// Numbers of a width.
pub(crate) trait Held: Copy + Drop {
    // The integer that a number stands for.
    ghost value: { Self → ℤ };

    // The greatest magnitude that is read.
    ghost most: { ℕ };

    /// That magnitude.
    fn greatest() -> u32
        ensures { result ≡ most };

    /// A value of a look-up.
    fn of_byte(v: i8) -> Self
        requires { unsigned_abs v ≤ 127 }
        ensures { value result ≡ v };

    /// A value of no greater magnitude than that.
    fn of_value(v: i64) -> Self
        requires { unsigned_abs v ≤ most }
        ensures { value result ≡ v };

    ghost byte_law: { 127 ≤ most };

    ghost small_law: { most ≤ 2 ^ 36 };
}

impl Held for i16 {
    ghost value = { λ x. x };

    ghost most = { 2 ^ 14 - 1 };

    #[inline(always)]
    fn greatest() -> u32 {
        MAX_SHORT
    }

    #[inline(always)]
    fn of_byte(v: i8) -> i16 {
        i16::from(v)
    }

    #[inline(always)]
    fn of_value(v: i64) -> i16 {
        v as i16
    }

    ghost byte_law = { lit≤ tt };

    ghost small_law = { lit≤ tt };
}

impl Held for i32 {
    ghost value = { λ x. x };

    ghost most = { 2 ^ 18 };

    #[inline(always)]
    fn greatest() -> u32 {
        MAX_NARROW
    }

    #[inline(always)]
    fn of_byte(v: i8) -> i32 {
        i32::from(v)
    }

    #[inline(always)]
    fn of_value(v: i64) -> i32 {
        v as i32
    }

    ghost byte_law = { lit≤ tt };

    ghost small_law = { lit≤ tt };
}
