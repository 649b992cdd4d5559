//! What prediction computes at each width: the mean of three numbers, and whether a restored value is kept.

ghost use Rattle.std.specs.Prelude.{◌≡◌, ℕ, ◌+◌, ◌*◌, ◌^◌, ◌≤◌, ◌↔◌, ◌+ℤ◌, ℤ, pos, true};
ghost use Rattle.std.proofs.Common.{lit≤};
ghost use Rattle.bit_codes.specs.declared.TheConstants.{MAX_MAGNITUDE};
ghost use Rattle.planes.specs.Numbers.{Within};
ghost use Rattle.dc_prediction.specs.Prediction.{mean};
ghost use Rattle.dc_prediction.specs.Restoring.{IsNarrow};
ghost use Rattle.dc_prediction.specs.AnyWidth.{IsAny};
ghost use Rattle.dc_prediction.specs.Grows.{narrow_grows, wide_grows, wide_rises};

use bit_codes::MAX_NARROW;
use planes::Number;

// The greatest magnitude of a narrow band's numbers.
const MOST: i32 = MAX_NARROW as i32;

/// Numbers of a band that is restored.
pub trait Predicted: Number {
    // The greatest magnitude of a residual.
    ghost most: { ℕ };

    // The greatest magnitude of a restored value whose row and column add up to less than that.
    ghost limit: { ℕ → ℕ };

    // Whether a restored value is kept.
    ghost keeps: { ℤ → Type 0 };

    /// The number 0.
    fn zero() -> Self
        ensures { Self.value result ≡ pos 0 };

    /// The mean of three numbers, rounded.
    fn mean_of(a: Self, b: Self, c: Self) -> Self
        requires a_small { Within Self.reach (Self.value a) }
        requires b_small { Within Self.reach (Self.value b) }
        requires c_small { Within Self.reach (Self.value c) }
        ensures { Self.value result ≡ mean (Self.value a) (Self.value b) (Self.value c) };

    /// Whether a restored value is kept.
    fn is_kept(v: Self) -> bool
        ensures { (result ≡ true) ↔ keeps (Self.value v) };

    ghost most_law: { most ≤ Self.reach };

    ghost rise_law: { (d : ℕ) → limit d ≤ limit (d + 1) };

    ghost grow_law: { (d : ℕ) (r m : ℤ) → Within most r → Within (limit d) m → keeps (r +ℤ m)
        → Within (limit (d + 1)) (r +ℤ m) };
}

impl Predicted for i32 {
    ghost most = { 2 ^ 18 };

    ghost limit = { λ d. 2 ^ 18 };

    ghost keeps = { λ z. IsNarrow z };

    #[inline(always)]
    fn zero() -> i32 {
        0
    }

    #[inline(always)]
    fn mean_of(a: i32, b: i32, c: i32) -> i32 {
        (a + b + c + 1).div_euclid(3)
    }

    #[inline(always)]
    fn is_kept(v: i32) -> bool {
        -MOST <= v && v <= MOST
    }

    ghost most_law = { lit≤ tt };

    ghost rise_law = { λ d. lit≤ tt };

    ghost grow_law = { narrow_grows };
}

impl Predicted for i64 {
    ghost most = { MAX_MAGNITUDE };

    ghost limit = { λ d. d * MAX_MAGNITUDE };

    ghost keeps = { λ z. IsAny z };

    #[inline(always)]
    fn zero() -> i64 {
        0
    }

    #[inline(always)]
    fn mean_of(a: i64, b: i64, c: i64) -> i64 {
        (a + b + c + 1).div_euclid(3)
    }

    #[inline(always)]
    fn is_kept(_v: i64) -> bool {
        true
    }

    ghost most_law = { lit≤ tt };

    ghost rise_law = { wide_rises };

    ghost grow_law = { wide_grows };
}
