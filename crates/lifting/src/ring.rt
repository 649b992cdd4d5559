//! Rows of one length that lie one behind the other in a slice, and steps on one of them beside others.

ghost use Rattle.std.specs.Prelude.{◌≡◌, ◌≢◌, ℕ, ◌+◌, ◌-◌, ◌*◌, ◌%◌, ◌<◌, ◌≤◌, length, slice_range};
ghost use Rattle.planes.specs.Valued.{valued};
ghost use Rattle.lifting.specs.declared.PairStep.TheVariants.{OddUp};
ghost use Rattle.lifting.specs.Lines.{before};
ghost use Rattle.lifting.specs.Places.{beside, row_grid};
ghost use Rattle.lifting.specs.Ranges.{LineWithin};
ghost use Rattle.lifting.specs.Steps.{step};

use crate::laned::Laned;
use crate::level_up::Pair;
use crate::lifted::lift_between;
use crate::roll::{Between, step_sides};
use crate::{PairStep, Wavelet};
use planes::Number;

/// The place before place i of a line, or behind it where it is the first.
pub(crate) fn place_before(i: u32) -> u32
    requires { i < 10000 }
    ensures { result ≡ before i }
{
    if i == 0 { 1 } else { i - 1 }
}

/// Where row y begins, of rows of n places.
#[inline(always)]
pub(crate) fn start_of(y: u32, n: usize) -> usize
    requires few { y ≤ 8208 }
    requires short { n ≤ 8208 }
    ensures { result ≡ y * n }
{
    y as usize * n
}

/// Row y of rows of n places.
#[inline(always)]
pub(crate) fn row_of<T>(rows: &[T], y: u32, n: usize) -> &[T]
    requires few { y ≤ 8208 }
    requires short { n ≤ 8208 }
    requires inside { y * n + n ≤ length rows.now }
    ensures { result.now ≡ slice_range rows.now (y * n) (y * n + n) }
{
    let start = start_of(y, n);
    &rows[start..start + n]
}

// Row k beside row y, of the rows before and behind row y.
#[inline(always)]
fn other_row<'a, T>(front: &'a [T], back: &'a [T], y: u32, k: u32, n: usize) -> &'a [T]
    requires few { k ≤ 8208 }
    requires short { n ≤ 8208 }
    requires other { k ≢ y }
    requires front { k < y → k * n + n ≤ length front.now }
    requires back { y < k → (k - y - 1) * n + n ≤ length back.now }
    ensures len { length result.now ≡ n }
    ensures front { k < y → result.now ≡ slice_range front.now (k * n) (k * n + n) }
    ensures back { y < k
        → result.now ≡ slice_range back.now ((k - y - 1) * n) ((k - y - 1) * n + n) }
{
    if k < y {
        row_of(front, k, n)
    } else {
        row_of(back, k - y - 1, n)
    }
}

/// Row k over row y behind it.
#[inline(always)]
pub(crate) fn copy_row<T: Number>(rows: &mut [T], y: u32, k: u32, n: usize)
    requires few { y ≤ 8208 }
    requires short { n ≤ 8208 }
    requires inside { y * n + n ≤ length rows.old }
    requires behind { k < y }
    ensures copied { let grid = row_grid T.value T.none n in
        (x : ℕ) → x < n → grid rows.new y x ≡ grid rows.old k x }
    ensures others { let grid = row_grid T.value T.none n in
        (j x : ℕ) → j ≢ y → x < n → grid rows.new j x ≡ grid rows.old j x }
{
    let (front, rest) = rows.split_at_mut(start_of(y, n));
    rest[..n].copy_from_slice(row_of(front, k, n));
}

/// One step on row y, between the rows a and b, which may be one row.
#[inline(always)]
pub(crate) fn lift_row_between<T: Laned>(
    rows: &mut [T],
    y: u32,
    a: u32,
    b: u32,
    n: usize,
    wavelet: Wavelet,
    kind: PairStep,
)
    requires few { (y ≤ 8208) × (a ≤ 8208) × (b ≤ 8208) }
    requires short { n ≤ 8208 }
    requires y_inside { y * n + n ≤ length rows.old }
    requires a_inside { a * n + n ≤ length rows.old }
    requires b_inside { b * n + n ≤ length rows.old }
    requires not_a { a ≢ y }
    requires not_b { b ≢ y }
    requires own_small { LineWithin n T.reach (row_grid T.value T.none n rows.old y) }
    requires a_small { LineWithin n T.reach (row_grid T.value T.none n rows.old a) }
    requires b_small { LineWithin n T.reach (row_grid T.value T.none n rows.old b) }
    ensures lifted { let grid = row_grid T.value T.none n in
        (x : ℕ) → x < n → grid rows.new y x
        ≡ step wavelet kind (grid rows.old y x) (grid rows.old a x) (grid rows.old b x) }
    ensures others { let grid = row_grid T.value T.none n in
        (j x : ℕ) → j ≢ y → x < n → grid rows.new j x ≡ grid rows.old j x }
{
    let (front, rest) = rows.split_at_mut(start_of(y, n));
    let (dst, back) = rest.split_at_mut(n);
    let a = other_row(front, back, y, a, n);
    let b = other_row(front, back, y, b, n);
    lift_between(dst, a, b, wavelet, kind);
}

// The odd row of a pair of w places each, raised between two rows.
#[inline(always)]
fn raise_between<T: Laned>(
    dst: &mut [T],
    a: &[T],
    b: &[T],
    pair: &Pair<T>,
    w: usize,
    wavelet: Wavelet,
)
    requires short { w ≤ 4104 }
    requires len { (length dst.old ≡ 2 * w) × (length a.now ≡ 2 * w) × (length b.now ≡ 2 * w) }
    requires long { (w ≤ length pair.now.lh.now) × (w ≤ length pair.now.hh.now) }
    requires lh_small { LineWithin w T.reach (valued T.value T.none pair.now.lh.now) }
    requires hh_small { LineWithin w T.reach (valued T.value T.none pair.now.hh.now) }
    requires a_small { LineWithin (2 * w) T.reach (valued T.value T.none a.now) }
    requires b_small { LineWithin (2 * w) T.reach (valued T.value T.none b.now) }
    ensures { let at = valued T.value T.none in
        (x : ℕ) → x < 2 * w → at dst.new x
        ≡ step wavelet OddUp (beside w (at pair.now.lh.now) (at pair.now.hh.now) x)
        (at a.now x) (at b.now x) }
{
    let left = Between { v: pair.lh, a, b };
    let right = Between {
        v: pair.hh,
        a: &a[w..],
        b: &b[w..],
    };
    step_sides(dst, &left, &right, w, wavelet, PairStep::OddUp);
}

/// The odd row of a pair of w places each, raised between the rows a and b, which may be one row, into row y.
#[inline(always)]
pub(crate) fn raise_row<T: Laned>(
    rows: &mut [T],
    y: u32,
    a: u32,
    b: u32,
    pair: &Pair<T>,
    w: usize,
    wavelet: Wavelet,
)
    requires few { (y ≤ 8208) × (a ≤ 8208) × (b ≤ 8208) }
    requires short { w ≤ 4104 }
    requires y_inside { y * (2 * w) + 2 * w ≤ length rows.old }
    requires a_inside { a * (2 * w) + 2 * w ≤ length rows.old }
    requires b_inside { b * (2 * w) + 2 * w ≤ length rows.old }
    requires not_a { a ≢ y }
    requires not_b { b ≢ y }
    requires long { (w ≤ length pair.now.lh.now) × (w ≤ length pair.now.hh.now) }
    requires lh_small { LineWithin w T.reach (valued T.value T.none pair.now.lh.now) }
    requires hh_small { LineWithin w T.reach (valued T.value T.none pair.now.hh.now) }
    requires a_small { LineWithin (2 * w) T.reach (row_grid T.value T.none (2 * w) rows.old a) }
    requires b_small { LineWithin (2 * w) T.reach (row_grid T.value T.none (2 * w) rows.old b) }
    ensures raised { let grid = row_grid T.value T.none (2 * w) in
        let at = valued T.value T.none in
        (x : ℕ) → x < 2 * w → grid rows.new y x
        ≡ step wavelet OddUp (beside w (at pair.now.lh.now) (at pair.now.hh.now) x)
        (grid rows.old a x) (grid rows.old b x) }
    ensures others { let grid = row_grid T.value T.none (2 * w) in
        (j x : ℕ) → j ≢ y → x < 2 * w → grid rows.new j x ≡ grid rows.old j x }
{
    let (front, rest) = rows.split_at_mut(start_of(y, 2 * w));
    let (dst, back) = rest.split_at_mut(2 * w);
    let a = other_row(front, back, y, a, 2 * w);
    let b = other_row(front, back, y, b, 2 * w);
    raise_between(dst, a, b, pair, w, wavelet);
}

/// Rows 2y and 2y + 1 of a level as a pair, from a ring of four rows of 2w places: row j in row j % 4, its even places first.
pub(crate) fn pair_in<T: Number>(ring: &[T], y: u32, w: usize) -> Pair<'_, '_, T>
    requires low { y < 10000 }
    requires short { w ≤ 4104 }
    requires even_inside { (2 * y % 4) * (2 * w) + 2 * w ≤ length ring.now }
    requires odd_inside { ((2 * y + 1) % 4) * (2 * w) + 2 * w ≤ length ring.now }
    ensures long { (length result.ll.now ≡ w) × (length result.hl.now ≡ w)
        × (length result.lh.now ≡ w) × (length result.hh.now ≡ w) }
    ensures ll { let grid = row_grid T.value T.none (2 * w) in (x : ℕ) → x < w
        → valued T.value T.none result.ll.now x ≡ grid ring.now (2 * y % 4) x }
    ensures hl { let grid = row_grid T.value T.none (2 * w) in (x : ℕ) → x < w
        → valued T.value T.none result.hl.now x ≡ grid ring.now (2 * y % 4) (w + x) }
    ensures lh { let grid = row_grid T.value T.none (2 * w) in (x : ℕ) → x < w
        → valued T.value T.none result.lh.now x ≡ grid ring.now ((2 * y + 1) % 4) x }
    ensures hh { let grid = row_grid T.value T.none (2 * w) in (x : ℕ) → x < w
        → valued T.value T.none result.hh.now x ≡ grid ring.now ((2 * y + 1) % 4) (w + x) }
{
    let even = row_of(ring, 2 * y % 4, 2 * w);
    let odd = row_of(ring, (2 * y + 1) % 4, 2 * w);
    Pair {
        ll: &even[..w],
        hl: &even[w..],
        lh: &odd[..w],
        hh: &odd[w..],
    }
}
