//! Lifting of rows and copies of rows, at each width.

ghost use Rattle.std.specs.Prelude.{◌≡◌, ℕ, ◌+◌, ◌^◌, ◌<◌, ◌≤◌, length};
ghost use Rattle.std.proofs.Common.{lit≤};
ghost use Rattle.planes.specs.Raster.{height};
ghost use Rattle.planes.specs.Valued.{valued, grid_of};
ghost use Rattle.lifting.specs.Ranges.{SameInside};
ghost use Rattle.lifting.specs.Steps.{step};
ghost use Rattle.lifting.specs.Turns.{SameSize, HaveStepRoom};

use crate::kernels::stepped;
use crate::laned::{LANES, Laned, lift_at};
use crate::{PairStep, Wavelet};
use planes::{Number, Plane};

/// Numbers with room for a level of analysis, which takes those within 2^25.
pub trait Analysed: Laned {
    ghost back_law: { 2 ^ 29 ≤ Self.Number.reach };
}

impl Analysed for i32 {
    ghost back_law = { lit≤ tt };
}

impl Analysed for i64 {
    ghost back_law = { lit≤ tt };
}

/// A wavelet's step on each place of `dst`, whose neighbours are those of `a` before it and `b` behind it.
#[inline(always)]
pub(crate) fn lift_each<T: Laned>(dst: &mut [T], a: &[T], b: &[T], wavelet: Wavelet, kind: PairStep)
    requires { HaveStepRoom T.value T.none T.reach dst.old a.now b.now }
    ensures { let at = valued T.value T.none in
        (i : ℕ) → i < length dst.old
        → at dst.new i ≡ step wavelet kind (at dst.old i) (at a.now i) (at b.now i) }
{
    let mut at = 0;
    while LANES <= dst.len() - at {
        lift_at(dst, a, b, at, wavelet, kind);
        at += LANES;
    }
    for i in at..dst.len() {
        dst[i] = stepped(wavelet, kind, dst[i], a[i], b[i]);
    }
}

/// The same, with a loop for each wavelet by itself, so that no turn of it asks which wavelet it is.
#[inline(always)]
pub(crate) fn lift_between<T: Laned>(
    dst: &mut [T],
    a: &[T],
    b: &[T],
    wavelet: Wavelet,
    kind: PairStep,
)
    requires { HaveStepRoom T.value T.none T.reach dst.old a.now b.now }
    ensures { let at = valued T.value T.none in
        (i : ℕ) → i < length dst.old
        → at dst.new i ≡ step wavelet kind (at dst.old i) (at a.now i) (at b.now i) }
{
    match wavelet {
        Wavelet::LeGall => lift_each(dst, a, b, Wavelet::LeGall, kind),
        Wavelet::HaarFlat => lift_each(dst, a, b, Wavelet::HaarFlat, kind),
        Wavelet::HaarShift => lift_each(dst, a, b, Wavelet::HaarShift, kind),
    }
}

/// The first w places of a row over those of another.
pub(crate) fn copy_front<T: Number>(dst: &mut [T], row: &[T], w: usize)
    requires room { w ≤ length dst.old }
    requires inside { w ≤ length row.now }
    ensures { (x : ℕ) → x < w
        → valued T.value T.none dst.new x ≡ valued T.value T.none row.now x }
{
    dst[..w].copy_from_slice(&row[..w]);
}

/// The first w columns and h rows of a plane over those of another from row `top` on.
pub(crate) fn copy_corner<T: Number>(dst: &mut Plane<T>, top: u32, src: &Plane<T>, w: u32, h: u32)
    requires fits { (w ≤ dst.old.w) × (w ≤ src.now.w) }
    requires high { (top + h ≤ height dst.old) × (h ≤ height src.now) }
    ensures same_size { SameSize dst.old dst.new }
    ensures copied { SameInside h w (λ y. grid_of T.value T.none dst.new (top + y))
        (grid_of T.value T.none src.now) }
{
    // A plane's height is at most 8208, so that places of rows are small numbers.
    let _ = dst.h();
    for y in 0..h {
        copy_front(dst.row_mut(top + y), src.row(y), w as usize);
    }
}
