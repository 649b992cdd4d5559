//! The lowest subband restored in 32 bits.

ghost use Rattle.std.specs.Prelude.{◌≡◌, ℕ, ◌^◌, true, pos, slice_index_or};
ghost use Rattle.planes.specs.Raster.{height};
ghost use Rattle.planes.specs.Bounded.{IsPlaneWithin};
ghost use Rattle.dc_prediction.specs.Restoring.{IsNarrow};

use crate::dc_prediction_tests::wide::SLICES;
use dc_prediction::restore_narrow;
use planes::{NarrowPlane, Rect};
use std::alloc::Global;
use std::process::Abort;

/// The residuals of a band of four columns and three rows, and its values, worked out by hand.
const RESIDUALS: [[i32; 4]; 3] = [[-3, 1, -4, 2], [5, -2, 0, -7], [-1, -1, 8, -6]];

const VALUES: [[i32; 4]; 3] = [[-3, -2, -6, -4], [2, -3, -4, -12], [1, -1, 5, -10]];

/// Residuals whose first row reaches 2^18 in its third place and would pass it in the fourth, and what is left of them.
const RISING: [[i32; 4]; 3] = [[262142, 1, 1, 1], [5, 5, 5, 5], [7, 7, 7, 7]];

const RISEN: [[i32; 4]; 3] = [[262142, 262143, 262144, 1], [5, 5, 5, 5], [7, 7, 7, 7]];

fn plane_of(rt: &impl Abort, alloc: Global, rows: &[[i32; 4]; 3]) -> NarrowPlane
    ensures width { result.w ≡ 4 }
    ensures height { height result ≡ 3 }
{
    let mut plane = NarrowPlane::new(alloc, 4, 3).expect(rt, "memory");
    for y in 0..3u32 {
        plane.row_mut(y).copy_from_slice(&rows[y as usize]);
    }
    plane
}

// Whether no magnitude passes 2^18.
fn are_narrow(row: &[i32]) -> bool
    ensures { result ≡ true → (x : ℕ) → IsNarrow (slice_index_or row.now x (pos 0)) }
{
    for value in row {
        if *value > 262144 || *value < -262144 {
            return false;
        }
    }
    true
}

fn is_narrow(plane: &NarrowPlane) -> bool
    ensures { result ≡ true → IsPlaneWithin (pos (2 ^ 18)) plane.now }
{
    for y in 0..plane.h() {
        if !are_narrow(plane.row(y)) {
            return false;
        }
    }
    true
}

// Restores the rectangles in turn, as long as none stops.
fn restore_all(rt: &impl Abort, plane: &mut NarrowPlane, rects: &[Rect]) -> bool {
    let mut all = true;
    for rect in rects {
        assert!(rt; rect.x1 <= plane.w() && rect.y1 <= plane.h() && is_narrow(plane));
        all = all && restore_narrow(plane, *rect);
    }
    all
}

/// Whether a band has these rows.
fn has_rows(band: &NarrowPlane, rows: &[[i32; 4]; 3]) -> bool {
    band.h() == 3
        && band.row(0) == rows[0].as_slice()
        && band.row(1) == rows[1].as_slice()
        && band.row(2) == rows[2].as_slice()
}

const WHOLE: Rect = Rect {
    x0: 0,
    x1: 4,
    y0: 0,
    y1: 3,
};

/// Whether a band is restored in these rectangles, and whether it has these values then.
fn restored(
    rt: &impl Abort,
    alloc: Global,
    residuals: &[[i32; 4]; 3],
    rects: &[Rect],
    values: &[[i32; 4]; 3],
) -> (bool, bool) {
    let mut plane = plane_of(rt, alloc, residuals);
    let all = restore_all(rt, &mut plane, rects);
    let has_values = has_rows(&plane, values);
    drop(plane);
    (all, has_values)
}

/// The band slice by slice. A value that would pass 2^18 stops it, and nothing behind it is restored.
#[test]
fn narrow_bands_restored(rt: HostRuntime) {
    let whole = restored(&rt, rt.alloc(), &RESIDUALS, &SLICES, &VALUES);
    let rising = restored(&rt, rt.alloc(), &RISING, &[WHOLE], &RISEN);
    assert!(&rt; whole == (true, true) && rising == (false, true));
}
