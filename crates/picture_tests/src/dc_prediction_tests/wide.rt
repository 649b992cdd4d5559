//! The lowest subband restored, and the edges of a plane.
//!
//! Owners are dropped by name, since the proof of that call is short.

ghost use Rattle.std.specs.Prelude.{◌≡◌, ℕ, ◌^◌, ◌<◌, true, pos, slice_index_or};
ghost use Rattle.planes.specs.Numbers.{Within};
ghost use Rattle.planes.specs.Raster.{height, at};
ghost use Rattle.dc_prediction.specs.Restoring.{CanRestore};

use dc_prediction::restore_rect;
use planes::{Bands, NoMemory, Plane, Rect};
use std::alloc::Global;
use std::process::Abort;

/// A band of four columns and three rows.
type Rows = [[i64; 4]; 3];

/// The residuals of a band, and its values, worked out by hand.
const RESIDUALS: Rows = [[-3, 1, -4, 2], [5, -2, 0, -7], [-1, -1, 8, -6]];

const VALUES: Rows = [[-3, -2, -6, -4], [2, -3, -4, -12], [1, -1, 5, -10]];

/// The same of bands of which a mean is no whole number: it rounds down.
const MEANS: [(Rows, Rows); 3] = [
    (RESIDUALS, VALUES),
    (
        [[-1, -1, 0, 0], [0; 4], [0; 4]],
        [[-1, -2, -2, -2], [-1, -1, -2, -2], [-1, -1, -1, -2]],
    ),
    (
        [[0, -1, 0, 0], [-1, 0, 0, 0], [0; 4]],
        [[0, -1, -1, -1], [-1; 4], [-1; 4]],
    ),
];

fn plane_of(rt: &impl Abort, alloc: Global, rows: &Rows) -> Plane
    ensures width { result.w ≡ 4 }
    ensures height { height result ≡ 3 }
{
    let mut plane = Plane::new(alloc, 4, 3).expect(rt, "memory");
    for y in 0..3u32 {
        plane.row_mut(y).copy_from_slice(&rows[y as usize]);
    }
    plane
}

// Whether each value is as small as a residual.
fn are_small(row: &[i64]) -> bool
    ensures { result ≡ true → (x : ℕ) → Within (2 ^ 36) (slice_index_or row.now x (pos 0)) }
{
    for value in row {
        if *value > 0x10_0000_0000 || *value < -0x10_0000_0000 {
            return false;
        }
    }
    true
}

// Whether all values of a plane are so.
fn is_small(plane: &Plane) -> bool
    ensures { result ≡ true → (y x : ℕ) → y < height plane.now
        → Within (2 ^ 36) (at plane.now y x) }
{
    for y in 0..plane.h() {
        if !are_small(plane.row(y)) {
            return false;
        }
    }
    true
}

// Whether a plane of small values can be restored there.
fn can_restore(plane: &Plane, rect: Rect) -> bool
    ensures { result ≡ true → CanRestore rect plane.now }
{
    is_small(plane)
        && rect.x1 <= plane.w()
        && rect.y1 <= plane.h()
        && plane.w() <= 8192
        && plane.h() <= 8192
}

/// Restores the rectangles in turn.
fn restore_all(rt: &impl Abort, plane: &mut Plane, rects: &[Rect]) {
    for rect in rects {
        assert!(rt; can_restore(plane, *rect));
        restore_rect(plane, *rect);
    }
}

/// Whether a band has these rows.
fn has_rows(band: &Plane, rows: &Rows) -> bool {
    band.h() == 3
        && band.row(0) == rows[0].as_slice()
        && band.row(1) == rows[1].as_slice()
        && band.row(2) == rows[2].as_slice()
}

/// The whole band, slice by slice; one of the slices has no place.
#[rattlefmt::skip]
pub(crate) const SLICES: [Rect; 5] = [
    Rect { x0: 0, x1: 1, y0: 0, y1: 2 },
    Rect { x0: 1, x1: 1, y0: 0, y1: 2 },
    Rect { x0: 1, x1: 4, y0: 0, y1: 2 },
    Rect { x0: 0, x1: 2, y0: 2, y1: 3 },
    Rect { x0: 2, x1: 4, y0: 2, y1: 3 },
];

/// Asserts what a band's residuals are restored to.
fn expect_restored(rt: &impl Abort, alloc: Global, residuals: &Rows, values: &Rows) {
    let mut plane = plane_of(rt, alloc, residuals);
    restore_all(rt, &mut plane, &SLICES);
    let restored = has_rows(&plane, values);
    drop(plane);
    assert!(rt; restored);
}

#[test]
fn bands_are_restored(rt: HostRuntime) {
    for (residuals, values) in &MEANS {
        expect_restored(&rt, rt.alloc(), residuals, values);
    }
}

/// What is left of the residuals where the edges behind two columns and two rows are filled.
const FILLED: [[i64; 4]; 3] = [[-3, 1, 1, 1], [5, -2, -2, -2], [5, -2, -2, -2]];

#[test]
fn edges_are_filled(rt: HostRuntime) {
    let mut plane = plane_of(&rt, rt.alloc(), &RESIDUALS);
    plane.fill_edges(2, 2);
    let filled = has_rows(&plane, &FILLED);
    drop(plane);
    assert!(&rt; filled);
}

/// A number, the least bound that holds it, and the greatest that doesn't.
const GREATEST: [(i64, i64, i64); 3] = [(9, 9, 8), (-9, 9, 8), (1 << 36, 1 << 36, (1 << 36) - 1)];

/// Puts a number into the last band of the only level.
fn put_last(rt: &impl Abort, bands: &mut Bands, number: i64) {
    assert!(rt; bands.depth() == 1);
    let band = bands.band_mut(1, 3);
    assert!(rt; band.h() > 0 && band.w() > 1);
    band.set(0, 1, number);
}

#[test]
fn bands_are_within_their_greatest_magnitude(rt: HostRuntime) -> Result<(), NoMemory> {
    let mut bands = Bands::new(rt.alloc(), 1, 4, 2)?;
    for (number, within, beyond) in &GREATEST {
        put_last(&rt, &mut bands, *number);
        assert!(&rt; bands.within(*within) && !bands.within(*beyond));
    }
    drop(bands);
    Ok(())
}
