//! DC prediction: the lowest subband is sent as residuals, each the difference of a value and its prediction from
//! earlier values. A rectangle of it is restored in place, row by row.
#![tactic(auto)]

pub mod laws;
mod predicted;

ghost use Rattle.std.specs.Prelude.{◌≡◌, ◌+◌, ◌^◌, ◌<◌, ◌≤◌, pos, true, false};
ghost use Rattle.planes.specs.Numbers.{Within};
ghost use Rattle.planes.specs.Raster.{height, at};
ghost use Rattle.planes.specs.Rect.{IsInRect};
ghost use Rattle.planes.specs.Bounded.{IsPlaneWithin};
ghost use Rattle.planes.specs.Valued.{grid_of};
ghost use Rattle.dc_prediction.specs.Prediction.{prediction, AllLookedAt};
ghost use Rattle.dc_prediction.specs.Restoring.{row_rect, CanRestore, IsStopped, RestoresRect};
ghost use Rattle.dc_prediction.specs.AnyWidth.{MayRestore, Restores, Stops};

use planes::{NarrowPlane, Plane, Rect};
use predicted::Predicted;

/// The prediction of the place in row y and column x, from the values that the plane holds: the mean of the values
/// left, above-left and above, rounded toward minus infinity; in the first row the value left, in the first column
/// the value above, in the corner 0.
///
/// Each value that is looked at has a magnitude of at most 2^50.
pub fn predict(plane: &Plane, y: u32, x: u32) -> i64
    requires y_inside { y < height plane.now }
    requires x_inside { x < plane.now.w }
    requires small { AllLookedAt (λ j i. Within (2 ^ 50) (at plane.now j i)) y x }
    ensures { result ≡ prediction (at plane.now) y x }
{
    predict_of(plane, y, x)
}

/// Restores a rectangle of the lowest subband in place, row by row: each place takes its residual plus its prediction
/// from the values that are restored, of a magnitude of at most (y + x + 1) * 2^36. All else stays.
///
/// The rectangle lies in the plane, which has at most 8192 columns and rows. Its values are residuals of at most 2^36
/// in magnitude, and each place (y, x) outside that is looked at has a magnitude of at most (y + x + 1) * 2^36.
pub fn restore_rect(plane: &mut Plane, rect: Rect)
    requires { CanRestore rect plane.old }
    ensures { RestoresRect rect plane.old plane.new }
{
    restore_of(plane, rect);
}

/// Restores a rectangle of the lowest subband in place as `restore_rect` does, in 32 bits: row by row, where each
/// value has a magnitude of at most 2^18. It stops at the first place whose value would pass that, and answers false.
///
/// The rectangle lies in the plane, which has no magnitude above 2^18, and has none afterwards.
pub fn restore_narrow(plane: &mut NarrowPlane, rect: Rect) -> bool
    requires x_inside { rect.x1 ≤ plane.old.w }
    requires y_inside { rect.y1 ≤ height plane.old }
    requires narrow { IsPlaneWithin (pos (2 ^ 18)) plane.old }
    ensures narrow { IsPlaneWithin (pos (2 ^ 18)) plane.new }
    ensures restored { result ≡ true → RestoresRect rect plane.old plane.new }
    ensures stopped { result ≡ false → IsStopped rect plane.old plane.new }
{
    restore_of(plane, rect)
}

// The prediction of the place in row y and column x.
#[inline(always)]
fn predict_of<T: Predicted>(plane: &Plane<T>, y: u32, x: u32) -> T
    requires y_inside { y < height plane.now }
    requires x_inside { x < plane.now.w }
    requires small { AllLookedAt (λ j i. Within T.reach (grid_of T.value T.none plane.now j i)) y
        x }
    ensures { T.value result ≡ prediction (grid_of T.value T.none plane.now) y x }
{
    if y == 0 {
        if x == 0 {
            T::zero()
        } else {
            plane.get(0, x - 1)
        }
    } else if x == 0 {
        plane.get(y - 1, 0)
    } else {
        T::mean_of(
            plane.get(y, x - 1),
            plane.get(y - 1, x - 1),
            plane.get(y - 1, x),
        )
    }
}

// Restores one place. It answers false where the value is not kept, and leaves all then.
#[inline(always)]
fn restore_place<T: Predicted>(plane: &mut Plane<T>, y: u32, x: u32) -> bool
    requires y_inside { y < height plane.old }
    requires x_inside { x < plane.old.w }
    requires may { MayRestore T.most T.reach T.limit (row_rect y x (x + 1))
        (grid_of T.value T.none plane.old) }
    ensures same_width { plane.new.w ≡ plane.old.w }
    ensures same_height { height plane.new ≡ height plane.old }
    ensures restored { let grid = grid_of T.value T.none in
        result ≡ true
        → Restores T.limit (IsInRect (row_rect y x (x + 1))) (grid plane.old) (grid plane.new) }
    ensures stopped { let grid = grid_of T.value T.none in
        result ≡ false
        → Stops T.limit T.keeps (row_rect y x (x + 1)) (grid plane.old) (grid plane.new) }
{
    let value = plane.get(y, x) + predict_of(plane, y, x);
    if !T::is_kept(value) {
        return false;
    }
    plane.set(y, x, value);
    true
}

// Restores the places x0..x1 of row y. It answers false, and stops, where a value is not kept.
fn restore_row<T: Predicted>(plane: &mut Plane<T>, y: u32, x0: u32, x1: u32) -> bool
    requires y_inside { y < height plane.old }
    requires x_inside { x1 ≤ plane.old.w }
    requires some { x0 < x1 }
    requires may { MayRestore T.most T.reach T.limit (row_rect y x0 x1)
        (grid_of T.value T.none plane.old) }
    ensures same_width { plane.new.w ≡ plane.old.w }
    ensures same_height { height plane.new ≡ height plane.old }
    ensures restored { let grid = grid_of T.value T.none in
        result ≡ true
        → Restores T.limit (IsInRect (row_rect y x0 x1)) (grid plane.old) (grid plane.new) }
    ensures stopped { let grid = grid_of T.value T.none in
        result ≡ false
        → Stops T.limit T.keeps (row_rect y x0 x1) (grid plane.old) (grid plane.new) }
{
    for x in x0..x1 {
        if !restore_place(plane, y, x) {
            return false;
        }
    }
    true
}

// Restores a rectangle at any width. It answers false, and stops, where a value is not kept.
fn restore_of<T: Predicted>(plane: &mut Plane<T>, rect: Rect) -> bool
    requires x_inside { rect.x1 ≤ plane.old.w }
    requires y_inside { rect.y1 ≤ height plane.old }
    requires may { MayRestore T.most T.reach T.limit rect (grid_of T.value T.none plane.old) }
    ensures same_width { plane.new.w ≡ plane.old.w }
    ensures same_height { height plane.new ≡ height plane.old }
    ensures restored { let grid = grid_of T.value T.none in
        result ≡ true → Restores T.limit (IsInRect rect) (grid plane.old) (grid plane.new) }
    ensures stopped { let grid = grid_of T.value T.none in
        result ≡ false → Stops T.limit T.keeps rect (grid plane.old) (grid plane.new) }
{
    if rect.x0 >= rect.x1 || rect.y0 >= rect.y1 {
        return true;
    }
    for y in rect.y0..rect.y1 {
        if !restore_row(plane, y, rect.x0, rect.x1) {
            return false;
        }
    }
    true
}
