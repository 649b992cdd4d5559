// The lowest subband of a slice, restored as a reader will restore it.

ghost use Rattle.bit_codes.specs.declared.TheConstants.{MAX_MAGNITUDE};
ghost use Rattle.std.specs.Prelude.{◌≡◌, ◌+◌, ◌*◌, ◌^◌, ◌<◌, ◌≤◌, length, unsigned_abs};
ghost use Rattle.planes.specs.Numbers.{Within};
ghost use Rattle.planes.specs.Raster.{height, at, with_place};
ghost use Rattle.dc_prediction.specs.Prediction.{prediction, AllLookedAt};
ghost use Rattle.slice_geometry.specs.SliceOrder.{area};
ghost use Rattle.slice_encoder.specs.Loop.{residual_of, restored_value};
ghost use Rattle.slice_encoder.specs.RectTrials.{CanTryRect, TriesRect, ListsRect, grid_in};

use dc_prediction::predict;
use planes::{Plane, Rect};
use quant_factors::{Dequantised, forward, inverse};

// A coefficient's residual, quantised.
#[inline(always)]
fn residual(coefficient: i64, prediction: i64, index: u32) -> i64
    requires index { index ≤ 127 }
    requires coefficient_small { Within (2 ^ 27) coefficient }
    requires prediction_small { Within (3 * 2 ^ 27 + 2) prediction }
    ensures value { result ≡ residual_of coefficient index prediction }
    ensures small { unsigned_abs result ≤ MAX_MAGNITUDE }
{
    forward(coefficient - prediction, index)
}

// A place that is tried: its value, and what a reader restores.
#[derive(Clone, Copy)]
struct TriedPlace {
    value: i64,
    restored: i64,
}

// A coefficient's residual, quantised, and what a reader restores of the coefficient.
#[inline(always)]
fn tried(coefficient: i64, prediction: i64, index: u32) -> TriedPlace
    requires index { index ≤ 127 }
    requires coefficient_small { Within (2 ^ 27) coefficient }
    requires prediction_small { Within (3 * 2 ^ 27 + 2) prediction }
    ensures value { result.value ≡ residual_of coefficient index prediction }
    ensures restored { result.restored ≡ restored_value coefficient index prediction }
    ensures small { Within (3 * 2 ^ 27 + 2) result.restored }
{
    let value = residual(coefficient, prediction, index);
    match inverse(value, index) {
        Dequantised::Is(difference) => TriedPlace {
            value,
            restored: prediction + difference,
        },
        Dequantised::TooLarge => TriedPlace { value, restored: 0 },
    }
}

// Restores a place of a kept band, and gives its value.
#[inline(always)]
fn try_place(kept: &mut Plane, y: u32, x: u32, coefficient: i64, index: u32) -> i64
    requires index { index ≤ 127 }
    requires y_inside { y < height kept.old }
    requires x_inside { x < kept.old.w }
    requires small { Within (2 ^ 27) coefficient }
    requires looked { AllLookedAt (λ j i. Within (3 * 2 ^ 27 + 2) (at kept.old j i)) y x }
    ensures value { result ≡ residual_of coefficient index (prediction (at kept.old) y x) }
    ensures whole { kept.new ≡ with_place kept.old y x (restored_value coefficient index
        (prediction (at kept.old) y x)) }
    ensures here { at kept.new y x ≡ restored_value coefficient index
        (prediction (at kept.old) y x) }
    ensures near { Within (3 * 2 ^ 27 + 2) (at kept.new y x) }
{
    let prediction = predict(kept, y, x);
    let place = tried(coefficient, prediction, index);
    kept.set(y, x, place.restored);
    place.value
}

// Restores the places of a rectangle in a kept band, row by row, as their coefficients stand, and lists their values, each
// so many places behind the one before.
pub fn try_rect(
    coefficients: &[i32],
    kept: &mut Plane,
    rect: Rect,
    index: u32,
    out: &mut [i64],
    from: usize,
    step: usize,
)
    requires index { index ≤ 127 }
    requires from { from < step }
    requires count { length coefficients.now ≡ area rect }
    requires can { CanTryRect rect (grid_in rect coefficients.now) kept.old }
    requires room { step * area rect ≤ length out.old }
    ensures tried { TriesRect (grid_in rect coefficients.now) index rect kept.old kept.new }
    ensures listed { ListsRect (grid_in rect coefficients.now) index rect kept.new from step
        out.old out.new }
{
    let mut number = 0;
    let mut place = from;
    for y in rect.y0..rect.y1 {
        for x in rect.x0..rect.x1 {
            out[place] = try_place(kept, y, x, i64::from(coefficients[number]), index);
            number += 1;
            place += step;
        }
    }
}
