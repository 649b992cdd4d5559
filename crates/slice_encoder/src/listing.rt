// The values of a slice outside its lowest subbands, listed once its index is found.

ghost use Rattle.std.specs.Prelude.{◌≡◌, ℕ, ◌*◌, ◌^◌, ◌<◌, ◌≤◌, length, take, get_or, slice_index, pos, unsigned_abs};
ghost use Rattle.std.specs.List.{All};
ghost use Rattle.std.specs.Vec.{vec_len};
ghost use Rattle.planes.specs.Numbers.{Within};
ghost use Rattle.quant_factors.specs.Factors.{signed};
ghost use Rattle.slice_encoder.specs.BlockValues.{IsIn32};
ghost use Rattle.slice_encoder.specs.CodeTables.{place_of, places_of_values};
ghost use Rattle.slice_encoder.specs.Gathering.{outside_of, gathered_values, gathered_pairs};
ghost use Rattle.slice_encoder.specs.Sizes.{AreSizes, turn_at};

use crate::gathered::{Gathered, GatheredSlice, pair_place};
use crate::scale_rows::ScaledSizes;
use quant_factors::Matrix;

// A quantised magnitude with the sign of its coefficient.
#[inline(always)]
fn with_sign(coefficient: i32, size: u16) -> i32
    ensures { result ≡ signed coefficient size }
{
    let value = i32::from(size);
    if coefficient < 0 { -value } else { value }
}

// Gives quantised magnitudes the signs of their coefficients, and tells the places of these values in the table of pairs.
fn put_signs(coefficients: &[i32], sizes: &[u16], out: &mut [i32], places: &mut [u8])
    requires sizes { length sizes.now ≡ length coefficients.now }
    requires same { length out.old ≡ length coefficients.now }
    requires same_places { length places.old ≡ length coefficients.now }
    ensures values { (p : ℕ) → p < length coefficients.now → get_or out.new p (pos 0)
        ≡ signed (get_or coefficients.now p (pos 0)) (slice_index sizes.now p) }
    ensures places { places.new ≡ places_of_values out.new }
{
    for place in 0..coefficients.len() {
        let value = with_sign(coefficients[place], sizes[place]);
        out[place] = value;
        places[place] = pair_place(value);
    }
}

// Those of two components in turn.
fn put_sign_pairs(first: &[i32], second: &[i32], sizes: &[u16], out: &mut [i32], places: &mut [u8])
    requires same { length second.now ≡ length first.now }
    requires sizes { length sizes.now ≡ 2 * length first.now }
    requires room { length out.old ≡ 2 * length first.now }
    requires room_places { length places.old ≡ 2 * length first.now }
    requires first_small { All (Within (2 ^ 27)) first.now }
    requires second_small { All (Within (2 ^ 27)) second.now }
    ensures values { (p : ℕ) → p < 2 * length first.now → get_or out.new p (pos 0)
        ≡ signed (turn_at first.now second.now p) (slice_index sizes.now p) }
    ensures places { places.new ≡ places_of_values out.new }
{
    for place in 0..first.len() {
        let one = with_sign(first[place], sizes[2 * place]);
        let two = with_sign(second[place], sizes[2 * place + 1]);
        out[2 * place] = one;
        out[2 * place + 1] = two;
        places[2 * place] = pair_place(one);
        places[2 * place + 1] = pair_place(two);
    }
}

// Gives so many quantised magnitudes the signs of the coefficients outside the lowest subband.
fn sign(gathered: &Gathered, count: usize, sizes: &[u16], out: &mut [i32], places: &mut [u8])
    requires count { count ≤ length (outside_of gathered.now) }
    requires sizes { count ≤ length sizes.now }
    requires room { count ≤ length out.old }
    requires room_places { count ≤ length places.old }
    ensures values { (p : ℕ) → p < count → get_or out.new p (pos 0)
        ≡ signed (get_or (outside_of gathered.now) p (pos 0)) (slice_index sizes.now p) }
    ensures places { take count places.new ≡ places_of_values (take count out.new) }
{
    put_signs(
        &gathered.outside()[..count],
        &sizes[..count],
        &mut out[..count],
        &mut places[..count],
    );
}

// And those of two components in turn.
fn sign_pairs(
    first: &Gathered,
    second: &Gathered,
    count: usize,
    sizes: &[u16],
    out: &mut [i32],
    places: &mut [u8],
)
    requires same { length (outside_of second.now) ≡ length (outside_of first.now) }
    requires count { count ≤ 2 * length (outside_of first.now) }
    requires sizes { 2 * length (outside_of first.now) ≤ length sizes.now }
    requires room { 2 * length (outside_of first.now) ≤ length out.old }
    requires room_places { 2 * length (outside_of first.now) ≤ length places.old }
    ensures values { (p : ℕ) → p < count → get_or out.new p (pos 0)
        ≡ signed (turn_at (outside_of first.now) (outside_of second.now) p)
        (slice_index sizes.now p) }
    ensures places { take count places.new ≡ places_of_values (take count out.new) }
{
    let half = count.div_ceil(2);
    put_sign_pairs(
        &first.outside()[..half],
        &second.outside()[..half],
        &sizes[..2 * half],
        &mut out[..2 * half],
        &mut places[..2 * half],
    );
}

/// Lists so many of its luma values outside the lowest subband, and their places in the table of pairs.
pub fn list_luma(
    gathered: &GatheredSlice,
    matrix: &Matrix,
    index: u32,
    count: usize,
    scaled: &mut ScaledSizes,
    out: &mut [i32],
    places: &mut [u8],
)
    requires index { index ≤ 127 }
    requires entries { matrix.now.depth ≡ gathered.now.luma.depth }
    requires count { count ≤ length (gathered_values gathered.now.luma matrix.now index) }
    requires magnitudes { AreSizes gathered.now.luma_sizes (gathered_values gathered.now.luma matrix.now) }
    requires sizes { slice_index gathered.now.luma.ends (3 * gathered.now.luma.depth)
        ≤ vec_len scaled.old.sizes }
    requires room { slice_index gathered.now.luma.ends (3 * gathered.now.luma.depth) ≤ length out.old }
    requires room_places { slice_index gathered.now.luma.ends (3 * gathered.now.luma.depth)
        ≤ length places.old }
    ensures room { vec_len scaled.new.sizes ≡ vec_len scaled.old.sizes }
    ensures listed { take count out.new
        ≡ take count (gathered_values gathered.now.luma matrix.now index) }
    ensures places { take count places.new ≡ places_of_values (take count out.new) }
    ensures small { All IsIn32 (gathered_values gathered.now.luma matrix.now index) }
{
    // The rules of what was gathered.
    let _depth = gathered.luma.depth();
    let luma = &gathered.luma;
    let (rows, sizes) = (&mut scaled.rows, &mut scaled.sizes);
    if gathered.luma_sizes.quantise(index, count, rows, sizes) {
        sign(luma, count, &scaled.sizes, out, places);
    } else {
        luma.list(matrix, index, out, places);
    }
}

/// And those of its colour values, of both components in turn.
pub fn list_colour(
    gathered: &GatheredSlice,
    matrix: &Matrix,
    index: u32,
    count: usize,
    scaled: &mut ScaledSizes,
    out: &mut [i32],
    places: &mut [u8],
)
    requires index { index ≤ 127 }
    requires entries { matrix.now.depth ≡ gathered.now.c1.depth }
    requires depth { gathered.now.c2.depth ≡ gathered.now.c1.depth }
    requires ends { (k : ℕ) → k ≤ 3 * gathered.now.c1.depth
        → slice_index gathered.now.c2.ends k ≡ slice_index gathered.now.c1.ends k }
    requires count { count
        ≤ length (gathered_pairs gathered.now.c1 gathered.now.c2 matrix.now index) }
    requires magnitudes { AreSizes gathered.now.colour_sizes
        (gathered_pairs gathered.now.c1 gathered.now.c2 matrix.now) }
    requires sizes { 2 * slice_index gathered.now.c1.ends (3 * gathered.now.c1.depth)
        ≤ vec_len scaled.old.sizes }
    requires room { 2 * slice_index gathered.now.c1.ends (3 * gathered.now.c1.depth)
        ≤ length out.old }
    requires room_places { 2 * slice_index gathered.now.c1.ends (3 * gathered.now.c1.depth)
        ≤ length places.old }
    ensures room { vec_len scaled.new.sizes ≡ vec_len scaled.old.sizes }
    ensures listed { take count out.new
        ≡ take count (gathered_pairs gathered.now.c1 gathered.now.c2 matrix.now index) }
    ensures places { take count places.new ≡ places_of_values (take count out.new) }
    ensures small { All IsIn32 (gathered_pairs gathered.now.c1 gathered.now.c2 matrix.now index) }
{
    // The rules of what was gathered.
    let _ = (gathered.c1.depth(), gathered.c2.depth());
    let (first, second) = (&gathered.c1, &gathered.c2);
    let (rows, sizes) = (&mut scaled.rows, &mut scaled.sizes);
    if gathered.colour_sizes.quantise(index, count, rows, sizes) {
        sign_pairs(first, second, count, &scaled.sizes, out, places);
    } else {
        first.list_pair(second, matrix, index, out, places);
    }
}
