// The coefficients of a slice in one component, gathered once for all the indices that are tried.

ghost use Rattle.std.specs.Prelude.{◌≡◌, ℕ, ◌+◌, ◌-◌, ◌*◌, ◌^◌, ◌<◌, ◌≤◌, ◌++◌, length, take, get_or, slice_index, IfOk, pos, unsigned_abs, true};
ghost use Rattle.std.specs.List.{All, flat_map, range_with_len};
ghost use Rattle.planes.specs.Numbers.{Within};
ghost use Rattle.quant_factors.specs.Factors.{forward_of, signed};
ghost use Rattle.planes.specs.Raster.{at};
ghost use Rattle.planes.specs.Subbands.{BandStack};
ghost use Rattle.planes.specs.declared.Trio.{Trio};
ghost use Rattle.slice_geometry.specs.Shape.{IsSize};
ghost use Rattle.slice_geometry.specs.SliceOrder.{area, place_count};
ghost use Rattle.slice_encoder.specs.Listing.{rect_values};
ghost use Rattle.slice_encoder.specs.Gathering.{raw_before, piece_of, lowest_of, AreEnds, quantised, quantised_piece, outside_of, in_turn, IsGatheredSound, CanGather, CanGatherAll, AreGathered, gathered_values, gathered_pairs, behind_lowest};
ghost use Rattle.slice_encoder.specs.GatheredSlices.{AreAllGathered, HasSizes, AreLooks, gathered_low, CanHoldAll};
ghost use Rattle.slice_encoder.specs.FirstResiduals.{AreSmallFirsts};
ghost use Rattle.slice_encoder.specs.BlockValues.{IsIn32};
ghost use Rattle.slice_encoder.specs.CodeTables.{place_of, places_of_values};
ghost use Rattle.slice_encoder.specs.Scales.{IsScaleOf};
ghost use Rattle.slice_encoder.specs.Jobs.{picture_of};
ghost use Rattle.slice_encoder.specs.Ready.{AreGiven};
ghost use Rattle.slice_encoder.specs.RestoredSlice.{AreLowRects};
ghost use Rattle.slice_encoder.specs.SliceLists.{HoldsSlice};

use crate::bounding::Lower;
use crate::first_residuals::{FirstResiduals, bits_beyond};
use crate::jobs::SliceJob;
use crate::looks::Look;
use crate::room::most_places;
use crate::scales::{Scale, quantised_magnitude, scale_of};
use crate::sizes::{ListLimits, Sizes};
use crate::slice_rects::SliceRects;
use crate::trying::{LowRects, NO_RECTS, quantiser_at};
use planes::{Bands, NoMemory, Orient, Plane, Rect, Trio};
use quant_factors::Matrix;
use slice_geometry::{Layout, PictureShape, Size, band_numbered};
use std::alloc::Global;
use std::marker::Model;

/// The coefficients of a slice in one component, band by band in the order of its values. Contracts see the depth of the
/// transform, where the values of each band end, and the values; behind those of a slice stand older ones.
#[derive(Drop)]
pub struct Gathered {
    depth: u32,
    ends: [usize; 13],
    values: Vec<i32>,
}

impl Model for Gathered {
    ghost use Rattle.slice_encoder.specs.Gathering.{GatheredSeen, IsGatheredSound};

    ghost Value = { GatheredSeen };

    ghost view = { λ g. record { depth = g.depth; ends = g.ends; values = g.values.items } };

    ghost invariant = { λ g. IsGatheredSound (record { depth = g.depth; ends = g.ends; values = g.values.items }) };
}

/// The coefficients of a slice in all three components, and where it lies in the lowest subbands.
#[derive(Drop)]
pub struct GatheredSlice {
    pub luma: Gathered,
    pub c1: Gathered,
    pub c2: Gathered,
    pub lowest: LowRects,
    /// The magnitudes of its luma values.
    pub luma_sizes: Sizes,
    /// Those of its colour values, of both components in turn.
    pub colour_sizes: Sizes,
    /// Where the slices lie in the subbands of luma, and in those of C1 and C2.
    pub luma_rects: SliceRects,
    pub colour_rects: SliceRects,
}

/// What a slice's luma values and its colour values hold, but for its lowest subbands.
#[derive(Clone, Copy)]
pub struct Looks {
    pub luma: Look,
    pub colour: Look,
}

/// The limits that a slice's magnitudes are held against.
#[derive(Drop)]
pub struct SliceLimits {
    luma: ListLimits,
    colour: ListLimits,
}

impl SliceLimits {
    /// Limits for the slices of a picture.
    pub fn new(
        alloc: Global,
        layout: &Layout,
        shape: &PictureShape,
    ) -> Result<SliceLimits, NoMemory> {
        Ok(SliceLimits {
            luma: ListLimits::new(alloc, most_places(layout, shape.luma))?,
            colour: ListLimits::new(alloc, 2 * most_places(layout, shape.colour))?,
        })
    }
}

// Copies the coefficients of a rectangle, row by row, from a place on.
fn gather_rect(coefficients: &Plane, rect: Rect, out: &mut [i32], from: usize)
    requires can { CanGather rect coefficients.now }
    requires room { from + area rect ≤ length out.old }
    requires small { All (Within (2 ^ 27)) out.old }
    ensures gathered { take (from + area rect) out.new
        ≡ take from out.old ++ rect_values (at coefficients.now) rect }
    ensures small { All (Within (2 ^ 27)) out.new }
{
    let mut place = from;
    for y in rect.y0..rect.y1 {
        let row = coefficients.row(y);
        for x in rect.x0..rect.x1 {
            out[place] = row[x as usize] as i32;
            place += 1;
        }
    }
}

// Copies the slice's coefficients, band by band.
fn gather_bands(rects: &SliceRects, sx: u32, sy: u32, bands: &Bands, out: &mut [i32])
    requires across { sx < rects.now.slicing.slices_x }
    requires down { sy < rects.now.slicing.slices_y }
    requires can { CanGatherAll rects.now.slicing rects.now.size bands.now }
    requires room { place_count rects.now.slicing rects.now.size sx sy ≤ length out.old }
    requires small { All (Within (2 ^ 27)) out.old }
    ensures gathered { take (length (raw_before rects.now.slicing rects.now.size bands.now sx sy
        (3 * rects.now.slicing.depth + 1))) out.new
        ≡ raw_before rects.now.slicing rects.now.size bands.now sx sy
        (3 * rects.now.slicing.depth + 1) }
    ensures small { All (Within (2 ^ 27)) out.new }
{
    let mut place = 0;
    for k in 0..3 * rects.depth() + 1 {
        let (level, orient) = band_numbered(k);
        let rect = rects.rect(level, sx, sy);
        gather_rect(bands.band(level, orient), rect, out, place);
        place += (rect.x1 - rect.x0) as usize * (rect.y1 - rect.y0) as usize;
    }
}

// Copies a list to the front of another.
fn put_front(list: &[i32], out: &mut [i32])
    requires room { length list.now ≤ length out.old }
    requires list_small { All (Within (2 ^ 27)) list.now }
    requires small { All (Within (2 ^ 27)) out.old }
    ensures front { take (length list.now) out.new ≡ list.now }
    ensures small { All (Within (2 ^ 27)) out.new }
{
    out[..list.len()].copy_from_slice(list);
}

// 1 or -1, with the sign of a number.
#[inline(always)]
fn sign_of(v: i32) -> i64
    ensures { result ≡ signed v 1 }
{
    if v < 0 { -1 } else { 1 }
}

// A coefficient, quantised. Its sign is put on by a product, since a branch on it is guessed wrong half of the time.
#[inline(always)]
fn quantised_value(coefficient: i32, scale: Scale, index: u32) -> i64
    requires index { index ≤ 127 }
    requires small { Within (2 ^ 27) coefficient }
    requires scale { IsScaleOf scale index }
    ensures { result ≡ forward_of coefficient index }
{
    let sign = sign_of(coefficient);
    let magnitude = quantised_magnitude(coefficient, scale, index);
    sign * magnitude
}

// The same in 32 bits.
#[inline(always)]
fn quantised_number(coefficient: i32, scale: Scale, index: u32) -> i32
    requires index { index ≤ 127 }
    requires small { Within (2 ^ 27) coefficient }
    requires scale { IsScaleOf scale index }
    ensures { result ≡ forward_of coefficient index }
{
    quantised_value(coefficient, scale, index) as i32
}

/// The place of a value in a row of the table of pairs: 0 for one that is none of those. It has no branch, since the loops over
/// values go on several at a time.
#[inline(always)]
pub fn pair_place(value: i32) -> u8
    ensures { result ≡ place_of value }
{
    (value.clamp(-32, 32) + 32) as u8 % 64
}

// Quantises coefficients, and tells the places of their values in the table of pairs.
fn quantise(coefficients: &[i32], index: u32, out: &mut [i32], places: &mut [u8])
    requires index { index ≤ 127 }
    requires same { length out.old ≡ length coefficients.now }
    requires same_places { length places.old ≡ length coefficients.now }
    requires small { All (Within (2 ^ 27)) coefficients.now }
    ensures values { out.new ≡ quantised index coefficients.now }
    ensures places { places.new ≡ places_of_values out.new }
{
    let scale = scale_of(index);
    for place in 0..coefficients.len() {
        let value = quantised_number(coefficients[place], scale, index);
        out[place] = value;
        places[place] = pair_place(value);
    }
}

// Quantises those of two components in turn.
fn quantise_pair(first: &[i32], second: &[i32], index: u32, out: &mut [i32], places: &mut [u8])
    requires index { index ≤ 127 }
    requires same { length second.now ≡ length first.now }
    requires room { length out.old ≡ 2 * length first.now }
    requires room_places { length places.old ≡ 2 * length first.now }
    requires first_small { All (Within (2 ^ 27)) first.now }
    requires second_small { All (Within (2 ^ 27)) second.now }
    ensures values { out.new ≡ in_turn (quantised index first.now) (quantised index second.now) }
    ensures places { places.new ≡ places_of_values out.new }
{
    let scale = scale_of(index);
    for place in 0..first.len() {
        let one = quantised_number(first[place], scale, index);
        let two = quantised_number(second[place], scale, index);
        out[2 * place] = one;
        out[2 * place + 1] = two;
        places[2 * place] = pair_place(one);
        places[2 * place + 1] = pair_place(two);
    }
}

// The same from a place on.
fn quantise_at(coefficients: &[i32], index: u32, out: &mut [i32], places: &mut [u8], from: usize)
    requires index { index ≤ 127 }
    requires room { from + length coefficients.now ≤ length out.old }
    requires room_places { from + length coefficients.now ≤ length places.old }
    requires small { All (Within (2 ^ 27)) coefficients.now }
    ensures values { take (from + length coefficients.now) out.new
        ≡ take from out.old ++ quantised index coefficients.now }
    ensures places { take (from + length coefficients.now) places.new
        ≡ take from places.old ++ places_of_values (quantised index coefficients.now) }
{
    let end = from + coefficients.len();
    quantise(
        coefficients,
        index,
        &mut out[from..end],
        &mut places[from..end],
    );
}

fn quantise_pair_at(
    first: &[i32],
    second: &[i32],
    index: u32,
    out: &mut [i32],
    places: &mut [u8],
    from: usize,
)
    requires index { index ≤ 127 }
    requires same { length second.now ≡ length first.now }
    requires few { length first.now ≤ 2 ^ 31 }
    requires room { from + 2 * length first.now ≤ length out.old }
    requires room_places { from + 2 * length first.now ≤ length places.old }
    requires first_small { All (Within (2 ^ 27)) first.now }
    requires second_small { All (Within (2 ^ 27)) second.now }
    ensures values { take (from + 2 * length first.now) out.new
        ≡ take from out.old ++ in_turn (quantised index first.now) (quantised index second.now) }
    ensures places { take (from + 2 * length first.now) places.new ≡ take from places.old
        ++ places_of_values (in_turn (quantised index first.now) (quantised index second.now)) }
{
    let end = from + 2 * first.len();
    quantise_pair(
        first,
        second,
        index,
        &mut out[from..end],
        &mut places[from..end],
    );
}

/// The bits of codes that reach so far, with so many in front of them.
pub fn behind(places: u64, bits: u64) -> u64
    requires places { places ≤ 2 ^ 39 }
    requires bits { bits ≤ 2 ^ 40 }
    ensures value { result ≡ behind_lowest places bits }
    ensures few { result ≤ places + bits }
{
    if bits == 0 { 0 } else { places + bits }
}

impl Gathered {
    /// Room for the coefficients of the greatest slice of a component.
    pub fn new(alloc: Global, layout: &Layout, size: Size) -> Result<Gathered, NoMemory>
        requires { IsSize size.w size.h }
        ensures { IfOk result (λ g. (sx sy : ℕ) → sx < layout.now.slices_x
            → sy < layout.now.slices_y → place_count layout.now size sx sy ≤ length g.values) }
    {
        let places = most_places(layout, size);
        let values = Vec::from_elem(alloc, 0i32, places)?;
        Ok(Gathered {
            depth: 0,
            ends: [0; 13],
            values,
        })
    }

    /// Takes the coefficients of a slice from a list.
    pub fn take_list(
        &mut self,
        rects: &SliceRects,
        sx: u32,
        sy: u32,
        ends: &[usize; 13],
        list: &[i32],
    )
        requires count { length list.now ≡ place_count rects.now.slicing rects.now.size sx sy }
        requires small { All (Within (2 ^ 27)) list.now }
        requires ends { AreEnds rects.now.slicing rects.now.size sx sy ends.now }
        requires room { place_count rects.now.slicing rects.now.size sx sy
            ≤ length self.old.values }
        ensures room { length self.new.values ≡ length self.old.values }
        ensures gathered { (bands : BandStack)
            → HoldsSlice rects.now.slicing rects.now.size bands sx sy list.now
            → AreGathered rects.now.slicing rects.now.size bands sx sy self.new }
    {
        // The contract alone names these.
        let _ = (sx, sy);
        put_front(list, &mut self.values);
        self.ends = *ends;
        self.depth = rects.depth();
    }

    /// Gathers the coefficients of a slice from rows.
    pub fn take_rects(
        &mut self,
        rects: &SliceRects,
        sx: u32,
        sy: u32,
        ends: &[usize; 13],
        bands: &Bands,
    )
        requires across { sx < rects.now.slicing.slices_x }
        requires down { sy < rects.now.slicing.slices_y }
        requires can { CanGatherAll rects.now.slicing rects.now.size bands.now }
        requires ends { AreEnds rects.now.slicing rects.now.size sx sy ends.now }
        requires room { place_count rects.now.slicing rects.now.size sx sy
            ≤ length self.old.values }
        ensures room { length self.new.values ≡ length self.old.values }
        ensures gathered { AreGathered rects.now.slicing rects.now.size bands.now sx sy self.new }
    {
        gather_bands(rects, sx, sy, bands, &mut self.values);
        self.ends = *ends;
        self.depth = rects.depth();
    }

    /// The coefficients in the lowest subband, row by row.
    pub fn lowest_values(&self) -> &[i32]
        ensures value { result.now ≡ lowest_of self.now }
        ensures count { length result.now ≡ slice_index self.now.ends 0 }
        ensures small { All (Within (2 ^ 27)) result.now }
    {
        // The contract alone names it.
        let _ = &self.depth;
        &self.values[..self.ends[0]]
    }

    /// How many values the lowest subband has.
    pub fn lowest(&self) -> u64
        ensures value { result ≡ slice_index self.now.ends 0 }
        ensures few { result ≤ 2 ^ 31 }
    {
        // The contract alone names these.
        let _ = &self.depth;
        let _ = &self.values;
        self.ends[0] as u64
    }

    // The coefficients in band number k.
    fn band(&self, k: u32) -> &[i32]
        requires some { 1 ≤ k }
        requires most { k ≤ 3 * self.now.depth }
        ensures value { result.now ≡ piece_of self.now k }
        ensures few { length result.now ≤ 2 ^ 31 }
        ensures count { length result.now
            ≡ slice_index self.now.ends k - slice_index self.now.ends (k - 1) }
        ensures small { All (Within (2 ^ 27)) result.now }
    {
        // The contract alone names these.
        let _ = &self.depth;
        let k = k as usize;
        &self.values[self.ends[k - 1]..self.ends[k]]
    }

    /// The depth of the transform.
    pub fn depth(&self) -> u32
        ensures value { result ≡ self.now.depth }
        ensures most { result ≤ 4 }
        ensures sound { IsGatheredSound self.now }
    {
        // The contract alone names these.
        let _ = &self.ends;
        let _ = &self.values;
        self.depth
    }

    /// Where the values of band number k end.
    pub fn end(&self, k: u32) -> usize
        requires { k ≤ 3 * self.now.depth }
        ensures value { result ≡ slice_index self.now.ends k }
        ensures few { result ≤ 2 ^ 31 }
    {
        // The contract alone names these.
        let _ = &self.depth;
        let _ = &self.values;
        self.ends[k as usize]
    }

    /// The coefficients outside the lowest subband.
    pub fn outside(&self) -> &[i32]
        ensures value { result.now ≡ outside_of self.now }
        ensures count { length result.now ≡ slice_index self.now.ends (3 * self.now.depth)
            - slice_index self.now.ends 0 }
        ensures small { All (Within (2 ^ 27)) result.now }
    {
        &self.values[self.ends[0]..self.ends[3 * self.depth as usize]]
    }

    /// Lists the slice's values outside the lowest subband and their places in the table of pairs, and tells how many there are.
    pub fn list(&self, matrix: &Matrix, index: u32, out: &mut [i32], places: &mut [u8]) -> usize
        requires index { index ≤ 127 }
        requires entries { matrix.now.depth ≡ self.now.depth }
        requires room { slice_index self.now.ends (3 * self.now.depth) ≤ length out.old }
        requires room_places { slice_index self.now.ends (3 * self.now.depth) ≤ length places.old }
        ensures most { result ≤ slice_index self.now.ends (3 * self.now.depth) }
        ensures listed { take result out.new ≡ gathered_values self.now matrix.now index }
        ensures places { take result places.new
            ≡ places_of_values (gathered_values self.now matrix.now index) }
        ensures small { All IsIn32 (gathered_values self.now matrix.now index) }
    {
        let mut place = 0;
        for k in 1..3 * self.depth + 1 {
            let quantiser = quantiser_at(matrix, index, k);
            let band = self.band(k);
            quantise_at(band, quantiser, out, places, place);
            place += band.len();
        }
        place
    }

    /// Lists those of two components in turn.
    pub fn list_pair(
        &self,
        second: &Gathered,
        matrix: &Matrix,
        index: u32,
        out: &mut [i32],
        places: &mut [u8],
    ) -> usize
        requires index { index ≤ 127 }
        requires entries { matrix.now.depth ≡ self.now.depth }
        requires depth { second.now.depth ≡ self.now.depth }
        requires ends { (k : ℕ) → k ≤ 3 * self.now.depth
            → slice_index second.now.ends k ≡ slice_index self.now.ends k }
        requires room { 2 * slice_index self.now.ends (3 * self.now.depth) ≤ length out.old }
        requires room_places { 2 * slice_index self.now.ends (3 * self.now.depth)
            ≤ length places.old }
        ensures most { result ≤ 2 * slice_index self.now.ends (3 * self.now.depth) }
        ensures listed { take result out.new
            ≡ gathered_pairs self.now second.now matrix.now index }
        ensures places { take result places.new
            ≡ places_of_values (gathered_pairs self.now second.now matrix.now index) }
        ensures small { All IsIn32 (gathered_pairs self.now second.now matrix.now index) }
    {
        // The contract alone names it.
        let _ = &second.depth;
        let mut place = 0;
        for k in 1..3 * self.depth + 1 {
            let quantiser = quantiser_at(matrix, index, k);
            let band = self.band(k);
            quantise_pair_at(band, second.band(k), quantiser, out, places, place);
            place += 2 * band.len();
        }
        place
    }

    // The value in a place of those outside the lowest subband, and 0 behind them.
    fn value_at(&self, matrix: &Matrix, index: u32, place: usize) -> i32
        requires index { index ≤ 127 }
        requires entries { matrix.now.depth ≡ self.now.depth }
        ensures { result ≡ get_or (gathered_values self.now matrix.now index) place (pos 0) }
    {
        let mut left = place;
        for k in 1..3 * self.depth + 1 {
            let band = self.band(k);
            if left < band.len() {
                let quantiser = quantiser_at(matrix, index, k);
                return quantised_number(band[left], scale_of(quantiser), quantiser);
            }
            left -= band.len();
        }
        0
    }

    /// The value with this number of those outside the lowest subband, counted from 1.
    pub fn value_numbered(&self, matrix: &Matrix, index: u32, number: u64) -> i32
        requires index { index ≤ 127 }
        requires entries { matrix.now.depth ≡ self.now.depth }
        ensures { 0 < number
            → result ≡ get_or (gathered_values self.now matrix.now index) (number - 1) (pos 0) }
    {
        if number == 0 {
            return 0;
        }
        self.value_at(matrix, index, number as usize - 1)
    }

    /// The same of those of two components in turn.
    pub fn pair_value_numbered(
        &self,
        second: &Gathered,
        matrix: &Matrix,
        index: u32,
        number: u64,
    ) -> i32
        requires index { index ≤ 127 }
        requires entries { matrix.now.depth ≡ self.now.depth }
        requires depth { second.now.depth ≡ self.now.depth }
        requires ends { (k : ℕ) → k ≤ 3 * self.now.depth
            → slice_index second.now.ends k ≡ slice_index self.now.ends k }
        ensures { 0 < number → result
            ≡ get_or (gathered_pairs self.now second.now matrix.now index) (number - 1) (pos 0) }
    {
        // The contract alone names these.
        let _ = &self.depth;
        let _ = &second.depth;
        if number == 0 {
            return 0;
        }
        let place = number as usize - 1;
        if place % 2 == 0 {
            return self.value_at(matrix, index, place / 2);
        }
        second.value_at(matrix, index, place / 2)
    }
}

impl GatheredSlice {
    /// Room for the coefficients of the greatest slice of a picture.
    pub fn new(
        alloc: Global,
        layout: &Layout,
        shape: &PictureShape,
    ) -> Result<GatheredSlice, NoMemory>
        ensures { IfOk result (λ g. CanHoldAll layout.now shape.now g) }
    {
        Ok(GatheredSlice {
            luma: Gathered::new(alloc, layout, shape.luma)?,
            c1: Gathered::new(alloc, layout, shape.colour)?,
            c2: Gathered::new(alloc, layout, shape.colour)?,
            lowest: NO_RECTS,
            luma_sizes: Sizes::new(alloc, most_places(layout, shape.luma))?,
            colour_sizes: Sizes::new(alloc, 2 * most_places(layout, shape.colour))?,
            luma_rects: SliceRects::new(alloc, layout, shape.luma)?,
            colour_rects: SliceRects::new(alloc, layout, shape.colour)?,
        })
    }

    // Takes the magnitudes, and notes where the slice lies.
    fn take_sizes(&mut self, job: SliceJob<'_>)
        requires across { job.sx < job.layout.now.slices_x }
        requires down { job.sy < job.layout.now.slices_y }
        requires luma_rects { self.old.luma_rects ≡ record
            { slicing = job.layout.now; size = job.shape.now.luma } }
        requires colour_rects { self.old.colour_rects ≡ record
            { slicing = job.layout.now; size = job.shape.now.colour } }
        requires luma { job.matrix.now.depth ≡ self.old.luma.depth }
        requires c1 { job.matrix.now.depth ≡ self.old.c1.depth }
        requires c2 { job.matrix.now.depth ≡ self.old.c2.depth }
        requires ends { (k : ℕ) → k ≤ 3 * self.old.c1.depth
            → slice_index self.old.c2.ends k ≡ slice_index self.old.c1.ends k }
        requires luma_room { slice_index self.old.luma.ends (3 * self.old.luma.depth)
            ≤ length self.old.luma_sizes.values }
        requires colour_room { 2 * slice_index self.old.c1.ends (3 * self.old.c1.depth)
            ≤ length self.old.colour_sizes.values }
        ensures luma { self.new.luma ≡ self.old.luma }
        ensures c1 { self.new.c1 ≡ self.old.c1 }
        ensures c2 { self.new.c2 ≡ self.old.c2 }
        ensures luma_rects { self.new.luma_rects ≡ self.old.luma_rects }
        ensures colour_rects { self.new.colour_rects ≡ self.old.colour_rects }
        ensures luma_room { length self.new.luma_sizes.values
            ≡ length self.old.luma_sizes.values }
        ensures colour_room { length self.new.colour_sizes.values
            ≡ length self.old.colour_sizes.values }
        ensures lowest { (c : Trio) → AreLowRects (picture_of job.entry c) job.entry.sx
            job.entry.sy self.new.lowest }
        ensures sizes { HasSizes self.new job.entry.matrix.now }
    {
        self.lowest = LowRects {
            luma: self.luma_rects.rect(0, job.sx, job.sy),
            colour: self.colour_rects.rect(0, job.sx, job.sy),
        };
        self.luma_sizes.take_one(&self.luma, job.matrix);
        self.colour_sizes.take_two(&self.c1, &self.c2, job.matrix);
    }

    /// Gathers the coefficients of a slice from rows.
    pub fn gather(&mut self, job: SliceJob<'_>, coefficients: &Trio)
        requires across { job.sx < job.layout.now.slices_x }
        requires down { job.sy < job.layout.now.slices_y }
        requires given { AreGiven (picture_of job coefficients.now) }
        requires room { CanHoldAll job.layout.now job.shape.now self.old }
        ensures room { CanHoldAll job.entry.layout.now job.entry.shape.now self.new }
        ensures gathered { AreAllGathered (picture_of job.entry coefficients.now) job.entry.sx
            job.entry.sy self.new }
    {
        let (sx, sy) = (job.sx, job.sy);
        let _depth = job.layout.depth();
        // What was gathered before, whose rules say how many values there are at most.
        let _luma = self.luma.depth();
        let _colour = self.c1.depth();
        let luma_ends = self.luma_rects.ends(sx, sy);
        let ends = self.colour_rects.ends(sx, sy);
        self.luma
            .take_rects(&self.luma_rects, sx, sy, &luma_ends, &coefficients.luma);
        self.c1
            .take_rects(&self.colour_rects, sx, sy, &ends, &coefficients.c1);
        self.c2
            .take_rects(&self.colour_rects, sx, sy, &ends, &coefficients.c2);
        self.take_sizes(job);
    }

    /// Takes the coefficients of a slice from lists.
    pub fn take_lists(&mut self, job: SliceJob<'_>, luma: &[i32], c1: &[i32], c2: &[i32])
        ghost coefficients: { Trio }
        requires across { job.sx < job.layout.now.slices_x }
        requires down { job.sy < job.layout.now.slices_y }
        requires given { AreGiven (picture_of job coefficients) }
        requires luma { HoldsSlice job.layout.now job.shape.now.luma coefficients.luma job.sx
            job.sy luma.now }
        requires c1 { HoldsSlice job.layout.now job.shape.now.colour coefficients.c1 job.sx job.sy
            c1.now }
        requires c2 { HoldsSlice job.layout.now job.shape.now.colour coefficients.c2 job.sx job.sy
            c2.now }
        requires room { CanHoldAll job.layout.now job.shape.now self.old }
        ensures room { CanHoldAll job.entry.layout.now job.entry.shape.now self.new }
        ensures gathered { AreAllGathered (picture_of job.entry coefficients) job.entry.sx
            job.entry.sy self.new }
    {
        let (sx, sy) = (job.sx, job.sy);
        let _depth = job.layout.depth();
        // What was gathered before, whose rules say how many values there are at most.
        let _luma = self.luma.depth();
        let _colour = self.c1.depth();
        let luma_ends = self.luma_rects.ends(sx, sy);
        let ends = self.colour_rects.ends(sx, sy);
        self.luma
            .take_list(&self.luma_rects, sx, sy, &luma_ends, luma);
        self.c1.take_list(&self.colour_rects, sx, sy, &ends, c1);
        self.c2.take_list(&self.colour_rects, sx, sy, &ends, c2);
        self.take_sizes(job);
    }

    /// What its values hold at an index.
    pub fn looks(&self, matrix: &Matrix, index: u32, limits: &mut SliceLimits) -> Looks
        requires index { index ≤ 127 }
        requires luma { matrix.now.depth ≡ self.now.luma.depth }
        requires c1 { matrix.now.depth ≡ self.now.c1.depth }
        requires c2 { matrix.now.depth ≡ self.now.c2.depth }
        requires ends { (k : ℕ) → k ≤ 3 * self.now.c1.depth
            → slice_index self.now.c2.ends k ≡ slice_index self.now.c1.ends k }
        requires sizes { HasSizes self.now matrix.now }
        ensures { AreLooks result self.now matrix.now index }
    {
        // The rules of what was gathered; the contract alone names the matrix.
        let _ = (self.luma.depth(), self.c1.depth(), self.c2.depth());
        let _ = matrix;
        Looks {
            luma: self.luma_sizes.look(index, &mut limits.luma),
            colour: self.colour_sizes.look(index, &mut limits.colour),
        }
    }

    /// What the slice needs at least at an index by the looks at its values and the first residuals, whatever is restored
    /// of it.
    pub fn low(&self, matrix: &Matrix, index: u32, looks: Looks, firsts: FirstResiduals) -> Lower
        requires index { index ≤ 127 }
        requires looks { AreLooks looks self.now matrix.now index }
        requires small { AreSmallFirsts firsts }
        ensures value { result ≡ gathered_low self.now firsts matrix.now index }
        ensures few_luma { result.luma ≤ 2 ^ 40 }
        ensures few_colour { result.colour ≤ 2 ^ 40 }
    {
        let quantiser = matrix.quantiser(index, 0, Orient::Ll);
        let more = bits_beyond(firsts.c1, quantiser) + bits_beyond(firsts.c2, quantiser);
        let lumas = self.luma.lowest() + bits_beyond(firsts.luma, quantiser);
        let colours = 2 * self.c1.lowest() + more;
        let luma = behind(lumas, looks.luma.reach());
        let colour = behind(colours, looks.colour.reach());
        Lower {
            luma: luma.saturating_sub(3),
            colour: colour.saturating_sub(3),
        }
    }
}
