// Magnitudes quantised by two products of 16 bits, each by the numbers of its place. With nothing wider in it a loop goes on
// eight places at a time. The numbers of an index are kept, a row of places for each of the two.

ghost use Rattle.std.specs.Prelude.{◌≡◌, ℕ, ◌-◌, ◌*◌, ◌/◌, ◌%◌, ◌^◌, ◌<◌, ◌≤◌, length, pos, true, slice_index, slice_index_or, unsigned_abs, IfOk};
ghost use Rattle.std.specs.Vec.{vec_len};
ghost use Rattle.quant_factors.specs.Factors.{factor_of};
ghost use Rattle.slice_encoder.specs.Limits.{quantiser_in, places_in, IsCut};
ghost use Rattle.slice_encoder.specs.ScaleRows.{Divides, AreScales, short_quotient};

use crate::limits::{NO_KEY, RowKey, padded};
use planes::NoMemory;
use quant_factors::factor;
use std::alloc::Global;
use std::marker::Model;

// How many rows there are.
const ROWS: usize = 32;

/// Magnitudes below this one are quantised so: four of them stand in 15 bits.
pub const SHORT_END: u32 = 8192;

/// Two numbers that divide by the factor of an index.
#[derive(Clone, Copy)]
struct ShortScale {
    number: u16,
    shift: u16,
}

// The numbers of an index. Where its factor passes 2^15 all quotients are 0.
fn short_scale(index: u32) -> ShortScale
    requires index { index ≤ 127 }
    ensures { Divides result.number result.shift (factor_of index) }
{
    let factor = factor(index);
    if factor > 32768 {
        return ShortScale {
            number: 0,
            shift: 0,
        };
    }
    let power = 1 << (factor - 1).ilog2();
    ShortScale {
        number: ((65536 * power + factor - 1) / factor) as u16,
        shift: (65536 / power) as u16,
    }
}

// The upper half of a product.
#[inline(always)]
fn upper(a: u16, b: u16) -> u16
    ensures value { result ≡ a * b / 2 ^ 16 }
{
    (u32::from(a) * u32::from(b) / 65536) as u16
}

// Quantises magnitudes by the numbers of their places.
fn quantise_all(sizes: &[i16], numbers: &[u16], shifts: &[u16], out: &mut [u16])
    requires same_numbers { length numbers.now ≡ length sizes.now }
    requires same_shifts { length shifts.now ≡ length sizes.now }
    requires same { length out.old ≡ length sizes.now }
    ensures { (p : ℕ) → p < length sizes.now → slice_index out.new p
        ≡ short_quotient (slice_index numbers.now p) (slice_index shifts.now p)
        (4 * unsigned_abs (slice_index_or sizes.now p (pos 0)) % 2 ^ 16) }
{
    for k in 0..sizes.len() {
        let four = sizes[k].unsigned_abs().wrapping_mul(4);
        out[k] = upper(upper(four, numbers[k]), shifts[k]);
    }
}

// Writes a number at the places from one to another.
fn fill(out: &mut [u16], from: usize, to: usize, number: u16)
    requires order { from ≤ to }
    requires inside { to ≤ length out.old }
    ensures inside { (p : ℕ) → from ≤ p → p < to → slice_index out.new p ≡ number }
    ensures before { (p : ℕ) → p < from → slice_index out.new p ≡ slice_index out.old p }
{
    for p in from..to {
        out[p] = number;
    }
}

// Writes the numbers of all places.
fn fill_row(key: &RowKey, index: u32, numbers: &mut [u16], shifts: &mut [u16])
    requires cut { IsCut key.now }
    requires index { index ≤ 127 }
    requires room { places_in key.now ≤ length numbers.old }
    requires same { length shifts.old ≡ length numbers.old }
    ensures { AreScales key.now index numbers.new shifts.new key.now.front }
{
    let mut from = 0;
    for b in 1..key.front + 1 {
        let to = usize::from(key.ends[b as usize]);
        let scale = short_scale(key.quantiser(index, b));
        fill(numbers, from, to, scale.number);
        fill(shifts, from, to, scale.shift);
        from = to;
    }
}

/// The numbers of places. Contracts see what they were made for, and for how many places there is room.
#[derive(Drop)]
struct ScaleRow {
    key: RowKey,
    index: u32,
    room: usize,
    numbers: Vec<u16>,
    shifts: Vec<u16>,
}

impl Model for ScaleRow {
    ghost use Rattle.slice_encoder.specs.Limits.{LimitRowSeen};
    ghost use Rattle.slice_encoder.specs.ScaleRows.{IsScaleRow};

    ghost Value = { LimitRowSeen };

    ghost view = { λ r. record { key = r.key; index = r.index; room = r.room } };

    ghost invariant = { λ r. IsScaleRow r.key r.index r.room r.numbers.items r.shifts.items };
}

impl ScaleRow {
    // A row of no place, with room for some.
    fn new(alloc: Global, room: usize) -> Result<ScaleRow, NoMemory>
        requires { room ≤ 1024 }
        ensures { IfOk result (λ r. r.room ≡ room) }
    {
        Ok(ScaleRow {
            key: NO_KEY,
            index: 0,
            room,
            numbers: Vec::from_elem(alloc, 0u16, room)?,
            shifts: Vec::from_elem(alloc, 0u16, room)?,
        })
    }

    // Whether it was made for this.
    #[inline(always)]
    fn is_for(&self, key: &RowKey, index: u32) -> bool
        ensures key { result ≡ true → self.now.key ≡ key.now }
        ensures index { result ≡ true → self.now.index ≡ index }
    {
        self.index == index && self.key.is(key)
    }

    // Makes the numbers anew.
    #[inline(never)]
    fn learn(&mut self, key: &RowKey, index: u32)
        requires cut { IsCut key.now }
        requires index { index ≤ 127 }
        requires room { places_in key.now ≤ self.old.room }
        ensures key { self.new.key ≡ key.now }
        ensures index { self.new.index ≡ index }
        ensures room { self.new.room ≡ self.old.room }
    {
        self.key = *key;
        self.index = index;
        fill_row(key, index, &mut self.numbers, &mut self.shifts);
    }

    // Quantises magnitudes.
    #[inline(always)]
    fn quantise(&self, sizes: &[i16], out: &mut [u16])
        requires room { length sizes.now ≤ self.now.room }
        requires same { length out.old ≡ length sizes.now }
        ensures { (b p : ℕ) → 1 ≤ b → b ≤ self.now.key.front
            → slice_index self.now.key.ends (b - 1) ≤ p → p < slice_index self.now.key.ends b
            → p < length sizes.now → unsigned_abs (slice_index_or sizes.now p (pos 0)) < 2 ^ 13
            → slice_index out.new p ≡ 4 * unsigned_abs (slice_index_or sizes.now p (pos 0))
            / factor_of (quantiser_in self.now.key self.now.index b) }
    {
        let n = sizes.len();
        quantise_all(sizes, &self.numbers[..n], &self.shifts[..n], out);
    }
}

/// Rows of numbers, and room for the magnitudes that they quantise.
#[derive(Drop)]
pub struct ScaledSizes {
    pub rows: ScaleRows,
    pub sizes: Vec<u16>,
}

impl ScaledSizes {
    /// Room for so many.
    pub fn new(alloc: Global, places: usize) -> Result<ScaledSizes, NoMemory>
        requires { places < 2 ^ 40 }
        ensures { IfOk result (λ s. places ≤ vec_len s.sizes) }
    {
        Ok(ScaledSizes {
            rows: ScaleRows::new(alloc, places)?,
            sizes: Vec::from_elem(alloc, 0u16, padded(places))?,
        })
    }
}

/// Rows for many indices and cuts, which share them in turn. Contracts see for how many places each row has room.
#[derive(Drop)]
pub struct ScaleRows {
    rows: Vec<ScaleRow>,
    room: usize,
}

impl Model for ScaleRows {
    ghost use Rattle.std.specs.Prelude.{ℕ};
    ghost use Rattle.slice_encoder.specs.Limits.{HaveRoom};

    ghost Value = { ℕ };

    ghost view = { λ r. r.room };

    ghost invariant = { λ r. HaveRoom 32 r.room r.rows.items };
}

impl ScaleRows {
    /// Rows for lists of so many places, and for 1024 at most.
    pub fn new(alloc: Global, places: usize) -> Result<ScaleRows, NoMemory> {
        let room = padded(places.min(1024)).clamp(16, 1024);
        let mut rows = Vec::new(alloc);
        for _ in 0..ROWS {
            rows.push(ScaleRow::new(alloc, room)?)?;
        }
        Ok(ScaleRows { rows, room })
    }

    /// For how many places each row has room.
    #[inline(always)]
    pub fn room(&self) -> usize
        ensures value { result ≡ self.now }
        ensures most { result ≤ 1024 }
    {
        self.room
    }

    /// Quantises magnitudes by the numbers of a key at an index.
    #[inline(always)]
    pub fn quantise(&mut self, key: &RowKey, index: u32, sizes: &[i16], out: &mut [u16])
        requires cut { IsCut key.now }
        requires index { index ≤ 127 }
        requires key { places_in key.now ≤ self.old }
        requires room { length sizes.now ≤ self.old }
        requires same { length out.old ≡ length sizes.now }
        ensures { (b p : ℕ) → 1 ≤ b → b ≤ key.now.front → slice_index key.now.ends (b - 1) ≤ p
            → p < slice_index key.now.ends b → p < length sizes.now
            → unsigned_abs (slice_index_or sizes.now p (pos 0)) < 2 ^ 13
            → slice_index out.new p ≡ 4 * unsigned_abs (slice_index_or sizes.now p (pos 0))
            / factor_of (quantiser_in key.now index b) }
    {
        let n = (index as usize + 7 * key.places()) % ROWS;
        let row = &mut self.rows[n];
        if !row.is_for(key, index) {
            row.learn(key, index);
        }
        row.quantise(sizes, out);
    }
}
