// The magnitudes of a slice's coefficients, by which it is told at every index how far codes reach.

ghost use Rattle.std.specs.Prelude.{◌≡◌, ℕ, ◌+◌, ◌-◌, ◌*◌, ◌/◌, ◌%◌, ◌^◌, ◌<◌, ◌≤◌, ◌==◌, length, map, slice_index, slice_index_or, take, drop, min, pos, true, unsigned_abs, if◌then◌else◌, IfOk, List, ℤ};
ghost use Rattle.std.specs.List.{All};
ghost use Rattle.planes.specs.Numbers.{Within};
ghost use Rattle.planes.specs.Valued.{valued};
ghost use Rattle.slice_encoder.specs.Gathering.{quantised, gathered_values, gathered_pairs};
ghost use Rattle.slice_encoder.specs.Limits.{AreSizesTo, IsCut};
ghost use Rattle.slice_encoder.specs.Looks.{IsLook};
ghost use Rattle.slice_encoder.specs.Sizes.{AreSizes, size_values, turn_at};

use crate::gathered::Gathered;
use crate::limits::{LimitRows, NO_KEY, RowKey, padded};
use crate::looks::{Look, NO_LOOK};
use crate::magnitudes::Magnitude;
use crate::scale_rows::{SHORT_END, ScaleRows};
use planes::NoMemory;
use quant_factors::Matrix;
use std::alloc::Global;
use std::marker::Model;

// The most places that have limits together, of either width.
const ROW: usize = 1024;

const LONG_ROW: usize = 256;

/// The magnitudes of a list of a slice outside its lowest subbands, band by band in the order of its values.
#[derive(Drop)]
pub struct Sizes {
    depth: u32,
    ends: [usize; 13],
    // The bands at the front that together have few places, and the entries of all.
    key: RowKey,
    top: u32,
    is_short: bool,
    short: Vec<i16>,
    long: Vec<i32>,
}

impl Model for Sizes {
    ghost use Rattle.slice_encoder.specs.Sizes.{SizesSeen, HoldsSizes, shown};

    ghost Value = { SizesSeen };

    ghost view = { λ s. record { depth = s.depth; ends = s.ends; entries = s.key.entries; values = shown s.is_short s.short.items s.long.items } };

    ghost invariant = { λ s. HoldsSizes s.depth s.ends s.key s.top s.is_short s.short.items s.long.items };
}

/// The limits of a list, for magnitudes of either width.
#[derive(Drop)]
pub struct ListLimits {
    short: LimitRows<i16>,
    long: LimitRows<i32>,
}

impl ListLimits {
    /// Limits for lists of so many places.
    pub fn new(alloc: Global, places: usize) -> Result<ListLimits, NoMemory> {
        Ok(ListLimits {
            short: LimitRows::new(alloc, places, ROW)?,
            long: LimitRows::new(alloc, places, LONG_ROW)?,
        })
    }
}

// Puts the magnitudes of coefficients at the front, and tells the greatest.
#[inline(always)]
fn put_sizes<T: Magnitude>(coefficients: &[i32], out: &mut [T]) -> u32
    requires room { length coefficients.now ≤ length out.old }
    requires small { All (Within (2 ^ 27)) coefficients.now }
    ensures sizes { (p : ℕ) → p < length coefficients.now → valued T.value T.none out.new p
        ≡ pos (min (unsigned_abs (slice_index_or coefficients.now p (pos 0))) T.greatest) }
    ensures rest { (p : ℕ) → length coefficients.now ≤ p
        → valued T.value T.none out.new p ≡ valued T.value T.none out.old p }
    ensures top { (p : ℕ) → p < length coefficients.now
        → unsigned_abs (slice_index_or coefficients.now p (pos 0)) ≤ result }
    ensures most { result ≤ 2 ^ 27 }
{
    let mut top = 0;
    for place in 0..coefficients.len() {
        let size = coefficients[place].unsigned_abs();
        out[place] = T::clipped(size);
        top = size.max(top);
    }
    top
}

// Puts those of two components in turn.
#[inline(always)]
fn put_pairs<T: Magnitude>(first: &[i32], second: &[i32], out: &mut [T]) -> u32
    requires same { length second.now ≡ length first.now }
    requires room { 2 * length first.now ≤ length out.old }
    requires first_small { All (Within (2 ^ 27)) first.now }
    requires second_small { All (Within (2 ^ 27)) second.now }
    ensures sizes { (p : ℕ) → p < 2 * length first.now → valued T.value T.none out.new p
        ≡ pos (min (unsigned_abs (turn_at first.now second.now p)) T.greatest) }
    ensures rest { (p : ℕ) → 2 * length first.now ≤ p
        → valued T.value T.none out.new p ≡ valued T.value T.none out.old p }
    ensures top { (p : ℕ) → p < 2 * length first.now
        → unsigned_abs (turn_at first.now second.now p) ≤ result }
    ensures most { result ≤ 2 ^ 27 }
{
    let mut top = 0;
    for place in 0..first.len() {
        let one = first[place].unsigned_abs();
        let two = second[place].unsigned_abs();
        out[2 * place] = T::clipped(one);
        out[2 * place + 1] = T::clipped(two);
        top = one.max(two).max(top);
    }
    top
}

// Where each band ends in a list that takes so many values of each place.
fn ends_of(gathered: &Gathered, each: usize) -> [usize; 13]
    requires { each ≤ 2 }
    ensures count { length result ≡ 13 }
    ensures ends { (k : ℕ) → k ≤ 3 * gathered.now.depth → slice_index result k
        ≡ each * (slice_index gathered.now.ends k - slice_index gathered.now.ends 0) }
{
    let mut ends = [0; 13];
    for k in 1..3 * gathered.depth() + 1 {
        ends[k as usize] = each * (gathered.end(k) - gathered.end(0));
    }
    ends
}

// The key of the bands at the front that together have at most so many places as a row has.
fn key_of(ends: &[usize; 13], matrix: &Matrix) -> RowKey
    requires start { slice_index ends.now 0 ≡ 0 }
    requires rise { (k : ℕ) → 1 ≤ k → k ≤ 3 * matrix.now.depth
        → slice_index ends.now (k - 1) ≤ slice_index ends.now k }
    ensures cut { IsCut result }
    ensures front { result.front ≤ 3 * matrix.now.depth }
    ensures ends { (k : ℕ) → k ≤ result.front
        → slice_index result.ends k ≡ slice_index ends.now k }
    ensures entries { (k : ℕ) → 1 ≤ k → k ≤ 3 * matrix.now.depth
        → slice_index result.entries k ≡ min (slice_index matrix.now.entries k) 127 }
{
    let mut key = NO_KEY;
    let entries = matrix.entries();
    for k in 1..3 * matrix.depth() + 1 {
        key.entries[k as usize] = entries[k as usize].min(127) as u8;
        let end = ends[k as usize];
        key.ends[k as usize] = end.min(65535) as u16;
        if end <= ROW {
            key.front = k;
        }
    }
    key
}

// Looks at the magnitudes of a band that has many, piece by piece.
fn look_at_band<T: Magnitude>(sizes: &[T], top: u32, index: u32, limits: &mut LimitRows<T>) -> Look
    requires index { index ≤ 127 }
    requires few { length sizes.now ≤ 2 ^ 33 }
    requires small { top ≤ T.TOP }
    requires top { AreSizesTo top (map T.value sizes.now) }
    ensures look { IsLook result (quantised index (map T.value sizes.now)) }
    ensures some { result.some ≤ 2 ^ 40 }
    ensures more { result.more ≤ 2 ^ 45 }
    ensures room { limits.new ≡ limits.old }
{
    let mut look = NO_LOOK;
    let room = limits.room();
    for n in 0..sizes.len().div_ceil(room) {
        let from = n * room;
        let to = (from + room).min(sizes.len());
        let mut key = NO_KEY;
        key.front = 1;
        key.ends[1] = (to - from) as u16;
        look = look.then(from, limits.look(&key, index, &sizes[from..to], top));
    }
    look
}

// Whether magnitudes up to a greatest one are quantised by products of 16 bits.
#[inline(always)]
fn are_small(is_short: bool, top: u32) -> bool
    ensures short { result ≡ true → is_short ≡ true }
    ensures top { result ≡ true → top < 2 ^ 13 }
{
    is_short && top < SHORT_END
}

impl Sizes {
    /// Room for so many.
    pub fn new(alloc: Global, places: usize) -> Result<Sizes, NoMemory>
        requires { places ≤ 2 ^ 32 }
        ensures { IfOk result (λ s. places ≤ length s.values) }
    {
        Ok(Sizes {
            depth: 0,
            ends: [0; 13],
            key: NO_KEY,
            top: 0,
            is_short: true,
            short: Vec::from_elem(alloc, 0i16, padded(places))?,
            long: Vec::from_elem(alloc, 0i32, padded(places))?,
        })
    }

    /// Takes those of a component.
    pub fn take_one(&mut self, gathered: &Gathered, matrix: &Matrix)
        requires depth { matrix.now.depth ≡ gathered.now.depth }
        requires room { slice_index gathered.now.ends (3 * gathered.now.depth)
            ≤ length self.old.values }
        ensures room { length self.new.values ≡ length self.old.values }
        ensures sizes { AreSizes self.new (gathered_values gathered.now matrix.now) }
    {
        self.depth = gathered.depth();
        self.ends = ends_of(gathered, 1);
        self.key = key_of(&self.ends, matrix);
        let values = gathered.outside();
        self.top = put_sizes(values, &mut self.short);
        self.is_short = self.top <= i16::TOP;
        if !self.is_short {
            self.top = put_sizes(values, &mut self.long);
        }
    }

    /// Takes those of two components in turn.
    pub fn take_two(&mut self, first: &Gathered, second: &Gathered, matrix: &Matrix)
        requires depth { matrix.now.depth ≡ first.now.depth }
        requires second_depth { second.now.depth ≡ first.now.depth }
        requires ends { (k : ℕ) → k ≤ 3 * first.now.depth
            → slice_index second.now.ends k ≡ slice_index first.now.ends k }
        requires room { 2 * slice_index first.now.ends (3 * first.now.depth)
            ≤ length self.old.values }
        ensures room { length self.new.values ≡ length self.old.values }
        ensures sizes { AreSizes self.new (gathered_pairs first.now second.now matrix.now) }
    {
        // The contract alone names it.
        let _depth = second.depth();
        self.depth = first.depth();
        self.ends = ends_of(first, 2);
        self.key = key_of(&self.ends, matrix);
        let (one, two) = (first.outside(), second.outside());
        self.top = put_pairs(one, two, &mut self.short);
        self.is_short = self.top <= i16::TOP;
        if !self.is_short {
            self.top = put_pairs(one, two, &mut self.long);
        }
    }

    // Looks at them, those in the bands at the front together.
    #[inline(always)]
    fn look_by<T: Magnitude>(
        &self,
        sizes: &[T],
        top: u32,
        index: u32,
        limits: &mut LimitRows<T>,
    ) -> Look
        requires index { index ≤ 127 }
        requires sizes { map T.value sizes.now ≡ self.now.values }
        requires small { top ≤ T.TOP }
        requires top { AreSizesTo top (take (slice_index self.now.ends (3 * self.now.depth))
            self.now.values) }
        requires all { AreSizesTo T.greatest self.now.values }
        ensures { IsLook result (size_values self.now index) }
    {
        let places = padded(self.key.places());
        let mut look = NO_LOOK;
        let mut front = 0;
        if places <= limits.room().min(sizes.len()) {
            look = limits.look(&self.key, index, &sizes[..places], top);
            front = self.key.front;
        }
        for k in front + 1..3 * self.depth + 1 {
            let (from, to) = (self.ends[k as usize - 1], self.ends[k as usize]);
            let quantiser = self.key.quantiser(index, k);
            let band = look_at_band(&sizes[from..to], top, quantiser, limits);
            look = look.then(from, band);
        }
        look
    }

    /// Quantises so many at the front by a row, if they are small enough and it has room for all places, and tells whether
    /// it does.
    pub fn quantise(&self, index: u32, count: usize, rows: &mut ScaleRows, out: &mut [u16]) -> bool
        requires index { index ≤ 127 }
        requires count { count ≤ length (size_values self.now index) }
        ensures { result ≡ true → (p : ℕ) → p < count → slice_index out.new p
            ≡ unsigned_abs (slice_index_or (size_values self.now index) p (pos 0)) }
    {
        let room = rows.room();
        if !are_small(self.is_short, self.top) || self.key.front < 3 * self.depth {
            return false;
        }
        let places = padded(count);
        if self.key.places().max(places) > room || places > self.short.len().min(out.len()) {
            return false;
        }
        rows.quantise(&self.key, index, &self.short[..places], &mut out[..places]);
        true
    }

    /// What the list holds at an index.
    pub fn look(&self, index: u32, limits: &mut ListLimits) -> Look
        requires index { index ≤ 127 }
        ensures { (vs : List ℤ) → map unsigned_abs (size_values self.now index)
            ≡ map unsigned_abs vs → IsLook result vs }
    {
        if self.is_short {
            self.look_by(&self.short, self.top, index, &mut limits.short)
        } else {
            self.look_by(&self.long, self.top, index, &mut limits.long)
        }
    }
}
