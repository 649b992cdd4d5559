// Limits that magnitudes are held against: a value's code is the longer the more of them its coefficient passes. Those of an
// index are kept, a row of places for each limit.

ghost use Rattle.std.specs.Prelude.{◌≡◌, ℕ, ◌+◌, ◌*◌, ◌/◌, ◌%◌, ◌^◌, ◌<◌, ◌≤◌, min, pos, length, take, map, true, IfOk};
ghost use Rattle.quant_factors.specs.Factors.{factor_of};
ghost use Rattle.planes.specs.Valued.{valued};
ghost use Rattle.slice_encoder.specs.Limits.{limit_at, padded_count, quantiser_in, places_in, key_values, AreSizesTo, IsCut, IsFinest, IsLimitPart};
ghost use Rattle.slice_encoder.specs.Looks.{IsLook};

use crate::looks::{Look, count_above, look_four};
use crate::magnitudes::Magnitude;
use crate::scales::{quantised_magnitude, scale_of};
use planes::NoMemory;
use quant_factors::factor;
use std::alloc::Global;
use std::marker::Model;

/// What the limits of places follow from besides the index of the slice: how many bands there are, where each ends, and its
/// entry in the matrix, or 127. There are sixteen of each, so that two keys are compared by a few vectors.
#[derive(Clone, Copy)]
pub struct RowKey {
    pub front: u32,
    pub ends: [u16; 16],
    pub entries: [u8; 16],
}

/// The key of no place.
pub const NO_KEY: RowKey = RowKey {
    front: 0,
    ends: [0; 16],
    entries: [0; 16],
};

/// So many places, and those that fill up the last sixteen: a loop that takes eight or sixteen at a time has no others left.
#[inline(always)]
pub fn padded(places: usize) -> usize
    requires { places < 2 ^ 40 }
    ensures value { result ≡ padded_count places }
    ensures least { places ≤ result }
{
    (places + 15) / 16 * 16
}

// The greatest magnitude whose quantised value, and one more, is below 2^k.
#[inline(always)]
fn limit_of<T: Magnitude>(k: usize, index: u32) -> T
    requires some { 1 ≤ k }
    requires most { k ≤ 27 }
    requires index { index ≤ 127 }
    ensures { T.value result ≡ pos (min (limit_at k index) T.greatest) }
{
    let limit = (((1 << k) - 1) * factor(index) - 1) / 4;
    T::clipped(limit.min(4294967295) as u32)
}

// How many limits magnitudes up to this one may pass at an index, and four at least.
#[inline(always)]
fn limits_asked(top: u32, index: u32) -> u32
    requires index { index ≤ 127 }
    requires small { top ≤ 2 ^ 27 }
    ensures some { 4 ≤ result }
    ensures all { 4 * top / factor_of index + 1 < 2 * 2 ^ result }
    ensures few { (n : ℕ) → 4 ≤ n → top + 1 < 2 * 2 ^ n → result ≤ n }
{
    let most = quantised_magnitude(top as i32, scale_of(index), index) as u64 + 1;
    most.ilog2().max(4)
}

// Whether two lists are the same. It has no branch, so that many numbers are held against each other at a time.
#[inline(always)]
fn are_ends(first: &[u16; 16], second: &[u16; 16]) -> bool
    ensures { result ≡ true → first.now ≡ second.now }
{
    let mut same = true;
    for k in 0..16 {
        same = same & (first[k] == second[k]);
    }
    same
}

#[inline(always)]
fn are_entries(first: &[u8; 16], second: &[u8; 16]) -> bool
    ensures { result ≡ true → first.now ≡ second.now }
{
    let mut same = true;
    for k in 0..16 {
        same = same & (first[k] == second[k]);
    }
    same
}

impl RowKey {
    // Whether another is the same.
    #[inline(always)]
    pub fn is(&self, other: &RowKey) -> bool
        ensures { result ≡ true → self.now ≡ other.now }
    {
        self.front == other.front
            && are_ends(&self.ends, &other.ends)
            && are_entries(&self.entries, &other.entries)
    }

    /// The quantiser of band number k.
    #[inline(always)]
    pub fn quantiser(&self, index: u32, k: u32) -> u32
        requires { k ≤ 12 }
        ensures value { result ≡ quantiser_in self.now index k }
        ensures most { result ≤ index }
    {
        index.saturating_sub(u32::from(self.entries[k as usize]))
    }

    /// How many places there are.
    #[inline(always)]
    pub fn places(&self) -> usize
        requires { self.now.front ≤ 12 }
        ensures value { result ≡ places_in self.now }
        ensures few { result < 2 ^ 16 }
    {
        usize::from(self.ends[self.front as usize])
    }
}

// The least quantiser of a band.
fn finest_of(key: &RowKey, index: u32) -> u32
    requires cut { IsCut key.now }
    ensures least { IsFinest key.now index result }
    ensures most { result ≤ 127 }
{
    let mut finest = 127;
    for k in 1..key.front + 1 {
        finest = key.quantiser(index, k).min(finest);
    }
    finest
}

// Writes a limit at the places from one to another.
#[inline(always)]
fn fill<T: Magnitude>(limits: &mut [T], from: usize, to: usize, limit: T)
    requires order { from ≤ to }
    requires inside { to ≤ length limits.old }
    ensures inside { (p : ℕ) → from ≤ p → p < to → valued T.value T.none limits.new p ≡ T.value limit }
    ensures before { (p : ℕ) → p < from
        → valued T.value T.none limits.new p ≡ valued T.value T.none limits.old p }
{
    for p in from..to {
        limits[p] = limit;
    }
}

// Writes limit number k of all places.
fn fill_part<T: Magnitude>(limits: &mut [T], key: &RowKey, index: u32, k: usize)
    requires cut { IsCut key.now }
    requires index { index ≤ 127 }
    requires number { k < 27 }
    requires room { padded_count (places_in key.now) ≤ length limits.old }
    requires few { length limits.old ≤ 1024 }
    ensures { IsLimitPart (valued T.value T.none limits.new) T.greatest key.now index k }
{
    let mut from = 0;
    for b in 1..key.front + 1 {
        let to = usize::from(key.ends[b as usize]);
        fill(limits, from, to, limit_of(k + 1, key.quantiser(index, b)));
        from = to;
    }
    fill(limits, from, padded(from), T::clipped(4294967295));
}

/// The limits of places. Contracts see what they were made for, and for how many places there is room.
#[derive(Drop)]
struct LimitRow<T: Magnitude> {
    key: RowKey,
    index: u32,
    // No band's quantiser is less.
    finest: u32,
    room: usize,
    limits: Vec<T>,
}

impl<T: Magnitude> Model for LimitRow<T> {
    ghost use Rattle.slice_encoder.specs.Limits.{LimitRowSeen, IsLimitRow};

    ghost Value = { LimitRowSeen };

    ghost view = { λ r. record { key = r.key; index = r.index; room = r.room } };

    ghost invariant = { λ r. IsLimitRow T.value T.none T.LIMITS T.greatest r.key r.index r.finest r.room r.limits.items };
}

impl<T: Magnitude> LimitRow<T> {
    // A row of no place, with room for some.
    fn new(alloc: Global, room: usize) -> Result<LimitRow<T>, NoMemory>
        requires { room ≤ 1024 }
        ensures { IfOk result (λ r. r.room ≡ room) }
    {
        Ok(LimitRow {
            key: NO_KEY,
            index: 0,
            finest: 0,
            room,
            limits: T::zeros(alloc, T::LIMITS * room)?,
        })
    }

    // Whether it was made for this.
    #[inline(always)]
    fn is_for(&self, key: &RowKey, index: u32) -> bool
        ensures key { result ≡ true → self.now.key ≡ key.now }
        ensures index { result ≡ true → self.now.index ≡ index }
    {
        self.index == index && self.key.is(key)
    }

    // Makes the limits anew.
    #[inline(never)]
    fn learn(&mut self, key: &RowKey, index: u32)
        requires cut { IsCut key.now }
        requires index { index ≤ 127 }
        requires room { padded_count (places_in key.now) ≤ self.old.room }
        ensures key { self.new.key ≡ key.now }
        ensures index { self.new.index ≡ index }
        ensures room { self.new.room ≡ self.old.room }
    {
        self.key = *key;
        self.index = index;
        self.finest = finest_of(key, index);
        let room = self.room;
        for k in 0..T::LIMITS {
            fill_part(&mut self.limits[k * room..k * room + room], key, index, k);
        }
    }

    // Holds magnitudes up to a greatest one against the limits.
    #[inline(always)]
    fn look(&self, sizes: &[T], top: u32) -> Look
        requires some { places_in self.now.key ≤ length sizes.now }
        requires most { length sizes.now ≤ padded_count (places_in self.now.key) }
        requires room { padded_count (places_in self.now.key) ≤ self.now.room }
        requires small { top ≤ T.TOP }
        requires top { AreSizesTo top (take (places_in self.now.key) (map T.value sizes.now)) }
        requires all { AreSizesTo T.greatest (map T.value sizes.now) }
        ensures look { IsLook result (key_values self.now.key self.now.index (map T.value sizes.now)) }
        ensures some { result.some ≤ 1024 }
        ensures more { result.more ≤ 27 * 1024 }
        ensures last { result.last ≤ 1024 }
    {
        let n = sizes.len();
        let room = self.room;
        let limits = &self.limits[..];
        let mut look = look_four(
            sizes,
            &limits[..n],
            &limits[room..room + n],
            &limits[2 * room..2 * room + n],
            &limits[3 * room..3 * room + n],
        );
        for k in 4..limits_asked(top, self.finest) as usize {
            look.more += count_above(sizes, &limits[k * room..k * room + n]);
        }
        look
    }
}

/// Rows for many indices and cuts, which share them in turn. Contracts see for how many places each row has room.
#[derive(Drop)]
pub struct LimitRows<T: Magnitude> {
    rows: Vec<LimitRow<T>>,
    room: usize,
}

impl<T: Magnitude> Model for LimitRows<T> {
    ghost use Rattle.std.specs.Prelude.{ℕ};
    ghost use Rattle.slice_encoder.specs.Limits.{HaveRoom};

    ghost Value = { ℕ };

    ghost view = { λ r. r.room };

    ghost invariant = { λ r. HaveRoom T.ROWS r.room r.rows.items };
}

impl<T: Magnitude> LimitRows<T> {
    /// Rows for lists of so many places, and for so many at most.
    pub fn new(alloc: Global, places: usize, most: usize) -> Result<LimitRows<T>, NoMemory>
        requires some { 16 ≤ most }
        requires most { most ≤ 1024 }
        requires whole { most % 16 ≡ 0 }
    {
        let room = padded(places.min(1024)).clamp(16, most);
        let mut rows = Vec::new(alloc);
        for _ in 0..T::ROWS {
            rows.push(LimitRow::new(alloc, room)?)?;
        }
        Ok(LimitRows { rows, room })
    }

    /// For how many places each row has room.
    #[inline(always)]
    pub fn room(&self) -> usize
        ensures value { result ≡ self.now }
        ensures some { 16 ≤ result }
        ensures most { result ≤ 1024 }
        ensures whole { result % 16 ≡ 0 }
    {
        self.room
    }

    /// Holds magnitudes up to a greatest one against the limits of a key at an index.
    #[inline(always)]
    pub fn look(&mut self, key: &RowKey, index: u32, sizes: &[T], top: u32) -> Look
        requires cut { IsCut key.now }
        requires index { index ≤ 127 }
        requires some { places_in key.now ≤ length sizes.now }
        requires most { length sizes.now ≤ padded_count (places_in key.now) }
        requires room { padded_count (places_in key.now) ≤ self.old }
        requires small { top ≤ T.TOP }
        requires top { AreSizesTo top (take (places_in key.now) (map T.value sizes.now)) }
        requires all { AreSizesTo T.greatest (map T.value sizes.now) }
        ensures look { IsLook result (key_values key.now index (map T.value sizes.now)) }
        ensures some { result.some ≤ 1024 }
        ensures more { result.more ≤ 27 * 1024 }
        ensures last { result.last ≤ 1024 }
        ensures room { self.new ≡ self.old }
    {
        let n = (index as usize + 37 * key.places()) % T::ROWS;
        let row = &mut self.rows[n];
        if !row.is_for(key, index) {
            row.learn(key, index);
        }
        row.look(sizes, top)
    }
}
