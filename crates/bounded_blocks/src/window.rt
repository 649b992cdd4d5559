//! Bits of a block at hand, from a word of 64 bits.
//!
//! A window is loaded from eight bytes, and look-ups take its top bits until fewer than they need are known. Past a block's
//! end it has ones, so that the last codes of a block are looked up as all others are.

ghost use Rattle.std.specs.Prelude.{◌≡◌, ℕ, ◌+◌, ◌-◌, ◌*◌, ◌^◌, ◌<◌, ◌≤◌, List, true, length, take, slice_index_or};
ghost use Rattle.bit_codes.specs.Bits.{bit};
ghost use Rattle.bounded_blocks.specs.Parts.{block_of, ReadsValues};
ghost use Rattle.bounded_blocks.specs.Windows.{IsWindowAt, HasBytes, IsWord};

use crate::short_codes::{ShortCodes, codes_in};

/// How many bits a window shows where it is loaded: 64 less those of the first byte that are behind.
pub(crate) const SHOWN: u32 = 57;

/// The bits from a place on: the first `shown` of a block and of the ones behind it are the top ones of the word.
#[derive(Clone, Copy)]
pub(crate) struct Window {
    pub(crate) word: u64,
    pub(crate) shown: u32,
    pub(crate) place: u64,
}

/// A window that shows nothing yet.
#[inline(always)]
pub(crate) fn window_at(place: u64) -> Window
    ensures place { result.place ≡ place }
    ensures none { result.shown ≡ 0 }
{
    Window {
        word: 0,
        shown: 0,
        place,
    }
}

/// A byte, or 255 past the end.
#[inline(always)]
fn byte_or_ones(bytes: &[u8], index: usize) -> u8
    ensures { result ≡ slice_index_or bytes.now index 255 }
{
    if index < bytes.len() {
        bytes[index]
    } else {
        255
    }
}

/// Eight bytes, of which some may be past the end.
fn last_bytes(bytes: &[u8], index: usize) -> [u8; 8]
    requires inside { index ≤ length bytes.now }
    requires room { length bytes.now ≤ 2 ^ 40 }
    ensures { HasBytes bytes.now index result }
{
    [
        byte_or_ones(bytes, index),
        byte_or_ones(bytes, index + 1),
        byte_or_ones(bytes, index + 2),
        byte_or_ones(bytes, index + 3),
        byte_or_ones(bytes, index + 4),
        byte_or_ones(bytes, index + 5),
        byte_or_ones(bytes, index + 6),
        byte_or_ones(bytes, index + 7),
    ]
}

/// Their number.
#[inline(never)]
fn last_word(bytes: &[u8], index: usize) -> u64
    requires inside { index ≤ length bytes.now }
    requires room { length bytes.now ≤ 2 ^ 40 }
    ensures { IsWord bytes.now index result }
{
    u64::from_be_bytes(last_bytes(bytes, index))
}

/// Eight bytes that are there.
#[inline(always)]
fn eight_bytes(bytes: &[u8], index: usize) -> [u8; 8]
    requires inside { index + 8 ≤ length bytes.now }
    ensures { HasBytes bytes.now index result }
{
    [
        bytes[index],
        bytes[index + 1],
        bytes[index + 2],
        bytes[index + 3],
        bytes[index + 4],
        bytes[index + 5],
        bytes[index + 6],
        bytes[index + 7],
    ]
}

/// The number of eight bytes, those past the end 255.
#[inline(always)]
fn word_at(bytes: &[u8], index: usize) -> u64
    requires inside { index ≤ length bytes.now }
    requires room { length bytes.now ≤ 2 ^ 40 }
    ensures { IsWord bytes.now index result }
{
    // Each way makes a number of its bytes by itself, so that it need not go through memory.
    if bytes.len() - index < 8 {
        last_word(bytes, index)
    } else {
        u64::from_be_bytes(eight_bytes(bytes, index))
    }
}

/// The bits from a place on, ones past the end of the block.
#[inline(always)]
fn bits_at(bytes: &[u8], place: u64, end: u64) -> u64
    requires room { length bytes.now ≤ 2 ^ 40 }
    requires order { place ≤ end }
    requires inside { end ≤ 8 * length bytes.now }
    ensures { (i : ℕ) → i < 57
        → bit result (63 - i) ≡ slice_index_or (block_of bytes.now place end) i true }
{
    let word = word_at(bytes, (place / 8) as usize) << (place % 8);
    let left = end - place;
    if left < 64 {
        word | u64::MAX >> left
    } else {
        word
    }
}

/// A window at the same place that shows so many bits at least. A place past the end is cut to the end.
#[inline(always)]
pub(crate) fn showing(least: u32, bytes: &[u8], window: Window, end: u64) -> Window
    requires few { least ≤ 57 }
    requires room { length bytes.now ≤ 2 ^ 40 }
    requires inside { end ≤ 8 * length bytes.now }
    requires at { IsWindowAt bytes.now end window }
    ensures at { IsWindowAt bytes.now end result }
    ensures enough { least ≤ result.shown }
    ensures same { block_of bytes.now result.place end ≡ block_of bytes.now window.place end }
{
    if window.shown >= least {
        return window;
    }
    let place = window.place.min(end);
    Window {
        word: bits_at(bytes, place, end),
        shown: SHOWN,
        place,
    }
}

/// The short codes at a window.
#[inline(always)]
pub(crate) fn codes_at(window: Window) -> ShortCodes
    requires { 8 ≤ window.shown }
    ensures few { result.count ≤ 4 }
    ensures short { result.length ≤ 8 }
    ensures reads { (bytes : List ℕ) (end : ℕ) → IsWindowAt bytes end window →
        ReadsValues result.count (block_of bytes window.place end)
        (take result.count result.values) (block_of bytes (window.place + result.length) end) }
{
    codes_in((window.word >> 56) as u8)
}

/// The window some bits on, of those that it shows.
#[inline(always)]
pub(crate) fn behind(window: Window, length: u8) -> Window
    requires few { length ≤ 57 }
    requires shown { length ≤ window.shown }
    requires room { window.place < 2 ^ 50 }
    ensures place { result.place ≡ window.place + length }
    ensures shown { result.shown + length ≡ window.shown }
    ensures at { (bytes : List ℕ) (end : ℕ) → IsWindowAt bytes end window
        → IsWindowAt bytes end result }
{
    Window {
        word: window.word << length,
        shown: window.shown - u32::from(length),
        place: window.place + u64::from(length),
    }
}
