//! The values of a block in 16 or 32 bits, all read at once.

ghost use Rattle.std.specs.Prelude.{◌≡◌, ◌↔◌, ℕ, List, ◌+◌, ◌*◌, ◌^◌, ◌<◌, ◌≤◌, ◌++◌, length, map, take, true, IfSome, IfNone, unsigned_abs};
ghost use Rattle.bounded_blocks.specs.Reading.{value_at, values};
ghost use Rattle.bounded_blocks.specs.Parts.{block_of, AreWithin};
ghost use Rattle.bounded_blocks.specs.Windows.{HoldsRead};

use crate::bit_by_bit::any_sint_at;
use crate::code_table::CodeTable;
use crate::held::Held;
use crate::window::{SHOWN, Window, behind, showing, window_at};
use crate::{SPARE, Sint};

/// The value at a place, and the place behind it, or none where its magnitude is too great.
#[inline(always)]
fn held_at<T: Held>(bytes: &[u8], place: u64, end: u64) -> Option<(T, u64)>
    requires room { length bytes.now ≤ 2 ^ 40 }
    requires order { place ≤ end }
    requires inside { end ≤ 8 * length bytes.now }
    ensures some { let found = value_at (block_of bytes.now place end) in
        IfSome result (λ read. (T.value read.0 ≡ found.0) × (unsigned_abs found.0 ≤ T.most)
        × (found.1 ≡ block_of bytes.now read.1 end) × (read.1 ≤ end)) }
    ensures none { IfNone result
        (T.most < unsigned_abs (value_at (block_of bytes.now place end)).0) }
{
    let (value, next) = any_sint_at(bytes, place, end);
    match value {
        Sint::Is(value) if value.unsigned_abs() <= u64::from(T::greatest()) => {
            Some((T::of_value(value), next))
        }
        _ => None,
    }
}

/// Puts eight numbers from a place on.
#[inline(always)]
fn put_all<T: Held>(out: &mut [T], at: usize, eight: [T; 8])
    requires { at + 8 ≤ length out.old }
    ensures length { length out.new ≡ length out.old }
    ensures values { take (at + 8) out.new ≡ take at out.old ++ eight }
{
    for i in 0..8 {
        out[at + i] = eight[i];
    }
}

/// Puts eight values from a place on. All are read before one is put, so that they are put at once.
#[inline(always)]
fn put_eight<T: Held>(out: &mut [T], at: usize, values: &[i8; 8])
    requires room { at + 8 ≤ length out.old }
    requires low { AreWithin 127 values.now }
    ensures length { length out.new ≡ length out.old }
    ensures values { take (at + 8) (map T.value out.new) ≡ take at (map T.value out.old)
        ++ values.now }
{
    let eight = [
        T::of_byte(values[0]),
        T::of_byte(values[1]),
        T::of_byte(values[2]),
        T::of_byte(values[3]),
        T::of_byte(values[4]),
        T::of_byte(values[5]),
        T::of_byte(values[6]),
        T::of_byte(values[7]),
    ];
    put_all(out, at, eight);
}

/// Takes the codes that one look-up gives: puts their values from a place on, and answers the window and the place behind
/// them.
#[inline(always)]
fn look<T: Held>(table: &CodeTable, window: Window, done: usize, out: &mut [T]) -> (Window, usize)
    requires shown { 12 ≤ window.shown }
    requires room { done + 8 ≤ length out.old }
    requires near { window.place < 2 ^ 50 }
    ensures length { length out.new ≡ length out.old }
    ensures more { done ≤ result.1 }
    ensures few { result.1 ≤ done + 8 }
    ensures shown { window.shown ≤ result.0.shown + 12 }
    ensures near { result.0.place ≤ window.place + 12 }
    ensures holds { (bytes : List ℕ) (start end : ℕ) →
        HoldsRead T.most bytes start end done (map T.value out.old) window →
        HoldsRead T.most bytes start end result.1 (map T.value out.new) result.0 }
{
    let (values, head) = table.codes_at(window);
    // All eight values are put, which is cheaper than a choice; the next ones go over what is beyond the count.
    put_eight(out, done, values);
    (behind(window, head.length), done + head.count as usize)
}

/// The same as long as fewer values than so many are there.
#[inline(always)]
fn look_on<T: Held>(
    table: &CodeTable,
    window: Window,
    done: usize,
    count: usize,
    out: &mut [T],
) -> (Window, usize)
    requires shown { 12 ≤ window.shown }
    requires spare { count + SPARE ≤ length out.old }
    requires near { window.place < 2 ^ 50 }
    requires inside { done ≤ count + 7 }
    ensures length { length out.new ≡ length out.old }
    ensures more { done ≤ result.1 }
    ensures inside { result.1 ≤ count + 7 }
    ensures shown { window.shown ≤ result.0.shown + 12 }
    ensures near { result.0.place ≤ window.place + 12 }
    ensures holds { (bytes : List ℕ) (start end : ℕ) →
        HoldsRead T.most bytes start end done (map T.value out.old) window →
        HoldsRead T.most bytes start end result.1 (map T.value out.new) result.0 }
{
    if done < count {
        look(table, window, done, out)
    } else {
        (window, done)
    }
}

/// Four look-ups, which the 57 bits of a window serve whatever they take.
#[inline(always)]
fn look_four<T: Held>(
    table: &CodeTable,
    window: Window,
    done: usize,
    count: usize,
    out: &mut [T],
) -> (Window, usize)
    requires shown { 57 ≤ window.shown }
    requires spare { count + SPARE ≤ length out.old }
    requires near { window.place < 2 ^ 49 }
    requires inside { done ≤ count + 7 }
    ensures length { length out.new ≡ length out.old }
    ensures more { done ≤ result.1 }
    ensures inside { result.1 ≤ count + 7 }
    ensures holds { (bytes : List ℕ) (start end : ℕ) →
        HoldsRead T.most bytes start end done (map T.value out.old) window →
        HoldsRead T.most bytes start end result.1 (map T.value out.new) result.0 }
{
    let (window, done) = look_on(table, window, done, count, out);
    let (window, done) = look_on(table, window, done, count, out);
    let (window, done) = look_on(table, window, done, count, out);
    look_on(table, window, done, count, out)
}

/// Fills the front of a slice with so many values from a place on, and its other places with any. It answers false where
/// the magnitude of one of them is above the greatest.
pub(crate) fn fill_from<T: Held>(
    table: &CodeTable,
    bytes: &[u8],
    start: u64,
    end: u64,
    count: usize,
    out: &mut [T],
) -> bool
    requires room { length bytes.now ≤ 2 ^ 40 }
    requires order { start ≤ end }
    requires inside { end ≤ 8 * length bytes.now }
    requires spare { count + SPARE ≤ length out.old }
    ensures within { (result ≡ true)
        ↔ AreWithin T.most (values count (block_of bytes.now start end)) }
    ensures read { result ≡ true →
        take count (map T.value out.new) ≡ values count (block_of bytes.now start end) }
{
    let mut window = window_at(start);
    let mut done = 0;
    while done < count {
        let here = showing(SHOWN, bytes, window, end);
        let (behind, now) = look_four(table, here, done, count, out);
        if now != done {
            window = behind;
            done = now;
        } else {
            let Some((value, next)) = held_at(bytes, behind.place.min(end), end) else {
                return false;
            };
            out[done] = value;
            done += 1;
            window = window_at(next);
        }
    }
    true
}
