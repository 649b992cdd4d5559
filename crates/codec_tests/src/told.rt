//! Asserting values: that two are the same, and that one is what a row tells.
//!
//! A row is a line of text: what is told, as `Debug` writes it, and behind a bar what it is told of.

ghost use Rattle.std.specs.Prelude.{◌<◌, ◌≤◌};

use std::fmt;
use std::fmt::{Debug, Write};
use std::process::Abort;

/// Asserts that a value is the one that is wanted.
pub(crate) fn assert_same<T: Copy + Debug + PartialEq>(rt: &impl Abort, found: T, wanted: T) {
    assert_eq!(rt; found, wanted);
}

/// A row behind what was written of it.
#[derive(Drop)]
struct Told<'a> {
    rest: &'a str,
}

impl<'a> Write for Told<'a> {
    fn write_str(&mut self, text: &str) -> fmt::Result {
        match self.rest.strip_prefix(text) {
            Some(rest) => {
                self.rest = rest;
                Ok(())
            }
            None => Err(fmt::Error),
        }
    }
}

/// Asserts that a row tells a value.
pub(crate) fn assert_told<T: Copy + Debug>(rt: &impl Abort, row: &str, found: T) {
    let mut told = Told { rest: row };
    let is_told = write!(told, "{found:?}").is_ok() && told.rest.starts_with('|');
    assert!(rt; is_told, "{found:?} is not told: {row}");
}

/// What stands behind the first bar of a row.
pub(crate) fn behind<'a>(rt: &impl Abort, row: &'a str) -> &'a str {
    let (_, rest) = row.split_once('|').expect(rt, "a row");
    rest
}

/// The numbers of a text, one blank between two, with zeros behind them. There are at most 16.
pub(crate) fn numbers(text: &str) -> [u32; 16] {
    let mut found = [0u32; 16];
    let mut count = 0usize;
    for glyph in text.as_bytes() {
        if *glyph == b' ' {
            count = count.wrapping_add(1);
        } else {
            let place = count % 16;
            let value = u32::from(glyph & 15);
            found[place] = found[place].wrapping_mul(10).wrapping_add(value);
        }
    }
    found
}

fn digit(glyph: u8) -> u8
    ensures { result < 16 }
{
    match glyph {
        b'0'..=b'9' => glyph - b'0',
        b'A'..=b'F' => glyph - b'A' + 10,
        _ => 0,
    }
}

/// The bytes of hexadecimal digits, with zeros behind them, and how many there are.
pub(crate) fn bytes_of(rt: &impl Abort, text: &str) -> ([u8; 48], usize)
    ensures { result.1 ≤ 48 }
{
    let digits = text.as_bytes();
    let count = digits.len() / 2;
    assert!(rt; count <= 48);
    let mut bytes = [0; 48];
    for k in 0..count {
        bytes[k] = 16 * digit(digits[2 * k]) + digit(digits[2 * k + 1]);
    }
    (bytes, count)
}
