//! The bytes of streams, in words.

ghost use Rattle.std.specs.Prelude.{◌<◌};

use std::alloc::{AllocError, Global};

/// The digits of what a word names, or its own.
fn digits_of(word: &str) -> &str {
    match word {
        "nothing" => "",
        // The prefix of a unit.
        "unit" => "42424344",
        // The first unit of most streams here: one sample, 4:4:4, 8 bits, frames.
        "header" => "424243440000000011000000003F27424A",
        // A picture unit behind it: number 0, one slice of one byte.
        "picture" => "42424344C80000001500000011000000000C927001",
        // The end behind a unit of 21 bytes.
        "end" => "42424344100000000000000015",
        // First units for fields of one sample, for frames of two samples side by side, and of two by two.
        "fields" => "424243440000000012000000003F2F424880",
        "line" => "424243440000000011000000003F67424A",
        "square" => "424243440000000011000000003F6F424A",
        // The head of a first unit whose next offset is wrong.
        "head" => "42424344000000006300000000",
        _ => word,
    }
}

fn digit(glyph: u8) -> u8
    ensures { result < 16 }
{
    match glyph {
        b'0'..=b'9' => glyph - b'0',
        b'A'..=b'F' => glyph - b'A' + 10,
        _ => 0,
    }
}

/// Puts the byte of each two digits behind others.
fn push_digits(bytes: &mut Vec<u8>, digits: &str) -> Result<(), AllocError> {
    let digits = digits.as_bytes();
    for i in 0..digits.len() / 2 {
        bytes.push(16 * digit(digits[2 * i]) + digit(digits[2 * i + 1]))?;
    }
    Ok(())
}

/// Puts so many of a piece behind others.
fn push_times(bytes: &mut Vec<u8>, piece: &[u8], count: u32) -> Result<(), AllocError> {
    for _ in 0..count {
        bytes.extend_from_slice(piece)?;
    }
    Ok(())
}

/// Puts the bytes of a word behind others, as often as the number behind its star says.
fn push_word(alloc: Global, bytes: &mut Vec<u8>, word: &str) -> Result<(), AllocError> {
    let (word, count) = word.split_once('*').unwrap_or((word, "1"));
    let mut piece = Vec::new(alloc);
    push_digits(&mut piece, digits_of(word))?;
    push_times(bytes, piece.as_slice(), count.parse().unwrap_or(0))
}

/// Puts the bytes of words behind others.
fn push_words(alloc: Global, bytes: &mut Vec<u8>, words: &str) -> Result<(), AllocError> {
    for word in words.split(' ') {
        push_word(alloc, bytes, word)?;
    }
    Ok(())
}

/// The bytes of words.
pub(crate) fn bytes_of(alloc: Global, words: &str) -> Result<Vec<u8>, AllocError> {
    let mut bytes = Vec::new(alloc);
    push_words(alloc, &mut bytes, words)?;
    Ok(bytes)
}
