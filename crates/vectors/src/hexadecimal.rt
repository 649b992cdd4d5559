// Bytes in hexadecimal, and a checksum of bytes.
ghost use Rattle.std.specs.Prelude.{◌<◌};

use std::alloc::{AllocError, Global};

fn digit(glyph: u8) -> u8
    ensures { result < 16 }
{
    match glyph {
        b'0'..=b'9' => glyph - b'0',
        b'a'..=b'f' => glyph - b'a' + 10,
        _ => 0,
    }
}

/// The bytes of a text of hexadecimal digits, two a byte.
pub(crate) fn bytes_of(alloc: Global, text: &str) -> Result<Vec<u8>, AllocError> {
    let digits = text.as_bytes();
    let mut bytes = Vec::new(alloc);
    for i in 0..digits.len() / 2 {
        bytes.push(16 * digit(digits[2 * i]) + digit(digits[2 * i + 1]))?;
    }
    Ok(bytes)
}

/// FNV-1a of 64 bits.
pub(crate) fn checksum(bytes: &[u8]) -> u64 {
    let mut sum = 0xCBF2_9CE4_8422_2325u64;
    for byte in bytes {
        sum = (sum ^ u64::from(*byte)).wrapping_mul(0x100_0000_01B3);
    }
    sum
}
