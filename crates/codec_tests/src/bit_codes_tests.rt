//! Worked codes, and the faults at the bounds.

ghost use Rattle.std.specs.Prelude.{◌≤◌, length};

use crate::told::{assert_same, assert_told, behind, bytes_of};
use bit_codes::{BitReader, BitWriter, CodeFault, Short, sint_len, uint_len};
use std::process::Abort;

/// The number whose code begins bytes, and how many bits it has: codes among 0xAA. Then why no number is read. After 31 pairs with
/// a 1 in them one more 0 is too large already; after zeros alone it is not.
const CODES: &str = "\
(Ok(0), 1)|AAAAAAAAAAAAAAAAAA
(Ok(1), 3)|2AAAAAAAAAAAAAAAAA
(Ok(2), 3)|6AAAAAAAAAAAAAAAAA
(Ok(3), 5)|0AAAAAAAAAAAAAAAAA
(Ok(4), 5)|1AAAAAAAAAAAAAAAAA
(Ok(4294967295), 65)|0000000000000000AA
(Err(Short), 0)|
(Err(Short), 0)|00000000
(Err(Short), 0)|0000000000000000
(Err(TooLarge), 0)|000000000000000000
(Err(TooLarge), 0)|0000000000000004
(Err(TooLarge), 0)|4000000000000000
(Err(Short), 0)|40000000000000
";

/// The number whose code begins bytes, and how many bits were taken.
fn read(bytes: &[u8]) -> (Result<u32, CodeFault>, u64)
    requires { length bytes.now ≤ 48 }
{
    let mut reader = BitReader::new(bytes);
    let found = reader.uint();
    (found, reader.place())
}

/// Asserts that a number's code is written as it stood, among 0xAA.
fn expect_written(rt: &impl Abort, number: u32, bits: u64, want: &[u8; 48]) {
    let mut bytes = [0xAA; 9];
    let mut writer = BitWriter::new(&mut bytes);
    assert!(rt; uint_len(number) <= 65);
    writer.put_uint(number);
    let place = writer.place();
    assert!(rt; place == bits && bytes.as_slice() == &want[..9]);
}

#[test]
fn unsigned_codes(rt: HostRuntime) {
    for row in CODES.lines() {
        let (bytes, count) = bytes_of(&rt, behind(&rt, row));
        let (found, bits) = read(&bytes[..count]);
        assert_told(&rt, row, (found, bits));
        if let Ok(number) = found {
            expect_written(&rt, number, bits, &bytes);
        }
    }
}

/// Numbers with a sign, how many bits their codes have, and these codes in 0x55.
const SIGNED_CODES: [(i64, u64, u8); 5] = [
    (0, 1, 0b1_1010101),
    (-1, 4, 0b0011_0101),
    (1, 4, 0b0010_0101),
    (2, 4, 0b0110_0101),
    (-4, 6, 0b000111_01),
];

#[test]
fn signed_codes(rt: HostRuntime) {
    for row in &SIGNED_CODES {
        let number = row.0;
        let mut bytes = [0x55];
        let mut writer = BitWriter::new(&mut bytes);
        assert!(&rt; number.unsigned_abs() <= 4 && sint_len(number) <= 6);
        writer.put_sint(number);
        let place = writer.place();
        assert_same(&rt, (number, place, bytes[0]), *row);
    }
}

/// Bits that other calls write stay, and zeros fill a byte.
#[test]
fn written_bits(rt: HostRuntime) {
    let mut bytes = [0xFF; 3];
    let mut writer = BitWriter::new(&mut bytes);
    writer.put_flag(false);
    writer.put_bits(0x2A, 7);
    writer.put_bits(1, 2);
    writer.align();
    let written = writer.place();
    assert_same(&rt, (written, bytes), (16, [0x2A, 0x40, 0xFF]));
}

/// What isn't there is short, and leaves the place.
#[test]
fn read_bits(rt: HostRuntime) {
    let mut reader = BitReader::new(&[0x2A, 0x40, 0xFF]);
    let first = [reader.bits(1), reader.bits(9), reader.bits(15)];
    reader.align();
    let last = [reader.bits(8), reader.bits(1), reader.bits(0)];
    assert_same(&rt, first, [Ok(0), Ok(0xA9), Err(Short)]);
    assert_same(&rt, last, [Ok(0xFF), Err(Short), Ok(0)]);
    assert_same(&rt, reader.place(), 24);
}
