//! Values into a block.
//!
//! A `Fill` holds the caller's bytes and is finished by value, so it can have no ghost field and no model: its fields
//! are public, and its contracts name them. That its block lies in the bytes (`IsInside`) is what `new` gives, and
//! `put` keeps.

ghost use Rattle.bit_codes.specs.declared.TheConstants.{MAX_MAGNITUDE};
ghost use Rattle.std.specs.Prelude.{◌≡◌, ◌≢◌, ◌+◌, ◌-◌, ◌*◌, ◌^◌, ◌<◌, ◌≤◌, ◌++◌, [], ◌∷◌, true, length, replicate, unsigned_abs};
ghost use Rattle.bit_codes.specs.Bits.{bits_of, bits_before, bits_behind};
ghost use Rattle.bit_codes.specs.Codes.{code_of, signed_code_of};
ghost use Rattle.std.specs.List.{All};
ghost use Rattle.bounded_blocks.specs.Parts.{IsSmall};
ghost use Rattle.bounded_blocks.specs.Writing.{codes_of, IsInside, Puts, Finishes};

use bit_codes::BitWriter;

/// Writes signed values into a block of bits, as far as the block reaches. Bits outside the block stay.
#[derive(Drop)]
pub struct Fill<'a> {
    /// The bytes that the block is a part of.
    pub bytes: &'a mut [u8],
    /// The bit where the next code begins.
    pub place: u64,
    /// The bit behind the block.
    pub end: u64,
}

/// Ones up to a place.
fn put_ones_to(writer: &mut BitWriter<'_>, end: u64)
    requires order { writer.old.place ≤ end }
    requires inside { end ≤ 8 * length writer.old.bytes.now }
    ensures same_reference { writer.new.bytes.ghost_name ≡ writer.old.bytes.ghost_name }
    ensures text { Finishes end writer.old.place writer.old.bytes.now writer.new.bytes.now }
{
    while writer.place < end {
        writer.put_flag(true);
    }
}

/// Ones from a place on to another.
fn put_ones(bytes: &mut [u8], from: u64, end: u64)
    requires { IsInside bytes.old from end }
    ensures { Finishes end from bytes.old bytes.new }
{
    let mut writer = BitWriter { bytes, place: from };
    put_ones_to(&mut writer, end);
}

impl<'a> Fill<'a> {
    /// The block of `bits` bits from bit `from_bit` of the bytes on, bit 0 being the first byte's most significant one.
    pub fn new(bytes: &'a mut [u8], from_bit: u64, bits: u64) -> Fill<'a>
        requires room { length bytes.old ≤ 2 ^ 40 }
        requires inside { from_bit + bits ≤ 8 * length bytes.old }
        ensures same_reference { result.bytes.ghost_name ≡ bytes.entry.ghost_name }
        ensures bytes { result.bytes.now ≡ bytes.old }
        ensures place { result.place ≡ from_bit }
        ensures end { result.end ≡ from_bit + bits }
    {
        Fill {
            bytes,
            place: from_bit,
            end: from_bit + bits,
        }
    }

    /// One bit, as far as the block reaches.
    fn put_bit(&mut self, bit: bool)
        requires { IsInside self.old.bytes.now self.old.place self.old.end }
        ensures same_reference { self.new.bytes.ghost_name ≡ self.old.bytes.ghost_name }
        ensures same_end { self.new.end ≡ self.old.end }
        ensures puts { Puts self.old.end self.old.place self.old.bytes.now self.new.place
            self.new.bytes.now (bit ∷ []) }
    {
        if self.place < self.end {
            let mut writer = BitWriter {
                bytes: &mut *self.bytes,
                place: self.place,
            };
            writer.put_flag(bit);
            self.place += 1;
        }
    }

    /// The code of a number below 2^37.
    fn put_code(&mut self, v: u64)
        requires small { v < 2 ^ 37 }
        requires inside { IsInside self.old.bytes.now self.old.place self.old.end }
        ensures same_reference { self.new.bytes.ghost_name ≡ self.old.bytes.ghost_name }
        ensures same_end { self.new.end ≡ self.old.end }
        ensures puts { Puts self.old.end self.old.place self.old.bytes.now self.new.place
            self.new.bytes.now (code_of v) }
    {
        let number = v + 1;
        let mut left = number.ilog2();
        while left > 0 {
            left -= 1;
            self.put_bit(false);
            self.put_bit(number >> left & 1 == 1);
        }
        self.put_bit(true);
    }

    /// The code of a value, of a magnitude of at most 2^36, as far as the block reaches.
    pub fn put(&mut self, v: i64)
        requires small { unsigned_abs v ≤ MAX_MAGNITUDE }
        requires inside { IsInside self.old.bytes.now self.old.place self.old.end }
        ensures same_reference { self.new.bytes.ghost_name ≡ self.old.bytes.ghost_name }
        ensures same_end { self.new.end ≡ self.old.end }
        ensures puts { Puts self.old.end self.old.place self.old.bytes.now self.new.place
            self.new.bytes.now (signed_code_of v) }
    {
        self.put_code(v.unsigned_abs());
        if v != 0 {
            self.put_bit(v < 0);
        }
    }

    /// The codes of values, each of a magnitude of at most 2^36, as far as the block reaches.
    pub fn put_all(&mut self, values: &[i64])
        requires small { All IsSmall values.now }
        requires inside { IsInside self.old.bytes.now self.old.place self.old.end }
        ensures same_reference { self.new.bytes.ghost_name ≡ self.old.bytes.ghost_name }
        ensures same_end { self.new.end ≡ self.old.end }
        ensures puts { Puts self.old.end self.old.place self.old.bytes.now self.new.place
            self.new.bytes.now (codes_of values.now) }
    {
        for value in values {
            self.put(*value);
        }
    }

    /// Fills the rest of the block with ones. Where the block has at least as many bits as the need of the values that
    /// were put, it spells them (`laws::filled_is_read`).
    pub fn finish(self)
        requires { IsInside self.bytes.now self.place self.end }
        ensures { Finishes self.entry.end self.entry.place self.entry.bytes.now self.exit.0.now }
    {
        let Fill { bytes, place, end } = self;
        put_ones(bytes, place, end);
    }
}
