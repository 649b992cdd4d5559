//! Codes, by a table of the twelve bits that are next.
//!
//! Where values are small, a look-up gives twice as many of them as one of eight bits does. The table is made once, at
//! start, since it is too large to be written down.

ghost use Rattle.std.specs.Prelude.{◌≡◌, ℕ, ◌+◌, ◌^◌, ◌<◌, ◌≤◌, List, [], ◌∷◌, take, unsigned_abs};
ghost use Rattle.bit_codes.specs.Bits.{digits_below};
ghost use Rattle.bounded_blocks.specs.Reading.{with_sign};
ghost use Rattle.bounded_blocks.specs.Parts.{block_of, ReadsValues, AreWithin};
ghost use Rattle.bounded_blocks.specs.ShortCodes.{BeginsBits};
ghost use Rattle.bounded_blocks.specs.CodeTable.{IsSigned, Begin, codes_of};
ghost use Rattle.bounded_blocks.specs.Windows.{IsWindowAt};

use crate::short_codes::ShortCode;
use crate::window::Window;
use std::alloc::{AllocError, Global};
use std::marker::Model;

/// The bits of a look-up.
pub(crate) const TABLE_BITS: u32 = 12;

/// How many entries the table has, one for each twelve bits.
const ENTRIES: usize = 4096;

/// The first whole codes in twelve bits, at most eight: their values, how many they are, and how many bits they have
/// together.
#[derive(Clone, Copy)]
pub(crate) struct Codes {
    pub(crate) values: [i8; 8],
    pub(crate) count: u8,
    pub(crate) length: u8,
}

/// No code.
const NO_CODE: ShortCode = ShortCode {
    value: 0,
    length: 0,
};

const NO_CODES: Codes = Codes {
    values: [0; 8],
    count: 0,
    length: 0,
};

/// How many bits the codes of an entry have together, and how many codes they are. The length comes first, so that it
/// is a shift without a step between.
#[derive(Clone, Copy)]
pub(crate) struct Head {
    pub(crate) length: u8,
    pub(crate) count: u8,
}

const NO_HEAD: Head = Head {
    length: 0,
    count: 0,
};

/// The codes that begin each twelve bits, for blocks that are read whole. The heads stand by themselves, since each
/// look-up waits for the length of the one before: they are so few bytes that they stay at hand.
#[derive(Drop)]
pub struct CodeTable {
    values: Vec<[i8; 8]>,
    heads: Vec<Head>,
}

impl Model for CodeTable {
    ghost use Rattle.bounded_blocks.specs.CodeTable.{IsTable};

    ghost Value = { Unit {0} };

    ghost view = { λ _. tt };

    ghost invariant = { λ t. IsTable t.values.items t.heads.items };
}

/// A magnitude with its sign.
fn signed(magnitude: u32, is_negative: bool) -> i8
    requires { magnitude ≤ 127 }
    ensures value { result ≡ (with_sign magnitude (is_negative ∷ [])).0 }
    ensures small { unsigned_abs result ≤ 127 }
{
    let value = magnitude as i8;
    if is_negative { -value } else { value }
}

/// A code of this magnitude that ends in front of its sign, `left` bits before the end of some bits of a number.
fn signed_code(magnitude: u32, word: u32, left: u32, bits: u32) -> ShortCode
    requires few { bits ≤ 12 }
    requires order { left ≤ bits }
    requires small { magnitude ≤ 127 }
    ensures code { IsSigned magnitude word left bits result }
    ensures small { unsigned_abs result.value ≤ 127 }
{
    if magnitude == 0 {
        return ShortCode {
            value: 0,
            length: (bits - left) as u8,
        };
    }
    if left == 0 {
        return NO_CODE;
    }
    ShortCode {
        value: signed(magnitude, (word >> (left - 1)) % 2 == 1),
        length: (bits - left + 1) as u8,
    }
}

/// The first code in the last bits of a number, twelve at most, if it ends there.
fn code_in(word: u32, bits: u32) -> ShortCode
    requires { bits ≤ 12 }
    ensures begins { BeginsBits result (digits_below bits word) }
    ensures small { unsigned_abs result.value ≤ 127 }
{
    let mut left = bits;
    let mut number = 1;
    while left > 0 {
        if (word >> (left - 1)) % 2 == 1 {
            return signed_code(number - 1, word, left - 1, bits);
        }
        if left == 1 {
            return NO_CODE;
        }
        number = 2 * number + (word >> (left - 2)) % 2;
        left -= 2;
    }
    NO_CODE
}

/// The codes in the last twelve bits of a number.
fn codes_in(word: u32) -> Codes
    ensures { Begin result (digits_below 12 word) }
{
    let mut codes = NO_CODES;
    for i in 0..8 {
        let code = code_in(word, TABLE_BITS - u32::from(codes.length));
        if code.length == 0 {
            return codes;
        }
        codes.values[i] = code.value;
        codes.count += 1;
        codes.length += code.length;
    }
    codes
}

impl CodeTable {
    /// The table, of 40 KB.
    pub fn new(alloc: Global) -> Result<CodeTable, AllocError> {
        let mut values = Vec::from_elem(alloc, [0; 8], ENTRIES)?;
        let mut heads = Vec::from_elem(alloc, NO_HEAD, ENTRIES)?;
        for k in 0..ENTRIES {
            let codes = codes_in(k as u32);
            let eight = codes.values;
            values[k] = eight;
            heads[k] = Head {
                length: codes.length,
                count: codes.count,
            };
        }
        Ok(CodeTable { values, heads })
    }

    /// The entry of twelve bits: its values and its head.
    #[inline(always)]
    fn entry(&self, bits: u64) -> (&[i8; 8], Head)
        requires { bits < 4096 }
        ensures { Begin (codes_of result.0.now result.1) (digits_below 12 bits) }
    {
        (&self.values[bits as usize], self.heads[bits as usize])
    }

    /// The codes at a window: their values, of which the first ones count, and their head.
    #[inline(always)]
    pub(crate) fn codes_at(&self, window: Window) -> (&[i8; 8], Head)
        requires { 12 ≤ window.shown }
        ensures few { result.1.count ≤ 8 }
        ensures low { AreWithin 127 result.0.now }
        ensures short { result.1.length ≤ 12 }
        ensures reads { (bytes : List ℕ) (end : ℕ) → IsWindowAt bytes end window →
            ReadsValues result.1.count (block_of bytes window.place end)
            (take result.1.count result.0.now)
            (block_of bytes (window.place + result.1.length) end) }
    {
        self.entry(window.word >> (64 - TABLE_BITS))
    }
}
