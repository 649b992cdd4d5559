//! How many bits a block has to have for a list of values.

ghost use Rattle.bit_codes.specs.declared.TheConstants.{MAX_MAGNITUDE};
ghost use Rattle.std.specs.Prelude.{◌≡◌, ◌≢◌, ◌+◌, ◌-◌, ◌*◌, ◌^◌, ◌<◌, ◌≤◌, ℤ, List, [], ◌∷◌, ◌++◌, length, pos, unsigned_abs};
ghost use Rattle.bit_codes.specs.Codes.{signed_code_of};
ghost use Rattle.std.specs.List.{All};
ghost use Rattle.bounded_blocks.specs.Blocks.{need_of};
ghost use Rattle.bounded_blocks.specs.Parts.{IsSmall};
ghost use Rattle.bounded_blocks.specs.Writing.{count_of};

use bit_codes::sint_len;
use std::marker::Model;

/// Counts the need of a list of values: the length of their joined codes without the ones at the end. It is the least
/// length of a block that spells them (`laws::need_is_the_least`). Contracts see both lengths.
#[derive(Clone, Copy, Debug, PartialEq, Eq)]
pub struct Need {
    total: u64,
    bits: u64,
}

impl Model for Need {
    ghost use Rattle.bounded_blocks.specs.Writing.{NeedSeen};
    ghost use Rattle.bounded_blocks.specs.declared.need.Need.TheInside.{Inside};

    ghost Value = { NeedSeen };

    ghost view = { λ n. record { total = n.total; bits = n.bits } };

    ghost inverse = { λ n. record { total = n.total; bits = n.bits } };
}

/// How many ones end the code of a value that isn't 0: the sign of a negative one, the end of the magnitude's code, and
/// the last digit where that is 1.
fn ones_at_end(v: i64) -> u32
    requires some { v ≢ pos 0 }
    requires small { unsigned_abs v ≤ MAX_MAGNITUDE }
    ensures { result + need_of (signed_code_of v) ≡ length (signed_code_of v) }
{
    if v < 0 {
        2 + ((v.unsigned_abs() + 1) % 2) as u32
    } else {
        0
    }
}

impl Need {
    /// The need of no values.
    pub fn new() -> Need
        ensures { result ≡ count_of [] }
    {
        Need { total: 0, bits: 0 }
    }

    /// Adds a value, of a magnitude of at most 2^36. At most 2^32 values are added.
    pub fn add(&mut self, v: i64)
        requires small { unsigned_abs v ≤ MAX_MAGNITUDE }
        requires room { self.old.total ≤ 75 * 2 ^ 32 }
        ensures { (vs : List ℤ) → self.old ≡ count_of vs → self.new ≡ count_of (vs ++ v ∷ []) }
    {
        self.total += u64::from(sint_len(v));
        if v != 0 {
            self.bits = self.total - u64::from(ones_at_end(v));
        }
    }

    /// The need of a list of at most 2^32 values, each of a magnitude of at most 2^36.
    pub fn of(values: &[i64]) -> Need
        requires few { length values.now ≤ 2 ^ 32 }
        requires small { All IsSmall values.now }
        ensures { result ≡ count_of values.now }
    {
        let mut need = Need::new();
        for value in values {
            need.add(*value);
        }
        need
    }

    /// The need of the values that were added.
    pub fn bits(&self) -> u64
        ensures { result ≡ self.now.bits }
    {
        self.bits
    }
}
