//! Units in a row.

use std::marker::Model;

/// Where the next unit begins in the stream, and the length of the unit before it, which is its true previous offset.
#[derive(Clone, Copy, Debug, PartialEq, Eq)]
pub struct Chain {
    place: u64,
    previous: u32,
}

impl Model for Chain {
    ghost use Rattle.std.specs.Prelude.{◌^◌, ◌≤◌};
    ghost use Rattle.parse_info.specs.Chain.{ChainSeen};

    ghost Value = { ChainSeen };

    ghost view = { λ c. record { place = c.place; previous = c.previous } };

    ghost invariant = { λ c. c.place ≤ 2 ^ 40 };

    ghost inverse = { λ l. record { place = l.place; previous = l.previous } };
}

impl Chain {
    ghost use Rattle.std.specs.Prelude.{◌≡◌, ◌+◌, ◌^◌, ◌≤◌};

    /// Before the first unit.
    pub fn new() -> Chain
        ensures { result ≡ record { place = 0; previous = 0 } }
    {
        Chain {
            place: 0,
            previous: 0,
        }
    }

    /// The bytes of the units so far, at most 2^40.
    pub fn place(&self) -> u64
        ensures value { result ≡ self.now.place }
        ensures most { result ≤ 2 ^ 40 }
    {
        self.place
    }

    /// The length of the last unit, and 0 before the first.
    pub fn previous(&self) -> u32
        ensures { result ≡ self.now.previous }
    {
        self.previous
    }

    /// Goes on behind a unit of so many bytes, which ends within 2^40 bytes.
    pub fn step(&mut self, length: u32)
        requires { self.old.place + length ≤ 2 ^ 40 }
        ensures { self.new ≡ record { place = self.old.place + length; previous = length } }
    {
        self.place += u64::from(length);
        self.previous = length;
    }
}
