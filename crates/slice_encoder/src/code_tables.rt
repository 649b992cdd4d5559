// The codes of values and of pairs of them, by a look-up.

ghost use Rattle.std.specs.Prelude.{◌≡◌, ◌+◌, ◌-◌, ◌*◌, ◌/◌, ◌%◌, ◌^◌, ◌<◌, ◌≤◌, ◌-ℤ◌, pos, IfOk, unsigned_abs};
ghost use Rattle.bit_codes.specs.Codes.{signed_code_of};
ghost use Rattle.slice_encoder.specs.CodeTexts.{text_bits};
ghost use Rattle.slice_encoder.specs.CodeTables.{IsEntry, IsPairEntry, ArePairs, AreSingles};

use crate::code_texts::{Text, split_text};
use planes::NoMemory;
use std::alloc::Global;
use std::marker::Model;

/// How many pairs of places there are: 64 by 64.
const PAIRS: usize = 4096;

/// How many values have entries of their own: those from -512 to 511.
const SINGLES: usize = 1024;

/// The entry where there is no pair: a length that no text has.
const NO_PAIR: u32 = 255;

/// The tables of codes, of 20 KB.
#[derive(Drop)]
pub struct Texts {
    pairs: Vec<u32>,
    singles: Vec<u32>,
}

impl Model for Texts {
    ghost use Rattle.slice_encoder.specs.CodeTables.{ArePairs, AreSingles};

    ghost Value = { Unit {0} };

    ghost view = { λ _. tt };

    ghost invariant = { λ t. ArePairs t.pairs.items × AreSingles t.singles.items };
}

// A text as an entry.
fn entry_of(text: Text) -> u32
    requires few { text.length ≤ 24 }
    requires small { text.number < 2 ^ text.length }
    ensures { IsEntry result (text_bits text) }
{
    256 * text.number as u32 + text.length
}

// The entry of the value that stands in a place of the table of single values.
fn single_at(place: usize) -> u32
    requires { place < 1024 }
    ensures { IsEntry result (signed_code_of (pos place -ℤ pos 512)) }
{
    entry_of(split_text(place as i64 - 512).back)
}

// The code of the value of a place that isn't 0.
fn text_at(place: usize) -> Text
    requires some { 0 < place }
    requires inside { place < 64 }
    ensures text { text_bits result ≡ signed_code_of (pos place -ℤ pos 32) }
    ensures few { result.length ≤ 12 }
    ensures number { result.number < 2 ^ result.length }
{
    split_text(place as i64 - 32).back
}

// The entry of two places.
fn pair_at(first: usize, second: usize) -> u32
    requires first { first < 64 }
    requires second { second < 64 }
    ensures { IsPairEntry result first second }
{
    if first == 0 || second == 0 {
        return NO_PAIR;
    }
    let front = text_at(first);
    let back = text_at(second);
    entry_of(Text {
        number: front.number * (1 << back.length) + back.number,
        length: front.length + back.length,
    })
}

// The table of pairs.
fn make_pairs(alloc: Global) -> Result<Vec<u32>, NoMemory>
    ensures { IfOk result (λ v. ArePairs v.items) }
{
    let mut entries = Vec::from_elem(alloc, 0u32, PAIRS)?;
    for place in 0..PAIRS {
        entries[place] = pair_at(place / 64, place % 64);
    }
    Ok(entries)
}

// The table of single values.
fn make_singles(alloc: Global) -> Result<Vec<u32>, NoMemory>
    ensures { IfOk result (λ v. AreSingles v.items) }
{
    let mut entries = Vec::from_elem(alloc, 0u32, SINGLES)?;
    for place in 0..SINGLES {
        entries[place] = single_at(place);
    }
    Ok(entries)
}

impl Texts {
    /// Both texts.
    pub fn new(alloc: Global) -> Result<Texts, NoMemory> {
        let pairs = make_pairs(alloc)?;
        let singles = make_singles(alloc)?;
        Ok(Texts { pairs, singles })
    }

    /// The entries of pairs.
    pub fn pairs(&self) -> &[u32]
        ensures { ArePairs result.now }
    {
        &self.pairs
    }

    /// The entries of single values.
    pub fn singles(&self) -> &[u32]
        ensures { AreSingles result.now }
    {
        &self.singles
    }
}

/// The entry of two places.
#[inline(always)]
pub fn pair_entry(pairs: &[u32], first: u8, second: u8) -> u32
    requires pairs { ArePairs pairs.now }
    requires first { first < 64 }
    requires second { second < 64 }
    ensures { IsPairEntry result first second }
{
    pairs[64 * usize::from(first) + usize::from(second)]
}

/// The entry of a value from -512 to 511.
#[inline(always)]
pub fn single_entry(singles: &[u32], v: i64) -> u32
    requires singles { AreSingles singles.now }
    requires small { unsigned_abs v < 512 }
    ensures { IsEntry result (signed_code_of v) }
{
    singles[(v + 512) as usize]
}
