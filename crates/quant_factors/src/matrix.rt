ghost use Rattle.std.specs.Prelude.{◌≡◌, ◌+◌, ◌*◌, ◌≤◌, length};
ghost use Rattle.planes.specs.Subbands.{BandExists, band_index, orient_number};
ghost use Rattle.quant_factors.specs.Weights.{entry_of, quantiser_of};

use planes::Orient;
use std::marker::Model;

/// The quantisation matrix of a picture: an entry for each subband. Contracts see the depth of the transform and
/// the entries from level 0 up.
#[derive(Clone, Copy, Debug, PartialEq, Eq)]
pub struct Matrix {
    depth: u32,
    entries: [u32; 13],
}

impl Model for Matrix {
    ghost use Rattle.quant_factors.specs.Weights.{Weights};

    ghost Value = { Weights };

    ghost use Rattle.quant_factors.specs.MatrixInside.{weights_of, matrix_of, IsMatrixSound, matrix_of-weights_of};

    ghost view = { weights_of };

    ghost invariant = { IsMatrixSound };

    ghost inverse = { matrix_of };

    ghost inverse_ok = { matrix_of-weights_of };
}

// Where the entry of a band stands.
fn place_of(level: u32, orient: Orient) -> usize
    requires { level ≤ 4 }
    ensures value { result ≡ band_index level (orient_number orient) }
{
    if level == 0 {
        0
    } else {
        (3 * level + orient as u32 - 3) as usize
    }
}

impl Matrix {
    /// The matrix with these entries, from level 0 up, in the order HL, LH, HH within a level.
    ///
    /// The depth is at most 4, and there are 1 + 3 * depth entries.
    pub fn new(depth: u32, entries: &[u32]) -> Matrix
        requires depth { depth ≤ 4 }
        requires count { length entries.now ≡ 1 + 3 * depth }
        ensures { result ≡ record { depth = depth; entries = entries.now } }
    {
        let mut all = [0; 13];
        all[..entries.len()].copy_from_slice(entries);
        Matrix {
            depth,
            entries: all,
        }
    }

    /// The depth of the transform, at most 4.
    pub fn depth(&self) -> u32
        ensures value { result ≡ self.now.depth }
        ensures most { result ≤ 4 }
    {
        self.depth
    }

    /// The entries from level 0 up, in the order HL, LH, HH within a level.
    pub fn entries(&self) -> &[u32]
        ensures value { result.now ≡ self.now.entries }
        ensures count { length result.now ≡ 1 + 3 * self.now.depth }
    {
        &self.entries[..(1 + 3 * self.depth) as usize]
    }

    /// The entry of a band.
    pub fn entry(&self, level: u32, orient: Orient) -> u32
        requires { BandExists self.now.depth level (orient_number orient) }
        ensures { result ≡ entry_of self.now level (orient_number orient) }
    {
        // The rules of a matrix: it has as many entries as its depth wants.
        let _ = &self.depth;
        self.entries[place_of(level, orient)]
    }

    /// The quantisation index of a band, in a slice of index `qindex`: less by the band's entry, and 0 at least.
    pub fn quantiser(&self, qindex: u32, level: u32, orient: Orient) -> u32
        requires { BandExists self.now.depth level (orient_number orient) }
        ensures { result ≡ quantiser_of qindex (entry_of self.now level (orient_number orient)) }
    {
        qindex.saturating_sub(self.entry(level, orient))
    }
}
