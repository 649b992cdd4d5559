ghost use Rattle.std.specs.Prelude.{◌≡◌, ◌↔◌, ℕ, ◌+◌, ◌*◌, ◌/◌, ◌%◌, ◌^◌, ◌<◌, ◌≤◌, length, slice_index_or, IfOk, true};
ghost use Rattle.std.specs.Borrow.{sem};
ghost use Rattle.planes.specs.Raster.{filled_with};
ghost use Rattle.planes.specs.Subbands.{BandExists, band_index, band_of, no_band, subband_length, AreFilledBands};
ghost use Rattle.planes.specs.LendingBands.{LendsBand};
ghost use Rattle.planes.specs.Bounded.{AreBandsWithin};

use crate::{NoMemory, Number, Plane};
use std::alloc::Global;
use std::marker::Model;

/// The subbands of one component. Contracts see the depth of the transform, and the bands from level 0 up.
///
/// Orientations are the numbers 0 to 3, for LL, HL, LH and HH. Level 0 has LL alone; each level from 1 to the depth
/// has the other three.
#[derive(Drop)]
pub struct Bands<T = i64> {
    pub(crate) depth: u32,
    pub(crate) planes: Vec<Plane<T>>,
}

impl<T> Model for Bands<T> {
    ghost use Rattle.std.specs.Prelude.{◌≡◌, ◌+◌, ◌*◌, ◌≤◌, length};
    ghost use Rattle.planes.specs.Subbands.{BandsOf};

    ghost Value = { BandsOf T };

    ghost view = { λ b. record { depth = b.depth; bands = b.planes.items } };

    ghost invariant = { λ b. (length b.planes.items ≡ 3 * b.depth + 1) × (b.depth ≤ 4) };
}

pub(crate) fn place_of(level: u32, orient: u32) -> usize
    requires level { level ≤ 4 }
    requires orient { orient ≤ 3 }
    ensures { result ≡ band_index level orient }
{
    if level == 0 {
        0
    } else {
        (3 * level + orient - 3) as usize
    }
}

// The width of a level's bands, or their height.
pub(crate) fn band_length(depth: u32, level: u32, padded: u32) -> u32
    requires depth { depth ≤ 4 }
    requires level { level ≤ depth }
    ensures { result ≡ subband_length depth level padded }
{
    if level == 0 {
        padded >> depth
    } else {
        padded >> (depth - level + 1)
    }
}

// The bands, in the order of their places.
fn zero_bands<T: Number>(
    alloc: Global,
    depth: u32,
    w: u32,
    h: u32,
) -> Result<Vec<Plane<T>>, NoMemory>
    requires depth { depth ≤ 4 }
    requires w_fits { w ≤ 8208 }
    requires h_fits { h ≤ 8208 }
    ensures count { IfOk result (λ planes. length planes.items ≡ 3 * depth + 1) }
    ensures zero { IfOk result (λ planes. (k : ℕ) → k < 3 * depth + 1
        → slice_index_or planes.items k no_band
        ≡ filled_with T.none (subband_length depth ((k + 2) / 3) w)
        (subband_length depth ((k + 2) / 3) h)) }
{
    let mut planes = Vec::with_capacity(alloc, (3 * depth + 1) as usize)?;
    for k in 0..3 * depth + 1 {
        let level = (k + 2) / 3;
        let plane = Plane::new(
            alloc,
            band_length(depth, level, w),
            band_length(depth, level, h),
        )?;
        planes.push(plane)?;
    }
    Ok(planes)
}

impl<T: Number> Bands<T> {
    /// The bands of a component of this padded size, all zero.
    ///
    /// The depth is at most 4; w and h are at most 8208, and multiples of 2 ^ depth.
    pub fn new(alloc: Global, depth: u32, w: u32, h: u32) -> Result<Bands<T>, NoMemory>
        requires depth { depth ≤ 4 }
        requires w_fits { w ≤ 8208 }
        requires h_fits { h ≤ 8208 }
        requires w_whole { w % 2 ^ depth ≡ 0 }
        requires h_whole { h % 2 ^ depth ≡ 0 }
        ensures { IfOk result (λ b. AreFilledBands T.none b depth w h) }
    {
        let planes = zero_bands(alloc, depth, w, h)?;
        Ok(Bands { depth, planes })
    }

    /// The depth that the bands were made with, at most 4.
    pub fn depth(&self) -> u32
        ensures value { result ≡ self.now.depth }
        ensures most { result ≤ 4 }
    {
        self.depth
    }

    /// The band of this level and orientation.
    pub fn band(&self, level: u32, orient: u32) -> &Plane<T>
        requires { BandExists self.now.depth level orient }
        ensures { result.now ≡ band_of self.now level orient }
    {
        // The rules of bands: there are as many as their depth wants.
        let _ = &self.depth;
        &self.planes[place_of(level, orient)]
    }

    /// The band of this level and orientation, to write. Its holder may put a plane of another size there.
    pub fn band_mut(&mut self, level: u32, orient: u32) -> &mut Plane<T>
        requires { BandExists self.old.depth level orient }
        ensures* writes_back { sem 𝓛 (LendsBand T.row self.entry level orient result) }
        ensures value { result.now ≡ band_of self.old level orient }
        ensures there { band_index level orient < length self.old.bands }
    {
        // The rules of bands: there are as many as their depth wants.
        let _ = &self.depth;
        let place = place_of(level, orient);
        &mut self.planes[place]
    }
}

impl Bands<i64> {
    /// Whether each number of each band has a magnitude of at most `bound`.
    pub fn within(&self, bound: i64) -> bool
        ensures { (result ≡ true) ↔ AreBandsWithin bound self.now }
    {
        // The rules of bands: there are as many as their depth wants.
        let _ = &self.depth;
        for plane in self.planes.iter() {
            if !plane.within(bound) {
                return false;
            }
        }
        true
    }
}
