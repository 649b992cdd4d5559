//! The bands of a component in 16 bits: slice by slice, but for the lowest one.

ghost use Rattle.std.specs.Prelude.{◌≡◌, ◌^◌, ◌≤◌, length, pos, IfOk};
ghost use Rattle.planes.specs.Bounded.{AreBandsWithin};
ghost use Rattle.planes.specs.Raster.{height};
ghost use Rattle.planes.specs.Subbands.{AgreeInSizes, AreZeroBands};
ghost use Rattle.slice_geometry.specs.Shape.{IsSize};
ghost use Rattle.slice_geometry.specs.Geometry.{padded_length};
ghost use Rattle.slice_store.specs.Gathered.{ShowTheSame};
ghost use Rattle.slice_store.specs.ShortBands.{short_stack, IsShortSound};

use crate::SliceStore;
use planes::{NarrowBands, NarrowPlane, NoMemory};
use slice_geometry::{Layout, Size};
use std::alloc::Global;

/// The greatest magnitude for which bands of 16 bits serve: the sum of two such numbers fits in 16 bits.
pub const MAX_SHORT: i32 = bit_codes::MAX_SHORT as i32;

/// The lowest band is a plane of 32 bits, since a slice's numbers there are predicted from those of its neighbours. All
/// others stand slice by slice. What the slices hold for the lowest band is not looked at.
#[derive(Drop)]
pub struct ShortBands {
    /// The lowest band.
    pub lowest: NarrowPlane,
    /// All others.
    pub slices: SliceStore<i16>,
}

/// The bands of the three components in 16 bits.
#[derive(Drop)]
pub struct ShortTrio {
    /// Those of luma.
    pub luma: ShortBands,
    /// Those of C1.
    pub c1: ShortBands,
    /// Those of C2.
    pub c2: ShortBands,
}

// Gives a plane the numbers of another of its size.
fn copy_plane(from: &NarrowPlane, to: &mut NarrowPlane)
    requires same_width { from.now.w ≡ to.old.w }
    requires same_height { height from.now ≡ height to.old }
    ensures { to.new ≡ from.now }
{
    for y in 0..to.h() {
        to.row_mut(y).copy_from_slice(from.row(y));
    }
}

impl ShortBands {
    /// Zeros for a component that is cut so. The error is want of memory alone.
    pub fn new(alloc: Global, layout: Layout, size: Size) -> Result<ShortBands, NoMemory>
        requires { IsSize size.w size.h }
        ensures zero { IfOk result (λ b. AreZeroBands (short_stack b) layout.depth
            (padded_length layout.depth size.w) (padded_length layout.depth size.h)) }
        ensures cut { IfOk result (λ b. b.slices.slicing ≡ layout) }
        ensures size { IfOk result (λ b. b.slices.size ≡ size) }
        ensures sound { IfOk result IsShortSound }
    {
        let slices = SliceStore::new(alloc, layout, size, layout.slices_y())?;
        let band = layout.band_size(size, 0);
        let lowest = NarrowPlane::new(alloc, band.w, band.h)?;
        Ok(ShortBands { lowest, slices })
    }

    /// Gives bands of 32 bits the numbers of these, by a row of 16 bits.
    pub fn widen(&self, bands: &mut NarrowBands, row: &mut [i16])
        requires sound { IsShortSound self.now }
        requires sizes { AgreeInSizes (short_stack self.now) bands.old }
        requires room { padded_length self.now.slices.slicing.depth self.now.slices.size.w
            ≤ length row.old }
        ensures same { ShowTheSame (short_stack self.now) bands.new }
        ensures within { AreBandsWithin (pos (2 ^ 18)) bands.new }
    {
        self.slices.shows();
        self.slices.gather(bands, row);
        copy_plane(&self.lowest, bands.band_mut(0, 0));
    }
}
