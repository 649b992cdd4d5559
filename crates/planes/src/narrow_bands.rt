//! Copies of the subbands of a component, from numbers of 32 bits to 64 and back.

ghost use Rattle.std.specs.Prelude.{◌≡◌, ◌^◌, ◌<◌, ℕ, length, pos, slice_index_or};
ghost use Rattle.planes.specs.Raster.{height};
ghost use Rattle.planes.specs.Bounded.{IsWithin, IsPlaneWithin, AreBandsWithin};
ghost use Rattle.planes.specs.Subbands.{AgreeInSizes};

use crate::{Bands, NarrowPlane, Plane};

// Gives a row the numbers of a row of 32 bits.
fn widen_row(wide: &mut [i64], narrow: &[i32])
    requires { length narrow.now ≡ length wide.old }
    ensures { wide.new ≡ narrow.now }
{
    for x in 0..wide.len() {
        wide[x] = i64::from(narrow[x]);
    }
}

// Gives a plane the numbers of a plane of 32 bits.
fn widen_plane(wide: &mut Plane, narrow: &NarrowPlane)
    requires same_width { narrow.now.w ≡ wide.old.w }
    requires same_height { height narrow.now ≡ height wide.old }
    ensures { wide.new ≡ narrow.now }
{
    for y in 0..wide.h() {
        widen_row(wide.row_mut(y), narrow.row(y));
    }
}

// Gives a row of 32 bits the numbers of a row, which fit.
fn narrow_row(narrow: &mut [i32], wide: &[i64])
    requires same_length { length wide.now ≡ length narrow.old }
    requires small { (x : ℕ) → x < length wide.now
        → IsWithin (pos (2 ^ 18)) (slice_index_or wide.now x (pos 0)) }
    ensures { narrow.new ≡ wide.now }
{
    for x in 0..narrow.len() {
        narrow[x] = wide[x] as i32;
    }
}

// Gives a plane of 32 bits the numbers of a plane, which fit.
fn narrow_plane(narrow: &mut NarrowPlane, wide: &Plane)
    requires same_width { wide.now.w ≡ narrow.old.w }
    requires same_height { height wide.now ≡ height narrow.old }
    requires small { IsPlaneWithin (pos (2 ^ 18)) wide.now }
    ensures { narrow.new ≡ wide.now }
{
    for y in 0..narrow.h() {
        narrow_row(narrow.row_mut(y), wide.row(y));
    }
}

impl Bands<i32> {
    /// Gives wide bands of the same depth and sizes all numbers of these.
    pub fn widen(&self, wide: &mut Bands)
        requires { AgreeInSizes self.now wide.old }
        ensures { wide.new ≡ self.now }
    {
        // The rules of both: they have as many planes as the same depth wants.
        let _ = (self.depth, wide.depth());
        for k in 0..self.planes.len() {
            widen_plane(&mut wide.planes[k], &self.planes[k]);
        }
    }

    /// Takes all numbers of wide bands of the same depth and sizes, whose magnitudes are at most 2^18.
    pub fn narrow(&mut self, wide: &Bands)
        requires sizes { AgreeInSizes self.old wide.now }
        requires small { AreBandsWithin (pos (2 ^ 18)) wide.now }
        ensures { self.new ≡ wide.now }
    {
        // The rules of both: they have as many planes as the same depth wants.
        let _ = (self.depth, wide.depth());
        for k in 0..wide.planes.len() {
            narrow_plane(&mut self.planes[k], &wide.planes[k]);
        }
    }
}
