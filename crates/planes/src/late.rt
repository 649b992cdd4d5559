//! The memory of planes and bands that may never be needed: it is taken at once, and touched only when they are made.

ghost use Rattle.std.specs.Prelude.{◌≡◌, ℕ, ◌+◌, ◌*◌, ◌/◌, ◌%◌, ◌^◌, ◌<◌, ◌≤◌, length, replicate, slice_index_or, pos, IfOk, [], vec_capacity};
ghost use Rattle.planes.specs.Raster.{height, filled_with};
ghost use Rattle.planes.specs.Subbands.{no_band, band_of, subband_length, AreFilledBands};

use crate::band_set::band_length;
use crate::row_store::start_of;
use crate::{Bands, NoMemory, Number, Plane};
use std::alloc::Global;
use std::marker::Model;

/// The memory of a plane of zeros. Contracts see that plane.
#[derive(Drop)]
pub struct LatePlane<T = i64> {
    w: u32,
    h: u32,
    zero: T,
    room: Vec<T>,
    spare: Vec<T>,
}

impl<T> Model for LatePlane<T> {
    ghost use Rattle.planes.specs.Raster.{Raster, filled_with};
    ghost use Rattle.planes.specs.Late.{HasRoomAlone};

    ghost Value = { Raster T };

    ghost view = { λ p. filled_with p.zero p.w p.h };

    ghost invariant = { λ p. HasRoomAlone p.w p.h p.room p.spare };
}

// Puts so many zeros where there is room for them.
fn touch<T: Number>(room: &mut Vec<T>, zero: T, count: usize)
    requires none { room.old.items ≡ [] }
    requires fits { count ≤ vec_capacity room.old }
    ensures { room.new.items ≡ replicate count zero }
{
    match room.resize(count, zero) {
        Ok(()) => {}
        Err(_) => unreachable!(),
    }
}

// The number 0.
fn zero_of<T: Number>(alloc: Global) -> Result<T, NoMemory>
    ensures { IfOk result (λ zero. zero ≡ T.none) }
{
    let zeros = T::zeros(alloc, 1)?;
    Ok(zeros[0])
}

impl<T: Number> LatePlane<T> {
    /// The memory of a plane of w by h zeros, both at most 8208.
    pub fn new(alloc: Global, w: u32, h: u32) -> Result<LatePlane<T>, NoMemory>
        requires w_fits { w ≤ 8208 }
        requires h_fits { h ≤ 8208 }
        ensures { IfOk result (λ p. p ≡ filled_with T.none w h) }
    {
        let zero = zero_of(alloc)?;
        let room = Vec::with_capacity(alloc, start_of(h, w))?;
        let spare = T::zeros(alloc, w as usize)?;
        Ok(LatePlane {
            w,
            h,
            zero,
            room,
            spare,
        })
    }

    /// Makes the plane, in the place of one without rows. No memory is left then.
    pub fn make(&mut self, plane: &mut Plane<T>)
        requires { height plane.old ≡ 0 }
        ensures made { plane.new ≡ self.old }
        ensures left { height self.new ≡ 0 }
    {
        touch(&mut self.room, self.zero, start_of(self.h, self.w));
        let w = plane.w();
        plane.take(self.w, self.h, &mut self.room, &mut self.spare);
        self.w = w;
        self.h = 0;
    }
}

/// The memory of the subbands of one component, all zero. Contracts see those bands.
#[derive(Drop)]
pub struct LateBands<T = i64> {
    depth: u32,
    planes: Vec<LatePlane<T>>,
}

impl<T> Model for LateBands<T> {
    ghost use Rattle.std.specs.Prelude.{◌≡◌, ◌+◌, ◌*◌, ◌≤◌, length};
    ghost use Rattle.planes.specs.Subbands.{BandsOf};

    ghost Value = { BandsOf T };

    ghost view = { λ b. record { depth = b.depth; bands = b.planes.items } };

    ghost invariant = { λ b. (length b.planes.items ≡ 3 * b.depth + 1) × (b.depth ≤ 4) };
}

// The memory of the bands, in the order of their places.
fn late_planes<T: Number>(
    alloc: Global,
    depth: u32,
    w: u32,
    h: u32,
) -> Result<Vec<LatePlane<T>>, NoMemory>
    requires depth { depth ≤ 4 }
    requires w_fits { w ≤ 8208 }
    requires h_fits { h ≤ 8208 }
    ensures count { IfOk result (λ planes. length planes.items ≡ 3 * depth + 1) }
    ensures zero { IfOk result (λ planes. (k : ℕ) → k < 3 * depth + 1
        → slice_index_or planes.items k no_band
        ≡ filled_with T.none (subband_length depth ((k + 2) / 3) w)
        (subband_length depth ((k + 2) / 3) h)) }
{
    let mut planes = Vec::with_capacity(alloc, (3 * depth + 1) as usize)?;
    for k in 0..3 * depth + 1 {
        let level = (k + 2) / 3;
        let plane = LatePlane::new(
            alloc,
            band_length(depth, level, w),
            band_length(depth, level, h),
        )?;
        planes.push(plane)?;
    }
    Ok(planes)
}

impl<T: Number> LateBands<T> {
    /// The memory of the bands of a component of this padded size; the sizes are as `Bands::new` asks them.
    pub fn new(alloc: Global, depth: u32, w: u32, h: u32) -> Result<LateBands<T>, NoMemory>
        requires depth { depth ≤ 4 }
        requires w_fits { w ≤ 8208 }
        requires h_fits { h ≤ 8208 }
        requires w_whole { w % 2 ^ depth ≡ 0 }
        requires h_whole { h % 2 ^ depth ≡ 0 }
        ensures { IfOk result (λ b. AreFilledBands T.none b depth w h) }
    {
        let planes = late_planes(alloc, depth, w, h)?;
        Ok(LateBands { depth, planes })
    }

    /// Makes the bands, in the place of those of a component of no rows and no columns. No memory is left then.
    pub fn make(&mut self, bands: &mut Bands<T>)
        requires { AreFilledBands T.none bands.old self.old.depth 0 0 }
        ensures made { bands.new ≡ self.old }
        ensures left { (level orient : ℕ) → height (band_of self.new level orient) ≡ 0 }
        ensures same_depth { self.new.depth ≡ self.old.depth }
    {
        // The rules of both: they have as many planes as the same depth wants.
        let _ = (self.depth, bands.depth());
        for k in 0..self.planes.len() {
            self.planes[k].make(&mut bands.planes[k]);
        }
    }
}
