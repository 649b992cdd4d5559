ghost use Rattle.std.specs.Prelude.{◌≡◌, ◌%◌, ◌^◌, ◌<◌, ◌≤◌, MatchResult};
ghost use Rattle.slice_geometry.specs.Shape.{IsSize};
ghost use Rattle.slice_geometry.specs.Slicing.{Slicing, IsAllowed, IsBroken, slice_count, slice_bytes};
ghost use Rattle.slice_geometry.specs.Slicing as slicing;
ghost use Rattle.slice_geometry.specs.Geometry as geometry;

use crate::Size;
use planes::Rect;
use std::marker::Model;

/// The first broken rule of a layout.
#[derive(Clone, Copy, Debug, PartialEq, Eq)]
pub enum LayoutFault {
    /// The depth of the transform is above 4.
    Depth,
    /// The slices across or down are not 1 to 8192, or there are more than 2^20 of them.
    Slices,
    /// The bytes of a slice, a / b, are less than 1, or all slices have more than 2^28 bytes.
    Share,
}

/// How a picture is cut into slices: the depth of the transform, the slices across and down, and the bytes of a
/// slice as the fraction a / b.
#[derive(Clone, Copy, Debug, PartialEq, Eq)]
pub struct Layout {
    depth: u32,
    slices_x: u32,
    slices_y: u32,
    a: u32,
    b: u32,
}

impl Model for Layout {
    ghost use Rattle.slice_geometry.specs.Slicing.{Slicing, IsAllowed};

    ghost Value = { Slicing };

    ghost view = { λ l. record { depth = l.depth; slices_x = l.slices_x; slices_y = l.slices_y; a = l.a; b = l.b } };

    ghost invariant = { λ l. IsAllowed (record { depth = l.depth; slices_x = l.slices_x; slices_y = l.slices_y; a = l.a; b = l.b }) };

    ghost inverse = { λ s. record { depth = s.depth; slices_x = s.slices_x; slices_y = s.slices_y; a = s.a; b = s.b } };
}

// A width padded to a multiple of 2^depth, or a height.
fn padded_length(depth: u32, length: u32) -> u32
    requires depth { depth ≤ 4 }
    requires length { length ≤ 8192 }
    ensures value { result ≡ geometry.padded_length depth length }
    ensures most { result ≤ 8192 }
    ensures whole { result % 2 ^ depth ≡ 0 }
{
    let step = 1u32 << depth;
    step * ((length + step - 1) / step)
}

// The width of a level's subbands, or their height.
fn band_length(depth: u32, level: u32, length: u32) -> u32
    requires depth { depth ≤ 4 }
    requires level { level ≤ depth }
    requires length { length ≤ 8192 }
    ensures value { result ≡ geometry.band_length depth level length }
    ensures most { result ≤ 8192 }
{
    let padded = padded_length(depth, length);
    if level == 0 {
        padded >> depth
    } else {
        padded >> (depth - level + 1)
    }
}

impl Layout {
    /// The layout of these numbers, or the first rule that they break.
    pub fn check(
        depth: u32,
        slices_x: u32,
        slices_y: u32,
        a: u32,
        b: u32,
    ) -> Result<Layout, LayoutFault>
        ensures { let asked : Slicing = record
            { depth = depth; slices_x = slices_x; slices_y = slices_y; a = a; b = b } in
            MatchResult result (λ layout. (layout ≡ asked) × IsAllowed asked) (IsBroken asked) }
    {
        if depth > 4 {
            return Err(LayoutFault::Depth);
        }
        if slices_x < 1
            || slices_x > 8192
            || slices_y < 1
            || slices_y > 8192
            || slices_x * slices_y > 1 << 20
        {
            return Err(LayoutFault::Slices);
        }
        if b < 1
            || a < b
            || u64::from(slices_x * slices_y) * u64::from(a) / u64::from(b) > 1 << 28
        {
            return Err(LayoutFault::Share);
        }
        Ok(Layout {
            depth,
            slices_x,
            slices_y,
            a,
            b,
        })
    }

    /// The depth of the transform, at most 4.
    pub fn depth(&self) -> u32
        ensures value { result ≡ self.now.depth }
        ensures allowed { IsAllowed self.now }
    {
        self.depth
    }

    /// The slices across, 1 to 8192.
    pub fn slices_x(&self) -> u32
        ensures value { result ≡ self.now.slices_x }
        ensures allowed { IsAllowed self.now }
    {
        self.slices_x
    }

    /// The slices down, 1 to 8192.
    pub fn slices_y(&self) -> u32
        ensures value { result ≡ self.now.slices_y }
        ensures allowed { IsAllowed self.now }
    {
        self.slices_y
    }

    /// The numerator of a slice's bytes.
    pub fn a(&self) -> u32
        ensures value { result ≡ self.now.a }
        ensures allowed { IsAllowed self.now }
    {
        self.a
    }

    /// The denominator of a slice's bytes, at least 1.
    pub fn b(&self) -> u32
        ensures value { result ≡ self.now.b }
        ensures allowed { IsAllowed self.now }
    {
        self.b
    }

    /// How many slices there are, 1 to 2^20.
    pub fn count(&self) -> u32
        ensures value { result ≡ slice_count self.now }
        ensures allowed { IsAllowed self.now }
    {
        self.slices_x * self.slices_y
    }

    /// The size of a component once it is padded for the transform, at most 8192 by 8192.
    pub fn padded_size(&self, size: Size) -> Size
        requires { IsSize size.w size.h }
        ensures value { result ≡ geometry.padded_size self.now.depth size }
        ensures w_most { result.w ≤ 8192 }
        ensures h_most { result.h ≤ 8192 }
        ensures w_whole { result.w % 2 ^ self.now.depth ≡ 0 }
        ensures h_whole { result.h % 2 ^ self.now.depth ≡ 0 }
    {
        Size {
            w: padded_length(self.depth, size.w),
            h: padded_length(self.depth, size.h),
        }
    }

    /// The size of a level's subbands in a component of this size.
    pub fn band_size(&self, size: Size, level: u32) -> Size
        requires size { IsSize size.w size.h }
        requires level { level ≤ self.now.depth }
        ensures { result ≡ geometry.band_size self.now.depth level size }
    {
        Size {
            w: band_length(self.depth, level, size.w),
            h: band_length(self.depth, level, size.h),
        }
    }

    /// The places of slice (sx, sy) in a level's subbands, for a component of this size. There may be none.
    pub fn band_rect(&self, size: Size, level: u32, sx: u32, sy: u32) -> Rect
        requires size { IsSize size.w size.h }
        requires level { level ≤ self.now.depth }
        requires across { sx < self.now.slices_x }
        requires down { sy < self.now.slices_y }
        ensures { result ≡ geometry.slice_rect self.now
            (geometry.band_size self.now.depth level size) sx sy }
    {
        let w = band_length(self.depth, level, size.w);
        let h = band_length(self.depth, level, size.h);
        Rect {
            x0: w * sx / self.slices_x,
            x1: w * (sx + 1) / self.slices_x,
            y0: h * sy / self.slices_y,
            y1: h * (sy + 1) / self.slices_y,
        }
    }

    /// The bytes of slice n, 1 to 2^28.
    pub fn share(&self, n: u32) -> u32
        requires { n < slice_count self.now }
        ensures { result ≡ slice_bytes self.now.a self.now.b n }
    {
        let (a, b) = (u64::from(self.a), u64::from(self.b));
        let n = u64::from(n);
        ((n + 1) * a / b - n * a / b) as u32
    }

    /// The bytes of all slices, 1 to 2^28.
    pub fn total_bytes(&self) -> u32
        ensures { result ≡ slicing.total_bytes self.now }
    {
        let count = u64::from(self.slices_x * self.slices_y);
        (count * u64::from(self.a) / u64::from(self.b)) as u32
    }
}
