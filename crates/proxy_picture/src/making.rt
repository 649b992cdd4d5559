//! The samples of a component's proxy.

ghost use Rattle.std.specs.Prelude.{◌≡◌, ◌*◌, ◌%◌, ◌^◌, ◌<◌, ◌≤◌, length};
ghost use Rattle.std.specs.List.{All};
ghost use Rattle.slice_geometry.specs.declared.Component.TheVariants.{Luma};
ghost use Rattle.slice_geometry.specs.Geometry.{padded_length};
ghost use Rattle.slice_geometry.specs.Shape.{IsSize, IsDepth};
ghost use Rattle.picture_codec.specs.Samples.{component_shown, width_of, height_of, sample_bits, with_component};
ghost use Rattle.picture_codec.specs.Decoding.{CanSynthesise, stack_of};
ghost use Rattle.proxy_picture.specs.Proxy.{levels_left, reduced_length};
ghost use Rattle.proxy_picture.specs.Proxy as proxy;
ghost use Rattle.transform_params.specs.Views.{params_of};
ghost use Rattle.proxy_picture.specs.Making.{level_size, AreOfSize, AreSized, IsLowerPart, IsRoomFor, reduced, reduced_in};

use crate::lowered::{LevelPlanes, LowerPart, Lowered};
use crate::room::ProxyRoom;
use crate::sizes::{levels_made, reduced_size};
use lifting::{LowerLevel, SampleArea, Wavelet};
use picture_codec::{DecodedBands, Picture, ShownBands};
use planes::Bands;
use slice_geometry::{Component, PictureShape, Size};
use transform_params::TransformParams;

// By how many bits numbers lie above samples, where so many levels are left out.
fn shift_left_out(wavelet: Wavelet, left: u32) -> u32
    ensures value { result ≡ proxy.shift_left_out wavelet left }
    ensures most { result ≤ left }
{
    match wavelet {
        Wavelet::LeGall => left,
        Wavelet::HaarFlat => 0,
        Wavelet::HaarShift => left,
    }
}

/// A component with its size and the bits of its samples.
#[derive(Clone, Copy)]
pub(crate) struct ComponentShape {
    pub(crate) c: Component,
    pub(crate) size: Size,
    pub(crate) bits: u32,
}

impl ComponentShape {
    pub(crate) fn luma(shape: &PictureShape) -> ComponentShape
        ensures { result
            ≡ record { c = Luma; size = shape.now.luma; bits = shape.now.luma_depth } }
    {
        ComponentShape {
            c: Component::Luma,
            size: shape.luma,
            bits: shape.luma_depth,
        }
    }

    /// One of the two colour components.
    pub(crate) fn colour(shape: &PictureShape, c: Component) -> ComponentShape
        ensures { result
            ≡ record { c = c; size = shape.now.colour; bits = shape.now.colour_depth } }
    {
        ComponentShape {
            c,
            size: shape.colour,
            bits: shape.colour_depth,
        }
    }
}

// The lower level of a component, where so many levels are asked for.
fn lower_part(params: &TransformParams, level: u32, of: ComponentShape) -> LowerPart
    requires size { IsSize of.size.w of.size.h }
    ensures part { IsLowerPart (params_of params.now) level of.size of.bits result }
    ensures few { result.lower.levels ≤ params.now.layout.depth }
    ensures shift { result.lower.shift ≤ 4 }
    ensures w_whole { result.padded.w % 2 ^ params.now.layout.depth ≡ 0 }
    ensures h_whole { result.padded.h % 2 ^ params.now.layout.depth ≡ 0 }
    ensures fits { IsSize result.area.w result.area.h }
    ensures deep { params.now.layout.depth ≤ 4 }
{
    let depth = params.layout.depth();
    let levels = levels_made(level, depth);
    let left = depth - levels;
    let shift = shift_left_out(params.wavelet, left);
    let padded = params.layout.padded_size(of.size);
    let kept = reduced_size(left, of.size);
    let (w, h, depth) = (kept.w, kept.h, of.bits);
    LowerPart {
        lower: LowerLevel { levels, shift },
        padded,
        area: SampleArea { w, h, depth },
    }
}

// The samples of a component, from its bands in one width.
fn make_level<T: Lowered>(
    params: &TransformParams,
    level: u32,
    bands: &Bands<T>,
    of: ComponentShape,
    planes: &mut LevelPlanes<T>,
    cells: &mut [u16],
)
    requires size { IsSize of.size.w of.size.h }
    requires bits { IsDepth of.bits }
    requires sized { AreSized params.now.layout.depth
        (padded_length params.now.layout.depth of.size.w)
        (padded_length params.now.layout.depth of.size.h) bands.now }
    requires serve { T.serve bands.now (padded_length params.now.layout.depth of.size.w)
        (padded_length params.now.layout.depth of.size.h) }
    requires room { AreOfSize (level_size params.now.layout level of.size).w
        (level_size params.now.layout level of.size).h planes.old.plane planes.old.scratch }
    requires count { length cells.old
        ≡ reduced_length (levels_left level params.now.layout.depth) of.size.h
        * reduced_length (levels_left level params.now.layout.depth) of.size.w }
    ensures room { AreOfSize (level_size params.now.layout level of.size).w
        (level_size params.now.layout level of.size).h planes.new.plane planes.new.scratch }
    ensures count { length cells.new ≡ length cells.old }
    ensures cells { cells.new
        ≡ (reduced_in T.value T.none params.now.wavelet level of.size of.bits bands.now).cells }
{
    let part = lower_part(params, level, of);
    T::synth_lower(params.wavelet, bands, part, planes, cells);
}

// The samples of a component, in the room's cells.
fn make_cells(
    params: &TransformParams,
    level: u32,
    bands: &DecodedBands,
    of: ComponentShape,
    room: &mut ProxyRoom,
)
    requires size { IsSize of.size.w of.size.h }
    requires bits { IsDepth of.bits }
    requires ready { CanSynthesise params.now.layout of.size (stack_of bands.now of.c) }
    requires room { IsRoomFor params.now.layout level of.size room.old }
    ensures room { IsRoomFor params.now.layout level of.size room.new }
    ensures cells { room.new.cells.items
        ≡ (reduced params.now.wavelet level of.size of.bits (stack_of bands.now of.c)).cells }
{
    // The rules of a layout.
    let _ = params.layout.depth();
    let cells = room.cells.as_mut_slice();
    match bands.component(of.c) {
        ShownBands::Wide(bands) => {
            room.late.make();
            make_level(params, level, bands, of, &mut room.late.planes, cells)
        }
        ShownBands::Narrow(bands) => {
            make_level(params, level, bands, of, &mut room.narrow, cells)
        }
        ShownBands::Short(bands) => {
            room.widened.take(bands);
            let bands = &room.widened.bands;
            make_level(params, level, bands, of, &mut room.narrow, cells)
        }
    }
}

// Gives a component of a picture these samples.
fn show(picture: &mut Picture, c: Component, cells: &[u16])
    requires count { length cells.now ≡ height_of picture.old c * width_of picture.old c }
    requires small { All (λ v. v < 2 ^ sample_bits picture.old c) cells.now }
    ensures { picture.new ≡ record picture.old {
      samples = with_component picture.old.samples c
          (record { w = width_of picture.old c; h = height_of picture.old c; cells = cells.now });
    } }
{
    // The component has the size of the picture's shape.
    let _ = picture.samples(c);
    picture.put_samples(c, 0, cells);
}

/// Makes a component of a proxy, from the bands of that component.
pub(crate) fn make_component(
    params: &TransformParams,
    level: u32,
    bands: &DecodedBands,
    of: ComponentShape,
    room: &mut ProxyRoom,
    proxy: &mut Picture,
)
    requires size { IsSize of.size.w of.size.h }
    requires bits { IsDepth of.bits }
    requires ready { CanSynthesise params.now.layout of.size (stack_of bands.now of.c) }
    requires room { IsRoomFor params.now.layout level of.size room.old }
    requires width { width_of proxy.old of.c
        ≡ reduced_length (levels_left level params.now.layout.depth) of.size.w }
    requires height { height_of proxy.old of.c
        ≡ reduced_length (levels_left level params.now.layout.depth) of.size.h }
    requires bits_of { sample_bits proxy.old of.c ≡ of.bits }
    ensures room { IsRoomFor params.now.layout level of.size room.new }
    ensures proxy { proxy.new ≡ record proxy.old {
      samples = with_component proxy.old.samples of.c
          (reduced params.now.wavelet level of.size of.bits (stack_of bands.now of.c));
    } }
{
    make_cells(params, level, bands, of, room);
    show(proxy, of.c, room.cells.as_slice());
}
