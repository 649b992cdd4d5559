//! What the decoder and the encoder of pictures have in common: the room for a component's transform, and its size.

ghost use Rattle.std.specs.Prelude.{◌≡◌, ◌≤◌, true, Ok, IfOk};
ghost use Rattle.slice_geometry.specs.Shape.{IsSize, IsDepth};
ghost use Rattle.planes.specs.Subbands.{AreZeroBands};
ghost use Rattle.picture_codec.specs.Pictures as pictures;
ghost use Rattle.slice_geometry.specs.Frames.{frame_of};
ghost use Rattle.picture_codec.specs.Decoding.{HaveHalfRoom, AreNewBandsOf, IsRowless, HasLateRoom, HasGatherRoom, IsGatherRowless, HasSynthesisRoom};
ghost use Rattle.slice_geometry.specs.Slicing.{Slicing};
ghost use Rattle.slice_geometry.specs.declared.Size.{Size};

use planes::{Bands, LateBands, LatePlane, LateTrio, NarrowTrio, NoMemory, Number, Plane};
use slice_geometry::{Component, Layout, PictureShape, Size};
use std::alloc::Global;

/// The room for synthesis, in 64 bits where no other width is named: a plane for the levels below the last, and a scratch for
/// their rows and for three of the last, which goes straight into the samples.
#[derive(Drop)]
pub struct Workspace<T = i64> {
    pub(crate) plane: Plane<T>,
    pub(crate) scratch: Plane<T>,
}

/// The same room, whose memory isn't touched before it is made.
#[derive(Drop)]
pub(crate) struct LateWorkspace<T = i64> {
    pub(crate) room: Workspace<T>,
    pub(crate) late_plane: LatePlane<T>,
    pub(crate) late_scratch: LatePlane<T>,
    pub(crate) is_made: bool,
}

impl<T: Number> LateWorkspace<T> {
    pub(crate) fn new(
        alloc: Global,
        layout: &Layout,
        size: Size,
    ) -> Result<LateWorkspace<T>, NoMemory>
        requires { IsSize size.w size.h }
        ensures { IfOk result (HasLateRoom layout.now size) }
    {
        // The rules of a layout.
        let _ = layout.depth();
        let padded = layout.padded_size(size);
        let late_plane = LatePlane::new(alloc, padded.w / 2, padded.h / 2)?;
        let late_scratch = LatePlane::new(alloc, padded.w, padded.h / 2 + 3)?;
        let plane = Plane::new(alloc, 0, 0)?;
        let scratch = Plane::new(alloc, 0, 0)?;
        Ok(LateWorkspace {
            room: Workspace { plane, scratch },
            late_plane,
            late_scratch,
            is_made: false,
        })
    }

    /// The room, made if it wasn't.
    pub(crate) fn make(&mut self)
        requires { IsRowless self.old }
        ensures { (s : Slicing) (size : Size) → HasLateRoom s size self.old
            → HaveHalfRoom s size self.new.room.plane self.new.room.scratch
            × (self.new.is_made ≡ true) }
    {
        if self.is_made {
            return;
        }
        self.late_plane.make(&mut self.room.plane);
        self.late_scratch.make(&mut self.room.scratch);
        self.is_made = true;
    }
}

/// The bands of a component in 16 bits as rows, whose memory isn't touched before they are made.
#[derive(Drop)]
pub(crate) struct GatherRoom {
    pub(crate) bands: Bands<i16>,
    pub(crate) late: LateBands<i16>,
    pub(crate) is_made: bool,
}

impl GatherRoom {
    pub(crate) fn new(alloc: Global, layout: &Layout, size: Size) -> Result<GatherRoom, NoMemory>
        requires { IsSize size.w size.h }
        ensures { IfOk result (HasGatherRoom layout.now size) }
    {
        Ok(GatherRoom {
            bands: Bands::new(alloc, layout.depth(), 0, 0)?,
            late: late_zero_bands(alloc, layout, size)?,
            is_made: false,
        })
    }

    /// The bands, made if they weren't.
    pub(crate) fn make(&mut self)
        requires { IsGatherRowless self.old }
        ensures { (s : Slicing) (size : Size) → HasGatherRoom s size self.old
            → HasGatherRoom s size self.new × (self.new.is_made ≡ true) }
    {
        if self.is_made {
            return;
        }
        self.late.make(&mut self.bands);
        self.is_made = true;
    }
}

/// The room for synthesis of a component: in 64 bits, in 32 and in 16, these with rows to gather slices in.
#[derive(Drop)]
pub(crate) struct SynthesisRoom {
    pub(crate) late: LateWorkspace,
    pub(crate) narrow: LateWorkspace<i32>,
    pub(crate) short: LateWorkspace<i16>,
    pub(crate) gathered: GatherRoom,
}

impl SynthesisRoom {
    pub(crate) fn new(alloc: Global, layout: &Layout, size: Size) -> Result<SynthesisRoom, NoMemory>
        requires { IsSize size.w size.h }
        ensures { IfOk result (HasSynthesisRoom layout.now size) }
    {
        let (late, narrow) = two_rooms(alloc, layout, size)?;
        match short_rooms(alloc, layout, size) {
            Ok((short, gathered)) => Ok(SynthesisRoom {
                late,
                narrow,
                short,
                gathered,
            }),
            Err(NoMemory) => {
                drop(late);
                drop(narrow);
                Err(NoMemory)
            }
        }
    }
}

// What is let go by name here, the proof would else take apart field by field.

// Rooms of two widths.
fn two_rooms<T: Number, U: Number>(
    alloc: Global,
    layout: &Layout,
    size: Size,
) -> Result<(LateWorkspace<T>, LateWorkspace<U>), NoMemory>
    requires { IsSize size.w size.h }
    ensures { IfOk result (λ r. HasLateRoom layout.now size r.0 × HasLateRoom layout.now size r.1) }
{
    let first = LateWorkspace::new(alloc, layout, size)?;
    match LateWorkspace::new(alloc, layout, size) {
        Ok(second) => Ok((first, second)),
        Err(NoMemory) => {
            drop(first);
            Err(NoMemory)
        }
    }
}

// The room in 16 bits, and the rows to gather slices in.
fn short_rooms(
    alloc: Global,
    layout: &Layout,
    size: Size,
) -> Result<(LateWorkspace<i16>, GatherRoom), NoMemory>
    requires { IsSize size.w size.h }
    ensures { IfOk result (λ r. HasLateRoom layout.now size r.0 × HasGatherRoom layout.now size r.1) }
{
    let short = LateWorkspace::new(alloc, layout, size)?;
    match GatherRoom::new(alloc, layout, size) {
        Ok(gathered) => Ok((short, gathered)),
        Err(NoMemory) => {
            drop(short);
            Err(NoMemory)
        }
    }
}

/// The same of luma, and of C1 and C2, which share theirs.
#[derive(Drop)]
pub(crate) struct SynthesisRooms {
    pub(crate) luma: SynthesisRoom,
    pub(crate) colour: SynthesisRoom,
}

impl SynthesisRooms {
    pub(crate) fn new(
        alloc: Global,
        layout: &Layout,
        shape: &PictureShape,
    ) -> Result<SynthesisRooms, NoMemory>
        ensures { IfOk result (λ r. HasSynthesisRoom layout.now shape.now.luma r.luma
            × HasSynthesisRoom layout.now shape.now.colour r.colour) }
    {
        let luma = SynthesisRoom::new(alloc, layout, shape.luma)?;
        match SynthesisRoom::new(alloc, layout, shape.colour) {
            Ok(colour) => Ok(SynthesisRooms { luma, colour }),
            Err(NoMemory) => {
                drop(luma);
                Err(NoMemory)
            }
        }
    }
}

// The memory of the bands of a component.
fn late_zero_bands<T: Number>(
    alloc: Global,
    layout: &Layout,
    size: Size,
) -> Result<LateBands<T>, NoMemory>
    requires { IsSize size.w size.h }
    ensures { IfOk result (AreNewBandsOf T.none layout.now size) }
{
    let padded = layout.padded_size(size);
    LateBands::new(alloc, layout.depth(), padded.w, padded.h)
}

/// What was made of each component, where all three were: `luma`, C1, C2.
pub(crate) fn all_made<B: Drop>(
    luma: Result<B, NoMemory>,
    c1: Result<B, NoMemory>,
    c2: Result<B, NoMemory>,
) -> Result<(B, B, B), NoMemory>
    ensures { IfOk result (λ made. (luma ≡ Ok made.0) × (c1 ≡ Ok made.1) × (c2 ≡ Ok made.2)) }
{
    Ok((luma?, c1?, c2?))
}

/// The memory of the bands of the three components.
pub(crate) fn late_zero_trio<T: Number>(
    alloc: Global,
    layout: &Layout,
    shape: &PictureShape,
) -> Result<LateTrio<T>, NoMemory>
    ensures { IfOk result (λ bands. AreNewBandsOf T.none layout.now shape.now.luma bands.luma
        × AreNewBandsOf T.none layout.now shape.now.colour bands.c1
        × AreNewBandsOf T.none layout.now shape.now.colour bands.c2) }
{
    let (luma, c1, c2) = all_made(
        late_zero_bands(alloc, layout, shape.luma),
        late_zero_bands(alloc, layout, shape.colour),
        late_zero_bands(alloc, layout, shape.colour),
    )?;
    Ok(LateTrio { luma, c1, c2 })
}

/// Bands of 32 bits of no rows, in whose place others are made.
pub(crate) fn rowless_narrow_trio(alloc: Global, depth: u32) -> Result<NarrowTrio, NoMemory>
    requires { depth ≤ 4 }
    ensures { IfOk result (λ bands. AreZeroBands bands.luma depth 0 0
        × AreZeroBands bands.c1 depth 0 0
        × AreZeroBands bands.c2 depth 0 0) }
{
    let (luma, c1, c2) = all_made(
        Bands::new(alloc, depth, 0, 0),
        Bands::new(alloc, depth, 0, 0),
        Bands::new(alloc, depth, 0, 0),
    )?;
    Ok(NarrowTrio { luma, c1, c2 })
}

/// The size of a component.
pub(crate) fn size_of(shape: &PictureShape, c: Component) -> Size
    ensures value { result ≡ pictures.size_of (frame_of shape.now) c }
    ensures allowed { IsSize result.w result.h }
{
    match c {
        Component::Luma => shape.luma,
        Component::C1 | Component::C2 => shape.colour,
    }
}

/// The bits of its samples.
pub(crate) fn depth_of(shape: &PictureShape, c: Component) -> u32
    ensures value { result ≡ pictures.depth_of (frame_of shape.now) c }
    ensures allowed { IsDepth result }
{
    match c {
        Component::Luma => shape.luma_depth,
        Component::C1 | Component::C2 => shape.colour_depth,
    }
}
