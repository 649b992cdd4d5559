// The samples of a picture from a source, piece by piece.
ghost use Rattle.vc2_io.specs.declared.TheConstants.{READ_SIZE};
ghost use Rattle.std.specs.Prelude.{◌≡◌, ◌≢◌, ◌≤◌, ◌+◌, ◌*◌, ◌^◌, ◌++◌, length, take, replicate};
ghost use Rattle.slice_geometry.specs.declared.Component.{Component};
ghost use Rattle.slice_geometry.specs.Shape.{IsDepth};
ghost use Rattle.picture_codec.specs.Pictures.{depth_of};
ghost use Rattle.slice_geometry.specs.Frames.{frame_of};
ghost use Rattle.picture_codec.specs.Samples.{component_shown, width_of, height_of, sample_bits};
ghost use Rattle.raw_video.specs.RawText.{is_wide};
ghost use Rattle.raw_video.specs.RawParse.{sample_size, sample_bounds};
ghost use Rattle.raw_video.specs.Reading.{whole_samples, ReadsSamples, SamplesCause};

use crate::parsing::{first_large, parse};
use crate::spelling::are_wide;
use picture_codec::Picture;
use slice_geometry::{Component, PictureShape};
use vc2_io::{READ_SIZE, Source, fill};

/// Why the samples of a picture did not come whole. Numbers are counted from the picture's first.
#[derive(Clone, Copy)]
pub enum Halt {
    /// No more than so many bytes of the picture came.
    Ended(u64),
    /// The sample of this number is too large.
    Large(u64),
    /// A read failed.
    ReadFault,
}

/// How many bytes so many samples take.
pub(crate) fn bytes_of(wide: bool, count: u64) -> u64
    requires { count ≤ 2 ^ 26 }
    ensures { result ≡ sample_size wide * count }
{
    if wide { 2 * count } else { count }
}

// How many samples one read asks for.
fn samples_a_read(wide: bool) -> usize
    ensures { result ≡ whole_samples wide READ_SIZE }
{
    if wide { READ_SIZE / 2 } else { READ_SIZE }
}

// What samples of so many bits are below.
#[tactic(auto, using(crate::proofs::Bounds::bound_small))]
fn bound_of(depth: u32) -> u32
    requires { IsDepth depth }
    ensures { result ≡ 2 ^ depth }
{
    1 << depth
}

// The bits of a component's samples.
fn depth_of(shape: &PictureShape, c: Component) -> u32
    ensures value { result ≡ depth_of (frame_of shape.now) c }
    ensures fits { IsDepth result }
{
    match c {
        Component::Luma => shape.luma_depth,
        Component::C1 => shape.colour_depth,
        Component::C2 => shape.colour_depth,
    }
}

// How the samples of a component are read: by two bytes each or by one, and what they are below.
#[derive(Clone, Copy)]
struct Form {
    wide: bool,
    bound: u32,
}

// Reads n samples that are below the bound, from sample `start` of the picture on, into the front of `samples`.
fn read_piece<S: Source>(
    src: &mut S,
    bytes: &mut [u8],
    start: usize,
    n: usize,
    room: u64,
    form: Form,
    samples: &mut [u16],
) -> Result<(), Halt>
    requires some { 1 ≤ n }
    requires few { n ≤ READ_SIZE }
    requires one_read { sample_size form.wide * n ≤ READ_SIZE }
    requires start_few { start ≤ 2 ^ 26 }
    requires inside { sample_size form.wide * start ≤ room }
    requires bytes_long { length bytes.old ≡ READ_SIZE }
    requires long { length samples.old ≡ READ_SIZE }
    ensures piece { ReadsSamples form.wide start room (replicate n form.bound) (S.rest src.old)
        (S.rest src.new) (take n samples.new) result }
    ensures bytes_len { length bytes.new ≡ READ_SIZE }
    ensures len { length samples.new ≡ READ_SIZE }
    ensures cause { SamplesCause (S.faults src.old) (S.faults src.new) result }
{
    let before = bytes_of(form.wide, start as u64);
    let want = bytes_of(form.wide, n as u64);
    let most = want.min(room - before) as usize;
    let came = match fill(src, &mut bytes[..most]) {
        Ok(came) => came,
        Err(_) => return Err(Halt::ReadFault),
    };
    let count = parse(&bytes[..came], form.wide, samples);
    if let Some(k) = first_large(&samples[..count], form.wide, form.bound) {
        return Err(Halt::Large((start + k) as u64));
    }
    if (came as u64) < want {
        return Err(Halt::Ended(before + came as u64));
    }
    Ok(())
}

// Reads the samples of a component, which begin with sample `start` of the picture.
fn read_component<S: Source>(
    src: &mut S,
    picture: &mut Picture,
    c: Component,
    start: usize,
    room: u64,
) -> Result<(), Halt>
    requires start_few { start ≤ 2 ^ 25 }
    requires inside { sample_size (is_wide (frame_of picture.old.shape)) * start ≤ room }
    ensures same_shape { picture.new.shape ≡ picture.old.shape }
    ensures read { ReadsSamples (is_wide (frame_of picture.old.shape)) start room
        (replicate (height_of picture.old c * width_of picture.old c)
        (2 ^ sample_bits picture.old c))
        (S.rest src.old) (S.rest src.new) (component_shown picture.new c).cells result }
    ensures others { (other : Component) → other ≢ c
        → component_shown picture.new other ≡ component_shown picture.old other }
    ensures cause { SamplesCause (S.faults src.old) (S.faults src.new) result }
{
    let wide = are_wide(picture.shape());
    let bound = bound_of(depth_of(picture.shape(), c));
    let count = picture.samples(c).len();
    let most = samples_a_read(wide);
    let mut bytes = [0u8; READ_SIZE];
    let mut samples = [0u16; READ_SIZE];
    for piece in 0..(count + most - 1) / most {
        let from = most * piece;
        let n = (count - from).min(most);
        let form = Form { wide, bound };
        read_piece(src, &mut bytes, start + from, n, room, form, &mut samples)?;
        picture.put_samples(c, from, &samples[..n]);
    }
    Ok(())
}

/// Reads the samples of the picture, for which the source may give so many bytes.
pub(crate) fn read_samples<S: Source>(
    src: &mut S,
    picture: &mut Picture,
    room: u64,
) -> Result<(), Halt>
    ensures same_shape { picture.new.shape ≡ picture.old.shape }
    ensures read { ReadsSamples (is_wide (frame_of picture.old.shape)) 0 room
        (sample_bounds (frame_of picture.old.shape))
        (S.rest src.old) (S.rest src.new)
        (picture.new.samples.luma.cells ++ (picture.new.samples.c1.cells
        ++ picture.new.samples.c2.cells)) result }
    ensures cause { SamplesCause (S.faults src.old) (S.faults src.new) result }
{
    let luma = picture.samples(Component::Luma).len();
    let colour = picture.samples(Component::C1).len();
    read_component(src, picture, Component::Luma, 0, room)?;
    read_component(src, picture, Component::C1, luma, room)?;
    read_component(src, picture, Component::C2, luma + colour, room)
}
