// The pictures of a seed.
ghost use Rattle.std.specs.Prelude.{◌≡◌, ◌≢◌, ℕ, ◌+◌, ◌*◌, ◌/◌, ◌%◌, ◌^◌, ◌<◌, ◌≤◌, length, slice_index_or};
ghost use Rattle.std.specs.List.{All};
ghost use Rattle.slice_geometry.specs.declared.Component.{Component};
ghost use Rattle.slice_geometry.specs.Shape.{IsDepth};
ghost use Rattle.slice_geometry.specs.Frames.{frame_of};
ghost use Rattle.picture_codec.specs.Pictures as pictures;
ghost use Rattle.picture_codec.specs.Samples.{component_shown, width_of, height_of, sample_bits};
ghost use Rattle.trial_video.specs.Video.{state_at, video_rows, video_picture};

use picture_codec::Picture;
use slice_geometry::{Component, PictureShape, Size};
use std::marker::Model;

// A row of any picture has so many samples.
const MOST_COLUMNS: usize = 8192;

/// The video of a seed: pictures of one shape, one after another.
#[derive(Drop)]
pub struct TrialVideo {
    shape: PictureShape,
    seed: u32,
    pictures: u64,
    state: u32,
}

impl Model for TrialVideo {
    ghost use Rattle.std.specs.Prelude.{◌≡◌, ◌*◌, ◌^◌, ◌<◌};
    ghost use Rattle.slice_geometry.specs.Frames.{frame_of};
    ghost use Rattle.trial_video.specs.Video.{TrialVideoSeen, state_at, picture_count};

    ghost Value = { TrialVideoSeen };

    ghost view = { λ v. record { shape = v.shape; seed = v.seed; pictures = v.pictures } };

    ghost invariant = { λ v. (v.state ≡ state_at v.seed (v.pictures * picture_count (frame_of v.shape))) × (v.state < 2 ^ 16) };
}

// So many low bits of a number.
#[inline(always)]
#[tactic(auto, using(crate::proofs::Bits::some_bits))]
fn low_bits(v: u64, depth: u32) -> u16
    requires { IsDepth depth }
    ensures value { result ≡ v % 2 ^ depth }
    ensures small { result < 2 ^ depth }
{
    (v & ((1 << depth) - 1)) as u16
}

// The samples of a row, which has `first` at its first place but for the state. Gives the state behind the row.
fn fill_row(row: &mut [u16], start: u32, first: u64, depth: u32) -> u32
    requires start { start < 2 ^ 16 }
    requires first { first ≤ 2 ^ 43 }
    requires depth { IsDepth depth }
    requires short { length row.old ≤ 8192 }
    ensures len { length row.new ≡ length row.old }
    ensures row { (x : ℕ) → x < length row.old
        → slice_index_or row.new x 0 ≡ (x + first + state_at start (x + 1) / 4096) % 2 ^ depth }
    ensures below { All (λ v. v < 2 ^ depth) row.new }
    ensures state { result ≡ state_at start (length row.old) }
    ensures small { result < 2 ^ 16 }
{
    let mut state = start;
    for x in 0..row.len() {
        state = (25173 * state + 13849) % 65536;
        row[x] = low_bits(x as u64 + first + u64::from(state / 4096), depth);
    }
    state
}

// The size of a component.
fn size_of(shape: &PictureShape, c: Component) -> Size
    ensures value { result ≡ pictures.size_of (frame_of shape.now) c }
    ensures width { result.w ≤ 8192 }
    ensures height { result.h ≤ 8192 }
{
    match c {
        Component::Luma => shape.luma,
        Component::C1 => shape.colour,
        Component::C2 => shape.colour,
    }
}

// The bits of a component's samples.
fn depth_of(shape: &PictureShape, c: Component) -> u32
    ensures value { result ≡ pictures.depth_of (frame_of shape.now) c }
    ensures fits { IsDepth result }
{
    match c {
        Component::Luma => shape.luma_depth,
        Component::C1 => shape.colour_depth,
        Component::C2 => shape.colour_depth,
    }
}

// The samples of a component of picture p, from the state before its first sample, by way of a line as long as its rows.
// Gives the state behind the last.
fn fill_rows(picture: &mut Picture, c: Component, p: u64, start: u32, line: &mut [u16]) -> u32
    requires few { p ≤ 2 ^ 40 }
    requires start { start < 2 ^ 16 }
    requires long { length line.old ≡ width_of picture.old c }
    ensures same_shape { picture.new.shape ≡ picture.old.shape }
    ensures rows { (seed first : ℕ) → start ≡ state_at seed first
        → component_shown picture.new c
        ≡ video_rows seed p first (sample_bits picture.old c)
        (pictures.size_of (frame_of picture.old.shape) c) }
    ensures others { (other : Component) → other ≢ c
        → component_shown picture.new other ≡ component_shown picture.old other }
    ensures state { result ≡ state_at start (height_of picture.old c * width_of picture.old c) }
    ensures small { result < 2 ^ 16 }
{
    let size = size_of(picture.shape(), c);
    let depth = depth_of(picture.shape(), c);
    // The component has the size of the picture's shape.
    let _ = picture.samples(c);
    let mut state = start;
    for y in 0..size.h {
        state = fill_row(line, state, 2 * u64::from(y) + 3 * p, depth);
        picture.put_samples(c, y as usize * line.len(), line);
    }
    state
}

// The same, with a line of its own.
fn fill_component(picture: &mut Picture, c: Component, p: u64, start: u32) -> u32
    requires few { p ≤ 2 ^ 40 }
    requires start { start < 2 ^ 16 }
    ensures same_shape { picture.new.shape ≡ picture.old.shape }
    ensures rows { (seed first : ℕ) → start ≡ state_at seed first
        → component_shown picture.new c
        ≡ video_rows seed p first (sample_bits picture.old c)
        (pictures.size_of (frame_of picture.old.shape) c) }
    ensures others { (other : Component) → other ≢ c
        → component_shown picture.new other ≡ component_shown picture.old other }
    ensures state { result ≡ state_at start (height_of picture.old c * width_of picture.old c) }
    ensures small { result < 2 ^ 16 }
{
    let size = size_of(picture.shape(), c);
    let mut row = [0u16; MOST_COLUMNS];
    fill_rows(picture, c, p, start, &mut row[..size.w as usize])
}

impl TrialVideo {
    /// The video of this seed, below 2^16, before its first picture.
    pub fn new(shape: &PictureShape, seed: u32) -> TrialVideo
        requires { seed < 2 ^ 16 }
        ensures { result ≡ record { shape = shape.now; seed = seed; pictures = 0 } }
    {
        TrialVideo {
            shape: *shape,
            seed,
            pictures: 0,
            state: seed,
        }
    }

    /// How many pictures were given.
    pub fn pictures(&self) -> u64
        ensures { result ≡ self.now.pictures }
    {
        self.pictures
    }

    /// Gives the next picture, in place: it has the video's shape. Takes no memory.
    pub fn next(&mut self, picture: &mut Picture)
        requires shape { picture.old.shape ≡ self.old.shape }
        requires few { self.old.pictures < 2 ^ 40 }
        ensures picture { picture.new
            ≡ record {
              shape = picture.old.shape;
              samples = video_picture (frame_of self.old.shape) self.old.seed self.old.pictures;
            } }
        ensures after { self.new ≡ record self.old { pictures = self.old.pictures + 1 } }
    {
        let p = self.pictures;
        let luma = fill_component(picture, Component::Luma, p, self.state);
        let c1 = fill_component(picture, Component::C1, p, luma);
        self.state = fill_component(picture, Component::C2, p, c1);
        self.pictures += 1;
    }
}
