//! Components of pictures shown from rows of bands.

ghost use Rattle.std.specs.Prelude.{◌≡◌, ◌^◌, pos, true, false};
ghost use Rattle.planes.specs.Bounded.{AreBandsWithin};
ghost use Rattle.planes.specs.Subbands.{HaveSizes};
ghost use Rattle.slice_geometry.specs.Geometry.{padded_length};
ghost use Rattle.slice_geometry.specs.Slicing.{IsAllowed, slice_count};
ghost use Rattle.slice_geometry.specs.Frames.{frame_of};
ghost use Rattle.lifting.specs.SampleRoom.{synthesis_in};
ghost use Rattle.picture_codec.specs.Pictures as pictures;
ghost use Rattle.picture_codec.specs.Samples.{width_of, height_of, sample_bits, with_shown};
ghost use Rattle.picture_codec.specs.Decoding.{AreTaken, HasLateRoom, with_synthesised};

use crate::picture::Picture;
use crate::synthesised::Synthesised;
use crate::workspace::{LateWorkspace, size_of};
use planes::{Bands, NarrowBands};
use slice_geometry::Component;
use transform_params::TransformParams;

/// The samples of a component from its bands, and whether the width has room for that. Where it has none, the picture stays.
pub(crate) fn show_rows<T: Synthesised>(
    params: &TransformParams,
    bands: &Bands<T>,
    late: &mut LateWorkspace<T>,
    c: Component,
    picture: &mut Picture,
) -> bool
    requires depth { bands.now.depth ≡ params.now.layout.depth }
    requires sizes { HaveSizes bands.now
        (padded_length params.now.layout.depth (width_of picture.old c))
        (padded_length params.now.layout.depth (height_of picture.old c)) }
    requires serve { T.serve (sample_bits picture.old c) bands.now
        (padded_length params.now.layout.depth (width_of picture.old c))
        (padded_length params.now.layout.depth (height_of picture.old c)) }
    requires room { HasLateRoom params.now.layout
        (pictures.size_of (frame_of picture.old.shape) c) late.old }
    ensures samples { result ≡ true → picture.new ≡ with_shown picture.old c
        (synthesis_in T.value T.none params.now.wavelet bands.now
        (padded_length params.now.layout.depth (width_of picture.old c))
        (padded_length params.now.layout.depth (height_of picture.old c))) }
    ensures roomy { T.is_roomy ≡ true → result ≡ true }
    ensures left { result ≡ false → picture.new ≡ picture.old }
    ensures room { HasLateRoom params.now.layout
        (pictures.size_of (frame_of picture.old.shape) c) late.new }
    ensures allowed { IsAllowed params.now.layout }
{
    // The rules of a layout.
    let _ = params.layout.depth();
    let padded = params.layout.padded_size(size_of(picture.shape(), c));
    late.make();
    picture.synthesise(c, params.wavelet, bands, padded, &mut late.room)
}

/// The samples of a component from its bands, in 64 bits.
pub(crate) fn show_in_64_bits(
    params: &TransformParams,
    bands: &Bands,
    late: &mut LateWorkspace,
    c: Component,
    picture: &mut Picture,
)
    requires taken { AreTaken params.now.layout (pictures.size_of (frame_of picture.old.shape) c)
        (slice_count params.now.layout) bands.now }
    requires room { HasLateRoom params.now.layout
        (pictures.size_of (frame_of picture.old.shape) c) late.old }
    ensures picture { picture.new ≡ with_synthesised params.now.wavelet picture.old c bands.now }
    ensures room { HasLateRoom params.now.layout
        (pictures.size_of (frame_of picture.old.shape) c) late.new }
    ensures allowed { IsAllowed params.now.layout }
{
    // The rules of a layout.
    let _ = params.layout.depth();
    show_rows(params, bands, late, c, picture);
}

/// The same in 32 bits, of bands whose magnitudes are at most 2^18.
pub(crate) fn show_in_32_bits(
    params: &TransformParams,
    bands: &NarrowBands,
    late: &mut LateWorkspace<i32>,
    c: Component,
    picture: &mut Picture,
)
    requires taken { AreTaken params.now.layout (pictures.size_of (frame_of picture.old.shape) c)
        (slice_count params.now.layout) bands.now }
    requires narrow { AreBandsWithin (pos (2 ^ 18)) bands.now }
    requires room { HasLateRoom params.now.layout
        (pictures.size_of (frame_of picture.old.shape) c) late.old }
    ensures picture { picture.new ≡ with_synthesised params.now.wavelet picture.old c bands.now }
    ensures room { HasLateRoom params.now.layout
        (pictures.size_of (frame_of picture.old.shape) c) late.new }
    ensures allowed { IsAllowed params.now.layout }
{
    // The rules of a layout.
    let _ = params.layout.depth();
    show_rows(params, bands, late, c, picture);
}
