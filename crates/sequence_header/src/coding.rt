//! The coding parameters of a header.

ghost use Rattle.std.specs.Prelude.{◌≡◌, ◌≤◌, ◌+◌};
ghost use Rattle.bit_codes.specs.Codes.{intlog2};
ghost use Rattle.sequence_header.specs.Coding as coding;

use crate::parts::{HeaderParts, SignalField, SignalRange};
use slice_geometry::Size;

/// The signal range itself, also where it is given by its index: 1 is 8 bit full range, 2 is 8 bit
/// video, 3 is 10 bit video, 4 is 12 bit video.
pub fn signal_range(signal: SignalField) -> SignalRange
    ensures { result ≡ coding.signal_range signal }
{
    match signal {
        SignalField::Custom(range) => range,
        SignalField::Index(index) => preset_range(index),
    }
}

fn preset_range(index: u32) -> SignalRange
    ensures { result ≡ coding.preset_range index }
{
    match index {
        1 => range(0, 255, 128, 255),
        2 => range(16, 219, 128, 224),
        3 => range(64, 876, 512, 896),
        _ => range(256, 3504, 2048, 3584),
    }
}

fn range(
    luma_offset: u32,
    luma_excursion: u32,
    colour_offset: u32,
    colour_excursion: u32,
) -> SignalRange
    ensures { result ≡ coding.range luma_offset luma_excursion colour_offset colour_excursion }
{
    SignalRange {
        luma_offset,
        luma_excursion,
        colour_offset,
        colour_excursion,
    }
}

/// The bits of samples that go up to an excursion.
pub fn depth_of(excursion: u32) -> u32
    requires { excursion ≤ 65535 }
    ensures { result ≡ intlog2 (excursion + 1) }
{
    bit_codes::intlog2(excursion + 1)
}

/// The height of a picture, which is a frame or a field.
fn picture_height(parts: &HeaderParts) -> u32
    ensures { result ≡ coding.picture_height parts.now }
{
    if parts.coding == 1 {
        parts.height / 2
    } else {
        parts.height
    }
}

/// The size of a picture's luma component.
pub fn luma_size(parts: &HeaderParts) -> Size
    ensures { result ≡ coding.luma_size parts.now }
{
    Size {
        w: parts.width,
        h: picture_height(parts),
    }
}

/// The size of each of a picture's colour components.
pub fn colour_size(parts: &HeaderParts) -> Size
    ensures { result ≡ coding.colour_size parts.now }
{
    let height = picture_height(parts);
    let w = if parts.sampling == 0 {
        parts.width
    } else {
        parts.width / 2
    };
    let h = if parts.sampling == 2 {
        height / 2
    } else {
        height
    };
    Size { w, h }
}
