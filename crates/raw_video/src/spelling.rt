// Samples to bytes.
ghost use Rattle.std.specs.Prelude.{◌≡◌, ◌*◌, ◌≤◌, length, take, true, false};
ghost use Rattle.slice_geometry.specs.Frames.{frame_of};
ghost use Rattle.raw_video.specs.RawText.{is_wide, text_of};

use slice_geometry::PictureShape;

/// The samples of such a picture take two bytes each, and else one.
pub(crate) fn are_wide(shape: &PictureShape) -> bool
    ensures { result ≡ is_wide (frame_of shape.now) }
{
    shape.luma_depth > 8 || shape.colour_depth > 8
}

// The low byte of each sample.
fn spell_narrow(samples: &[u16], bytes: &mut [u8])
    requires { length samples.now ≤ length bytes.old }
    ensures { take (length samples.now) bytes.new ≡ text_of false samples.now }
{
    for k in 0..samples.len() {
        bytes[k] = (samples[k] % 256) as u8;
    }
}

// Both bytes of each sample, the low one first.
fn spell_wide(samples: &[u16], bytes: &mut [u8])
    requires { 2 * length samples.now ≤ length bytes.old }
    ensures { take (2 * length samples.now) bytes.new ≡ text_of true samples.now }
{
    for k in 0..samples.len() {
        bytes[2 * k] = (samples[k] % 256) as u8;
        bytes[2 * k + 1] = (samples[k] / 256) as u8;
    }
}

/// Puts the bytes of the samples into the front of the buffer, and says how many.
pub(crate) fn spell(samples: &[u16], wide: bool, bytes: &mut [u8]) -> usize
    requires { 2 * length samples.now ≤ length bytes.old }
    ensures fits { result ≤ length bytes.new }
    ensures text { take result bytes.new ≡ text_of wide samples.now }
{
    if wide {
        spell_wide(samples, bytes);
        2 * samples.len()
    } else {
        spell_narrow(samples, bytes);
        samples.len()
    }
}
