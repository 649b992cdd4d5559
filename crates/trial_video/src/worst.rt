// How far two pictures are apart.
ghost use Rattle.std.specs.Prelude.{◌≡◌};
ghost use Rattle.trial_video.specs.Worst.{farthest, worst};

use picture_codec::Picture;
use slice_geometry::Component;

// The greatest difference between samples at the same place.
fn farthest(raw: &[u16], decoded: &[u16]) -> u16
    ensures { result ≡ farthest raw.now decoded.now }
{
    let mut most = 0;
    for k in 0..raw.len().min(decoded.len()) {
        most = raw[k].abs_diff(decoded[k]).max(most);
    }
    most
}

/// The greatest difference between a sample of the one picture and that of the other at the same place, over all
/// components: of pictures of one shape, over all samples. It is below 2^16.
pub fn worst_difference(raw: &Picture, decoded: &Picture) -> u16
    ensures { result ≡ worst raw.now.samples decoded.now.samples }
{
    let luma = farthest(
        raw.samples(Component::Luma),
        decoded.samples(Component::Luma),
    );
    let c1 = farthest(raw.samples(Component::C1), decoded.samples(Component::C1));
    let c2 = farthest(raw.samples(Component::C2), decoded.samples(Component::C2));
    luma.max(c1.max(c2))
}
