// Bytes to samples.
ghost use Rattle.std.specs.Prelude.{◌≡◌, ◌<◌, ◌≤◌, ◌*◌, ◌/◌, ◌+◌, length, take, replicate, true, false};
ghost use Rattle.std.specs.List.{All};
ghost use Rattle.raw_video.specs.RawParse.{samples_in, first_large};
ghost use Rattle.raw_video.specs.Reading.{whole_samples};

// One byte each.
fn parse_narrow(bytes: &[u8], samples: &mut [u16])
    requires { length bytes.now ≤ length samples.old }
    ensures samples { take (length bytes.now) samples.new ≡ samples_in false bytes.now }
    ensures few { All (λ v. v < 256) (take (length bytes.now) samples.new) }
    ensures len { length samples.new ≡ length samples.old }
{
    for k in 0..bytes.len() {
        samples[k] = u16::from(bytes[k]);
    }
}

// Two bytes each, the low one first.
fn parse_wide(bytes: &[u8], samples: &mut [u16])
    requires { length bytes.now ≤ 2 * length samples.old + 1 }
    ensures samples { take (length bytes.now / 2) samples.new ≡ samples_in true bytes.now }
    ensures len { length samples.new ≡ length samples.old }
{
    let count = bytes.len() / 2;
    for k in 0..count {
        samples[k] = u16::from(bytes[2 * k]) + 256 * u16::from(bytes[2 * k + 1]);
    }
}

/// Puts the samples that are whole in the bytes into the front of the buffer, and says how many.
pub(crate) fn parse(bytes: &[u8], wide: bool, samples: &mut [u16]) -> usize
    requires { whole_samples wide (length bytes.now) ≤ length samples.old }
    ensures fits { result ≤ length samples.new }
    ensures count { result ≡ whole_samples wide (length bytes.now) }
    ensures samples { take result samples.new ≡ samples_in wide bytes.now }
    ensures narrow { wide ≡ false → All (λ v. v < 256) (take result samples.new) }
{
    if wide {
        parse_wide(bytes, samples);
        bytes.len() / 2
    } else {
        parse_narrow(bytes, samples);
        bytes.len()
    }
}

// Whether each sample is below the bound.
fn all_below(samples: &[u16], bound: u32) -> bool
    ensures { result ≡ true → All (λ v. v < bound) samples.now }
{
    let mut below = true;
    for v in samples {
        below = below & (u32::from(*v) < bound);
    }
    below
}

/// The number of the first sample that is not below the bound. A sample of one byte is below 256 anyway.
#[tactic(auto, using(crate::proofs::SampleLaws::large))]
pub(crate) fn first_large(samples: &[u16], wide: bool, bound: u32) -> Option<usize>
    requires narrow { wide ≡ false → All (λ v. v < 256) samples.now }
    ensures { result ≡ first_large (replicate (length samples.now) bound) samples.now }
{
    let all_fit = !wide && bound >= 256;
    if all_fit {
        return None;
    }
    if all_below(samples, bound) {
        return None;
    }
    for k in 0..samples.len() {
        if u32::from(samples[k]) >= bound {
            return Some(k);
        }
    }
    None
}
