// Whether needs fit.

ghost use Rattle.std.specs.Prelude.{◌≡◌, ◌^◌, ◌≤◌};
ghost use Rattle.slice_encoder.specs.Choice.{needs_fit};

use slice_geometry::length_bits;

// Whether needs fit into so many bytes.
pub fn do_fit(bytes: u32, luma: u64, colour: u64) -> bool
    requires some { 1 ≤ bytes }
    requires most { bytes ≤ 2 ^ 28 }
    requires luma_small { luma ≤ 2 ^ 40 }
    requires colour_small { colour ≤ 2 ^ 40 }
    ensures { result ≡ needs_fit bytes luma colour }
{
    let m = length_bits(bytes);
    luma <= (1 << m) - 1 && luma + colour <= 8 * u64::from(bytes) - 7 - u64::from(m)
}
