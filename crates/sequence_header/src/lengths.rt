//! How many bits the parts of a header are coded in, a group at a time, and that their fields are of the rows' kinds.

ghost use Rattle.std.specs.Prelude.{ℕ, ◌≡◌, ◌≤◌, length};
ghost use Rattle.field_rows.specs.Given.{value_bits, AreOfKind};
ghost use Rattle.sequence_header.specs.Header.{version_rows, size_rows, sampling_rows, scan_rows, rate_rows, aspect_rows, clean_rows, signal_rows, flagged_index, colour_rows, coding_rows};
ghost use Rattle.sequence_header.specs.HeaderFields.{version_fields, size_fields, sampling_fields, scan_fields, rate_fields, aspect_fields, clean_fields, signal_fields, index_fields, colour_fields, coding_fields};
ghost use Rattle.sequence_header.specs.Checking.{HasRateIndex, HasAspectIndex, HasSignalIndex, HasColourIndex};

use crate::parts::*;
use bit_codes::uint_len;
use slice_geometry::Size;

#[tactic(auto, using(field_rows::proofs::Written::writing, crate::proofs::Sums::zero_bits))]
pub fn version_bits(major: u32, minor: u32, level: u32) -> u32
    ensures length { result ≡ length (value_bits (version_fields
        (record { major = major; minor = minor; level = level }))) }
    ensures most { result ≤ 197 }
    ensures kinds { AreOfKind version_rows (version_fields
        (record { major = major; minor = minor; level = level })) }
{
    uint_len(major) + uint_len(minor) + uint_len(level) + 2
}

#[tactic(auto, using(field_rows::proofs::Written::writing, crate::proofs::Sums::zero_bits))]
pub fn size_bits(width: u32, height: u32) -> u32
    ensures length { result ≡ length (value_bits (size_fields (record { w = width; h = height }))) }
    ensures most { result ≤ 131 }
    ensures kinds { AreOfKind size_rows (size_fields (record { w = width; h = height })) }
{
    1 + uint_len(width) + uint_len(height)
}

#[tactic(auto, using(field_rows::proofs::Written::writing, crate::proofs::Sums::zero_bits))]
pub fn sampling_bits(index: u32) -> u32
    ensures length { result ≡ length (value_bits (sampling_fields index)) }
    ensures most { result ≤ 66 }
    ensures kinds { (size : Size) → AreOfKind (sampling_rows size) (sampling_fields index) }
{
    1 + uint_len(index)
}

#[tactic(auto, using(field_rows::proofs::Written::writing, crate::proofs::Sums::zero_bits))]
pub fn scan_bits(scan: Option<u32>) -> u32
    ensures length { result ≡ length (value_bits (scan_fields scan)) }
    ensures most { result ≤ 66 }
    ensures kinds { AreOfKind scan_rows (scan_fields scan) }
{
    match scan {
        None => 1,
        Some(index) => 1 + uint_len(index),
    }
}

#[tactic(auto, using(field_rows::proofs::Written::writing, crate::proofs::Sums::zero_bits))]
pub fn rate_bits(rate: RateField) -> u32
    requires { HasRateIndex rate }
    ensures length { result ≡ length (value_bits (rate_fields rate)) }
    ensures most { result ≤ 132 }
    ensures kinds { AreOfKind rate_rows (rate_fields rate) }
{
    match rate {
        RateField::Index(index) => 1 + uint_len(index),
        RateField::Pair(numerator, denominator) => 2 + uint_len(numerator) + uint_len(denominator),
    }
}

#[tactic(auto, using(field_rows::proofs::Written::writing, crate::proofs::Sums::zero_bits))]
pub fn aspect_bits(aspect: AspectField) -> u32
    requires { HasAspectIndex aspect }
    ensures length { result ≡ length (value_bits (aspect_fields aspect)) }
    ensures most { result ≤ 132 }
    ensures kinds { AreOfKind aspect_rows (aspect_fields aspect) }
{
    match aspect {
        AspectField::Default => 1,
        AspectField::Index(index) => 1 + uint_len(index),
        AspectField::Pair(numerator, denominator) => 2
            + uint_len(numerator)
            + uint_len(denominator),
    }
}

#[tactic(auto, using(field_rows::proofs::Written::writing, crate::proofs::Sums::zero_bits))]
pub fn clean_bits(clean: Option<CleanArea>) -> u32
    ensures length { result ≡ length (value_bits (clean_fields clean)) }
    ensures most { result ≤ 261 }
    ensures kinds { AreOfKind clean_rows (clean_fields clean) }
{
    match clean {
        None => 1,
        Some(area) => 1
            + uint_len(area.width)
            + uint_len(area.height)
            + uint_len(area.left)
            + uint_len(area.top),
    }
}

#[tactic(auto, using(field_rows::proofs::Written::writing, crate::proofs::Sums::zero_bits))]
pub fn signal_bits(signal: SignalField) -> u32
    requires { HasSignalIndex signal }
    ensures length { result ≡ length (value_bits (signal_fields signal)) }
    ensures most { result ≤ 262 }
    ensures kinds { AreOfKind signal_rows (signal_fields signal) }
{
    match signal {
        SignalField::Index(index) => 1 + uint_len(index),
        SignalField::Custom(range) => {
            2 + uint_len(range.luma_offset)
                + uint_len(range.luma_excursion)
                + uint_len(range.colour_offset)
                + uint_len(range.colour_excursion)
        }
    }
}

#[tactic(auto, using(field_rows::proofs::Written::writing, crate::proofs::Sums::zero_bits))]
fn index_bits(index: Option<u32>) -> u32
    ensures length { result ≡ length (value_bits (index_fields index)) }
    ensures most { result ≤ 66 }
    ensures kinds { AreOfKind flagged_index (index_fields index) }
{
    match index {
        None => 1,
        Some(index) => 1 + uint_len(index),
    }
}

#[tactic(auto, using(field_rows::proofs::Written::writing, crate::proofs::Sums::zero_bits))]
pub fn colour_bits(colour: ColourField) -> u32
    requires { HasColourIndex colour }
    ensures length { result ≡ length (value_bits (colour_fields colour)) }
    ensures most { result ≤ 200 }
    ensures kinds { AreOfKind colour_rows (colour_fields colour) }
{
    match colour {
        ColourField::Default => 1,
        ColourField::Index(index) => 1 + uint_len(index),
        ColourField::Custom {
            primaries,
            matrix,
            transfer,
        } => 2 + index_bits(primaries) + index_bits(matrix) + index_bits(transfer),
    }
}

#[tactic(auto, using(field_rows::proofs::Written::writing, crate::proofs::Sums::zero_bits))]
pub fn coding_bits(coding: u32) -> u32
    ensures length { result ≡ length (value_bits (coding_fields coding)) }
    ensures most { result ≤ 65 }
    ensures kinds { (size : Size) (sampling : ℕ)
        → AreOfKind (coding_rows size sampling) (coding_fields coding) }
{
    uint_len(coding)
}
