//! The rules that look at more than their own field.

ghost use Rattle.std.specs.Prelude.{◌≡◌};
ghost use Rattle.field_rows.specs.Rows.{first_broken};
ghost use Rattle.sequence_header.specs.Header.{height_rules, sampling_rules, coding_rules};

use crate::parts::HeaderReason;
use slice_geometry::Size;

/// The first rule that a height breaks beside this width.
#[tactic(auto, using(std::proofs::lemmas::Bool::Decides::nat_tests))]
pub fn height_rule(width: u32, height: u32) -> Option<HeaderReason>
    ensures { result ≡ first_broken (height_rules width height) }
{
    let fits = 1 <= height && height <= 8192 && u64::from(width) * u64::from(height) <= 1 << 24;
    if fits {
        None
    } else {
        Some(HeaderReason::SizeRefused)
    }
}

/// The first rule that a sampling index breaks beside this size of a frame.
#[tactic(auto, using(std::proofs::lemmas::Bool::Decides::nat_tests))]
pub fn sampling_rule(size: Size, index: u32) -> Option<HeaderReason>
    ensures { result ≡ first_broken (sampling_rules size index) }
{
    if index > 2 {
        return Some(HeaderReason::SamplingUnknown);
    }
    if index != 0 && size.w % 2 != 0 {
        return Some(HeaderReason::SizeNotDivisible);
    }
    if index == 2 && size.h % 2 != 0 {
        return Some(HeaderReason::SizeNotDivisible);
    }
    None
}

/// The first rule that a picture coding mode breaks beside this size of a frame and this sampling.
#[tactic(auto, using(std::proofs::lemmas::Bool::Decides::nat_tests))]
pub fn coding_rule(size: Size, sampling: u32, coding: u32) -> Option<HeaderReason>
    ensures { result ≡ first_broken (coding_rules size sampling coding) }
{
    if coding > 1 {
        return Some(HeaderReason::CodingModeUnknown);
    }
    if coding == 1 && (size.h % 2 != 0 || sampling == 2 && size.h % 4 != 0) {
        return Some(HeaderReason::SizeNotDivisible);
    }
    None
}
