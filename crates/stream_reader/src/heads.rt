//! The heads of units under the rules of a stream, and the first unit.

ghost use Rattle.vc2_io.specs.declared.TheConstants.{INPUT_LIMIT};
ghost use Rattle.std.specs.Prelude.{◌≡◌, ◌+◌, ◌≤◌, length, Err};
ghost use Rattle.field_rows.specs.Rows.{first_broken};
ghost use Rattle.stream_rows.specs.Units.{is_header, is_end_code, is_skipped, header_reason, transform_reason, next_rules, unit_head, leads_behind};
ghost use Rattle.stream_reader.specs.Heads.{looking_back, are_fields, passes, code_rules_behind, previous_rules_behind, judged_head, HeadAt, IsFirstUnit};

use crate::earlier::Earlier;
use parse_info::{Code, InfoFault, ParseInfo};
use sequence_header::{HeaderReason, SequenceHeader};
use stream_rows::{Reason, Refusal};
use transform_params::TransformReason;

// What a head looks back at: where its unit begins, the length of the unit before, whether a sequence has ended before, the
// picture coding mode of the sequence, and how many pictures it has so far.
#[derive(Clone, Copy)]
struct Before {
    place: u64,
    previous: u32,
    later: bool,
    coding: Option<u32>,
    pictures: u64,
}

fn look_back(earlier: &Earlier) -> Before
    ensures value { result ≡ looking_back earlier.now }
    ensures most { result.place ≤ INPUT_LIMIT }
{
    let coding = match earlier.first() {
        Some(first) => Some(first.header().parts().coding),
        None => None,
    };
    Before {
        place: earlier.place(),
        previous: earlier.previous(),
        later: earlier.later(),
        coding,
        pictures: earlier.pictures(),
    }
}

/// The reason of a sequence header's refusal.
pub fn header_reason(reason: HeaderReason) -> Reason
    ensures { result ≡ header_reason reason }
{
    match reason {
        HeaderReason::Truncated => Reason::Truncated,
        HeaderReason::NumberTooLarge => Reason::NumberTooLarge,
        HeaderReason::VersionRefused => Reason::VersionRefused,
        HeaderReason::NotLowDelay => Reason::NotLowDelay,
        HeaderReason::PresetFormat => Reason::PresetFormat,
        HeaderReason::DefaultTaken(field) => Reason::DefaultTaken(field),
        HeaderReason::SizeRefused => Reason::SizeRefused,
        HeaderReason::SamplingUnknown => Reason::SamplingUnknown,
        HeaderReason::SizeNotDivisible => Reason::SizeNotDivisible,
        HeaderReason::ScanUnknown => Reason::ScanUnknown,
        HeaderReason::RateRefused => Reason::RateRefused,
        HeaderReason::SignalRefused => Reason::SignalRefused,
        HeaderReason::CodingModeUnknown => Reason::CodingModeUnknown,
    }
}

/// The reason of a refusal of transform parameters.
pub fn transform_reason(reason: TransformReason) -> Reason
    ensures { result ≡ transform_reason reason }
{
    match reason {
        TransformReason::Truncated => Reason::Truncated,
        TransformReason::NumberTooLarge => Reason::NumberTooLarge,
        TransformReason::WaveletRefused(index) => Reason::WaveletRefused(index),
        TransformReason::DepthRefused => Reason::DepthRefused,
        TransformReason::SlicesRefused => Reason::SlicesRefused,
        TransformReason::ShareRefused => Reason::ShareRefused,
        TransformReason::DefaultMatrix => Reason::DefaultMatrix,
    }
}

fn is_header(code: Code) -> bool
    ensures { result ≡ is_header code }
{
    code == Code::SequenceHeader
}

fn is_end_code(code: Code) -> bool
    ensures { result ≡ is_end_code code }
{
    code == Code::EndOfSequence
}

fn is_skipped(code: Code) -> bool
    ensures { result ≡ is_skipped code }
{
    matches!(code, Code::Auxiliary | Code::Padding)
}

// The pictures are fields.
fn has_fields(coding: Option<u32>) -> bool
    ensures { result ≡ are_fields coding }
{
    coding == Some(1)
}

// The rules on a code.
fn check_code(before: Before, code: Code) -> Result<(), Refusal>
    requires { before.place ≤ INPUT_LIMIT }
    ensures { result ≡ passes (before.place + 4) (first_broken (code_rules_behind before code)) }
{
    let place = before.place + 4;
    if before.coding.is_none() && !is_header(code) {
        return Err(Refusal {
            place,
            reason: Reason::NoSequenceHeader,
        });
    }
    if is_end_code(code) && has_fields(before.coding) && before.pictures % 2 == 1 {
        return Err(Refusal {
            place,
            reason: Reason::HalfFrame,
        });
    }
    Ok(())
}

// The rules on a next offset behind a code.
fn check_next(place: u64, code: Code, next: u32) -> Result<(), Refusal>
    requires { place ≤ INPUT_LIMIT }
    ensures { result ≡ passes (place + 5) (first_broken (next_rules code next)) }
{
    let place = place + 5;
    if is_skipped(code) && next < 13 {
        return Err(Refusal {
            place,
            reason: Reason::OffsetShort,
        });
    }
    if is_end_code(code) && next != 0 && next != 13 {
        return Err(Refusal {
            place,
            reason: Reason::OffsetWrong,
        });
    }
    Ok(())
}

// The rule on a previous offset.
fn check_previous(before: Before, previous: u32) -> Result<(), Refusal>
    requires { before.place ≤ INPUT_LIMIT }
    ensures { result ≡ passes (before.place + 9)
        (first_broken (previous_rules_behind before previous)) }
{
    // A later sequence may begin as if it stood alone.
    let begins_later = before.later && before.coding.is_none();
    if previous != before.previous && !(begins_later && previous == 0) {
        return Err(Refusal {
            place: before.place + 9,
            reason: Reason::PreviousWrong,
        });
    }
    Ok(())
}

/// The head is refused at a place.
pub(crate) fn refuse(place: u64, reason: Reason) -> Result<ParseInfo, Refusal>
    ensures { result ≡ Err (record { place = place; reason = reason }) }
{
    Err(Refusal { place, reason })
}

// The rules on what was read of a head: those on a field come before the shortness of a later one.
fn judge(before: Before, read: Result<ParseInfo, InfoFault>) -> Result<ParseInfo, Refusal>
    requires { before.place ≤ INPUT_LIMIT }
    ensures { result ≡ judged_head before read }
{
    let place = before.place;
    match read {
        Ok(info) => {
            check_code(before, info.code)?;
            check_next(place, info.code, info.next)?;
            check_previous(before, info.previous)?;
            Ok(info)
        }
        Err(InfoFault::PrefixShort) => refuse(place, Reason::Truncated),
        Err(InfoFault::BadPrefix) => refuse(place, Reason::BadPrefix),
        Err(InfoFault::CodeShort) => refuse(place + 4, Reason::Truncated),
        Err(InfoFault::UnsupportedCode(code)) => refuse(place + 4, Reason::UnsupportedCode(code)),
        Err(InfoFault::NextShort(code)) => {
            check_code(before, code)?;
            refuse(place + 5, Reason::Truncated)
        }
        Err(InfoFault::PreviousShort(code, next)) => {
            check_code(before, code)?;
            check_next(place, code, next)?;
            refuse(place + 9, Reason::Truncated)
        }
    }
}

/// The head of the unit in front of the bytes, or its first fault.
pub fn read_head(earlier: &Earlier, bytes: &[u8]) -> Result<ParseInfo, Refusal>
    ensures { HeadAt (unit_head earlier.now) earlier.now.place bytes.now result }
{
    judge(look_back(earlier), ParseInfo::read(bytes))
}

/// A next offset of 0, or of the unit's length.
pub fn leads_behind(next: u32, length: u64) -> bool
    ensures { result ≡ leads_behind next length }
{
    next == 0 || next as u64 == length
}

/// The sequence header of the first unit, which stands in front of the bytes, and the length of the whole unit; or the
/// unit's first fault.
pub fn first_unit(bytes: &[u8]) -> Result<(SequenceHeader, usize), Refusal>
    requires { length bytes.now ≤ INPUT_LIMIT }
    ensures { IsFirstUnit bytes.now result }
{
    let info = read_head(&Earlier::new(), bytes)?;
    let (header, length) = match SequenceHeader::read(&bytes[13..]) {
        Ok(read) => read,
        Err(fault) => {
            return Err(Refusal {
                place: 13 + fault.bit / 8,
                reason: header_reason(fault.reason),
            });
        }
    };
    if !leads_behind(info.next, 13 + length as u64) {
        return Err(Refusal {
            place: 5,
            reason: Reason::OffsetWrong,
        });
    }
    Ok((header, 13 + length))
}
