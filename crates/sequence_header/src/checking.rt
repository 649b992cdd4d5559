//! Checks the parts of a header against the rules of its rows, a group at a time.

ghost use Rattle.std.specs.Prelude.{◌≡◌, ◌≤◌, OnOk, IfErr, false};
ghost use Rattle.std.specs.Int.{is_in_range};
ghost use Rattle.sequence_header.specs.Header.{version_rows, size_rows, sampling_rows, scan_rows, rate_rows, signal_rows, coding_rows};
ghost use Rattle.sequence_header.specs.HeaderFields.{version_fields, size_fields, sampling_fields, scan_fields, rate_fields, signal_fields, coding_fields};
ghost use Rattle.sequence_header.specs.Checking.{Checks};

use crate::parts::*;
use crate::rules::{coding_rule, height_rule, sampling_rule};
use slice_geometry::Size;

/// Refuses a number that isn't from `low` to `high`.
fn check_within(value: u32, low: u32, high: u32, reason: HeaderReason) -> Result<(), HeaderReason>
    ensures ok { OnOk result ((low ≤ value) × (value ≤ high)) }
    ensures err { IfErr result (λ e. (e ≡ reason) × (is_in_range low high value ≡ false)) }
{
    if value < low || value > high {
        return Err(reason);
    }
    Ok(())
}

pub fn check_version(major: u32, minor: u32, level: u32) -> Result<(), HeaderReason>
    ensures { Checks result version_rows (version_fields
        (record { major = major; minor = minor; level = level }))
        (record { major = major; minor = minor; level = level }) }
{
    check_within(major, 1, 2, HeaderReason::VersionRefused)
}

pub fn check_size(size: Size) -> Result<(), HeaderReason>
    ensures { Checks result size_rows (size_fields size) size }
{
    check_within(size.w, 1, 8192, HeaderReason::SizeRefused)?;
    match height_rule(size.w, size.h) {
        Some(reason) => Err(reason),
        None => Ok(()),
    }
}

pub fn check_sampling(size: Size, index: u32) -> Result<(), HeaderReason>
    ensures { Checks result (sampling_rows size) (sampling_fields index) index }
{
    match sampling_rule(size, index) {
        Some(reason) => Err(reason),
        None => Ok(()),
    }
}

pub fn check_scan(scan: Option<u32>) -> Result<(), HeaderReason>
    ensures { Checks result scan_rows (scan_fields scan) scan }
{
    match scan {
        Some(scan) => check_within(scan, 0, 1, HeaderReason::ScanUnknown),
        None => Ok(()),
    }
}

pub fn check_rate(rate: RateField) -> Result<(), HeaderReason>
    ensures { Checks result rate_rows (rate_fields rate) rate }
{
    match rate {
        RateField::Index(index) => check_within(index, 1, 8, HeaderReason::RateRefused),
        RateField::Pair(numerator, denominator) => {
            check_within(numerator, 1, u32::MAX, HeaderReason::RateRefused)?;
            check_within(denominator, 1, u32::MAX, HeaderReason::RateRefused)
        }
    }
}

pub fn check_signal(signal: SignalField) -> Result<(), HeaderReason>
    ensures { Checks result signal_rows (signal_fields signal) signal }
{
    match signal {
        SignalField::Index(index) => check_within(index, 1, 4, HeaderReason::SignalRefused),
        SignalField::Custom(range) => {
            check_within(range.luma_excursion, 1, 65535, HeaderReason::SignalRefused)?;
            check_within(
                range.colour_excursion,
                1,
                65535,
                HeaderReason::SignalRefused,
            )
        }
    }
}

pub fn check_coding(size: Size, sampling: u32, coding: u32) -> Result<(), HeaderReason>
    ensures { Checks result (coding_rows size sampling) (coding_fields coding) coding }
{
    match coding_rule(size, sampling, coding) {
        Some(reason) => Err(reason),
        None => Ok(()),
    }
}
