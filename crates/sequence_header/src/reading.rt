//! Reads a sequence header, a group of fields at a time.

ghost use Rattle.std.specs.Prelude.{◌≡◌, ◌*◌, IfErr, IfOk, None, ◌<◌, ◌≤◌, ◌^◌, length};
ghost use Rattle.bit_codes.specs.Bits.{cursor_at};
ghost use Rattle.field_rows.specs.Rows.{Gives, GivesOf, read, number_under, first_broken};
ghost use Rattle.field_rows.specs.Given.{Pass};
ghost use Rattle.sequence_header.specs.HeaderFields.{version_fields, size_fields, sampling_fields, scan_fields, rate_fields, aspect_fields, clean_fields, signal_fields, index_fields, colour_fields, coding_fields};
ghost use Rattle.sequence_header.specs.Checking.{PassesRules};
ghost use Rattle.sequence_header.specs.Header.{reason_of, header_fault, version_rows, height_rules, size_rows, sampling_rules, sampling_rows, scan_rows, rate_rows, aspect_rows, clean_rows, excursion, signal_rows, flagged_index, colour_rows, coding_rows, header_fields, header_rows};

use crate::fields::{flag, flag_set, number, number_within};
use crate::parts::*;
use crate::rules::{coding_rule, height_rule, sampling_rule};
use bit_codes::BitReader;
use slice_geometry::Size;

#[tactic(auto, using(field_rows::proofs::Reading::reading, crate::proofs::Groups::version_pass), unfolding(crate::specs::Header::version_rows))]
fn version(r: &mut BitReader<'_>) -> Result<Version, HeaderFault>
    ensures read { Gives (λ v. v) header_fault result r.new (read reason_of version_rows r.old) }
    ensures passes { IfOk result (λ v. Pass version_rows (version_fields v) v) }
{
    let major = number_within(r, 1, 2, HeaderReason::VersionRefused)?;
    let minor = number(r)?;
    number_within(r, 0, 0, HeaderReason::NotLowDelay)?;
    let level = number(r)?;
    number_within(r, 0, 0, HeaderReason::PresetFormat)?;
    Ok(Version {
        major,
        minor,
        level,
    })
}

#[tactic(auto, using(field_rows::proofs::Reading::asking))]
fn height(r: &mut BitReader<'_>, width: u32) -> Result<u32, HeaderFault>
    ensures read { Gives (λ v. v) header_fault result r.new
        (read reason_of (number_under (height_rules width)) r.old) }
    ensures passed { IfOk result (λ v. first_broken (height_rules width v) ≡ None) }
{
    let bit = r.place();
    let height = number(r)?;
    if let Some(reason) = height_rule(width, height) {
        return Err(HeaderFault { bit, reason });
    }
    Ok(height)
}

#[tactic(auto, using(field_rows::proofs::Reading::reading, crate::proofs::Groups::size_pass), unfolding(crate::specs::Header::size_rows))]
fn size(r: &mut BitReader<'_>) -> Result<Size, HeaderFault>
    ensures read { Gives (λ v. v) header_fault result r.new (read reason_of size_rows r.old) }
    ensures passes { IfOk result (λ v. Pass size_rows (size_fields v) v) }
{
    flag_set(r, HeaderReason::DefaultTaken(FieldName::Size))?;
    let width = number_within(r, 1, 8192, HeaderReason::SizeRefused)?;
    let height = height(r, width)?;
    Ok(Size {
        w: width,
        h: height,
    })
}

#[tactic(auto, using(field_rows::proofs::Reading::asking))]
fn sampling_index(r: &mut BitReader<'_>, size: Size) -> Result<u32, HeaderFault>
    ensures read { Gives (λ v. v) header_fault result r.new
        (read reason_of (number_under (sampling_rules size)) r.old) }
    ensures passed { IfOk result (λ v. first_broken (sampling_rules size v) ≡ None) }
{
    let bit = r.place();
    let index = number(r)?;
    if let Some(reason) = sampling_rule(size, index) {
        return Err(HeaderFault { bit, reason });
    }
    Ok(index)
}

#[tactic(auto, using(field_rows::proofs::Reading::reading, crate::proofs::Groups::sampling_pass), unfolding(crate::specs::Header::sampling_rows))]
fn sampling(r: &mut BitReader<'_>, size: Size) -> Result<u32, HeaderFault>
    ensures read { Gives (λ v. v) header_fault result r.new
        (read reason_of (sampling_rows size) r.old) }
    ensures passes { IfOk result (λ v. Pass (sampling_rows size) (sampling_fields v) v) }
{
    flag_set(r, HeaderReason::DefaultTaken(FieldName::Sampling))?;
    let index = sampling_index(r, size)?;
    Ok(index)
}

#[tactic(auto, using(field_rows::proofs::Reading::reading, crate::proofs::Groups::scan_passes), unfolding(crate::specs::Header::scan_rows))]
fn scan(r: &mut BitReader<'_>) -> Result<Option<u32>, HeaderFault>
    ensures read { Gives (λ v. v) header_fault result r.new (read reason_of scan_rows r.old) }
    ensures passes { IfOk result (λ v. Pass scan_rows (scan_fields v) v) }
{
    if !flag(r)? {
        return Ok(None);
    }
    let scan = number_within(r, 0, 1, HeaderReason::ScanUnknown)?;
    Ok(Some(scan))
}

#[tactic(auto, using(field_rows::proofs::Reading::reading, crate::proofs::Groups::rate_passes), unfolding(crate::specs::Header::rate_rows))]
fn rate(r: &mut BitReader<'_>) -> Result<RateField, HeaderFault>
    ensures read { Gives (λ v. v) header_fault result r.new (read reason_of rate_rows r.old) }
    ensures passes { IfOk result (λ v. Pass rate_rows (rate_fields v) v) }
{
    flag_set(r, HeaderReason::DefaultTaken(FieldName::Rate))?;
    let index = number_within(r, 0, 8, HeaderReason::RateRefused)?;
    if index != 0 {
        return Ok(RateField::Index(index));
    }
    let numerator = number_within(r, 1, u32::MAX, HeaderReason::RateRefused)?;
    let denominator = number_within(r, 1, u32::MAX, HeaderReason::RateRefused)?;
    Ok(RateField::Pair(numerator, denominator))
}

#[tactic(auto, using(field_rows::proofs::Reading::reading, crate::proofs::Groups::aspect_passes), unfolding(crate::specs::Header::aspect_rows))]
fn aspect(r: &mut BitReader<'_>) -> Result<AspectField, HeaderFault>
    ensures read { Gives (λ v. v) header_fault result r.new (read reason_of aspect_rows r.old) }
    ensures passes { IfOk result (λ v. Pass aspect_rows (aspect_fields v) v) }
{
    if !flag(r)? {
        return Ok(AspectField::Default);
    }
    let index = number(r)?;
    if index != 0 {
        return Ok(AspectField::Index(index));
    }
    let numerator = number(r)?;
    let denominator = number(r)?;
    Ok(AspectField::Pair(numerator, denominator))
}

#[tactic(auto, using(field_rows::proofs::Reading::reading, crate::proofs::Groups::clean_passes), unfolding(crate::specs::Header::clean_rows))]
fn clean(r: &mut BitReader<'_>) -> Result<Option<CleanArea>, HeaderFault>
    ensures read { Gives (λ v. v) header_fault result r.new (read reason_of clean_rows r.old) }
    ensures passes { IfOk result (λ v. Pass clean_rows (clean_fields v) v) }
{
    if !flag(r)? {
        return Ok(None);
    }
    let width = number(r)?;
    let height = number(r)?;
    let left = number(r)?;
    let top = number(r)?;
    Ok(Some(CleanArea {
        width,
        height,
        left,
        top,
    }))
}

#[tactic(auto, using(field_rows::proofs::Reading::reading, crate::proofs::Groups::signal_passes), unfolding(crate::specs::Header::signal_rows, crate::specs::Header::excursion))]
fn signal(r: &mut BitReader<'_>) -> Result<SignalField, HeaderFault>
    ensures read { Gives (λ v. v) header_fault result r.new (read reason_of signal_rows r.old) }
    ensures passes { IfOk result (λ v. Pass signal_rows (signal_fields v) v) }
{
    flag_set(r, HeaderReason::DefaultTaken(FieldName::Signal))?;
    let index = number_within(r, 0, 4, HeaderReason::SignalRefused)?;
    if index != 0 {
        return Ok(SignalField::Index(index));
    }
    let luma_offset = number(r)?;
    let luma_excursion = number_within(r, 1, 65535, HeaderReason::SignalRefused)?;
    let colour_offset = number(r)?;
    let colour_excursion = number_within(r, 1, 65535, HeaderReason::SignalRefused)?;
    Ok(SignalField::Custom(SignalRange {
        luma_offset,
        luma_excursion,
        colour_offset,
        colour_excursion,
    }))
}

#[tactic(auto, using(field_rows::proofs::Reading::reading, crate::proofs::Groups::index_passes), unfolding(crate::specs::Header::flagged_index))]
fn index_behind_flag(r: &mut BitReader<'_>) -> Result<Option<u32>, HeaderFault>
    ensures read { Gives (λ v. v) header_fault result r.new (read reason_of flagged_index r.old) }
    ensures passes { IfOk result (λ v. Pass flagged_index (index_fields v) v) }
{
    if !flag(r)? {
        return Ok(None);
    }
    let index = number(r)?;
    Ok(Some(index))
}

#[tactic(auto, using(field_rows::proofs::Reading::reading, crate::proofs::Groups::colour_passes), unfolding(crate::specs::Header::colour_rows))]
fn colour(r: &mut BitReader<'_>) -> Result<ColourField, HeaderFault>
    ensures read { Gives (λ v. v) header_fault result r.new (read reason_of colour_rows r.old) }
    ensures passes { IfOk result (λ v. Pass colour_rows (colour_fields v) v) }
{
    if !flag(r)? {
        return Ok(ColourField::Default);
    }
    let index = number(r)?;
    if index != 0 {
        return Ok(ColourField::Index(index));
    }
    let primaries = index_behind_flag(r)?;
    let matrix = index_behind_flag(r)?;
    let transfer = index_behind_flag(r)?;
    Ok(ColourField::Custom {
        primaries,
        matrix,
        transfer,
    })
}

#[tactic(auto, using(field_rows::proofs::Reading::asking, crate::proofs::Groups::coding_pass), unfolding(crate::specs::Header::coding_rows))]
fn coding(r: &mut BitReader<'_>, size: Size, sampling: u32) -> Result<u32, HeaderFault>
    ensures read { Gives (λ v. v) header_fault result r.new
        (read reason_of (coding_rows size sampling) r.old) }
    ensures passes { IfOk result (λ v. Pass (coding_rows size sampling) (coding_fields v) v) }
{
    let bit = r.place();
    let coding = number(r)?;
    if let Some(reason) = coding_rule(size, sampling, coding) {
        return Err(HeaderFault { bit, reason });
    }
    Ok(coding)
}

#[tactic(auto, using(field_rows::proofs::Reading::reading), unfolding(crate::specs::Header::header_fields))]
fn header(r: &mut BitReader<'_>) -> Result<HeaderParts, HeaderFault>
    ensures read { Gives (λ v. v) header_fault result r.new (read reason_of header_fields r.old) }
    ensures passes { IfOk result (λ p. PassesRules p) }
{
    let version = version(r)?;
    let size = size(r)?;
    let sampling = sampling(r, size)?;
    let scan = scan(r)?;
    let rate = rate(r)?;
    let aspect = aspect(r)?;
    let clean = clean(r)?;
    let signal = signal(r)?;
    let colour = colour(r)?;
    let coding = coding(r, size, sampling)?;
    Ok(HeaderParts {
        major: version.major,
        minor: version.minor,
        level: version.level,
        width: size.w,
        height: size.h,
        sampling,
        scan,
        rate,
        aspect,
        clean,
        signal,
        colour,
        coding,
    })
}

/// The parts of the header at the front of bytes, and its length in bytes. They pass every rule.
pub fn read_parts(bytes: &[u8]) -> Result<(HeaderParts, usize), HeaderFault>
    requires { length bytes.now ≤ 2 ^ 40 }
    ensures passes { IfOk result (λ x. PassesRules x.0) }
    ensures exact { GivesOf (λ x. x) header_fault result bytes.now
        (read reason_of header_rows (cursor_at bytes.now 0)) }
    ensures within { IfErr result (λ f. f.bit ≤ 8 * length bytes.now) }
{
    let mut r = BitReader::new(bytes);
    let parts = header(&mut r)?;
    r.align();
    Ok((parts, (r.place() / 8) as usize))
}
