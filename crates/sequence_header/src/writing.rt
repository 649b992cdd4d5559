//! Writes the parts of a header, a group at a time. Each function appends the bits of its fields.

ghost use Rattle.std.specs.Prelude.{◌≡◌, ◌+◌, ◌*◌, ◌≤◌, ◌++◌, length};
ghost use Rattle.bit_codes.specs.Bits.{bits_before};
ghost use Rattle.field_rows.specs.Given.{value_bits};
ghost use Rattle.sequence_header.specs.HeaderFields.{version_fields, size_fields, sampling_fields, scan_fields, rate_fields, aspect_fields, clean_fields, signal_fields, index_fields, colour_fields, coding_fields};
ghost use Rattle.sequence_header.specs.Checking.{HasRateIndex, HasSignalIndex};

use crate::parts::*;
use bit_codes::BitWriter;
use slice_geometry::Size;

/// Versions, profile 0, the level and base video format 0.
#[tactic(auto, using(field_rows::proofs::Written::writing))]
pub fn put_version(w: &mut BitWriter<'_>, major: u32, minor: u32, level: u32)
    requires { w.old.place + length (value_bits
        (version_fields (record { major = major; minor = minor; level = level })))
        ≤ 8 * length w.old.bytes.now }
    ensures same_reference { w.new.bytes.ghost_name ≡ w.old.bytes.ghost_name }
    ensures place { w.new.place
        ≡ w.old.place + length (value_bits (version_fields
        (record { major = major; minor = minor; level = level }))) }
    ensures written { bits_before w.new.place w.new.bytes.now
        ≡ bits_before w.old.place w.old.bytes.now
        ++ value_bits (version_fields (record { major = major; minor = minor; level = level })) }
    ensures room { length w.new.bytes.now ≡ length w.old.bytes.now }
{
    w.put_uint(major);
    w.put_uint(minor);
    w.put_uint(0);
    w.put_uint(level);
    w.put_uint(0);
}

/// A frame's size.
#[tactic(auto, using(field_rows::proofs::Written::writing))]
pub fn put_size(w: &mut BitWriter<'_>, width: u32, height: u32)
    requires { w.old.place + length (value_bits (size_fields (record { w = width; h = height })))
        ≤ 8 * length w.old.bytes.now }
    ensures same_reference { w.new.bytes.ghost_name ≡ w.old.bytes.ghost_name }
    ensures place { w.new.place
        ≡ w.old.place + length (value_bits (size_fields (record { w = width; h = height }))) }
    ensures written { bits_before w.new.place w.new.bytes.now
        ≡ bits_before w.old.place w.old.bytes.now
        ++ value_bits (size_fields (record { w = width; h = height })) }
    ensures room { length w.new.bytes.now ≡ length w.old.bytes.now }
{
    w.put_flag(true);
    w.put_uint(width);
    w.put_uint(height);
}

/// A sampling index.
#[tactic(auto, using(field_rows::proofs::Written::writing))]
pub fn put_sampling(w: &mut BitWriter<'_>, index: u32)
    requires { w.old.place + length (value_bits (sampling_fields index))
        ≤ 8 * length w.old.bytes.now }
    ensures same_reference { w.new.bytes.ghost_name ≡ w.old.bytes.ghost_name }
    ensures place { w.new.place ≡ w.old.place + length (value_bits (sampling_fields index)) }
    ensures written { bits_before w.new.place w.new.bytes.now
        ≡ bits_before w.old.place w.old.bytes.now ++ value_bits (sampling_fields index) }
    ensures room { length w.new.bytes.now ≡ length w.old.bytes.now }
{
    w.put_flag(true);
    w.put_uint(index);
}

/// A source sampling, or its default.
#[tactic(auto, using(field_rows::proofs::Written::writing))]
pub fn put_scan(w: &mut BitWriter<'_>, scan: Option<u32>)
    requires { w.old.place + length (value_bits (scan_fields scan)) ≤ 8 * length w.old.bytes.now }
    ensures same_reference { w.new.bytes.ghost_name ≡ w.old.bytes.ghost_name }
    ensures place { w.new.place ≡ w.old.place + length (value_bits (scan_fields scan)) }
    ensures written { bits_before w.new.place w.new.bytes.now
        ≡ bits_before w.old.place w.old.bytes.now ++ value_bits (scan_fields scan) }
    ensures room { length w.new.bytes.now ≡ length w.old.bytes.now }
{
    let Some(index) = scan else {
        w.put_flag(false);
        return;
    };
    w.put_flag(true);
    w.put_uint(index);
}

/// A frame rate.
#[tactic(auto, using(field_rows::proofs::Written::writing))]
pub fn put_rate(w: &mut BitWriter<'_>, rate: RateField)
    requires index { HasRateIndex rate }
    requires inside { w.old.place + length (value_bits (rate_fields rate))
        ≤ 8 * length w.old.bytes.now }
    ensures same_reference { w.new.bytes.ghost_name ≡ w.old.bytes.ghost_name }
    ensures place { w.new.place ≡ w.old.place + length (value_bits (rate_fields rate)) }
    ensures written { bits_before w.new.place w.new.bytes.now
        ≡ bits_before w.old.place w.old.bytes.now ++ value_bits (rate_fields rate) }
    ensures room { length w.new.bytes.now ≡ length w.old.bytes.now }
{
    w.put_flag(true);
    match rate {
        RateField::Index(index) => w.put_uint(index),
        RateField::Pair(numerator, denominator) => {
            w.put_uint(0);
            w.put_uint(numerator);
            w.put_uint(denominator);
        }
    }
}

/// A pixel aspect ratio, or its default.
#[tactic(auto, using(field_rows::proofs::Written::writing))]
pub fn put_aspect(w: &mut BitWriter<'_>, aspect: AspectField)
    requires { w.old.place + length (value_bits (aspect_fields aspect))
        ≤ 8 * length w.old.bytes.now }
    ensures same_reference { w.new.bytes.ghost_name ≡ w.old.bytes.ghost_name }
    ensures place { w.new.place ≡ w.old.place + length (value_bits (aspect_fields aspect)) }
    ensures written { bits_before w.new.place w.new.bytes.now
        ≡ bits_before w.old.place w.old.bytes.now ++ value_bits (aspect_fields aspect) }
    ensures room { length w.new.bytes.now ≡ length w.old.bytes.now }
{
    match aspect {
        AspectField::Default => w.put_flag(false),
        AspectField::Index(index) => {
            w.put_flag(true);
            w.put_uint(index);
        }
        AspectField::Pair(numerator, denominator) => {
            w.put_flag(true);
            w.put_uint(0);
            w.put_uint(numerator);
            w.put_uint(denominator);
        }
    }
}

/// A clean area, or its default.
#[tactic(auto, using(field_rows::proofs::Written::writing))]
pub fn put_clean(w: &mut BitWriter<'_>, clean: Option<CleanArea>)
    requires { w.old.place + length (value_bits (clean_fields clean)) ≤ 8 * length w.old.bytes.now }
    ensures same_reference { w.new.bytes.ghost_name ≡ w.old.bytes.ghost_name }
    ensures place { w.new.place ≡ w.old.place + length (value_bits (clean_fields clean)) }
    ensures written { bits_before w.new.place w.new.bytes.now
        ≡ bits_before w.old.place w.old.bytes.now ++ value_bits (clean_fields clean) }
    ensures room { length w.new.bytes.now ≡ length w.old.bytes.now }
{
    let Some(area) = clean else {
        w.put_flag(false);
        return;
    };
    w.put_flag(true);
    w.put_uint(area.width);
    w.put_uint(area.height);
    w.put_uint(area.left);
    w.put_uint(area.top);
}

/// A signal range.
#[tactic(auto, using(field_rows::proofs::Written::writing))]
pub fn put_signal(w: &mut BitWriter<'_>, signal: SignalField)
    requires index { HasSignalIndex signal }
    requires inside { w.old.place + length (value_bits (signal_fields signal))
        ≤ 8 * length w.old.bytes.now }
    ensures same_reference { w.new.bytes.ghost_name ≡ w.old.bytes.ghost_name }
    ensures place { w.new.place ≡ w.old.place + length (value_bits (signal_fields signal)) }
    ensures written { bits_before w.new.place w.new.bytes.now
        ≡ bits_before w.old.place w.old.bytes.now ++ value_bits (signal_fields signal) }
    ensures room { length w.new.bytes.now ≡ length w.old.bytes.now }
{
    w.put_flag(true);
    match signal {
        SignalField::Index(index) => w.put_uint(index),
        SignalField::Custom(range) => {
            w.put_uint(0);
            w.put_uint(range.luma_offset);
            w.put_uint(range.luma_excursion);
            w.put_uint(range.colour_offset);
            w.put_uint(range.colour_excursion);
        }
    }
}

/// An index behind its flag, or the flag alone.
#[tactic(auto, using(field_rows::proofs::Written::writing))]
fn put_index(w: &mut BitWriter<'_>, index: Option<u32>)
    requires { w.old.place + length (value_bits (index_fields index)) ≤ 8 * length w.old.bytes.now }
    ensures same_reference { w.new.bytes.ghost_name ≡ w.old.bytes.ghost_name }
    ensures place { w.new.place ≡ w.old.place + length (value_bits (index_fields index)) }
    ensures written { bits_before w.new.place w.new.bytes.now
        ≡ bits_before w.old.place w.old.bytes.now ++ value_bits (index_fields index) }
    ensures room { length w.new.bytes.now ≡ length w.old.bytes.now }
{
    let Some(index) = index else {
        w.put_flag(false);
        return;
    };
    w.put_flag(true);
    w.put_uint(index);
}

/// A colour specification, or its default.
#[tactic(auto, using(field_rows::proofs::Written::writing))]
pub fn put_colour(w: &mut BitWriter<'_>, colour: ColourField)
    requires { w.old.place + length (value_bits (colour_fields colour))
        ≤ 8 * length w.old.bytes.now }
    ensures same_reference { w.new.bytes.ghost_name ≡ w.old.bytes.ghost_name }
    ensures place { w.new.place ≡ w.old.place + length (value_bits (colour_fields colour)) }
    ensures written { bits_before w.new.place w.new.bytes.now
        ≡ bits_before w.old.place w.old.bytes.now ++ value_bits (colour_fields colour) }
    ensures room { length w.new.bytes.now ≡ length w.old.bytes.now }
{
    match colour {
        ColourField::Default => w.put_flag(false),
        ColourField::Index(index) => {
            w.put_flag(true);
            w.put_uint(index);
        }
        ColourField::Custom {
            primaries,
            matrix,
            transfer,
        } => {
            w.put_flag(true);
            w.put_uint(0);
            put_index(w, primaries);
            put_index(w, matrix);
            put_index(w, transfer);
        }
    }
}

/// A picture coding mode.
#[tactic(auto, using(field_rows::proofs::Written::writing))]
pub fn put_coding(w: &mut BitWriter<'_>, coding: u32)
    requires { w.old.place + length (value_bits (coding_fields coding))
        ≤ 8 * length w.old.bytes.now }
    ensures same_reference { w.new.bytes.ghost_name ≡ w.old.bytes.ghost_name }
    ensures place { w.new.place ≡ w.old.place + length (value_bits (coding_fields coding)) }
    ensures written { bits_before w.new.place w.new.bytes.now
        ≡ bits_before w.old.place w.old.bytes.now ++ value_bits (coding_fields coding) }
    ensures room { length w.new.bytes.now ≡ length w.old.bytes.now }
{
    w.put_uint(coding);
}
