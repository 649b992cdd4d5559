//! A sequence header.

use crate::checking::{
    check_coding, check_rate, check_sampling, check_scan, check_signal, check_size, check_version,
};
use crate::coding::{colour_size, depth_of, luma_size, signal_range};
use crate::lengths::{
    aspect_bits, clean_bits, coding_bits, colour_bits, rate_bits, sampling_bits, scan_bits,
    signal_bits, size_bits, version_bits,
};
use crate::parts::{HeaderFault, HeaderParts, HeaderReason};
use crate::reading::read_parts;
use crate::writing::{
    put_aspect, put_clean, put_coding, put_colour, put_rate, put_sampling, put_scan, put_signal,
    put_size, put_version,
};
use bit_codes::BitWriter;
use slice_geometry::{PictureShape, Size};
use std::marker::Model;

/// A sequence header that meets every rule. It is seen as its parts; the values of this type are
/// exactly the parts that pass [`SequenceHeader::check`].
#[derive(Clone, Copy, Debug, PartialEq, Eq)]
pub struct SequenceHeader {
    parts: HeaderParts,
}

impl Model for SequenceHeader {
    ghost use Rattle.sequence_header.specs.declared.parts.HeaderParts.{HeaderParts};
    ghost use Rattle.sequence_header.specs.Checking.{PassesRules};

    ghost Value = { HeaderParts };

    ghost view = { λ h. h.parts };

    ghost invariant = { λ h. PassesRules h.parts };

    ghost inverse = { λ p. record { parts = p } };
}

impl SequenceHeader {
    ghost use Rattle.std.specs.Prelude.{◌≡◌, ◌≤◌, ◌*◌, ◌^◌, IfErr, [], length};
    ghost use Rattle.bit_codes.specs.Bits.{bits_of, cursor_at};
    ghost use Rattle.field_rows.specs.Rows.{GivesOf, read};
    ghost use Rattle.field_rows.specs.Given.{checked};
    ghost use Rattle.sequence_header.specs.HeaderFields.{fields_of};
    ghost use Rattle.sequence_header.specs.Header.{reason_of, header_fault, header_fields, header_rows};
    ghost use Rattle.sequence_header.specs.Coding.{IsShapeOf};
    ghost use Rattle.sequence_header.specs.Bytes.{header_len, header_text, header_bytes, IsHeaderReadBack};
    ghost use Rattle.sequence_header.specs.Checking.{IsCheckOf, IsLawfulHeader, HasAspectIndex, HasColourIndex};

    /// The header of these parts, or the first rule that they break, in field order.
    ///
    /// An `Index(0)` as the frame rate is `RateRefused`, and as the signal range `SignalRefused`.
    pub fn check(parts: HeaderParts) -> Result<SequenceHeader, HeaderReason>
        requires aspect { HasAspectIndex parts.aspect }
        requires colour { HasColourIndex parts.colour }
        ensures { IsCheckOf result parts }
    {
        let size = Size {
            w: parts.width,
            h: parts.height,
        };
        check_version(parts.major, parts.minor, parts.level)?;
        check_size(size)?;
        check_sampling(size, parts.sampling)?;
        check_scan(parts.scan)?;
        check_rate(parts.rate)?;
        check_signal(parts.signal)?;
        check_coding(size, parts.sampling, parts.coding)?;
        Ok(SequenceHeader { parts })
    }

    /// The header at the front of bytes, and its length in bytes; or its first fault. The bits up to
    /// the last byte's end are skipped, and what follows isn't looked at.
    pub fn read(bytes: &[u8]) -> Result<(SequenceHeader, usize), HeaderFault>
        requires { length bytes.now ≤ 2 ^ 40 }
        ensures exact { GivesOf (λ h. h) header_fault result bytes.now
            (read reason_of header_rows (cursor_at bytes.now 0)) }
        ensures within { IfErr result (λ f. f.bit ≤ 8 * length bytes.now) }
    {
        let (parts, length) = read_parts(bytes)?;
        Ok((SequenceHeader { parts }, length))
    }

    /// What the header holds. These parts pass the check, and are lawful.
    pub fn parts(&self) -> &HeaderParts
        ensures value { result.now ≡ self.now }
        ensures passes { checked header_fields (fields_of self.now) ≡ Ok (self.now, []) }
        ensures lawful { IsLawfulHeader self.now }
    {
        prove!(self.byte_len() <= 237);
        &self.parts
    }

    /// The sizes of a picture's components and the depths of their samples.
    pub fn picture_shape(&self) -> PictureShape
        ensures { IsShapeOf result self.now }
    {
        let parts = &self.parts;
        let range = signal_range(parts.signal);
        PictureShape {
            luma: luma_size(parts),
            colour: colour_size(parts),
            luma_depth: depth_of(range.luma_excursion),
            colour_depth: depth_of(range.colour_excursion),
        }
    }

    /// How many bytes the header is written in.
    pub fn byte_len(&self) -> usize
        ensures length { result ≡ header_len self.now }
        ensures most { result ≤ 237 }
        ensures lawful { IsLawfulHeader self.now }
    {
        let parts = &self.parts;
        let bits = version_bits(parts.major, parts.minor, parts.level)
            + size_bits(parts.width, parts.height)
            + sampling_bits(parts.sampling)
            + scan_bits(parts.scan)
            + rate_bits(parts.rate)
            + aspect_bits(parts.aspect)
            + clean_bits(parts.clean)
            + signal_bits(parts.signal)
            + colour_bits(parts.colour)
            + coding_bits(parts.coding);
        ((bits + 7) / 8) as usize
    }

    /// Writes the fields in their order, and zeros up to the last byte's end, into exactly `byte_len` bytes. `read` takes
    /// exactly these bytes and gives the same header, whatever follows.
    pub fn write(&self, bytes: &mut [u8])
        requires { length bytes.old ≡ header_len self.now }
        ensures bytes { bytes.new ≡ header_bytes self.now }
        ensures read_back { IsHeaderReadBack bytes.new self.now }
    {
        let length = self.byte_len();
        prove!(bytes.len() == length);
        let mut w = BitWriter::new(bytes);
        self.put(&mut w);
    }

    /// Writes the header into a new writer of exactly its bytes.
    fn put(&self, w: &mut BitWriter<'_>)
        requires start { w.old.place ≡ 0 }
        requires room { length w.old.bytes.now ≡ header_len self.now }
        ensures same_reference { w.new.bytes.ghost_name ≡ w.old.bytes.ghost_name }
        ensures text { bits_of w.new.bytes.now ≡ header_text self.now }
    {
        let parts = &self.parts;
        put_version(w, parts.major, parts.minor, parts.level);
        put_size(w, parts.width, parts.height);
        put_sampling(w, parts.sampling);
        put_scan(w, parts.scan);
        put_rate(w, parts.rate);
        put_aspect(w, parts.aspect);
        put_clean(w, parts.clean);
        put_signal(w, parts.signal);
        put_colour(w, parts.colour);
        put_coding(w, parts.coding);
        w.align();
    }
}
