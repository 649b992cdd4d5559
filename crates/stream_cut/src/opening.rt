//! What a unit begins with: all of it but the bytes that are taken without a look.

ghost use Rattle.vc2_io.specs.declared.TheConstants.{INPUT_LIMIT};
ghost use Rattle.std.specs.Prelude.{◌≡◌, ◌≤◌, length, Some, None, Err};
ghost use Rattle.field_rows.specs.Rows.{first_broken};
ghost use Rattle.stream_rows.specs.Units.{Past, number_rules};
ghost use Rattle.stream_cut.specs.Opening.{OpensBy, open_first, open_repeated, open_picture, open_rows};

use parse_info::Code;
use sequence_header::SequenceHeader;
use stream_reader::{Earlier, First, header_reason, leads_behind, read_head, transform_reason};
use stream_rows::{Reason, Refusal};
use transform_params::TransformParams;

/// What a unit is by its beginning.
pub(crate) enum Opening {
    /// A sequence's first header, whole.
    Sequence(SequenceHeader),
    /// The same header once more, whole.
    Repeated,
    /// A picture up to its slices.
    Picture(PictureOpening),
    /// Auxiliary data or padding with this next offset, up to the payload.
    Skipped(u32),
    /// An end of sequence, whole.
    End,
}

/// A picture up to its slices: its number, its transform parameters, and its next offset.
#[derive(Clone, Copy)]
pub(crate) struct PictureOpening {
    pub number: u32,
    pub params: TransformParams,
    pub next: u32,
}

fn refused(place: u64, reason: Reason) -> Result<(Opening, usize), Refusal>
    ensures { result ≡ Err (record { place = place; reason = reason }) }
{
    Err(Refusal { place, reason })
}

// The payload of a sequence's first header, which is in front of the bytes.
fn open_first(place: u64, next: u32, bytes: &[u8]) -> Result<(Opening, usize), Refusal>
    requires few { length bytes.now ≤ 8192 }
    requires place { place ≤ INPUT_LIMIT }
    ensures { (z : Past) → z.place ≡ place → OpensBy z (open_first z next) 13 bytes.now result }
{
    let (header, size) = match SequenceHeader::read(bytes) {
        Ok(read) => read,
        Err(fault) => return refused(place + 13 + fault.bit / 8, header_reason(fault.reason)),
    };
    if !leads_behind(next, 13 + size as u64) {
        return refused(place + 5, Reason::OffsetWrong);
    }
    Ok((Opening::Sequence(header), 13 + size))
}

// The payload of a repeated header.
fn open_repeated(
    place: u64,
    first: &First,
    next: u32,
    bytes: &[u8],
) -> Result<(Opening, usize), Refusal>
    requires { place ≤ INPUT_LIMIT }
    ensures { (z : Past) → z.place ≡ place
        → OpensBy z (open_repeated z next first.now) 13 bytes.now result }
{
    let payload = first.payload();
    if bytes.len() < payload.len() {
        return refused(place + 13, Reason::Truncated);
    }
    if !bytes[..payload.len()].starts_with(payload) {
        return refused(place + 13, Reason::HeaderDiffers);
    }
    if !leads_behind(next, 13 + payload.len() as u64) {
        return refused(place + 5, Reason::OffsetWrong);
    }
    Ok((Opening::Repeated, 13 + payload.len()))
}

// The first rule that a picture's number breaks.
fn broken_number(earlier: &Earlier, first: &First, number: u32) -> Option<Reason>
    requires { earlier.now.first ≡ Some first.now }
    ensures { result ≡ first_broken (number_rules earlier.now number) }
{
    let later = earlier.pictures() != 0;
    if later && number != earlier.last().wrapping_add(1) {
        return Some(Reason::PictureNumberWrong);
    }
    if !later && first.header().parts().coding == 1 && number % 2 == 1 {
        return Some(Reason::FieldNumberOdd);
    }
    None
}

// The number and the parameters of a picture.
fn open_picture(
    earlier: &Earlier,
    first: &First,
    next: u32,
    bytes: &[u8],
) -> Result<(Opening, usize), Refusal>
    requires first { earlier.now.first ≡ Some first.now }
    requires few { length bytes.now ≤ 8192 }
    ensures { OpensBy earlier.now (open_picture earlier.now next first.now.parts) 13 bytes.now
        result }
{
    let place = earlier.place();
    let Some((word, behind)) = bytes.split_first_chunk::<4>() else {
        return refused(place + 13, Reason::Truncated);
    };
    let number = u32::from_be_bytes(*word);
    if let Some(reason) = broken_number(earlier, first, number) {
        return refused(place + 13, reason);
    }
    let (params, size) = match TransformParams::read(behind) {
        Ok(read) => read,
        Err(fault) => return refused(place + 17 + fault.bit / 8, transform_reason(fault.reason)),
    };
    let picture = PictureOpening {
        number,
        params,
        next,
    };
    Ok((Opening::Picture(picture), 17 + size))
}

/// What the unit in front of the bytes begins with, and how many bytes that is; or its first fault.
pub(crate) fn read_opening(earlier: &Earlier, bytes: &[u8]) -> Result<(Opening, usize), Refusal>
    requires { length bytes.now ≤ 8192 }
    ensures { OpensBy earlier.now (open_rows earlier.now) 0 bytes.now result }
{
    let info = read_head(earlier, bytes)?;
    let place = earlier.place();
    let behind = &bytes[13..];
    let Some(first) = earlier.first() else {
        return open_first(place, info.next, behind);
    };
    match info.code {
        Code::SequenceHeader => open_repeated(place, first, info.next, behind),
        Code::LowDelayPicture => open_picture(earlier, first, info.next, behind),
        Code::Auxiliary | Code::Padding => Ok((Opening::Skipped(info.next), 13)),
        Code::EndOfSequence => Ok((Opening::End, 13)),
    }
}
