//! The payload of a picture unit.

ghost use Rattle.parse_info.specs.declared.TheConstants.{HEAD_SIZE};
ghost use Rattle.vc2_io.specs.declared.TheConstants.{INPUT_LIMIT, READ_SIZE};
ghost use Rattle.std.specs.Prelude.{◌≡◌, ◌+◌, ◌≤◌, List, ℕ, Option, None, Some, OnOk, OnErr, IfOk, IfErr, MatchResult, length, false};
ghost use Rattle.field_rows.specs.Rows.{word_under, renamed, first_broken};
ghost use Rattle.slice_geometry.specs.Slicing.{IsAllowed, total_bytes};
ghost use Rattle.sequence_header.specs.declared.parts.HeaderParts.{HeaderParts};
ghost use Rattle.transform_params.specs.Params.{params_rows};
ghost use Rattle.transform_params.specs.Views.{params_of};
ghost use Rattle.slice_geometry.specs.Frames.{frame_of};
ghost use Rattle.picture_codec.specs.Decoding.{wanted_of};
ghost use Rattle.run_theory.specs.Begun.{Begun};
ghost use Rattle.unit_reader.specs.declared.stop.ReadStop.TheVariants as stops;
ghost use Rattle.stream_rows.specs.Streams.{frame_under};
ghost use Rattle.stream_rows.specs.Units.{Past, units, transform_reason, number_rules, picture_payload};
ghost use Rattle.stream_reader.specs.Turns.{PictureOver};
ghost use Rattle.unit_reader.specs.Stops.{StopCause, PartOver};
ghost use Rattle.stream_reader.specs.UnitParts.{SlicesOver, IsAtFirstSlice, slice_reason};
ghost use Rattle.stream_reader.specs.Held.{greatest_share, StopsHeld};

use crate::earlier::{Earlier, First};
use crate::heads::{leads_behind, transform_reason};
use crate::table::StreamTable;
use picture_codec::PictureDecoder;
use slice_decoder::SliceFault;
use slice_geometry::{Layout, PictureShape};
use std::alloc::Global;
use stream_rows::Reason;
use transform_params::TransformParams;
use unit_reader::{ReadStop, Refusal, Window, read_on, refused, stop_of};
use vc2_io::Source;

/// A picture that was read: its number, how it is cut into slices, the bytes of its unit before the first slice, and
/// the decoder that took its slices.
#[derive(Drop)]
pub struct Shown {
    pub number: u32,
    pub layout: Layout,
    pub head: u64,
    pub decoder: PictureDecoder,
}

// The first rule that a picture's number breaks.
fn broken_number(earlier: &Earlier, first: &First, number: u32) -> Option<Reason>
    requires { earlier.now.first ≡ Some first.now }
    ensures { result ≡ first_broken (number_rules earlier.now number) }
{
    let later = earlier.pictures() != 0;
    if later && number != earlier.last().wrapping_add(1) {
        return Some(Reason::PictureNumberWrong);
    }
    if !later && first.header().parts().coding == 1 && number % 2 == 1 {
        return Some(Reason::FieldNumberOdd);
    }
    None
}

// The number of the picture.
fn number<S: Source>(
    window: &mut Window,
    src: &mut S,
    earlier: &Earlier,
    first: &First,
) -> Result<u32, ReadStop<Reason>>
    requires first { earlier.now.first ≡ Some first.now }
    requires place { earlier.now.place + HEAD_SIZE + length window.old.held + window.old.room
        ≡ INPUT_LIMIT }
    requires few { length window.old.held ≤ READ_SIZE }
    ensures part { PartOver units (word_under (number_rules earlier.now)) (λ n. n) earlier.now
        (S.rest src.old) (S.rest src.new) (earlier.now.place + HEAD_SIZE)
        (λ n. 4) window.old window.new result }
    ensures place { OnOk result (earlier.now.place + 17 + length window.new.held + window.new.room
        ≡ INPUT_LIMIT) }
    ensures held { length window.new.held ≤ 8192 }
    ensures cause { StopCause (S.faults src.old) (S.faults src.new) result }
{
    let place = earlier.place() + 13;
    match window.hold(src, 4) {
        Ok(true) => {}
        Ok(false) => return Err(refused(place, Reason::Truncated)),
        Err(halt) => return Err(stop_of(halt)),
    }
    let Some((bytes, _)) = window.front(4).split_first_chunk::<4>() else {
        unreachable!()
    };
    let number = u32::from_be_bytes(*bytes);
    if let Some(reason) = broken_number(earlier, first, number) {
        return Err(refused(place, reason));
    }
    window.advance(4);
    Ok(number)
}

// The transform parameters, and how many bytes they have.
fn params<S: Source>(
    window: &mut Window,
    src: &mut S,
    place: u64,
) -> Result<(TransformParams, u64), ReadStop<Reason>>
    requires place { place + length window.old.held + window.old.room ≡ INPUT_LIMIT }
    requires few { length window.old.held ≤ 8192 }
    ensures part { (z : Past) → PartOver units (renamed transform_reason params_rows)
        (λ x. params_of x.0) z (S.rest src.old) (S.rest src.new) place
        (λ x. x.1) window.old window.new result }
    ensures most { IfOk result (λ x. x.1 ≤ 512) }
    ensures held { length window.new.held ≤ 8192 }
    ensures place { IfOk result (λ x. place + x.1 + length window.new.held + window.new.room
        ≡ INPUT_LIMIT) }
    ensures cause { StopCause (S.faults src.old) (S.faults src.new) result }
{
    loop {
        let held = window.len();
        let fault = match TransformParams::read(window.front(held)) {
            Ok((params, size)) => {
                window.advance(size);
                return Ok((params, size as u64));
            }
            Err(fault) => fault,
        };
        let refusal = Refusal {
            place: place + fault.bit / 8,
            reason: transform_reason(fault.reason),
        };
        if !refusal.reason.is_truncated() {
            return Err(ReadStop::Refused(refusal));
        }
        match read_on::<StreamTable, S>(window, src, refusal) {
            Ok(()) => {}
            Err(stop) => return Err(stop),
        }
    }
}

// A decoder of pictures of this shape and with these parameters: the one that is kept, or else a new one.
fn ready(
    alloc: Global,
    kept: &mut Option<PictureDecoder>,
    shape: &PictureShape,
    params: &TransformParams,
) -> Result<PictureDecoder, ReadStop<Reason>>
    ensures ready { MatchResult result (IsAtFirstSlice shape.now (params_of params.now))
        (λ stop. stop ≡ stops.NoMemory) }
    ensures none { OnErr result (kept.new ≡ None) }
{
    if let Some(mut decoder) = kept.take() {
        if *decoder.shape() == *shape && *decoder.params() == *params {
            decoder.restart();
            return Ok(decoder);
        }
        drop(decoder);
    }
    match PictureDecoder::new(alloc, shape, params) {
        Ok(decoder) => Ok(decoder),
        Err(_) => Err(ReadStop::NoMemory),
    }
}

// Why the stream is refused where a slice is.
fn slice_reason(fault: SliceFault) -> Reason
    ensures { result ≡ slice_reason fault }
{
    match fault {
        SliceFault::LumaLengthTooLong => Reason::LumaLengthTooLong,
        SliceFault::CoefficientTooLarge => Reason::CoefficientTooLarge,
    }
}

// The slices of the picture, each given to the decoder as soon as its bytes are there.
fn slices<S: Source>(
    window: &mut Window,
    src: &mut S,
    place: u64,
    decoder: &mut PictureDecoder,
) -> Result<(), ReadStop<Reason>>
    requires first { decoder.old.next ≡ 0 }
    requires unrefused { decoder.old.refused ≡ false }
    requires place { place + length window.old.held + window.old.room ≡ INPUT_LIMIT }
    requires few { length window.old.held ≤ 8192 }
    ensures part { (parts : HeaderParts) (z : Past)
        → frame_of decoder.old.shape ≡ frame_under parts
        → SlicesOver parts z (S.rest src.old)
        (S.rest src.new) place window.old window.new decoder.old decoder.new result }
    ensures place { OnOk result (place + total_bytes decoder.old.params.slicing
        + length window.new.held + window.new.room ≡ INPUT_LIMIT) }
    ensures shape { decoder.new.shape ≡ decoder.old.shape }
    ensures params { decoder.new.params ≡ decoder.old.params }
    ensures unrefused { OnOk result (decoder.new.refused ≡ false) }
    ensures whole { OnOk result (wanted_of decoder.new ≡ None) }
    ensures allowed { OnOk result (IsAllowed decoder.old.params.slicing) }
    ensures held { length window.new.held ≤ 8192 + greatest_share decoder.old.params.slicing }
    ensures cause { StopCause (S.faults src.old) (S.faults src.new) result }
{
    // The rules of a layout.
    let _ = decoder.params().layout.depth();
    let mut at = place;
    while let Some(share) = decoder.wanted() {
        match window.hold(src, share as usize) {
            Ok(true) => {}
            Ok(false) => return Err(refused(at, Reason::Truncated)),
            Err(halt) => return Err(stop_of(halt)),
        }
        if let Err(fault) = decoder.slice(window.front(share as usize)) {
            return Err(refused(at, slice_reason(fault)));
        }
        window.advance(share as usize);
        at += u64::from(share);
    }
    Ok(())
}

/// Takes the payload of a picture unit, behind its head. The decoder of an earlier picture serves where that one has
/// the same shape and parameters; the one of a picture that is refused is kept.
pub(crate) fn picture<S: Source>(
    alloc: Global,
    window: &mut Window,
    src: &mut S,
    earlier: &Earlier,
    first: &First,
    next: u32,
    kept: &mut Option<PictureDecoder>,
) -> Result<Shown, ReadStop<Reason>>
    requires first { earlier.now.first ≡ Some first.now }
    requires place { earlier.now.place + HEAD_SIZE + length window.old.held + window.old.room
        ≡ INPUT_LIMIT }
    requires few { length window.old.held ≤ READ_SIZE }
    ensures unit { (held0 : List ℕ) (rest0 : Option (List ℕ))
        → Begun units earlier.now held0 rest0 (S.rest src.old)
        (earlier.now.place + HEAD_SIZE) window.old.held
        (picture_payload earlier.now next first.now.parts)
        → PictureOver earlier.now held0 rest0 (S.rest src.new) window.new first.now.parts result }
    ensures held { (held0 : List ℕ) (rest0 : Option (List ℕ))
        → Begun units earlier.now held0 rest0 (S.rest src.old)
        (earlier.now.place + HEAD_SIZE) window.old.held
        (picture_payload earlier.now next first.now.parts)
        → IfErr result (StopsHeld earlier.now held0 rest0 kept.old kept.new window.new.held) }
    ensures cause { StopCause (S.faults src.old) (S.faults src.new) result }
{
    let number = number(window, src, earlier, first)?;
    let place = earlier.place();
    let (params, size) = params(window, src, place + 17)?;
    let mut decoder = ready(alloc, kept, &first.header().picture_shape(), &params)?;
    let head = 17 + size;
    match slices(window, src, place + head, &mut decoder) {
        Ok(()) => {}
        Err(stop) => {
            drop(kept.replace(decoder));
            return Err(stop);
        }
    }
    if !leads_behind(next, head + u64::from(params.layout.total_bytes())) {
        drop(kept.replace(decoder));
        return Err(refused(place + 5, Reason::OffsetWrong));
    }
    Ok(Shown {
        number,
        layout: params.layout,
        head,
        decoder,
    })
}
