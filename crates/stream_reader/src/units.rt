//! One unit, taken from a source.

ghost use Rattle.parse_info.specs.declared.TheConstants.{HEAD_SIZE};
ghost use Rattle.vc2_io.specs.declared.TheConstants.{INPUT_LIMIT, READ_SIZE};
ghost use Rattle.std.specs.Prelude.{◌≡◌, ◌+◌, ◌≤◌, List, ℕ, Option, length, OnOk};
ghost use Rattle.run_theory.specs.Begun.{Begun};
ghost use Rattle.stream_rows.specs.Units.{units, unit_head, payload_rows};
ghost use Rattle.stream_reader.specs.Turns.{FoundOver};
ghost use Rattle.unit_reader.specs.Stops.{StopCause, PartOver};
ghost use Rattle.stream_reader.specs.Held.{HeldOver};

use crate::earlier::Earlier;
use crate::heads::read_head;
use crate::parts::{Found, first_header, repeated, skipped};
use crate::pictures::picture;
use crate::table::StreamTable;
use parse_info::{Code, ParseInfo};
use picture_codec::PictureDecoder;
use std::alloc::Global;
use stream_rows::Reason;
use unit_reader::{ReadStop, Window, read_on};
use vc2_io::Source;

// The head of the unit. Bytes are asked for only while it is short.
fn head<S: Source>(
    window: &mut Window,
    src: &mut S,
    earlier: &Earlier,
) -> Result<ParseInfo, ReadStop<Reason>>
    requires place { earlier.now.place + length window.old.held + window.old.room ≡ INPUT_LIMIT }
    requires few { length window.old.held ≤ READ_SIZE }
    ensures part { PartOver units (unit_head earlier.now) (λ info. info) earlier.now
        (S.rest src.old) (S.rest src.new) earlier.now.place
        (λ info. HEAD_SIZE) window.old window.new result }
    ensures place { OnOk result (earlier.now.place + HEAD_SIZE + length window.new.held
        + window.new.room ≡ INPUT_LIMIT) }
    ensures few { OnOk result (length window.new.held ≤ READ_SIZE) }
    ensures held { length window.new.held ≤ 8192 }
    ensures cause { StopCause (S.faults src.old) (S.faults src.new) result }
{
    loop {
        let count = window.len().min(13);
        let refusal = match read_head(earlier, window.front(count)) {
            Ok(info) => {
                window.advance(13);
                return Ok(info);
            }
            Err(refusal) => refusal,
        };
        if !refusal.reason.is_truncated() {
            return Err(ReadStop::Refused(refusal));
        }
        match read_on::<StreamTable, S>(window, src, refusal) {
            Ok(()) => {}
            Err(stop) => return Err(stop),
        }
    }
}

// The payload of the unit with this head.
fn payload<S: Source>(
    alloc: Global,
    window: &mut Window,
    src: &mut S,
    earlier: &Earlier,
    info: ParseInfo,
    kept: &mut Option<PictureDecoder>,
) -> Result<Found, ReadStop<Reason>>
    requires place { earlier.now.place + HEAD_SIZE + length window.old.held + window.old.room
        ≡ INPUT_LIMIT }
    requires few { length window.old.held ≤ READ_SIZE }
    ensures unit { (held0 : List ℕ) (rest0 : Option (List ℕ))
        → Begun units earlier.now held0 rest0 (S.rest src.old)
        (earlier.now.place + HEAD_SIZE) window.old.held
        (payload_rows earlier.now earlier.now.first info)
        → FoundOver earlier.now held0 rest0 (S.rest src.new) window.new result }
    ensures held { (held0 : List ℕ) (rest0 : Option (List ℕ))
        → Begun units earlier.now held0 rest0 (S.rest src.old)
        (earlier.now.place + HEAD_SIZE) window.old.held
        (payload_rows earlier.now earlier.now.first info)
        → HeldOver earlier.now held0 rest0 kept.old kept.new window.new.held result }
    ensures cause { StopCause (S.faults src.old) (S.faults src.new) result }
{
    let Some(first) = earlier.first() else {
        return match first_header(alloc, window, src, earlier, info.next) {
            Ok(first) => Ok(Found::Sequence(first)),
            Err(stop) => Err(stop),
        };
    };
    match info.code {
        Code::SequenceHeader => match repeated(window, src, earlier, first, info.next) {
            Ok(()) => Ok(Found::Repeated),
            Err(stop) => Err(stop),
        },
        Code::LowDelayPicture => {
            match picture(alloc, window, src, earlier, first, info.next, kept) {
                Ok(shown) => Ok(Found::Picture(shown)),
                Err(stop) => Err(stop),
            }
        }
        Code::Auxiliary | Code::Padding => match skipped(window, src, earlier, info.next) {
            Ok(()) => Ok(Found::Skipped),
            Err(stop) => Err(stop),
        },
        Code::EndOfSequence => Ok(Found::End),
    }
}

/// Takes the unit in front of the bytes that are held and then the source's, of an input that ends where the window's
/// room does.
pub(crate) fn unit<S: Source>(
    alloc: Global,
    window: &mut Window,
    src: &mut S,
    earlier: &Earlier,
    kept: &mut Option<PictureDecoder>,
) -> Result<Found, ReadStop<Reason>>
    requires place { earlier.now.place + length window.old.held + window.old.room ≡ INPUT_LIMIT }
    requires few { length window.old.held ≤ READ_SIZE }
    ensures unit { (held0 : List ℕ) (rest0 : Option (List ℕ))
        → Begun units earlier.now held0 rest0 (S.rest src.old) earlier.now.place window.old.held
        ((units).rows earlier.now)
        → FoundOver earlier.now held0 rest0 (S.rest src.new) window.new result }
    ensures held { (held0 : List ℕ) (rest0 : Option (List ℕ))
        → Begun units earlier.now held0 rest0 (S.rest src.old) earlier.now.place window.old.held
        ((units).rows earlier.now)
        → HeldOver earlier.now held0 rest0 kept.old kept.new window.new.held result }
    ensures cause { StopCause (S.faults src.old) (S.faults src.new) result }
{
    let info = match head(window, src, earlier) {
        Ok(info) => info,
        Err(stop) => return Err(stop),
    };
    payload(alloc, window, src, earlier, info, kept)
}
