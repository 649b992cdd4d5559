//! The parts of units: what stands behind their heads.

ghost use Rattle.parse_info.specs.declared.TheConstants.{HEAD_SIZE};
ghost use Rattle.vc2_io.specs.declared.TheConstants.{INPUT_LIMIT, READ_SIZE};
ghost use Rattle.std.specs.Prelude.{◌≡◌, ◌+◌, ◌≤◌, List, ℕ, Option, length, IfOk, IfErr, OnErr};
ghost use Rattle.run_theory.specs.Begun.{Begun};
ghost use Rattle.stream_rows.specs.Units.{Skipped, Repeated, Past, units, first_payload, skipped_payload, repeated_payload};
ghost use Rattle.stream_reader.specs.Turns.{is_end_found, TakesOver, HeaderOver, IsFirstHeader};
ghost use Rattle.unit_reader.specs.Stops.{StopCause};
ghost use Rattle.unit_reader.specs.declared.stop.ReadStop.TheVariants as stops;

use crate::earlier::{Earlier, First};
use crate::heads::{header_reason, leads_behind};
use crate::pictures::Shown;
use crate::table::StreamTable;
use sequence_header::SequenceHeader;
use std::alloc::Global;
use stream_rows::Reason;
use unit_reader::{ReadStop, Refusal, Window, read_on, refused, stop_of};
use vc2_io::Source;

/// A unit that stands.
#[derive(Drop)]
pub enum Found {
    Sequence(First),
    Repeated,
    Picture(Shown),
    Skipped,
    End,
}

impl Found {
    /// A sequence ends with the unit.
    pub fn is_end(&self) -> bool
        ensures { result ≡ is_end_found self.now }
    {
        matches!(self, Found::End)
    }
}

// The payload of auxiliary data or padding, which is skipped in pieces.
pub(crate) fn skipped<S: Source>(
    window: &mut Window,
    src: &mut S,
    earlier: &Earlier,
    next: u32,
) -> Result<(), ReadStop<Reason>>
    requires place { earlier.now.place + HEAD_SIZE + length window.old.held + window.old.room
        ≡ INPUT_LIMIT }
    ensures unit { (held0 : List ℕ) (rest0 : Option (List ℕ))
        → Begun units earlier.now held0 rest0 (S.rest src.old)
        (earlier.now.place + HEAD_SIZE) window.old.held (skipped_payload next)
        → TakesOver earlier.now held0 rest0 (S.rest src.new) window.new
        (λ _ unit bytes. unit ≡ Skipped) result }
    ensures held { OnErr result (length window.new.held ≤ 8192) }
    ensures cause { StopCause (S.faults src.old) (S.faults src.new) result }
{
    match window.skip(src, next.saturating_sub(13) as u64) {
        Ok(true) => Ok(()),
        Ok(false) => Err(refused(earlier.place() + 13, Reason::Truncated)),
        Err(halt) => Err(stop_of(halt)),
    }
}

// The payload of a sequence header that isn't the first.
pub(crate) fn repeated<S: Source>(
    window: &mut Window,
    src: &mut S,
    earlier: &Earlier,
    first: &First,
    next: u32,
) -> Result<(), ReadStop<Reason>>
    requires place { earlier.now.place + HEAD_SIZE + length window.old.held + window.old.room
        ≡ INPUT_LIMIT }
    requires few { length window.old.held ≤ READ_SIZE }
    ensures unit { (held0 : List ℕ) (rest0 : Option (List ℕ))
        → Begun units earlier.now held0 rest0 (S.rest src.old)
        (earlier.now.place + HEAD_SIZE) window.old.held
        (repeated_payload earlier.now next first.now)
        → TakesOver earlier.now held0 rest0 (S.rest src.new) window.new
        (λ _ unit bytes. unit ≡ Repeated) result }
    ensures held { length window.new.held ≤ 8192 }
    ensures cause { StopCause (S.faults src.old) (S.faults src.new) result }
{
    let place = earlier.place();
    let payload = first.payload();
    match window.hold(src, payload.len()) {
        Ok(true) => {}
        Ok(false) => return Err(refused(place + 13, Reason::Truncated)),
        Err(halt) => return Err(stop_of(halt)),
    }
    if !window.front(payload.len()).starts_with(payload) {
        return Err(refused(place + 13, Reason::HeaderDiffers));
    }
    window.advance(payload.len());
    if !leads_behind(next, 13 + payload.len() as u64) {
        return Err(refused(place + 5, Reason::OffsetWrong));
    }
    Ok(())
}

// Reads until the sequence header stands in front of the bytes that are held, and gives it with its length.
fn read_header<S: Source>(
    window: &mut Window,
    src: &mut S,
    place: u64,
) -> Result<(SequenceHeader, usize), ReadStop<Reason>>
    requires place { place + length window.old.held + window.old.room ≡ INPUT_LIMIT }
    requires few { length window.old.held ≤ 8192 }
    ensures unit { (z : Past) (held0 : List ℕ) (rest0 : Option (List ℕ)) (next : ℕ)
        → place ≡ z.place + HEAD_SIZE
        → Begun units z held0 rest0 (S.rest src.old) place window.old.held (first_payload z next)
        → HeaderOver z next held0 rest0 (S.rest src.new) window.new result }
    ensures room { length window.new.held + window.new.room
        ≡ length window.old.held + window.old.room }
    ensures inside { IfOk result (λ x. x.1 ≤ length window.new.held) }
    ensures most { IfOk result (λ x. x.1 ≤ 512) }
    ensures few { length window.new.held ≤ 8192 }
    ensures cause { StopCause (S.faults src.old) (S.faults src.new) result }
{
    loop {
        let held = window.len();
        let fault = match SequenceHeader::read(window.front(held)) {
            Ok(read) => return Ok(read),
            Err(fault) => fault,
        };
        let refusal = Refusal {
            place: place + fault.bit / 8,
            reason: header_reason(fault.reason),
        };
        if !refusal.reason.is_truncated() {
            return Err(ReadStop::Refused(refusal));
        }
        match read_on::<StreamTable, S>(window, src, refusal) {
            Ok(()) => {}
            Err(stop) => return Err(stop),
        }
    }
}

// A copy of bytes.
fn copied(alloc: Global, bytes: &[u8]) -> Result<Vec<u8>, ReadStop<Reason>>
    ensures ok { IfOk result (λ copy. copy.items ≡ bytes.now) }
    ensures err { IfErr result (λ stop. stop ≡ stops.NoMemory) }
{
    let mut copy = Vec::new(alloc);
    match copy.extend_from_slice(bytes) {
        Ok(()) => Ok(copy),
        Err(_) => Err(ReadStop::NoMemory),
    }
}

// The payload of the first sequence header, which is kept: a later one has to be the same.
pub(crate) fn first_header<S: Source>(
    alloc: Global,
    window: &mut Window,
    src: &mut S,
    earlier: &Earlier,
    next: u32,
) -> Result<First, ReadStop<Reason>>
    requires place { earlier.now.place + HEAD_SIZE + length window.old.held + window.old.room
        ≡ INPUT_LIMIT }
    requires few { length window.old.held ≤ READ_SIZE }
    ensures unit { (held0 : List ℕ) (rest0 : Option (List ℕ))
        → Begun units earlier.now held0 rest0 (S.rest src.old)
        (earlier.now.place + HEAD_SIZE) window.old.held (first_payload earlier.now next)
        → TakesOver earlier.now held0 rest0 (S.rest src.new) window.new IsFirstHeader result }
    ensures held { length window.new.held ≤ 8192 }
    ensures cause { StopCause (S.faults src.old) (S.faults src.new) result }
{
    let place = earlier.place();
    let (header, len) = match read_header(window, src, place + 13) {
        Ok(read) => read,
        Err(stop) => return Err(stop),
    };
    let payload = match copied(alloc, window.front(len)) {
        Ok(payload) => payload,
        Err(stop) => return Err(stop),
    };
    window.advance(len);
    if !leads_behind(next, 13 + len as u64) {
        return Err(refused(place + 5, Reason::OffsetWrong));
    }
    Ok(First::new(header, payload))
}
