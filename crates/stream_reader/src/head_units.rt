//! The table of units by their heads alone.

ghost use Rattle.parse_info.specs.declared.TheConstants.{HEAD_SIZE};
ghost use Rattle.vc2_io.specs.declared.TheConstants.{INPUT_LIMIT, READ_SIZE};
ghost use Rattle.std.specs.Prelude.{◌≡◌, ◌+◌, ◌≤◌, length, OnOk, refl};
ghost use Rattle.unit_reader.specs.Stops.{StopCause, PartOver};
ghost use Rattle.stream_rows.specs.declared.reason.Reason.TheVariants as reasons;
ghost use Rattle.stream_reader.specs.HeadUnits.{leads_on, payload_length, head_only_head, heads};
ghost use Rattle.stream_reader.specs.HeadLaws.{heads_laws};
ghost use Rattle.unit_reader.proofs.FewHeld.{few_held};
ghost use Rattle.stream_reader.specs.Heads.{HeadAt, head_only_judged};

use crate::heads::refuse;
use parse_info::{Code, InfoFault, ParseInfo};
use stream_rows::{Reason, Refusal};
use unit_reader::{After, ReadStop, Table, Units, Window, read_on, refused, stop_of};
use vc2_io::Source;

fn leads_on(code: Code, next: u32) -> bool
    ensures { result ≡ leads_on code next }
{
    code == Code::EndOfSequence || next >= 13
}

fn payload_length(info: &ParseInfo) -> u32
    ensures { result ≡ payload_length info.now }
{
    match info.code {
        Code::EndOfSequence => 0,
        _ => info.next.saturating_sub(13),
    }
}

// The head after the rule on its next offset, which comes before the shortness of the previous one.
fn judge(place: u64, read: Result<ParseInfo, InfoFault>) -> Result<ParseInfo, Refusal>
    requires { place ≤ INPUT_LIMIT }
    ensures { result ≡ head_only_judged place read }
{
    match read {
        Ok(info) => {
            if !leads_on(info.code, info.next) {
                return refuse(place + 5, Reason::OffsetShort);
            }
            Ok(info)
        }
        Err(InfoFault::PrefixShort) => refuse(place, Reason::Truncated),
        Err(InfoFault::BadPrefix) => refuse(place, Reason::BadPrefix),
        Err(InfoFault::CodeShort) => refuse(place + 4, Reason::Truncated),
        Err(InfoFault::UnsupportedCode(code)) => refuse(place + 4, Reason::UnsupportedCode(code)),
        Err(InfoFault::NextShort(_)) => refuse(place + 5, Reason::Truncated),
        Err(InfoFault::PreviousShort(code, next)) => {
            if !leads_on(code, next) {
                return refuse(place + 5, Reason::OffsetShort);
            }
            refuse(place + 9, Reason::Truncated)
        }
    }
}

// The head in front of the bytes, or its first fault.
fn read_head(place: u64, bytes: &[u8]) -> Result<ParseInfo, Refusal>
    requires { place ≤ INPUT_LIMIT }
    ensures { HeadAt head_only_head place bytes.now result }
{
    judge(place, ParseInfo::read(bytes))
}

// The head of the unit. Bytes are asked for only while it is short.
fn head<S: Source>(
    window: &mut Window,
    src: &mut S,
    place: u64,
) -> Result<ParseInfo, ReadStop<Reason>>
    requires place { place + length window.old.held + window.old.room ≡ INPUT_LIMIT }
    requires few { length window.old.held ≤ READ_SIZE }
    ensures part { PartOver heads head_only_head (λ info. info) place (S.rest src.old)
        (S.rest src.new) place (λ info. HEAD_SIZE) window.old window.new result }
    ensures place { OnOk result (place + HEAD_SIZE + length window.new.held + window.new.room
        ≡ INPUT_LIMIT) }
    ensures room { window.new.room ≤ window.old.room }
    ensures held { length window.new.held ≤ 8192 }
    ensures cause { StopCause (S.faults src.old) (S.faults src.new) result }
{
    loop {
        let count = window.len().min(13);
        let refusal = match read_head(place, window.front(count)) {
            Ok(info) => {
                window.advance(13);
                return Ok(info);
            }
            Err(refusal) => refusal,
        };
        if !refusal.reason.is_truncated() {
            return Err(ReadStop::Refused(refusal));
        }
        match read_on::<HeadTable, S>(window, src, refusal) {
            Ok(()) => {}
            Err(stop) => return Err(stop),
        }
    }
}

/// The table of units by their heads alone: the place of the next one.
#[derive(Drop)]
pub struct HeadTable {
    pub place: u64,
}

impl Units for HeadTable {
    type Reason = Reason;

    type Past = u64;

    type Made = ParseInfo;

    ghost grammar = { heads };

    ghost past = { λ table. table.place };

    ghost beyond = { reasons.StreamTooLong };

    fn is_short(reason: Reason) -> bool {
        reason.is_truncated()
    }

    fn too_long() -> Reason {
        Reason::StreamTooLong
    }

    ghost laws = { heads_laws };

    ghost along = { λ place unit bytes. refl };
}

impl Table for HeadTable {
    type Found = ParseInfo;

    type Item = ParseInfo;

    ghost is_found = { λ before now found unit bytes. unit ≡ found };

    ghost tells = { λ before behind unit bytes item. item ≡ unit };

    ghost stopped = { λ before now held0 rest0 held stop. length held ≤ 8192 };

    ghost stops_before = { λ table held0 rest0 held stop few. few_held held few };

    ghost stops_otherwise = { λ before now held0 rest0 held refusal stop h. h };

    ghost stops_behind = { λ before now found unit bytes held0 rest0 held stop is final few. few_held held few };

    fn place(&self) -> u64 {
        self.place
    }

    fn rests(&self) -> bool {
        true
    }

    fn behind(&self, _found: &ParseInfo) -> After {
        After::Inner
    }

    fn unit<S: Source>(
        &mut self,
        window: &mut Window,
        src: &mut S,
    ) -> Result<ParseInfo, ReadStop<Reason>> {
        let info = match head(window, src, self.place) {
            Ok(info) => info,
            Err(stop) => return Err(stop),
        };
        match window.skip(src, payload_length(&info) as u64) {
            Ok(true) => Ok(info),
            Ok(false) => Err(refused(self.place + 13, Reason::Truncated)),
            Err(halt) => Err(stop_of(halt)),
        }
    }

    fn step(&mut self, found: ParseInfo, size: u64) -> ParseInfo {
        self.place += size;
        found
    }
}
