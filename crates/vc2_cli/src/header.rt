// The command `header`.
ghost use Rattle.std.specs.Prelude.{◌≡◌, List, ℕ, Some, IfOk};
ghost use Rattle.run_theory.specs.Ran.{Ran, TakesAtMost, HaltHasCause};
ghost use Rattle.vc2_cli.specs.Reply.{ReadsAll, status_of};
ghost use Rattle.vc2_cli.specs.First.{header_machine, behind_first};
ghost use Rattle.vc2_cli.specs.FirstTurn.{TookFirst};
ghost use Rattle.unit_reader.specs.Soon.{Soon};
ghost use Rattle.vc2_cli.specs.Endings.{MayEndOtherwise};

use crate::header_texts::header_text;
use crate::status::{Ending, Note};
use run_theory::Halt;
use sequence_header::SequenceHeader;
use std::alloc::Global;
use stream_units::{Refusal, first_unit};
use vc2_io::{Sink, Source, fill, write_whole};

// More bytes than any first unit has.
const MOST: usize = 250;

/// What stands in front of the source.
#[derive(Clone, Copy)]
pub(crate) enum First {
    Header(SequenceHeader),
    Refused(Refusal),
}

// Takes the first unit byte by byte, and no byte behind it.
fn take_first<S: Source>(alloc: Global, src: &mut S) -> Result<First, Halt>
    ensures took { TookFirst (S.rest src.old) (S.rest src.new) result }
    ensures cause { HaltHasCause (S.faults src.old) (S.faults src.new) 0 0 result }
    ensures soon { Soon MayEndOtherwise header_machine 1 (S.rest src.old) (S.rest src.new) result }
{
    let mut bytes = Vec::new(alloc);
    loop {
        let refusal = match first_unit(bytes.as_slice()) {
            Ok(unit) => return Ok(First::Header(unit.0)),
            Err(refusal) => refusal,
        };
        if !refusal.reason.is_truncated() {
            return Ok(First::Refused(refusal));
        }
        if bytes.len() >= MOST {
            return Err(Halt::NoMemory);
        }
        let mut byte = [0; 1];
        let count = match fill(src, &mut byte) {
            Ok(count) => count,
            Err(_) => return Err(Halt::ReadFault),
        };
        if count == 0 {
            return Ok(First::Refused(refusal));
        }
        match bytes.push(byte[0]) {
            Ok(()) => {}
            Err(_) => return Err(Halt::NoMemory),
        }
    }
}

/// Writes the nine lines of the first unit, a sequence header. What lies behind it is left.
pub(crate) fn header<S: Source, K: Sink>(
    alloc: Global,
    src: &mut S,
    out: &mut K,
) -> Result<Ending, Halt>
    ensures left { (input : List ℕ) → S.rest src.old ≡ Some input
        → IfOk result (λ ending. ReadsAll (status_of ending) → (more : List ℕ)
        → S.rest src.new ≡ Some more → more ≡ behind_first input) }
    ensures limit { TakesAtMost 250 (S.rest src.old) (S.rest src.new) }
    ensures ran { Ran header_machine (S.rest src.old) (S.rest src.new) (K.written out.old)
        (K.written out.new) result }
    ensures cause { HaltHasCause (S.faults src.old) (S.faults src.new) (K.faults out.old)
        (K.faults out.new) result }
    ensures soon { Soon MayEndOtherwise header_machine 1 (S.rest src.old) (S.rest src.new) result }
{
    let first = match take_first(alloc, src) {
        Ok(first) => first,
        Err(halt) => return Err(halt),
    };
    let header = match first {
        First::Header(header) => header,
        First::Refused(refusal) => return Ok(Ending::Refused(refusal)),
    };
    let text = match header_text(alloc, &header) {
        Ok(text) => text,
        Err(_) => return Err(Halt::NoMemory),
    };
    match write_whole(out, text.as_bytes()) {
        Ok(()) => Ok(Ending::Done(Note::Nothing)),
        Err(_) => Err(Halt::OutFault),
    }
}
