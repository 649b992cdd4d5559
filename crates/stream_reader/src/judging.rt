//! Bytes in memory, judged.

ghost use Rattle.std.specs.Prelude.{◌≡◌, ◌<◌, ℕ, slice_index, IfOk};
ghost use Rattle.stream_reader.specs.Reader.{new_reader};
ghost use Rattle.stream_reader.specs.Judging.{IsVerdict, IsStopVerdict};

use crate::checker::StreamChecker;
use crate::stop::ReadStop;
use planes::NoMemory;
use std::alloc::Global;
use stream_rows::Refusal;
use vc2_io::SteadySource;

/// What bytes are.
#[derive(Clone, Copy, Debug, PartialEq, Eq)]
pub enum Verdict {
    /// A stream.
    Stream,
    /// Refused as a stream.
    Refused(Refusal),
}

// The verdict where the reader stops. A source in memory has no failing reads.
fn stopped(stop: ReadStop) -> Result<Verdict, NoMemory>
    ensures { IfOk result (IsStopVerdict stop) }
{
    match stop {
        ReadStop::Refused(refusal) => Ok(Verdict::Refused(refusal)),
        ReadStop::ReadFault | ReadStop::NoMemory => Err(NoMemory),
    }
}

// The verdict of a new reader.
fn judge_units(reader: &mut StreamChecker, bytes: &[u8]) -> Result<Verdict, NoMemory>
    requires new { reader.old ≡ new_reader }
    requires bytes { (i : ℕ) → slice_index bytes.now i < 256 }
    ensures { IfOk result (IsVerdict bytes.now) }
{
    let mut src = SteadySource::new(bytes);
    loop {
        let item = match reader.next(&mut src) {
            Ok(item) => item,
            Err(stop) => return stopped(stop),
        };
        if item.is_end() {
            return Ok(Verdict::Stream);
        }
    }
}

/// Whether the bytes are a stream, or where and why they are refused. Its contract is the definition, which gives each
/// list of bytes exactly one of the two (`one_answer`).
pub fn judge(alloc: Global, bytes: &[u8]) -> Result<Verdict, NoMemory>
    ensures { IfOk result (IsVerdict bytes.now) }
{
    let mut reader = StreamChecker::new(alloc)?;
    let verdict = judge_units(&mut reader, bytes);
    drop(reader);
    verdict
}
