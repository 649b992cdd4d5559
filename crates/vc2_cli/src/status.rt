// How the program ends, and why.
ghost use Rattle.std.specs.Prelude.{◌≡◌};
ghost use Rattle.vc2_cli.specs.Exit.{exit_code_of};

use channel_schedule::{Outcome, Schedule};
use stream_units::Refusal;
use vc2_words::WordFault;

/// What a command that is done has to tell.
#[derive(Clone, Copy, Debug, PartialEq, Eq)]
pub enum Note {
    /// There is no more to tell.
    Nothing,
    /// The pictures of a stream were written.
    Decoded { pictures: u64, bytes: u64 },
    /// The frames of a stream were written.
    Framed { frames: u64, bytes: u64 },
    /// A stream was written, of raw video or of another stream; with this schedule it runs.
    Encoded(Schedule),
}

/// How a command ends where nothing outside fails.
#[derive(Clone, Copy, Debug, PartialEq, Eq)]
pub enum Ending {
    /// All is done, with this note.
    Done(Note),
    /// The input is a stream, and a schedule was replayed over it.
    Scheduled(Outcome),
    /// The input is refused.
    Refused(Refusal),
}

/// Why a schedule does not run: the slot in which a slice is taken, and bytes.
#[derive(Clone, Copy, Debug, PartialEq, Eq)]
pub enum ScheduleFault {
    /// The slice has not arrived: `have` bytes have, and `need` are wanted.
    Late { slot: u128, have: u64, need: u64 },
    /// More bytes are held than there is room for.
    Overfull { slot: u128, fill: u64, size: u64 },
}

/// How the program ends.
#[derive(Clone, Copy, Debug, PartialEq, Eq)]
pub enum Status {
    /// The words and the input are valid, and all was written.
    Done,
    /// The input is refused.
    Refused(Refusal),
    /// The input is a stream, and the schedule does not run.
    Schedule(ScheduleFault),
    /// The words are refused.
    Usage(WordFault),
    /// A read of the input failed.
    ReadFault,
    /// A write of the output failed.
    OutFault,
    /// A write of the note failed.
    NoteFault,
    /// No memory was found.
    NoMemory,
}

/// The exit status by which the program tells its status.
pub fn exit_code(status: &Status) -> u8
    ensures { result ≡ exit_code_of status.now }
{
    match status {
        Status::Done => 0,
        Status::Refused(_) | Status::Schedule(_) => 1,
        Status::Usage(_) => 2,
        Status::ReadFault => 3,
        Status::OutFault | Status::NoteFault => 4,
        Status::NoMemory => 5,
    }
}
