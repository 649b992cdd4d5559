// Runs over a source and sinks in memory, whose calls may be small and may fail.
use crate::hexadecimal::bytes_of;
use crate::words::words_of;
use std::alloc::{AllocError, Global};
use std::process::Abort;
use std::test::Fail;
use vc2_cli::{Status, run};
use vc2_io::{MemSink, MemSource, NoMemory};

/// The smallest stream: a header unit, a picture unit and an end unit.
pub(crate) const SMALLEST: &[u8] = b"BBCD\x00\x00\x00\x00\x11\x00\x00\x00\x00\x3F\x27\x42\x4A\
    BBCD\xC8\x00\x00\x00\x15\x00\x00\x00\x11\x00\x00\x00\x00\x0C\x92\x70\x01\
    BBCD\x10\x00\x00\x00\x00\x00\x00\x00\x15";

/// Its picture.
pub(crate) const PICTURE: &[u8] = b"\x80\x80\x80";

/// How the ends of a run behave: how much each read gives, how much a write takes at most where that isn't 0, and the number
/// of the call that fails, of the input, the output and the note.
#[derive(Clone, Copy)]
pub(crate) struct Ends<'a> {
    pub pieces: &'a [usize],
    pub most: usize,
    pub read: u64,
    pub out: u64,
    pub note: u64,
}

/// Ends that give and take all at once, whose calls don't fail.
pub(crate) const WHOLE: Ends<'static> = Ends {
    pieces: &[],
    most: 0,
    read: u64::MAX,
    out: u64::MAX,
    note: u64::MAX,
};

// Reads of one byte, more of them than any of the inputs that are read so has.
const ONE_EACH: [usize; 4000] = [1; 4000];

/// Ends that give one byte a read.
pub(crate) const BY_BYTES: Ends<'static> = Ends {
    pieces: &ONE_EACH,
    ..WHOLE
};

/// Ends that give and take one byte a call.
pub(crate) const SLOW: Ends<'static> = Ends {
    most: 1,
    ..BY_BYTES
};

/// What a run writes to.
#[derive(Drop)]
pub(crate) struct Sinks {
    pub out: MemSink,
    pub note: MemSink,
}

impl Sinks {
    /// Sinks with room for so many bytes of output.
    pub(crate) fn with_room(alloc: Global, room: usize, ends: &Ends) -> Result<Sinks, NoMemory> {
        let never = u64::MAX;
        let out = MemSink::new(alloc, room, ends.most, &[ends.out, never, never, never])?;
        let note = MemSink::new(alloc, 1000, ends.most, &[ends.note, never, never, never])?;
        Ok(Sinks { out, note })
    }

    /// Sinks with room for what most of the tests write.
    pub(crate) fn new(alloc: Global, ends: &Ends) -> Result<Sinks, NoMemory> {
        Sinks::with_room(alloc, 30000, ends)
    }
}

/// Runs a command over a source.
pub(crate) fn run_over(
    alloc: Global,
    words: &str,
    src: &mut MemSource,
    sinks: &mut Sinks,
) -> Result<Status, AllocError> {
    let words = words_of(alloc, words)?;
    Ok(run(alloc, &words, src, &mut sinks.out, &mut sinks.note))
}

/// Runs a command over an input.
pub(crate) fn run_bytes(
    alloc: Global,
    words: &str,
    input: &[u8],
    ends: &Ends,
    sinks: &mut Sinks,
) -> Result<Status, AllocError> {
    let failing = [ends.read];
    let mut src = MemSource::new(input, ends.pieces, &failing);
    run_over(alloc, words, &mut src, sinks)
}

/// Runs a command over an input in hexadecimal.
pub(crate) fn run_digits(
    alloc: Global,
    words: &str,
    digits: &str,
    ends: &Ends,
    sinks: &mut Sinks,
) -> Result<Status, AllocError> {
    let input = bytes_of(alloc, digits)?;
    run_bytes(alloc, words, input.as_slice(), ends, sinks)
}

/// What a run comes to: its status, and what it writes.
#[derive(Clone, Copy)]
pub(crate) struct Outcome<'a> {
    pub status: Status,
    pub out: &'a [u8],
    pub note: &'a [u8],
}

// Asserts the status of a run, and what it wrote.
fn assert_outcome(rt: &impl Abort, words: &str, status: Status, sinks: &Sinks, outcome: &Outcome) {
    assert_eq!(rt;
        (status, sinks.out.bytes(), sinks.note.bytes()),
        (outcome.status, outcome.out, outcome.note),
        "{words}"
    );
}

/// Asserts what a run over a source comes to.
pub(crate) fn check_source(
    rt: &impl Abort,
    alloc: Global,
    words: &str,
    src: &mut MemSource,
    ends: &Ends,
    outcome: &Outcome,
) -> Result<(), Fail> {
    let mut sinks = Sinks::new(alloc, ends)?;
    let status = run_over(alloc, words, src, &mut sinks)?;
    assert_outcome(rt, words, status, &sinks, outcome);
    Ok(())
}

/// Asserts what a run over an input comes to.
pub(crate) fn check_run(
    rt: &impl Abort,
    alloc: Global,
    words: &str,
    input: &[u8],
    ends: &Ends,
    outcome: &Outcome,
) -> Result<(), Fail> {
    let failing = [ends.read];
    let mut src = MemSource::new(input, ends.pieces, &failing);
    check_source(rt, alloc, words, &mut src, ends, outcome)
}
