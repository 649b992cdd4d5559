// The top call.
ghost use Rattle.vc2_io.specs.declared.TheConstants.{INPUT_LIMIT};
ghost use Rattle.std.specs.Prelude.{◌≡◌, ◌+◌, ℕ, List, map, string_bytes, Ok, Some, IfOk, IfErr};
ghost use Rattle.run_theory.specs.Ran.{TakesAtMost};
ghost use Rattle.channel_schedule.specs.declared.schedule.Schedule.{Schedule};
ghost use Rattle.channel_schedule.specs.Rates.{IsSchedule};
ghost use Rattle.vc2_words.specs.Commands as asked;
ghost use Rattle.vc2_words.specs.Commands.{command_seen};
ghost use Rattle.vc2_words.specs.Settings.{Asked};
ghost use Rattle.vc2_words.specs.declared.words.TrialPart.{TrialPart};
ghost use Rattle.vc2_words.specs.declared.settings.CutSettings.{CutSettings};
ghost use Rattle.vc2_words.specs.declared.settings.FieldVideo.{FieldVideo};
ghost use Rattle.vc2_words.specs.Lawful.{AreLawfulWords, IsTrial, IsFieldVideo, IsCutSettings};
ghost use Rattle.stream_writer.specs.Writer.{IsSteepOkUnder};
ghost use Rattle.vc2_cli.specs.Encode.{written_under};
ghost use Rattle.vc2_cli.specs.Words.{seen_words};
ghost use Rattle.vc2_cli.specs.Trial.{trial_text};
ghost use Rattle.run_theory.specs.Runs.{change};
ghost use Rattle.vc2_cli.specs.Program.{ProgramRan};
ghost use Rattle.vc2_cli.specs.Reply.{command_reply, command_due, status_of, note_line, note_of, fault_of, schedule_status, schedule_note, HasCauses, AnswersUsage, AnswersTrial, IfTrial, IfHeader};
ghost use Rattle.vc2_cli.specs.Soon.{StopsSoon, IfReads};
ghost use Rattle.vc2_cli.specs.RunsAs.{Does};
ghost use Rattle.vc2_cli.specs.Settled.{Settles, Concludes, HasNoteCause, status_of_halt};

use crate::chain::chain;
use crate::check::check;
use crate::cut::cut;
use crate::decode::decode;
use crate::encode::encode;
use crate::frames::frames;
use crate::header::header;
use crate::proxy::proxy;
use crate::scheduled::check_schedule;
use crate::status::{Ending, Note, ScheduleFault, Status};
use crate::texts::{
    decoded_text, fault_text, framed_text, refusal_text, schedule_text, usage_text,
};
use crate::trial::trial;
use crate::weave::{split, weave};
use crate::words::checked;
use channel_schedule::Outcome;
use run_theory::Halt;
use std::alloc::{AllocError, Global};
use vc2_io::{Sink, Source, write_whole};
use vc2_words::{Command, WordFault, read_words};

fn status_of_halt(halt: Halt) -> Status
    ensures { result ≡ status_of_halt halt }
{
    match halt {
        Halt::ReadFault => Status::ReadFault,
        Halt::OutFault => Status::OutFault,
        Halt::NoMemory => Status::NoMemory,
    }
}

// Why a schedule does not run.
fn fault_of(outcome: Outcome) -> Option<ScheduleFault>
    ensures { result ≡ fault_of outcome }
{
    match outcome {
        Outcome::Runs => None,
        Outcome::Late { slot, have, need } => Some(ScheduleFault::Late { slot, have, need }),
        Outcome::Overfull { slot, fill, size } => Some(ScheduleFault::Overfull {
            slot,
            fill,
            size,
        }),
    }
}

fn schedule_status(outcome: Outcome) -> Status
    ensures { result ≡ schedule_status (fault_of outcome) }
{
    match fault_of(outcome) {
        None => Status::Done,
        Some(fault) => Status::Schedule(fault),
    }
}

fn schedule_note(alloc: Global, outcome: Outcome) -> Result<String, AllocError>
    ensures { IfOk result (λ text. string_bytes text ≡ schedule_note (fault_of outcome)) }
{
    match fault_of(outcome) {
        None => Ok(String::new(alloc)),
        Some(fault) => fault_text(alloc, &fault),
    }
}

fn status_of(ending: Ending) -> Status
    ensures { result ≡ status_of ending }
{
    match ending {
        Ending::Done(_) => Status::Done,
        Ending::Scheduled(outcome) => schedule_status(outcome),
        Ending::Refused(refusal) => Status::Refused(refusal),
    }
}

// The text of a note.
fn note_line(alloc: Global, note: &Note) -> Result<String, AllocError>
    ensures { IfOk result (λ text. string_bytes text ≡ note_line note.now) }
{
    match note {
        Note::Nothing => Ok(String::new(alloc)),
        Note::Decoded { pictures, bytes } => decoded_text(alloc, *pictures, *bytes),
        Note::Framed { frames, bytes } => framed_text(alloc, *frames, *bytes),
        Note::Encoded(schedule) => schedule_text(alloc, schedule),
    }
}

fn note_text(alloc: Global, ending: &Ending) -> Result<String, AllocError>
    ensures { IfOk result (λ text. string_bytes text ≡ note_of ending.now) }
{
    match ending {
        Ending::Done(note) => note_line(alloc, note),
        Ending::Scheduled(outcome) => schedule_note(alloc, *outcome),
        Ending::Refused(refusal) => refusal_text(alloc, refusal),
    }
}

// Tells how a command came out: writes the note of its ending, and gives the status.
fn conclude<N: Sink>(alloc: Global, outcome: Result<Ending, Halt>, note: &mut N) -> Status
    ensures told { Concludes outcome (N.written note.old) (N.written note.new) result }
    ensures cause { HasNoteCause (N.faults note.old) (N.faults note.new) result }
{
    let ending = match outcome {
        Ok(ending) => ending,
        Err(halt) => return status_of_halt(halt),
    };
    let text = match note_text(alloc, &ending) {
        Ok(text) => text,
        Err(_) => return Status::NoMemory,
    };
    match write_whole(note, text.as_bytes()) {
        Ok(()) => status_of(ending),
        Err(_) => Status::NoteFault,
    }
}

// Tells the fault of the words.
fn refuse<N: Sink>(alloc: Global, fault: WordFault, note: &mut N) -> Status
    ensures told { AnswersUsage fault (N.written note.old) (N.written note.new) result }
    ensures cause { HasNoteCause (N.faults note.old) (N.faults note.new) result }
{
    let text = match usage_text(alloc, &fault) {
        Ok(text) => text,
        Err(_) => return Status::NoMemory,
    };
    match write_whole(note, text.as_bytes()) {
        Ok(()) => Status::Usage(fault),
        Err(_) => Status::NoteFault,
    }
}

// Does what the command is. Each command has its arm here, and its line in the table `running_of` (specs/Running).
fn perform<S: Source, K: Sink>(
    alloc: Global,
    command: Command,
    src: &mut S,
    out: &mut K,
) -> Result<Ending, Halt>
    requires schedule { (schedule : Schedule) → command_seen command ≡ asked.check (Some schedule)
        → IsSchedule schedule }
    requires settings { (s : Asked) → command_seen command ≡ asked.encode s → AreLawfulWords s
        × IsSteepOkUnder (written_under s) }
    requires trial { (s : Asked) (part : TrialPart) → command_seen command ≡ asked.trial s part
        → IsTrial s part × IsSteepOkUnder (written_under s) }
    requires weave { (video : FieldVideo) → command_seen command ≡ asked.weave video
        → IsFieldVideo video }
    requires split { (video : FieldVideo) → command_seen command ≡ asked.split video
        → IsFieldVideo video }
    requires cut { (settings : CutSettings) → command_seen command ≡ asked.cut settings
        → IsCutSettings settings }
    ensures { Does (command_seen command) (change S.rest S.faults src.old src.new)
        (change K.written K.faults out.old out.new) result }
{
    match command {
        Command::Chain => chain(alloc, src, out),
        Command::Header => header(alloc, src, out),
        Command::Decode => decode(alloc, src, out),
        Command::Check(schedule) => match schedule {
            None => check(alloc, src, out),
            Some(schedule) => check_schedule(alloc, schedule, src, out),
        },
        Command::Proxy(level) => proxy(alloc, level, src, out),
        Command::Encode(settings) => encode(alloc, &settings, src, out),
        Command::Trial(settings, part) => trial(alloc, &settings, part, out),
        Command::Frames(top) => frames(alloc, top, src, out),
        Command::Weave(video) => weave(alloc, &video, src, out),
        Command::Split(video) => split(alloc, &video, src, out),
        Command::Cut(settings) => cut(alloc, &settings, src, out),
    }
}

// Does what the command is and tells how it came out, or tells the fault of the words.
fn answer<S: Source, K: Sink, N: Sink>(
    alloc: Global,
    command: Result<Command, WordFault>,
    src: &mut S,
    out: &mut K,
    note: &mut N,
) -> Status
    requires schedule { (schedule : Schedule)
        → seen_words command ≡ Ok (asked.check (Some schedule)) → IsSchedule schedule }
    requires settings { (s : Asked) → seen_words command ≡ Ok (asked.encode s) → AreLawfulWords s
        × IsSteepOkUnder (written_under s) }
    requires trial { (s : Asked) (part : TrialPart) → seen_words command ≡ Ok (asked.trial s part)
        → IsTrial s part × IsSteepOkUnder (written_under s) }
    requires weave { (video : FieldVideo) → seen_words command ≡ Ok (asked.weave video)
        → IsFieldVideo video }
    requires split { (video : FieldVideo) → seen_words command ≡ Ok (asked.split video)
        → IsFieldVideo video }
    requires cut { (settings : CutSettings) → seen_words command ≡ Ok (asked.cut settings)
        → IsCutSettings settings }
    ensures settled { (input : List ℕ) → S.rest src.old ≡ Some input →
        Settles (command_reply (seen_words command) input) (command_due (seen_words command)) input
        (S.rest src.new)
        (K.written out.old) (K.written out.new) (N.written note.old) (N.written note.new) result }
    ensures limit { TakesAtMost (INPUT_LIMIT + 1) (S.rest src.old) (S.rest src.new) }
    ensures causes { HasCauses (change S.rest S.faults src.old src.new)
        (change K.written K.faults out.old out.new)
        (change N.written N.faults note.old note.new) result }
    ensures usage { IfErr command (λ fault. AnswersUsage fault (N.written note.old)
        (N.written note.new) result
        × (S.rest src.new ≡ S.rest src.old) × (K.written out.new ≡ K.written out.old)) }
    ensures trial { IfTrial (seen_words command)
        (λ s part. AnswersTrial (trial_text s part) (K.written out.old) (K.written out.new)
        (N.written note.old) (N.written note.new) result
        × (S.rest src.new ≡ S.rest src.old) × (S.faults src.new ≡ S.faults src.old)) }
    ensures header { IfHeader (seen_words command)
        (TakesAtMost 250 (S.rest src.old) (S.rest src.new)) }
    ensures soon { (input : List ℕ) → S.rest src.old ≡ Some input
        → IfReads (seen_words command) (λ stops.
        StopsSoon (command_reply (seen_words command)) stops input (S.rest src.new) result) }
{
    match command {
        Ok(command) => conclude(alloc, perform(alloc, command, src, out), note),
        Err(fault) => refuse(alloc, fault, note),
    }
}

/// Does what the words ask for: reads the input from `src`, writes to `out`, and at last to `note`. `words` are the words
/// after the program's name. Work goes on unit by unit, and what is due is written before the next read.
///
/// What a run comes to is the record `ProgramRan` (specs/Program), clause by clause.
pub fn run<S: Source, K: Sink, N: Sink>(
    alloc: Global,
    words: &[String],
    src: &mut S,
    out: &mut K,
    note: &mut N,
) -> Status
    ensures { ProgramRan (map string_bytes words.now) (change S.rest S.faults src.old src.new)
        (change K.written K.faults out.old out.new)
        (change N.written N.faults note.old note.new) result }
{
    let command = checked(read_words(words));
    answer(alloc, command, src, out, note)
}
