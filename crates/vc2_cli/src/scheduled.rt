// The command `check` with a schedule.
ghost use Rattle.vc2_io.specs.declared.TheConstants.{READ_SIZE};
ghost use Rattle.std.specs.Prelude.{refl};
ghost use Rattle.stream_rows.specs.Units.{nothing_yet};
ghost use Rattle.run_theory.specs.Ran.{HaltHasCause};
ghost use Rattle.channel_schedule.specs.Rates.{IsSchedule};
ghost use Rattle.run_theory.specs.Runs.{change, Runs, Closes};
ghost use Rattle.vc2_cli.specs.Endings.{IsDone, MayEndOtherwise, replayed_close};
ghost use Rattle.unit_reader.specs.Soon.{Soon};
ghost use Rattle.vc2_cli.specs.Decode.{KeepsFew};
ghost use Rattle.vc2_cli.specs.Scheduled.{Replayed, nothing_replayed, replaying_any, replay_machine};

use crate::check::{last_count, pictures_told};
use crate::status::{Ending, Note};
use crate::texts::replayed_text;
use channel_schedule::{Outcome, Schedule, replay};
use run_theory::Halt;
use std::alloc::Global;
use stream_units::{Item, Reason, Refusal, StreamTable};
use unit_reader::{Reader, UnitCommand, run_units};
use vc2_io::{Sink, Source, write_whole};

// Writes the lines of a stream that is accepted.
fn accept<K: Sink>(
    alloc: Global,
    out: &mut K,
    pictures: u64,
    slices: u64,
    bytes: u64,
    outcome: Outcome,
) -> Result<Ending, Halt>
    ensures wrote { Closes (replayed_close pictures slices bytes outcome).ending
        (replayed_close pictures slices bytes outcome).last (K.written out.old)
        (K.written out.new) result }
    ensures cause { HaltHasCause 0 0 (K.faults out.old) (K.faults out.new) result }
{
    let lines = match replayed_text(alloc, pictures, slices, bytes, &outcome) {
        Ok(lines) => lines,
        Err(_) => return Err(Halt::NoMemory),
    };
    match write_whole(out, lines.as_bytes()) {
        Ok(()) => Ok(Ending::Scheduled(outcome)),
        Err(_) => Err(Halt::OutFault),
    }
}

/// The pictures and the slices of a stream so far, and the schedule.
#[derive(Drop)]
struct Replaying {
    alloc: Global,
    schedule: Schedule,
    pictures: u64,
    slices: u64,
    ghost lawful: { IsSchedule schedule },
}

impl UnitCommand<StreamTable> for Replaying {
    type Ending = Ending;

    ghost Own = { Replayed };

    ghost command = { replaying_any };

    ghost first = { nothing_yet };

    ghost own = { λ c t. record { schedule = c.schedule; pictures = c.pictures; slices = c.slices; shapes = t.shapes.units } };

    ghost start = { λ c. nothing_replayed c.schedule };

    ghost keeps = { λ c t. KeepsFew c.pictures c.slices t };

    ghost is_done = { IsDone };

    ghost refused_is_no_end = { λ z w fault done. done };

    ghost may_go_on = { MayEndOtherwise };

    fn open<K: Sink>(&mut self, _out: &mut K) -> Result<(), Halt> {
        Ok(())
    }

    fn turn<K: Sink>(&mut self, table: &StreamTable, item: Item, _out: &mut K) -> Result<(), Halt> {
        self.pictures += pictures_told(item);
        self.slices += u64::from(last_count(table));
        Ok(())
    }

    fn finish<K: Sink>(
        &mut self,
        table: &StreamTable,
        _item: Item,
        out: &mut K,
    ) -> Result<Ending, Halt> {
        let outcome = replay(table.shapes(), &self.schedule);
        accept(
            self.alloc,
            out,
            self.pictures,
            self.slices,
            table.earlier().place(),
            outcome,
        )
    }

    fn rest<K: Sink>(&mut self, _table: &StreamTable, _out: &mut K) -> Result<Ending, Halt> {
        // A stream ends with a unit, so this never comes.
        Ok(Ending::Done(Note::Nothing))
    }

    fn refuse<K: Sink>(
        &mut self,
        _table: &StreamTable,
        place: u64,
        reason: Reason,
        _out: &mut K,
    ) -> Result<Ending, Halt> {
        Ok(Ending::Refused(Refusal { place, reason }))
    }

    ghost begins = { refl };

    ghost opens = { record { finished = λ z w unit bytes. tt; rested = λ z w. tt; refused = λ z w fault short. short } };
}

/// Reads the whole stream, replays the schedule over its slices, and writes how many pictures, slices and bytes it has,
/// and whether the schedule runs.
pub(crate) fn check_schedule<S: Source, K: Sink>(
    alloc: Global,
    schedule: Schedule,
    src: &mut S,
    out: &mut K,
) -> Result<Ending, Halt>
    requires { IsSchedule schedule }
    ensures runs { Runs (replay_machine schedule) IsDone (change S.rest S.faults src.old src.new)
        (change K.written K.faults out.old out.new) result }
    ensures soon { Soon MayEndOtherwise (replay_machine schedule) READ_SIZE (S.rest src.old)
        (S.rest src.new) result }
{
    match Reader::made(alloc, StreamTable::new(alloc, false)) {
        Ok(mut reader) => {
            let mut command = Replaying {
                alloc,
                schedule,
                pictures: 0,
                slices: 0,
            };
            let result = run_units(&mut reader, &mut command, src, out);
            drop(reader);
            result
        }
        Err(_) => Err(Halt::NoMemory),
    }
}
