// The command `check`.
ghost use Rattle.vc2_io.specs.declared.TheConstants.{READ_SIZE};
ghost use Rattle.std.specs.Prelude.{◌≡◌, refl};
ghost use Rattle.stream_rows.specs.Units.{nothing_yet};
ghost use Rattle.run_theory.specs.Ran.{HaltHasCause};
ghost use Rattle.run_theory.specs.Runs.{change, Runs, Closes};
ghost use Rattle.vc2_cli.specs.Endings.{IsDone, MayEndOtherwise, accepted_close};
ghost use Rattle.unit_reader.specs.Soon.{Soon};
ghost use Rattle.vc2_cli.specs.Decode.{Counts, nothing_counted, checking, check_machine, pictures_told, IsLastCount, KeepsFew};

use crate::status::{Ending, Note};
use crate::texts::accepted_text;
use run_theory::Halt;
use std::alloc::Global;
use stream_units::{Item, Reason, Refusal, StreamTable};
use unit_reader::{Reader, UnitCommand, run_units};
use vc2_io::{Sink, Source, write_whole};

// Writes the line of a stream that is accepted.
fn accept<K: Sink>(
    alloc: Global,
    out: &mut K,
    pictures: u64,
    slices: u64,
    bytes: u64,
) -> Result<Ending, Halt>
    ensures wrote { Closes (accepted_close pictures slices bytes).ending
        (accepted_close pictures slices bytes).last (K.written out.old) (K.written out.new) result }
    ensures cause { HaltHasCause 0 0 (K.faults out.old) (K.faults out.new) result }
{
    let line = match accepted_text(alloc, pictures, slices, bytes) {
        Ok(line) => line,
        Err(_) => return Err(Halt::NoMemory),
    };
    match write_whole(out, line.as_bytes()) {
        Ok(()) => Ok(Ending::Done(Note::Nothing)),
        Err(_) => Err(Halt::OutFault),
    }
}

// How many pictures the item tells.
pub(crate) fn pictures_told(item: Item) -> u64
    ensures { result ≡ pictures_told item }
{
    match item {
        Item::Picture(_) => 1,
        _ => 0,
    }
}

// The number of slices of the last unit.
pub(crate) fn last_count(table: &StreamTable) -> u32
    ensures { IsLastCount table.now.shapes.units result }
{
    let shapes = table.shapes();
    match shapes.len() {
        0 => 0,
        count => shapes.get(count - 1).slices,
    }
}

/// The pictures and the slices of a stream so far.
#[derive(Drop)]
struct Checking {
    alloc: Global,
    pictures: u64,
    slices: u64,
}

impl UnitCommand<StreamTable> for Checking {
    type Ending = Ending;

    ghost Own = { Counts };

    ghost command = { checking };

    ghost first = { nothing_yet };

    ghost own = { λ c t. record { pictures = c.pictures; slices = c.slices } };

    ghost start = { λ c. nothing_counted };

    ghost keeps = { λ c t. KeepsFew c.pictures c.slices t };

    ghost is_done = { IsDone };

    ghost refused_is_no_end = { λ z w fault done. done };

    ghost may_go_on = { MayEndOtherwise };

    fn open<K: Sink>(&mut self, _out: &mut K) -> Result<(), Halt> {
        Ok(())
    }

    fn turn<K: Sink>(&mut self, table: &StreamTable, item: Item, _out: &mut K) -> Result<(), Halt> {
        self.pictures += pictures_told(item);
        self.slices += u64::from(last_count(table));
        Ok(())
    }

    fn finish<K: Sink>(
        &mut self,
        table: &StreamTable,
        _item: Item,
        out: &mut K,
    ) -> Result<Ending, Halt> {
        accept(
            self.alloc,
            out,
            self.pictures,
            self.slices,
            table.earlier().place(),
        )
    }

    fn rest<K: Sink>(&mut self, _table: &StreamTable, _out: &mut K) -> Result<Ending, Halt> {
        // A stream ends with a unit, so this never comes.
        Ok(Ending::Done(Note::Nothing))
    }

    fn refuse<K: Sink>(
        &mut self,
        _table: &StreamTable,
        place: u64,
        reason: Reason,
        _out: &mut K,
    ) -> Result<Ending, Halt> {
        Ok(Ending::Refused(Refusal { place, reason }))
    }

    ghost begins = { refl };

    ghost opens = { record { finished = λ z w unit bytes. tt; rested = λ z w. tt; refused = λ z w fault short. short } };
}

/// Reads the whole stream, and writes how many pictures, slices and bytes it has.
pub(crate) fn check<S: Source, K: Sink>(
    alloc: Global,
    src: &mut S,
    out: &mut K,
) -> Result<Ending, Halt>
    ensures runs { Runs check_machine IsDone (change S.rest S.faults src.old src.new)
        (change K.written K.faults out.old out.new) result }
    ensures soon { Soon MayEndOtherwise check_machine READ_SIZE (S.rest src.old)
        (S.rest src.new) result }
{
    match Reader::made(alloc, StreamTable::new(alloc, false)) {
        Ok(mut reader) => {
            let mut command = Checking {
                alloc,
                pictures: 0,
                slices: 0,
            };
            let result = run_units(&mut reader, &mut command, src, out);
            drop(reader);
            result
        }
        Err(_) => Err(Halt::NoMemory),
    }
}
