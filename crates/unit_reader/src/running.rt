//! A command over the units of a table, turn by turn.

ghost use Rattle.vc2_io.specs.declared.TheConstants.{READ_SIZE};
ghost use Rattle.std.specs.Prelude.{◌≡◌, ◌/◌, ℕ, List, Option, true, OnOk};
ghost use Rattle.field_rows.specs.Rows.{Fault};
ghost use Rattle.run_theory.specs.Ran.{HaltHasCause};
ghost use Rattle.run_theory.specs.Runs.{change, Runs, WritesText, Closes};
ghost use Rattle.run_theory.specs.Grammar.{Final};
ghost use Rattle.run_theory.specs.Fronts.{Command};
ghost use Rattle.unit_reader.specs.declared.stop.ReadStop.TheVariants as stops;
ghost use Rattle.unit_reader.specs.Reading.{new_reader};
ghost use Rattle.unit_reader.specs.Soon.{Soon, HasOpenEndings};
ghost use Rattle.unit_reader.specs.Running.{command_from, machine_over, Passes, Turns};

use crate::reader::{Reader, Turn};
use crate::stop::ReadStop;
use crate::table::Table;
use run_theory::Halt;
use vc2_io::{Sink, Source};

/// A command, by what it writes for each unit and at the end.
pub trait UnitCommand<T: Table>: Drop {
    /// How it ends where nothing outside fails.
    type Ending: Drop;

    ghost Own: { Type 0 };

    ghost command: { Command T.Past T.Reason T.Made Own Self.Ending };

    /// What there is before the first unit.
    ghost first: { T.Past };

    /// What the units so far leave to the command, as it and the table show.
    ghost own: { Self → T → Own };

    /// What it begins with, which may hold what it was asked for.
    ghost start: { Self → Own };

    /// What is true of it beside a table behind the units so far.
    ghost keeps: { Self → T → Type 0 };

    /// All is done, and the input was read to its end.
    ghost is_done: { Self.Ending → Type 0 };

    ghost refused_is_no_end: { (z : T.Past) (w : Own) (fault : Fault T.Reason) → is_done ((command).refused z w fault).ending → ⊥ };

    /// More bytes may still change this ending.
    ghost may_go_on: { Self.Ending → Type 0 };

    /// Writes the text before any read.
    fn open<K: Sink>(&mut self, out: &mut K) -> Result<(), Halt>
        ensures wrote { WritesText (command).opening (K.written out.old)
            (K.written out.new) result }
        ensures own { self.new ≡ self.old }
        ensures cause { HaltHasCause 0 0 (K.faults out.old) (K.faults out.new) result };

    /// Writes the text of a unit, behind which the table is.
    fn turn<K: Sink>(&mut self, table: &T, item: T::Item, out: &mut K) -> Result<(), Halt>
        requires { (before : T) × Passes T.grammar T.beyond T.past T.tells before table.now item
            × keeps self.old before }
        ensures wrote { (before : T) (p : Passes T.grammar T.beyond T.past T.tells before table.now
            item) → keeps self.old before
            → Turns (command) (T.past before) p.unit p.bytes (own self.old before)
            (own self.new table.now) (K.written out.old) (K.written out.new) result }
        ensures keeps { (before : T)
            → Passes T.grammar T.beyond T.past T.tells before table.now item
            → keeps self.old before → OnOk result (keeps self.new table.now) }
        ensures cause { HaltHasCause 0 0 (K.faults out.old) (K.faults out.new) result };

    /// Ends behind the last unit, behind which the table is.
    fn finish<K: Sink>(
        &mut self,
        table: &T,
        item: T::Item,
        out: &mut K,
    ) -> Result<Self::Ending, Halt>
        requires { (before : T) × Passes T.grammar T.beyond T.past T.tells before table.now item
            × keeps self.old before }
        ensures wrote { (before : T) (p : Passes T.grammar T.beyond T.past T.tells before table.now
            item) → keeps self.old before → (T.grammar).behind p.unit ≡ Final
            → let close = (command).finished (T.past before) (own self.old before) p.unit p.bytes in
            Closes close.ending close.last (K.written out.old) (K.written out.new) result }
        ensures cause { HaltHasCause 0 0 (K.faults out.old) (K.faults out.new) result };

    /// Ends where the input is over before a unit.
    fn rest<K: Sink>(&mut self, table: &T, out: &mut K) -> Result<Self::Ending, Halt>
        ensures wrote { (before : T) → T.past table.now ≡ T.past before
            → (T.grammar).rests (T.past before) ≡ true → keeps self.old before
            → let close = (command).rested (T.past before) (own self.old before) in
            Closes close.ending close.last (K.written out.old) (K.written out.new) result }
        ensures cause { HaltHasCause 0 0 (K.faults out.old) (K.faults out.new) result };

    /// Ends where the input is refused, at this place and for this reason.
    fn refuse<K: Sink>(
        &mut self,
        table: &T,
        place: u64,
        reason: T::Reason,
        out: &mut K,
    ) -> Result<Self::Ending, Halt>
        ensures wrote { (before : T) (held0 held1 : List ℕ) (rest0 : Option (List ℕ))
            (fault : Fault T.Reason) → place ≡ fault.place / 8 → reason ≡ fault.reason
            → T.stopped before table.now held0 rest0 held1
            (stops.Refused (record { place = place; reason = reason }))
            → T.past table.now ≡ T.past before → keeps self.old before
            → let close = (command).refused (T.past before) (own self.old before) fault in
            Closes close.ending close.last (K.written out.old) (K.written out.new) result }
        ensures cause { HaltHasCause 0 0 (K.faults out.old) (K.faults out.new) result };

    ghost begins: { (T.grammar).place first ≡ 0 };

    /// An ending behind the last unit, at rest, or at a short field may still change.
    ghost opens: { HasOpenEndings T.grammar may_go_on command };
}

/// Goes through the units of a new reader.
pub fn run_units<T: Table, C: UnitCommand<T>, S: Source, K: Sink>(
    reader: &mut Reader<T>,
    command: &mut C,
    src: &mut S,
    out: &mut K,
) -> Result<C::Ending, Halt>
    requires new { reader.old ≡ new_reader reader.old.table }
    requires first { T.past reader.old.table ≡ C.first }
    requires start { C.own command.old reader.old.table ≡ C.start command.old }
    requires keeps { C.keeps command.old reader.old.table }
    ensures runs { Runs (machine_over T.grammar T.beyond C.first
        (command_from C.command (C.start command.old))) C.is_done
        (change S.rest S.faults src.old src.new)
        (change K.written K.faults out.old out.new) result }
    ensures soon { Soon C.may_go_on (machine_over T.grammar T.beyond C.first
        (command_from C.command (C.start command.old))) READ_SIZE (S.rest src.old)
        (S.rest src.new) result }
{
    match command.open(out) {
        Ok(()) => {}
        Err(halt) => return Err(halt),
    }
    loop {
        let turn = match reader.next(src) {
            Ok(turn) => turn,
            Err(stop) => {
                let refusal = match stop {
                    ReadStop::Refused(refusal) => refusal,
                    ReadStop::ReadFault => return Err(Halt::ReadFault),
                    ReadStop::NoMemory => return Err(Halt::NoMemory),
                };
                return command.refuse(reader.table(), refusal.place, refusal.reason, out);
            }
        };
        let item = match turn {
            Turn::Unit(item) => item,
            Turn::Last(item) => return command.finish(reader.table(), item, out),
            Turn::Rest => return command.rest(reader.table(), out),
        };
        match command.turn(reader.table(), item, out) {
            Ok(()) => {}
            Err(halt) => return Err(halt),
        }
    }
}
