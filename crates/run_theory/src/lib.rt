//! Theory alone: what a run over a source and a sink means, said once for all commands, and how a command goes over a stream
//! by the table of its units.
//!
//! A command goes through its input unit by unit. `specs/Walk` has the machine of its steps, its answer and what is due for
//! the bytes that were taken; `specs/Ran` and `specs/Runs` have what a run leaves; `specs/Window` the same between two units, of
//! a command that holds bytes; `specs/UnitRuns` the answer as a relation. `specs/Grammar` has a table of units, `specs/Fronts`
//! the machine that a command over it is, `specs/Begun` and `specs/Turn` what a reader of units owes. The laws of `proofs/` hold
//! for every machine and every table.
#![tactic(auto)]

mod laws;
mod refusal;

pub use laws::{
    commands_are_machines, due_is_never_taken_back, each_input_is_one_run,
    refusals_stand_whatever_follows, settled_stays_settled, units_stand_whatever_follows,
};
pub use refusal::Refusal;

/// Why a command stopped before its input was over.
#[derive(Clone, Copy, Debug, PartialEq, Eq)]
pub enum Halt {
    /// A read failed.
    ReadFault,
    /// A write to the command's output failed.
    OutFault,
    /// No memory was found.
    NoMemory,
}
