//! Cutting a stream without decoding it.
#![tactic(auto)]

mod cutter;
mod laws;
mod opening;
mod skim_reader;
mod table;

pub use cutter::{CutStop, Cutter};
pub use laws::{
    cuts_by_running, cuts_by_sequences, cuts_to_streams, one_skim_answer, skims_to_the_same,
};
pub use skim_reader::SkimReader;
pub use table::SkimItem;
