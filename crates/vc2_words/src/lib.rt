//! The words of the command line: a command, and its operands `key=value`.
#![tactic(auto)]

mod keys;
pub mod laws;
mod numbers;
mod operands;
mod settings;
mod values;
mod words;

pub use keys::{Key, Name, Rule, WordFault};
pub use settings::{CutSettings, FieldVideo, Settings, later_sequences};
pub use words::{Command, TrialPart, read_words};
