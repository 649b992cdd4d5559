//! Streams read: readers of their units from any source.
#![tactic(auto)]

mod checker;
mod earlier;
mod head_reader;
mod head_units;
mod heads;
mod judging;
mod parts;
mod pictures;
mod reader;
mod steps;
mod stop;
mod table;
mod units;

pub use checker::StreamChecker;
pub use earlier::{Earlier, First};
pub use head_reader::HeadReader;
pub use head_units::HeadTable;
pub use heads::{first_unit, header_reason, leads_behind, read_head, transform_reason};
pub use judging::{Verdict, judge};
pub use parts::Found;
pub use pictures::Shown;
pub use reader::StreamReader;
pub use stop::{Item, ReadStop};
pub use stream_rows::{Reason, Refusal};
pub use table::{StreamPast, StreamTable, StreamUnit};
