//! The channel schedule: how long a receiver waits before it takes the first slice, and how many bytes it holds.
//!
//! A channel gives bytes at a rate. In each slot one slice is taken, from the slot of the delay on; behind each picture
//! some slots may be idle, in which none is taken.
#![tactic(auto)]

mod arrivals;
mod fill;
mod laws;
mod lead;
mod planning;
mod replaying;
mod schedule;
mod slots;
mod stepped_quotient;

pub use laws::{
    each_has_one_outcome, each_has_one_plan, groups_are_known, pictures_are_known, plans_are_least,
    plans_replay,
};
pub use planning::plan;
pub use replaying::replay;
pub use schedule::{Outcome, Rate, Schedule};
