//! Tests of streams, read from sources that give all they have, single bytes, or fail, in modules named by the crates
//! that they test. What is expected was worked out apart from the program.
#![tactic(auto)]

#[cfg(test)]
mod stream_cut_tests;
#[cfg(test)]
mod stream_units_tests;
#[cfg(test)]
mod told;
#[cfg(test)]
mod vc2_io_tests;
