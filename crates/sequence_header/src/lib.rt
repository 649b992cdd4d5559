//! The sequence header of a stream: its fields are read, checked and written, and give the shape of
//! its pictures.
//!
//! The table of its rows stands in `specs/Header.antt`. The profile is low delay with base video
//! format 0, so size, sampling, frame rate and signal range are carried in the header; pixel aspect,
//! clean area, colour specification, scan and level are carried and not used.
#![tactic(auto)]

mod checking;
mod coding;
mod fields;
mod header;
mod lengths;
mod parts;
mod reading;
mod rules;
mod writing;

pub use header::SequenceHeader;
pub use parts::{
    AspectField, CleanArea, ColourField, FieldName, HeaderFault, HeaderParts, HeaderReason,
    RateField, SignalField, SignalRange,
};
