//! Streams: the readers that take their units from any source, the writer of them to any sink, and what a stream is.
#![tactic(auto)]

pub use stream_reader::{
    Earlier, First, Found, HeadReader, HeadTable, Item, ReadStop, Shown, StreamChecker, StreamPast,
    StreamReader, StreamTable, StreamUnit, Verdict, first_unit, header_reason, judge, leads_behind,
    read_head, transform_reason,
};
pub use stream_rows::{
    Reason, Refusal, no_field_is_short_in_many_bytes, no_more_units_than_bytes, one_answer,
    reading_is_the_relations, the_front_is_the_relation, units_stand_whatever_follows,
};
pub use stream_writer::{StreamWriter, WriteStop, encoding};
