//! Worked rows as tables of tests on whole runs, streams of an independent writer, and ends that fail.
#![tactic(auto)]

#[cfg(test)]
mod chain_rows;
#[cfg(test)]
mod cut_again;
#[cfg(test)]
mod cut_rows;
#[cfg(test)]
mod cut_streams;
#[cfg(test)]
mod decode_rows;
#[cfg(test)]
mod encode_rows;
#[cfg(test)]
mod exits;
#[cfg(test)]
mod failing_reads;
#[cfg(test)]
mod failing_writes;
#[cfg(test)]
mod field_forms;
#[cfg(test)]
mod header_rows;
#[cfg(test)]
mod hexadecimal;
#[cfg(test)]
mod idle_rows;
#[cfg(test)]
mod large;
#[cfg(test)]
mod long;
#[cfg(test)]
mod many_sequences;
#[cfg(test)]
mod proxy_rows;
#[cfg(test)]
mod row;
#[cfg(test)]
mod runs;
#[cfg(test)]
mod schedule_rows;
#[cfg(test)]
mod sequence_rows;
#[cfg(test)]
mod stream_bytes;
#[cfg(test)]
mod streams;
#[cfg(test)]
mod texts;
#[cfg(test)]
mod there_and_back;
#[cfg(test)]
mod trial_rows;
#[cfg(test)]
mod weave_rows;
#[cfg(test)]
mod word_rows;
#[cfg(test)]
mod words;
