//! Sources and sinks of the system.

mod failing_streams;
mod system_streams;
