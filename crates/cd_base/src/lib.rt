//! The edge of the program: its statuses, and the files and sinks that it reads and writes.
#![tactic(auto)]

pub mod files;
pub mod memory_files;
pub mod memory_sink;
pub mod real_files;
pub mod real_sink;
pub mod sink;
pub mod status;
