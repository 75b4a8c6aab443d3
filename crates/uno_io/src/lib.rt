//! The outside as traits: where bytes come from and where they go, in memory and as the process has them.
#![tactic(auto)]

mod failed;
mod failing;
mod file_error;
mod files;
mod mem_files;
mod mem_sink;
mod mem_source;
mod sending;
mod sink;
mod sizes;
mod source;
mod std_files;
mod std_sink;
mod std_source;
mod writing;

pub use failed::Failed;
pub use file_error::FileError;
pub use files::Files;
pub use mem_files::{MemFile, MemFiles};
pub use mem_sink::MemSink;
pub use mem_source::MemSource;
pub use sink::Sink;
pub use source::Source;
pub use std_files::StdFiles;
pub use std_sink::StdSink;
pub use std_source::StdSource;
pub use writing::write_all;
