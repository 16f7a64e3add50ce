//! The top call, as rows of data are put to it.
use cd_base::memory_files::MemoryFiles;
use cd_base::memory_sink::MemorySink;
use cd_base::status::Status;
use cd_driver::{cduce, place};
use cd_trials::top_call::TopCall;
use std::alloc::Global;

/// The top call of this repository.
pub(crate) struct Cduce;

impl TopCall for Cduce {
    fn call(
        &self,
        alloc: Global,
        words: &[String],
        files: &mut MemoryFiles,
        out: &mut MemorySink,
        err: &mut MemorySink,
    ) -> Status {
        cduce(alloc, words, files, out, err)
    }

    fn place(&self, text: &str, at: usize) -> (usize, usize) {
        place(text, at)
    }
}
