//! The calls that rows are put to.
use cd_base::memory_files::MemoryFiles;
use cd_base::memory_sink::MemorySink;
use cd_base::status::Status;
use std::alloc::Global;

/// A program that rows are put to.
pub trait TopCall {
    /// Does what the words ask, which are the program's arguments without its name, with an answer
    /// on `out` or `err`, and gives the status that the program ends with.
    fn call(
        &self,
        alloc: Global,
        words: &[String],
        files: &mut MemoryFiles,
        out: &mut MemorySink,
        err: &mut MemorySink,
    ) -> Status;

    /// The line and the column of a byte of a text, as the program's messages name them.
    fn place(&self, text: &str, at: usize) -> (usize, usize);
}
