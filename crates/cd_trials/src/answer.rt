//! Calls of the program, over files and streams in memory.
use crate::top_call::TopCall;
use cd_base::memory_files::MemoryFiles;
use cd_base::memory_sink::MemorySink;
use std::alloc::{AllocError, Global};

/// A status, and the texts on output and on errors.
#[derive(Drop, PartialEq)]
pub(crate) struct Answer {
    pub(crate) status: u64,
    pub(crate) out: String,
    pub(crate) err: String,
}

impl Answer {
    /// A text on output, with status 0.
    pub(crate) fn output(alloc: Global, out: String) -> Answer {
        Answer {
            status: 0,
            out,
            err: String::new(alloc),
        }
    }

    /// A text on errors, with this status.
    pub(crate) fn complaint(alloc: Global, status: u64, err: String) -> Answer {
        Answer {
            status,
            out: String::new(alloc),
            err,
        }
    }

    /// The element that is printed with a no.
    pub(crate) fn element(&self) -> Option<&str> {
        if self.status == 1 && self.err.is_empty() {
            self.out.as_str().strip_prefix("no: ")?.strip_suffix("\n")
        } else {
            None
        }
    }
}

/// What the program answers, if these puts fail, on output and on errors.
pub(crate) fn answer_to(
    alloc: Global,
    top: &impl TopCall,
    words: &[String],
    mut files: MemoryFiles,
    failing_puts: &[(u64, usize)],
) -> Result<Answer, AllocError> {
    let mut out = MemorySink::new(alloc, Vec::from_slice(alloc, failing_puts)?);
    let mut err = MemorySink::new(alloc, Vec::from_slice(alloc, failing_puts)?);
    let status = top.call(alloc, words, &mut files, &mut out, &mut err);
    Ok(Answer {
        status: u64::from(status.number()),
        out: String::from_utf8_lossy(alloc, out.bytes())?,
        err: String::from_utf8_lossy(alloc, err.bytes())?,
    })
}

/// The words and both answers, if the answers differ.
pub(crate) fn difference(
    alloc: Global,
    words: &[String],
    wanted: &Answer,
    came: &Answer,
) -> Result<Option<String>, AllocError> {
    if wanted == came {
        return Ok(None);
    }
    let mut text = String::new(alloc);
    for word in words {
        write!(text, " {:?}", word.as_str())?;
    }
    for (title, answer) in [("wanted", wanted), ("came", came)] {
        let (out, err) = (answer.out.as_str(), answer.err.as_str());
        write!(
            text,
            "\n  {title}: status {}, output {out:?}, errors {err:?}",
            answer.status
        )?;
    }
    Ok(Some(text))
}
