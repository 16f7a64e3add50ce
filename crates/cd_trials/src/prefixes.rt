//! Whether a row is answered as it should be where a put of it fails, or a read.
use crate::answer::{Answer, answer_to, difference};
use crate::row::{files_of, words_of};
use crate::top_call::TopCall;
use crate::values::text;
use cd_base::memory_files::MemoryFiles;
use std::alloc::{AllocError, Global};
use toml::Table;

/// The bytes of the text of a row's answer.
pub(crate) fn answer_len(row: &Table) -> usize {
    let out = text(row.get("out")).len();
    out.saturating_add(text(row.get("err")).len())
}

/// How the answer to a row, whose put fails after so many bytes, differs from a write fault with
/// these first bytes of its text, if it does.
pub(crate) fn put_differs(
    alloc: Global,
    top: &impl TopCall,
    row: &Table,
    kept: usize,
) -> Result<Option<String>, AllocError> {
    let words = words_of(alloc, row)?;
    let files = MemoryFiles::new(alloc, files_of(alloc, row)?, Vec::new(alloc));
    let came = answer_to(alloc, top, words.as_slice(), files, &[(1, kept)])?;
    let wanted = Answer {
        status: 4,
        out: first_bytes(alloc, text(row.get("out")), kept)?,
        err: first_bytes(alloc, text(row.get("err")), kept)?,
    };
    difference(alloc, words.as_slice(), &wanted, &came)
}

// So many of the first bytes of a text, or all of them if it has fewer.
fn first_bytes(alloc: Global, text: &str, count: usize) -> Result<String, AllocError> {
    let bytes = text.as_bytes();
    String::from_utf8_lossy(alloc, bytes.get(..count).unwrap_or(bytes))
}

/// How the answer to a row, whose read with this number fails, differs from a fault of that read,
/// which is of the file with this name, if it does.
pub(crate) fn read_differs(
    alloc: Global,
    top: &impl TopCall,
    row: &Table,
    read: u64,
    name: &str,
) -> Result<Option<String>, AllocError> {
    let words = words_of(alloc, row)?;
    let failing = vec![in alloc; read]?;
    let files = MemoryFiles::new(alloc, files_of(alloc, row)?, failing);
    let came = answer_to(alloc, top, words.as_slice(), files, &[])?;
    let wanted = Answer::complaint(alloc, 3, format!(in alloc; "cannot read {name}\n")?);
    difference(alloc, words.as_slice(), &wanted, &came)
}
