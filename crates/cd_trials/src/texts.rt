//! Calls of the program whose words and files are texts.
use crate::answer::{Answer, answer_to, difference};
use crate::top_call::TopCall;
use cd_base::memory_files::MemoryFiles;
use std::alloc::{AllocError, Global};

/// What the program answers to these words, with files of these names and texts.
pub(crate) fn answer_to_texts(
    alloc: Global,
    top: &impl TopCall,
    words: &[&str],
    files: &[(&str, &str)],
) -> Result<Answer, AllocError> {
    let words = owned(alloc, words)?;
    let files = MemoryFiles::new(alloc, named(alloc, files)?, Vec::new(alloc));
    answer_to(alloc, top, words.as_slice(), files, &[])
}

/// How that answer differs from this one, if it does: the words, the texts of the files and both
/// answers.
pub(crate) fn texts_differ(
    alloc: Global,
    top: &impl TopCall,
    words: &[&str],
    files: &[(&str, &str)],
    wanted: &Answer,
) -> Result<Option<String>, AllocError> {
    let came = answer_to_texts(alloc, top, words, files)?;
    let mut shown = owned(alloc, words)?;
    for file in files {
        shown.push(String::from_str(alloc, file.1)?)?;
    }
    difference(alloc, shown.as_slice(), wanted, &came)
}

// Words, as the program takes them.
fn owned(alloc: Global, words: &[&str]) -> Result<Vec<String>, AllocError> {
    let mut made = Vec::new(alloc);
    for word in words {
        made.push(String::from_str(alloc, word)?)?;
    }
    Ok(made)
}

// Files of these names and texts.
fn named(alloc: Global, files: &[(&str, &str)]) -> Result<Vec<(String, Vec<u8>)>, AllocError> {
    let mut made = Vec::new(alloc);
    for file in files {
        let bytes = Vec::from_slice(alloc, file.1.as_bytes())?;
        made.push((String::from_str(alloc, file.0)?, bytes))?;
    }
    Ok(made)
}
