//! Whether a row is answered exactly as it says.
use crate::answer::{Answer, answer_to, difference};
use crate::top_call::TopCall;
use crate::values::{list, number, text};
use cd_base::memory_files::MemoryFiles;
use std::alloc::{AllocError, Global};
use toml::{Table, Value};

/// How the answer to a row differs from what the row says, if it does.
pub(crate) fn row_differs(
    alloc: Global,
    top: &impl TopCall,
    row: &Table,
) -> Result<Option<String>, AllocError> {
    let words = words_of(alloc, row)?;
    let came = answer(alloc, top, row, words.as_slice())?;
    let wanted = Answer {
        status: number(row.get("status")),
        out: repeated(alloc, row, row.get("out"))?,
        err: repeated(alloc, row, row.get("err"))?,
    };
    difference(alloc, words.as_slice(), &wanted, &came)
}

// What the program answers to the words of a row.
fn answer(
    alloc: Global,
    top: &impl TopCall,
    row: &Table,
    words: &[String],
) -> Result<Answer, AllocError> {
    let failing_reads = list(row.get("failing_reads"))
        .iter()
        .map(|read| number(Some(read)))
        .collect(alloc)?;
    let files = MemoryFiles::new(alloc, files_of(alloc, row)?, failing_reads);
    let failing_puts = failing_puts(alloc, row)?;
    answer_to(alloc, top, words, files, failing_puts.as_slice())
}

/// The words of a row.
pub(crate) fn words_of(alloc: Global, row: &Table) -> Result<Vec<String>, AllocError> {
    let mut words = Vec::new(alloc);
    for word in list(row.get("words")) {
        words.push(repeated(alloc, row, Some(word))?)?;
    }
    Ok(words)
}

/// The names and bytes of the files of a row.
pub(crate) fn files_of(alloc: Global, row: &Table) -> Result<Vec<(String, Vec<u8>)>, AllocError> {
    let mut files = Vec::new(alloc);
    if let Some(Value::Table(texts)) = row.get("files") {
        for (name, text) in texts {
            let text = repeated(alloc, row, Some(text))?;
            files.push((name.clone()?, text.into_bytes()))?;
        }
    }
    if let Some(Value::Table(lists)) = row.get("bytes") {
        for (name, bytes) in lists {
            files.push((name.clone()?, bytes_of(alloc, bytes)?))?;
        }
    }
    Ok(files)
}

// The bytes in a list.
fn bytes_of(alloc: Global, bytes: &Value) -> Result<Vec<u8>, AllocError> {
    list(Some(bytes))
        .iter()
        .map(|byte| u8::try_from(number(Some(byte))).unwrap_or(0))
        .collect(alloc)
}

// Which puts of a row fail, and how many bytes each keeps.
fn failing_puts(alloc: Global, row: &Table) -> Result<Vec<(u64, usize)>, AllocError> {
    let mut puts = Vec::new(alloc);
    for put in list(row.get("failing_puts")) {
        if let [put, kept] = list(Some(put)) {
            puts.push((number(Some(put)), number(Some(kept)) as usize))?;
        }
    }
    Ok(puts)
}

// A text of a row. If the row says how often, each part between `«` and `»` is repeated.
fn repeated(alloc: Global, row: &Table, value: Option<&Value>) -> Result<String, AllocError> {
    let times = number(row.get("times")) as usize;
    if times == 0 {
        return String::from_str(alloc, text(value));
    }
    let mut made = String::new(alloc);
    for part in text(value).split('«') {
        let (inner, after) = part.split_once('»').unwrap_or(("", part));
        made.push_str(inner.repeat(alloc, times)?.as_str())?;
        made.push_str(after)?;
    }
    Ok(made)
}
