//! Whether a program runs on a document as a row says, with just its units and with one less.
use crate::answer::Answer;
use crate::texts::texts_differ;
use crate::top_call::TopCall;
use crate::values::{number, text};
use std::alloc::{AllocError, Global};
use toml::Table;

// The names of the files of the program and of the document.
const FILE: &str = "p.cd";

const DOCUMENT: &str = "d";

/// How the answers differ from what the row says, if they do. With the units of the row a run ends
/// as it says, and with one unit less they are spent.
pub(crate) fn run_differs(
    alloc: Global,
    top: &impl TopCall,
    row: &Table,
) -> Result<Option<String>, AllocError> {
    let files = [
        (FILE, text(row.get("program"))),
        (DOCUMENT, text(row.get("document"))),
    ];
    let units = number(row.get("units"));
    if let Some(difference) = differs(alloc, top, &files, units, &ended(alloc, row)?)? {
        return Ok(Some(difference));
    }
    match units.checked_sub(1) {
        None => Ok(None),
        Some(fewer) => differs(alloc, top, &files, fewer, &spent(alloc)?),
    }
}

// How the answer to a run with so many units differs from this one, if it does.
fn differs(
    alloc: Global,
    top: &impl TopCall,
    files: &[(&str, &str)],
    units: u64,
    wanted: &Answer,
) -> Result<Option<String>, AllocError> {
    let units = format!(in alloc; "{units}")?;
    let words = ["run", "--steps", units.as_str(), FILE, DOCUMENT];
    texts_differ(alloc, top, &words, files, wanted)
}

// The answer that the row says: a value, an exception, or an integer beyond 128 bits.
fn ended(alloc: Global, row: &Table) -> Result<Answer, AllocError> {
    if let Some(value) = row.get("out") {
        let value = text(Some(value));
        return Ok(Answer::output(alloc, format!(in alloc; "{value}\n")?));
    }
    if let Some(value) = row.get("raised") {
        let value = text(Some(value));
        let err = format!(in alloc; "uncaught exception: {value}\n")?;
        return Ok(Answer::complaint(alloc, 15, err));
    }
    let err = String::from_str(alloc, "overflow\n")?;
    Ok(Answer::complaint(alloc, 16, err))
}

// That the units are spent.
fn spent(alloc: Global) -> Result<Answer, AllocError> {
    let err = String::from_str(alloc, "steps spent\n")?;
    Ok(Answer::complaint(alloc, 17, err))
}
