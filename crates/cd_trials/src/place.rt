//! Whether a byte of a text has the line and the column that a row says.
use crate::top_call::TopCall;
use crate::values::{number, text};
use std::alloc::{AllocError, Global};
use toml::Table;

/// Where the byte is placed, if that is elsewhere.
pub(crate) fn place_differs(
    alloc: Global,
    top: &impl TopCall,
    row: &Table,
) -> Result<Option<String>, AllocError> {
    let (text, at) = (text(row.get("text")), number(row.get("at")));
    let (line, column) = top.place(text, at as usize);
    if line as u64 == number(row.get("line")) && column as u64 == number(row.get("column")) {
        return Ok(None);
    }
    Ok(Some(format!(in alloc; " byte {at} of {text:?} is at {line}:{column}")?))
}
