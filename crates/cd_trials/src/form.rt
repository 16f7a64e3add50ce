//! What may be in a file of data.
use crate::values::list;
use anyhow::{Context, Result, bail};
use toml::Table;

// The members of a file, of a row, of questions, of a place and of a run, with their types.
const FILE: [(&str, &str); 8] = [
    ("row", "array"),
    ("prefixes", "array"),
    ("questions", "array"),
    ("places", "array"),
    ("accepted", "array"),
    ("refused", "array"),
    ("runs", "array"),
    ("documents", "array"),
];

const ROW: [(&str, &str); 9] = [
    ("words", "array"),
    ("status", "integer"),
    ("out", "string"),
    ("err", "string"),
    ("times", "integer"),
    ("files", "table"),
    ("bytes", "table"),
    ("failing_reads", "array"),
    ("failing_puts", "array"),
];

const PREFIXES: [(&str, &str); 6] = [
    ("words", "array"),
    ("status", "integer"),
    ("out", "string"),
    ("err", "string"),
    ("files", "table"),
    ("reads", "array"),
];

const QUESTIONS: [(&str, &str); 3] = [("types", "string"), ("within", "array"), ("apart", "array")];

const DOCUMENTS: [(&str, &str); 2] = [("printed", "array"), ("canonical", "array")];

const PLACE: [(&str, &str); 4] = [
    ("text", "string"),
    ("at", "integer"),
    ("line", "integer"),
    ("column", "integer"),
];

const RUN: [(&str, &str); 6] = [
    ("program", "string"),
    ("document", "string"),
    ("units", "integer"),
    ("out", "string"),
    ("raised", "string"),
    ("overflow", "boolean"),
];

/// Fails if a member of the file, or of one of its tables, has an unknown name or another type.
pub(crate) fn check_form(file: &Table) -> Result<()> {
    check(file, &FILE)?;
    check_tables(file, "row", &ROW)?;
    check_tables(file, "prefixes", &PREFIXES)?;
    check_tables(file, "questions", &QUESTIONS)?;
    check_tables(file, "places", &PLACE)?;
    check_tables(file, "runs", &RUN)?;
    check_tables(file, "documents", &DOCUMENTS)
}

// Fails if an item of this list is no table, or has a member that these are not.
fn check_tables(file: &Table, name: &str, known: &[(&str, &str)]) -> Result<()> {
    for item in list(file.get(name)) {
        let table = item
            .as_table()
            .context(format_args!("{name} has an item that is no table"))?;
        check(table, known)?;
    }
    Ok(())
}

// Fails if a member of a table has another name or another type than these.
fn check(table: &Table, known: &[(&str, &str)]) -> Result<()> {
    for (name, value) in table {
        let (name, kind) = (name.as_str(), value.type_str());
        if !known.iter().any(|entry| entry.0 == name && entry.1 == kind) {
            bail!("{name} is unknown, or should be no {kind}");
        }
    }
    Ok(())
}
