//! How the rows of a file of data are put and counted.
use crate::checked::{accepted_differs, refused_differs};
use crate::place::place_differs;
use crate::prefixes::{answer_len, put_differs, read_differs};
use crate::printed::printed_differs;
use crate::question::{apart_differs, within_differs};
use crate::row::row_differs;
use crate::run::run_differs;
use crate::tally::FileTally;
use crate::top_call::TopCall;
use crate::values::{list, pair, text};
use std::alloc::{AllocError, Global};
use toml::Table;

/// Puts the rows of a file, the pairs of its questions, its places, its runs, its documents, its
/// rows of prefixes, and its programs.
pub(crate) fn put_file(
    alloc: Global,
    top: &impl TopCall,
    file: &Table,
) -> Result<FileTally, AllocError> {
    let mut tally = FileTally::new(alloc);
    put_rows(alloc, top, file, &mut tally)?;
    put_questions(alloc, top, file, &mut tally)?;
    put_places(alloc, top, file, &mut tally)?;
    put_runs(alloc, top, file, &mut tally)?;
    put_documents(alloc, top, file, &mut tally)?;
    put_prefixes(alloc, top, file, &mut tally)?;
    put_programs(alloc, top, file, &mut tally)?;
    Ok(tally)
}

fn put_rows(
    alloc: Global,
    top: &impl TopCall,
    file: &Table,
    tally: &mut FileTally,
) -> Result<(), AllocError> {
    for row in list(file.get("row")) {
        if let Some(row) = row.as_table() {
            tally.count(row_differs(alloc, top, row)?)?;
        }
    }
    Ok(())
}

// Puts the pairs of types.
fn put_questions(
    alloc: Global,
    top: &impl TopCall,
    file: &Table,
    tally: &mut FileTally,
) -> Result<(), AllocError> {
    for questions in list(file.get("questions")) {
        if let Some(questions) = questions.as_table() {
            put_pairs(alloc, top, questions, tally)?;
        }
    }
    Ok(())
}

fn put_pairs(
    alloc: Global,
    top: &impl TopCall,
    questions: &Table,
    tally: &mut FileTally,
) -> Result<(), AllocError> {
    let types = text(questions.get("types"));
    for asked in list(questions.get("within")) {
        let (first, second) = pair(asked);
        tally.count(within_differs(alloc, top, types, first, second)?)?;
    }
    for asked in list(questions.get("apart")) {
        let (first, second) = pair(asked);
        tally.count(apart_differs(alloc, top, types, first, second)?)?;
    }
    Ok(())
}

fn put_places(
    alloc: Global,
    top: &impl TopCall,
    file: &Table,
    tally: &mut FileTally,
) -> Result<(), AllocError> {
    for row in list(file.get("places")) {
        if let Some(row) = row.as_table() {
            tally.count(place_differs(alloc, top, row)?)?;
        }
    }
    Ok(())
}

fn put_runs(
    alloc: Global,
    top: &impl TopCall,
    file: &Table,
    tally: &mut FileTally,
) -> Result<(), AllocError> {
    for row in list(file.get("runs")) {
        if let Some(row) = row.as_table() {
            tally.count(run_differs(alloc, top, row)?)?;
        }
    }
    Ok(())
}

// Puts the documents whose values are printed.
fn put_documents(
    alloc: Global,
    top: &impl TopCall,
    file: &Table,
    tally: &mut FileTally,
) -> Result<(), AllocError> {
    for documents in list(file.get("documents")) {
        if let Some(documents) = documents.as_table() {
            put_printed(alloc, top, documents, tally)?;
        }
    }
    Ok(())
}

fn put_printed(
    alloc: Global,
    top: &impl TopCall,
    documents: &Table,
    tally: &mut FileTally,
) -> Result<(), AllocError> {
    for document in list(documents.get("printed")) {
        let (document, printed) = pair(document);
        tally.count(printed_differs(alloc, top, document, printed)?)?;
        tally.count(printed_differs(alloc, top, printed, printed)?)?;
    }
    for document in list(documents.get("canonical")) {
        let document = text(Some(document));
        tally.count(printed_differs(alloc, top, document, document)?)?;
    }
    Ok(())
}

// Puts rows with each put and each read that fails.
fn put_prefixes(
    alloc: Global,
    top: &impl TopCall,
    file: &Table,
    tally: &mut FileTally,
) -> Result<(), AllocError> {
    for row in list(file.get("prefixes")) {
        if let Some(row) = row.as_table() {
            tally.count(row_differs(alloc, top, row)?)?;
            put_failing_puts(alloc, top, row, tally)?;
            put_failing_reads(alloc, top, row, tally)?;
        }
    }
    Ok(())
}

// Puts a row with its put that fails, after each number of bytes.
fn put_failing_puts(
    alloc: Global,
    top: &impl TopCall,
    row: &Table,
    tally: &mut FileTally,
) -> Result<(), AllocError> {
    for kept in 0..answer_len(row).saturating_add(1) {
        tally.count(put_differs(alloc, top, row, kept)?)?;
    }
    Ok(())
}

// Puts a row with each of its reads that fails.
fn put_failing_reads(
    alloc: Global,
    top: &impl TopCall,
    row: &Table,
    tally: &mut FileTally,
) -> Result<(), AllocError> {
    let mut read: u64 = 0;
    for file in list(row.get("reads")) {
        read = read.saturating_add(1);
        tally.count(read_differs(alloc, top, row, read, text(Some(file)))?)?;
    }
    Ok(())
}

// Puts the programs that are accepted, and those that are refused.
fn put_programs(
    alloc: Global,
    top: &impl TopCall,
    file: &Table,
    tally: &mut FileTally,
) -> Result<(), AllocError> {
    for program in list(file.get("accepted")) {
        tally.count(accepted_differs(alloc, top, text(Some(program)))?)?;
    }
    for refused in list(file.get("refused")) {
        let (program, said) = pair(refused);
        tally.count(refused_differs(alloc, top, program, said)?)?;
    }
    Ok(())
}
