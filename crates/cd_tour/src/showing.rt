//! How queries are shown: the words as a command line, the answer, its status, and what it means.
ghost use Rattle.std.specs.Prelude.{◌≡◌, map, IfOk, string_bytes};
ghost use Rattle.cd_driver.specs.Command.{texts};
ghost use Rattle.cd_driver.specs.Outside.{outside};
ghost use Rattle.cd_tour.specs.Showing.{IsAnswered, ending, IsShown, AreShown};

use crate::line::command_line;
use crate::queries::Query;
use anyhow::{Result, bail};
use cd_base::files::Files;
use cd_base::sink::Sink;
use cd_base::status::Status;
use cd_driver::cduce;
use std::alloc::{AllocError, Global};

/// Shows the queries one after the other.
pub(crate) fn show_all<F: Files, S: Sink>(
    alloc: Global,
    queries: &[Query],
    files: &mut F,
    out: &mut S,
    err: &mut S,
) -> Result<()>
    ensures { IfOk result (λ _. AreShown queries.now
        (outside (F.state files.old) (S.state out.old) (S.state err.old))
        (outside (F.state files.new) (S.state out.new) (S.state err.new))) }
{
    for query in queries {
        show(alloc, query, files, out, err)?;
    }
    Ok(())
}

// Shows a query.
fn show<F: Files, S: Sink>(
    alloc: Global,
    query: &Query,
    files: &mut F,
    out: &mut S,
    err: &mut S,
) -> Result<()>
    ensures { IfOk result (λ _. IsShown query.now
        (outside (F.state files.old) (S.state out.old) (S.state err.old))
        (outside (F.state files.new) (S.state out.new) (S.state err.new))) }
{
    out.put(command_line(alloc, query.words)?.as_bytes())?;
    let status = answered(alloc, query.words, files, out, err)?;
    out.put(ending(alloc, status, query.meaning)?.as_bytes())?;
    Ok(())
}

// Puts the answer to these words, whole, and gives its status.
fn answered<F: Files, S: Sink>(
    alloc: Global,
    words: &[&str],
    files: &mut F,
    out: &mut S,
    err: &mut S,
) -> Result<Status>
    ensures { IfOk result (λ status. IsAnswered (map (λ word. word.now) words.now)
        (outside (F.state files.old) (S.state out.old) (S.state err.old))
        (outside (F.state files.new) (S.state out.new) (S.state err.new)) status) }
{
    let words = owned(alloc, words)?;
    let status = cduce(alloc, words.as_slice(), files, out, err);
    if status == Status::WriteFault || status == Status::NoMemory {
        bail!("an answer could not be written");
    }
    Ok(status)
}

// The words, as the program takes them.
fn owned(alloc: Global, words: &[&str]) -> Result<Vec<String>, AllocError>
    ensures { IfOk result (λ made. texts made.items ≡ map (λ word. word.now) words.now) }
{
    let mut made = Vec::new(alloc);
    for word in words {
        made.push(String::from_str(alloc, word)?)?;
    }
    Ok(made)
}

// What stands after an answer.
fn ending(alloc: Global, status: Status, meaning: &str) -> Result<String, AllocError>
    ensures { IfOk result (λ text. string_bytes text ≡ ending status meaning.now) }
{
    let number = status.number();
    format!(in alloc; "status {number}\n{meaning}\n\n")
}
