//! Whether the value of a document is printed rightly by `run`.
use crate::answer::Answer;
use crate::texts::texts_differ;
use crate::top_call::TopCall;
use std::alloc::{AllocError, Global};

// The names of the files of the program and of the document.
const FILE: &str = "p.cd";

const DOCUMENT: &str = "d";

// A program that gives its document.
const IDENTITY: &str = "let fun main (Data -> Data) x -> x";

/// How the answer differs from that the value of the document is printed so, if it does.
pub(crate) fn printed_differs(
    alloc: Global,
    top: &impl TopCall,
    document: &str,
    printed: &str,
) -> Result<Option<String>, AllocError> {
    let wanted = Answer::output(alloc, format!(in alloc; "{printed}\n")?);
    let files = [(FILE, IDENTITY), (DOCUMENT, document)];
    texts_differ(alloc, top, &["run", FILE, DOCUMENT], &files, &wanted)
}
