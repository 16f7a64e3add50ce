//! Whether a program is answered rightly by `check`.
use crate::answer::Answer;
use crate::texts::texts_differ;
use crate::top_call::TopCall;
use std::alloc::{AllocError, Global};

// The name of the file of the program.
const FILE: &str = "p.cd";

/// How the answer differs from that the program is accepted, if it does.
pub(crate) fn accepted_differs(
    alloc: Global,
    top: &impl TopCall,
    program: &str,
) -> Result<Option<String>, AllocError> {
    let wanted = Answer::output(alloc, String::from_str(alloc, "accepted\n")?);
    texts_differ(alloc, top, &["check", FILE], &[(FILE, program)], &wanted)
}

/// How the answer differs from that the program has no types, as is said here of one of its places,
/// if it does.
pub(crate) fn refused_differs(
    alloc: Global,
    top: &impl TopCall,
    program: &str,
    said: &str,
) -> Result<Option<String>, AllocError> {
    let wanted = Answer::complaint(alloc, 12, format!(in alloc; "{FILE}:{said}\n")?);
    texts_differ(alloc, top, &["check", FILE], &[(FILE, program)], &wanted)
}
