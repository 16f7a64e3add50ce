//! Whether a pair of types is answered rightly.
use crate::answer::Answer;
use crate::texts::{answer_to_texts, texts_differ};
use crate::top_call::TopCall;
use std::alloc::{AllocError, Global};

// The name of the file of declarations.
const FILE: &str = "types.cd";

/// How the answer differs from yes, if it does.
pub(crate) fn within_differs(
    alloc: Global,
    top: &impl TopCall,
    types: &str,
    first: &str,
    second: &str,
) -> Result<Option<String>, AllocError> {
    let wanted = Answer::output(alloc, String::from_str(alloc, "yes\n")?);
    differs(alloc, top, types, first, second, &wanted)
}

/// How the answer differs from no and an element of the first type outside the second, if it does.
/// The program is asked whether it is one, but not if a function is in it: that can't be written as
/// a type.
pub(crate) fn apart_differs(
    alloc: Global,
    top: &impl TopCall,
    types: &str,
    first: &str,
    second: &str,
) -> Result<Option<String>, AllocError> {
    let came = answer(alloc, top, types, first, second)?;
    let Some(element) = came.element() else {
        let wanted = Answer {
            status: 1,
            out: String::from_str(alloc, "no: ELEMENT\n")?,
            err: String::new(alloc),
        };
        return differs(alloc, top, types, first, second, &wanted);
    };
    if element.contains("fun{") {
        return Ok(None);
    }
    match within_differs(alloc, top, types, element, first)? {
        None => differs(alloc, top, types, element, second, &came),
        difference => Ok(difference),
    }
}

// How the answer differs from this one, if it does.
fn differs(
    alloc: Global,
    top: &impl TopCall,
    types: &str,
    first: &str,
    second: &str,
    wanted: &Answer,
) -> Result<Option<String>, AllocError> {
    if types.is_empty() {
        texts_differ(alloc, top, &["sub", first, second], &[], wanted)
    } else {
        let words = ["sub", "--types", FILE, first, second];
        texts_differ(alloc, top, &words, &[(FILE, types)], wanted)
    }
}

// What the program answers, if it is asked whether the first type is within the second.
fn answer(
    alloc: Global,
    top: &impl TopCall,
    types: &str,
    first: &str,
    second: &str,
) -> Result<Answer, AllocError> {
    if types.is_empty() {
        answer_to_texts(alloc, top, &["sub", first, second], &[])
    } else {
        let words = ["sub", "--types", FILE, first, second];
        answer_to_texts(alloc, top, &words, &[(FILE, types)])
    }
}
