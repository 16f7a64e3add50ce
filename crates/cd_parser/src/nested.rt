//! How deep paths and selects nest.
use crate::cell::Cell;
use cd_grammar::make::{Five, Make, Six, Three, Two};
use std::alloc::AllocError;

// How many steps of paths and sources of selects may stand one in the other. The base of a path and
// the head of a select stand before the tokens that open levels, so levels do not bound them.
const MOST: usize = 2_000;

/// How many stand one in the other in what is made of these parts.
///
/// # Errors
///
/// More than may, which is want of memory.
pub(crate) fn nested_in<P>(make: Option<Make>, cells: &[Cell<P>]) -> Result<usize, AllocError> {
    let mut most: usize = 0;
    let mut all: usize = 0;
    for cell in cells {
        most = most.max(cell.nested);
        all = all.saturating_add(cell.nested);
    }
    let nested = match make {
        Some(Make::Two(Two::Path)) | Some(Make::Six(Six::Selecting)) => all,
        Some(Make::Two(Two::ChildStep | Two::AttributeStep))
        | Some(Make::Three(Three::BeforeChildStep | Three::BeforeAttributeStep | Three::Source))
        | Some(Make::Five(Five::SourceWhere | Five::BeforeSources)) => most.saturating_add(1),
        _ => most,
    };
    if nested > MOST {
        return Err(AllocError);
    }
    Ok(nested)
}
