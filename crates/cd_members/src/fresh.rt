//! Labels that no cell has.
ghost use Rattle.std.specs.Prelude.{◌≡◌, map, IfOk};
ghost use Rattle.cd_rules.proofs.FreshLabels.{row_of_a, longest};

use crate::compare::length;
use cd_needs::row::FieldCell;
use cd_syntax::name::Name;
use std::alloc::{AllocError, Global};

/// The length of the longest label of the cells.
pub(crate) fn longest(cells: &[(Name, FieldCell)]) -> usize
    ensures { result ≡ longest (map (λ cell. cell.0) cells.now) }
{
    let mut longest = 0;
    for (label, _) in cells {
        longest = longest.max(length(label));
    }
    longest
}

/// The characters of a label that is one longer than that: letters `a`.
pub(crate) fn row_of_a(alloc: Global, count: usize) -> Result<Vec<char>, AllocError>
    ensures { IfOk result (λ row. row.items ≡ row_of_a count) }
{
    let mut row = Vec::new(alloc);
    row.push('a')?;
    for _ in 0..count {
        row.push('a')?;
    }
    Ok(row)
}
