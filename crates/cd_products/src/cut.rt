//! Boxes of questions less a row of nodes.
ghost use Rattle.std.specs.Prelude.{◌≡◌, ◌∷◌, map, IfOk};
ghost use Rattle.cd_products.specs.Inner.Tests.{less_row};

use crate::narrowed::{within, without};
use cd_sets::node_id::NodeId;
use cd_sets::question::{Question, Questions};
use std::alloc::{AllocError, Global};

/// What of a box is outside a row, as disjoint boxes: outside it in the first cell, or within it
/// there and outside it further on.
pub(crate) fn less(
    alloc: Global,
    row: &[NodeId],
    cells: &[Question],
) -> Result<Vec<Questions>, AllocError>
    ensures { IfOk result (λ boxes. boxes.items ≡ less_row row.now cells.now) }
{
    match row {
        [] => Ok(Vec::new(alloc)),
        [id, row @ ..] => match cells {
            [] => Ok(Vec::new(alloc)),
            [cell, cells @ ..] => {
                let rest = less(alloc, row, cells)?;
                let outside = put(alloc, without(*id, cell)?, cells)?;
                with_first(alloc, outside, &within(*id, cell)?, rest.as_slice())
            }
        },
    }
}

// A box, and others with one more cell in front.
fn with_first(
    alloc: Global,
    first: Questions,
    cell: &Question,
    boxes: &[Questions],
) -> Result<Vec<Questions>, AllocError>
    ensures { IfOk result
        (λ all. all.items ≡ first ∷ map (λ cells. cell.now ∷ cells) boxes.now) }
{
    let mut all = Vec::new(alloc);
    all.push(first)?;
    for cells in boxes {
        all.push(put(alloc, cell.copy()?, cells.items())?)?;
    }
    Ok(all)
}

// A box with one more cell in front.
fn put(alloc: Global, first: Question, cells: &[Question]) -> Result<Questions, AllocError>
    ensures { IfOk result (λ all. all ≡ first ∷ cells.now) }
{
    let mut all = Vec::new(alloc);
    all.push(first)?;
    for cell in cells {
        all.push(cell.copy()?)?;
    }
    Ok(Questions::of(all))
}
