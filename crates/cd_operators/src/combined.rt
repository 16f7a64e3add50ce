//! Results for integers of two sets.
ghost use Rattle.std.specs.Prelude.{◌≡◌, ◌∷◌, [], map, IfOk};
ghost use Rattle.cd_model.specs.AllOf.{AllOf};
ghost use Rattle.cd_sets.specs.Rises.{IsRising};
ghost use Rattle.cd_operators.specs.Inner.Combined.{AreOfTwo, IsPiece, interval};

use crate::bound::between;
use crate::operation::Operation;
use cd_sets::int_set::IntSet;
use std::alloc::{AllocError, Global};

/// The results, within 128 bits, for an integer of the one set and one of the other.
pub(crate) fn combined(
    alloc: Global,
    operation: Operation,
    first: &IntSet,
    second: &IntSet,
) -> Result<IntSet, AllocError>
    requires first { IsRising first.now }
    requires second { IsRising second.now }
    ensures { IfOk result (λ set. AreOfTwo operation first.now second.now set) }
{
    let first = pieces(alloc, first)?;
    let second = pieces(alloc, second)?;
    of_pieces(alloc, operation, first.as_slice(), second.as_slice())
}

// The bounds of the intervals of a set.
fn pieces(alloc: Global, set: &IntSet) -> Result<Vec<(i128, i128)>, AllocError>
    requires { IsRising set.now }
    ensures intervals { IfOk result (λ pieces. map interval pieces.items ≡ set.now) }
    ensures pieces { IfOk result (λ pieces. AllOf IsPiece pieces.items) }
{
    let mut pieces = Vec::new(alloc);
    while let Some(bounds) = set.piece(pieces.len()) {
        pieces.push(bounds)?;
    }
    Ok(pieces)
}

// The results for integers between these bounds and those.
fn of_pieces(
    alloc: Global,
    operation: Operation,
    first: &[(i128, i128)],
    second: &[(i128, i128)],
) -> Result<IntSet, AllocError>
    requires first { AllOf IsPiece first.now }
    requires second { AllOf IsPiece second.now }
    ensures { IfOk result
        (λ set. AreOfTwo operation (map interval first.now) (map interval second.now) set) }
{
    let mut all = IntSet::empty(alloc);
    for bounds in second {
        all = all.union(&with_piece(alloc, operation, first, *bounds)?)?;
    }
    Ok(all)
}

// Those for integers between one of these bounds and between others.
fn with_piece(
    alloc: Global,
    operation: Operation,
    first: &[(i128, i128)],
    bounds: (i128, i128),
) -> Result<IntSet, AllocError>
    requires first { AllOf IsPiece first.now }
    requires bounds { IsPiece bounds }
    ensures { IfOk result
        (λ set. AreOfTwo operation (map interval first.now) (interval bounds ∷ []) set) }
{
    let mut all = IntSet::empty(alloc);
    for piece in first {
        let low = operation.lowest(*piece, bounds);
        let high = operation.highest(*piece, bounds);
        all = all.union(&between(alloc, low, high)?)?;
    }
    Ok(all)
}
