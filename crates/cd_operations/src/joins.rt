//! Sequences that are joined.
ghost use Rattle.std.specs.Prelude.{◌≡◌, ◌<◌, [], length, IfOk};
ghost use Rattle.cd_matching.specs.Sequences.{items};
ghost use Rattle.cd_cells.specs.Cells.{thing_at};
ghost use Rattle.cd_cells.specs.Table.{table, Grows};
ghost use Rattle.cd_evaluation.specs.Evaluation as evaluation;
ghost use Rattle.cd_evaluation.specs.Lists.{before, both_items, listed};
ghost use Rattle.cd_evaluation.specs.Operations as operations;
ghost use Rattle.cd_operations.specs.Along.{items_along};
ghost use Rattle.cd_operations.specs.Endings.{plain_ending, IsEnding};

use crate::ending::Ending;
use crate::pairs::pair_at;
use crate::prepended::prepended;
use crate::sequences::{is_sequence, reversed};
use cd_cells::{ValueId, Values};
use std::alloc::{AllocError, Global};

/// The items of all results of `transform`, which are kept from the last one. It is stuck where one
/// of them is no sequence.
///
/// # Errors
///
/// Want of memory.
pub fn joined(alloc: Global, values: &mut Values, results: ValueId) -> Result<Ending, AllocError>
    requires { results.0 < length (table values.old) }
    ensures is { IfOk result (λ ending. plain_ending (table values.new) ending
        ≡ evaluation.joined (before (items_along (thing_at (table values.old) results.0)) [])) }
    ensures within { IfOk result (IsEnding (length (table values.new))) }
    ensures grows { Grows values.old values.new }
{
    let mut stack = Vec::new(alloc);
    let mut made = values.nil()?;
    let mut left = results;
    while let Some((first, rest)) = pair_at(values, left) {
        let Some(next) = prepended(values, &mut stack, first, made)? else {
            return Ok(Ending::Stuck);
        };
        made = next;
        left = rest;
    }
    Ok(Ending::Done(made))
}

/// The items of two sequences.
pub(crate) fn concatenated(
    alloc: Global,
    values: &mut Values,
    first: ValueId,
    second: ValueId,
) -> Result<Ending, AllocError>
    requires first { first.0 < length (table values.old) }
    requires second { second.0 < length (table values.old) }
    ensures is { let old = table values.old in
        IfOk result (λ ending. plain_ending (table values.new) ending
        ≡ listed (both_items (items (thing_at old first.0)) (items (thing_at old second.0)))) }
    ensures within { IfOk result (IsEnding (length (table values.new))) }
    ensures grows { Grows values.old values.new }
{
    if !is_sequence(values, second) {
        return Ok(Ending::Stuck);
    }
    let mut stack = Vec::new(alloc);
    match prepended(values, &mut stack, first, second)? {
        Some(id) => Ok(Ending::Done(id)),
        None => Ok(Ending::Stuck),
    }
}

/// The items of the sequences of a sequence.
pub(crate) fn flattened(
    alloc: Global,
    values: &mut Values,
    value: ValueId,
) -> Result<Ending, AllocError>
    requires { value.0 < length (table values.old) }
    ensures is { IfOk result (λ ending. plain_ending (table values.new) ending
        ≡ operations.flattened (items (thing_at (table values.old) value.0))) }
    ensures within { IfOk result (IsEnding (length (table values.new))) }
    ensures grows { Grows values.old values.new }
{
    if !is_sequence(values, value) {
        return Ok(Ending::Stuck);
    }
    let nil = values.nil()?;
    let results = reversed(values, value, nil)?;
    joined(alloc, values, results)
}
