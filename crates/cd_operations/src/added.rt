//! Integers and pairs that are added to a table.
ghost use Rattle.std.specs.Prelude.{◌<◌, length, IfOk};
ghost use Rattle.cd_model.specs.Thing.{Integer, Pair};
ghost use Rattle.cd_cells.specs.Cells.{thing_at};
ghost use Rattle.cd_cells.specs.Table.{table, IsAt, Grows};

use cd_cells::{ValueId, Values};
use std::alloc::AllocError;

/// Adds an integer.
#[inline]
#[tactic(auto, using(cd_cells::proofs::TableGrows::last_at))]
pub(crate) fn integer(values: &mut Values, n: i128) -> Result<ValueId, AllocError>
    ensures is { IfOk result (λ id. IsAt (table values.new) id.0 (Integer n)) }
    ensures grows { Grows values.old values.new }
{
    Ok(values.int(n)?)
}

/// Adds a pair.
#[inline]
#[tactic(auto, using(cd_cells::proofs::TableGrows::last_at))]
pub(crate) fn pair(
    values: &mut Values,
    first: ValueId,
    second: ValueId,
) -> Result<ValueId, AllocError>
    requires first { first.0 < length (table values.old) }
    requires second { second.0 < length (table values.old) }
    ensures is { let old = table values.old in IfOk result (λ id. IsAt (table values.new) id.0
        (Pair (thing_at old first.0) (thing_at old second.0))) }
    ensures grows { Grows values.old values.new }
{
    Ok(values.pair(first, second)?)
}
