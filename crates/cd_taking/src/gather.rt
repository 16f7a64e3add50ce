//! What a variable gathers.
ghost use Rattle.std.specs.Prelude.{◌≡◌, ◌<◌, Some, Option, length, drop, IfOk, OnOk, slice_get};
ghost use Rattle.std.specs.List.{position};
ghost use Rattle.cd_model.specs.AllOf.{AllOf};
ghost use Rattle.cd_model.specs.Thing.{Thing, Pair};
ghost use Rattle.cd_matching.specs.Kernel.{before};
ghost use Rattle.cd_matching.specs.PlainKernel.{plain_nodes};
ghost use Rattle.cd_cells.specs.Cells.{thing_at};
ghost use Rattle.cd_cells.specs.Table.{table, IsAt, Grows};
ghost use Rattle.cd_taking.specs.Inner.Machine.{as_pair, pair_node, after_second};
ghost use Rattle.cd_taking.specs.Inner.Coded.{both_at, is_variable, IsGathered, IsCaptureWithin};

use crate::capture::Capture;
use crate::node_parts::pair_node;
use crate::views::pair_of;
use cd_cells::{ValueId, Values};
use cd_matching::kernel::Kernel;
use std::alloc::AllocError;

/// The second part of a pair was taken by the second node of a node of pairs. If a variable gathers
/// there, the first part is put before what it has. The captures of the second part are those from
/// the mark on.
pub(crate) fn gather(
    captures: &mut Vec<Capture>,
    kernel: &Kernel,
    values: &mut Values,
    pair: ValueId,
    node: usize,
    mark: usize,
) -> Result<(), AllocError>
    requires pair { pair.0 < length (table values.old) }
    requires within { AllOf (IsCaptureWithin (length (table values.old))) captures.old.items }
    ensures gathers { let d = thing_at (table values.old) pair.0 in
        let at = pair_node (slice_get (plain_nodes kernel.now.nodes.items) node) in
        OnOk result (IsGathered (after_second (as_pair d) at) (table values.new) mark
        captures.old.items captures.new.items) }
    ensures within { OnOk result
        (AllOf (IsCaptureWithin (length (table values.new))) captures.new.items) }
    ensures grows { Grows values.old values.new }
{
    let Some(parts) = pair_of(values, pair) else {
        return Ok(());
    };
    match pair_node(kernel, node) {
        Some(node) => match node.variable {
            Some(variable) => put_before(captures, values, pair, parts, variable, mark),
            None => Ok(()),
        },
        None => Ok(()),
    }
}

// Puts the first part of a pair before what the variable has. If this is the second part, it is the
// pair itself.
fn put_before(
    captures: &mut Vec<Capture>,
    values: &mut Values,
    pair: ValueId,
    parts: (ValueId, ValueId),
    variable: usize,
    mark: usize,
) -> Result<(), AllocError>
    requires first { parts.0.0 < length (table values.old) }
    requires pair { pair.0 < length (table values.old) }
    requires is { Some (both_at (table values.old) parts)
        ≡ as_pair (thing_at (table values.old) pair.0) }
    requires within { AllOf (IsCaptureWithin (length (table values.old))) captures.old.items }
    ensures gathers { let first = thing_at (table values.old) parts.0.0 in
        OnOk result (IsGathered (before variable first) (table values.new) mark
        captures.old.items captures.new.items) }
    ensures within { OnOk result
        (AllOf (IsCaptureWithin (length (table values.new))) captures.new.items) }
    ensures grows { Grows values.old values.new }
{
    let Some(place) = place_of(captures.as_slice(), variable, mark) else {
        return Ok(());
    };
    let value = before_value(values, pair, parts, captures[mark + place].value)?;
    captures[mark + place] = Capture { variable, value };
    Ok(())
}

// The pair of the first part of a pair and this value.
fn before_value(
    values: &mut Values,
    pair: ValueId,
    parts: (ValueId, ValueId),
    rest: ValueId,
) -> Result<ValueId, AllocError>
    requires first { parts.0.0 < length (table values.old) }
    requires pair { pair.0 < length (table values.old) }
    requires rest { rest.0 < length (table values.old) }
    requires is { Some (both_at (table values.old) parts)
        ≡ as_pair (thing_at (table values.old) pair.0) }
    ensures is { let old = table values.old in
        IfOk result (λ id. IsAt (table values.new) id.0
        (Pair (thing_at old parts.0.0) (thing_at old rest.0))) }
    ensures grows { Grows values.old values.new }
{
    let (first, second) = parts;
    if rest.0 == second.0 {
        return Ok(pair);
    }
    values.pair(first, rest)
}

// How far after the mark the first capture of a variable stands.
fn place_of(captures: &[Capture], variable: usize, mark: usize) -> Option<usize>
    ensures { result ≡ position (is_variable variable) (drop mark captures.now) }
{
    captures
        .iter()
        .skip(mark)
        .position(|capture| capture.variable == variable)
}
