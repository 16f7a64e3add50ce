//! Records without a label.
ghost use Rattle.std.specs.Prelude.{◌≡◌, ◌<◌, length, map, IfOk, OnErr};
ghost use Rattle.cd_syntax.specs.Name.{IsLabel};
ghost use Rattle.cd_model.specs.Formula.{IsGraph};
ghost use Rattle.cd_needs.specs.RecordTypes.{plain_row};
ghost use Rattle.cd_empty.specs.Growth.{Grows};
ghost use Rattle.cd_empty.specs.Seen.{graph_of};
ghost use Rattle.cd_meaning.specs.Records.{IsRestOf};
ghost use Rattle.cd_meaning.specs.Sets.{◌⊆◌, elements_of};
ghost use Rattle.cd_records.specs.Inner.Rests.{IsRestNode};
ghost use Rattle.cd_records.specs.Inner.Rows.{AreRowsIn};

use crate::node_rows::rows_of;
use crate::putting::put_in;
use crate::rest_formulas::made_of;
use crate::rests::rests_of;
use cd_empty::World;
use cd_graph::built_in::EMPTY;
use cd_needs::row::Row;
use cd_sets::node_id::NodeId;
use cd_syntax::name::Name;
use std::alloc::{AllocError, Global};

/// A node that holds exactly the records of a node without their fields at a label.
///
/// # Errors
///
/// Want of memory. The graph stays as it was.
pub fn without(
    alloc: Global,
    world: &mut World,
    records: NodeId,
    label: &Name,
) -> Result<NodeId, AllocError>
    requires records { records.0 < length (graph_of world.old) }
    requires label { IsLabel label.now }
    ensures has { IfOk result (λ id. IsRestOf label.now (elements_of (graph_of world.old) records)
        ⊆ elements_of (graph_of world.new) id) }
    ensures only { IfOk result (λ id. elements_of (graph_of world.new) id
        ⊆ IsRestOf label.now (elements_of (graph_of world.old) records)) }
    ensures node { IfOk result (λ id. id.0 < length (graph_of world.new)) }
    ensures unchanged { OnErr result (graph_of world.new ≡ graph_of world.old) }
    ensures sound { IsGraph (graph_of world.new) }
    ensures grows { Grows world.old world.new }
{
    // The contract of this call says that the graph is sound.
    world.graph();
    let rows = rows_of(alloc, world, records)?;
    rest_node(alloc, world, rows.as_slice(), label)
}

// The node, by rows.
fn rest_node(
    alloc: Global,
    world: &mut World,
    rows: &[Row],
    label: &Name,
) -> Result<NodeId, AllocError>
    requires label { IsLabel label.now }
    requires rows { AreRowsIn (graph_of world.old) (map plain_row rows.now) }
    ensures holding { IfOk result (λ id. IsRestNode (graph_of world.old) (graph_of world.new)
        label.now (map plain_row rows.now) id) }
    ensures unchanged { OnErr result (graph_of world.new ≡ graph_of world.old) }
    ensures sound { IsGraph (graph_of world.new) }
    ensures grows { Grows world.old world.new }
{
    // The contract of this call says that the graph is sound and begins with the built-in nodes.
    world.graph();
    match rows {
        [] => Ok(EMPTY),
        [_, ..] => put_rests(alloc, world, rows, label),
    }
}

// A new node.
fn put_rests(
    alloc: Global,
    world: &mut World,
    rows: &[Row],
    label: &Name,
) -> Result<NodeId, AllocError>
    requires label { IsLabel label.now }
    requires rows { AreRowsIn (graph_of world.old) (map plain_row rows.now) }
    ensures holding { IfOk result (λ id. IsRestNode (graph_of world.old) (graph_of world.new)
        label.now (map plain_row rows.now) id) }
    ensures unchanged { OnErr result (graph_of world.new ≡ graph_of world.old) }
    ensures sound { IsGraph (graph_of world.new) }
    ensures grows { Grows world.old world.new }
{
    // The contract of this call says that the graph is sound and begins with the built-in nodes.
    world.graph();
    let rests = rests_of(alloc, world, rows, label)?;
    let made = made_of(alloc, world.graph(), rests.as_slice(), label)?;
    Ok(put_in(world, made)?)
}
