//! What records have at a label.
ghost use Rattle.std.specs.Prelude.{◌≡◌, ◌<◌, length, IfOk, OnErr};
ghost use Rattle.cd_syntax.specs.Name.{IsLabel};
ghost use Rattle.cd_model.specs.Formula.{IsGraph};
ghost use Rattle.cd_empty.specs.Growth.{Grows};
ghost use Rattle.cd_empty.specs.Seen.{graph_of};
ghost use Rattle.cd_meaning.specs.Records.{IsFieldOf};
ghost use Rattle.cd_meaning.specs.Sets.{◌⊆◌, elements_of};

use crate::node_rows::rows_of;
use crate::questions::{add_asked, copies};
use cd_builders::union;
use cd_empty::World;
use cd_sets::node_id::NodeId;
use cd_syntax::name::Name;
use std::alloc::{AllocError, Global};

/// A node that holds exactly what records of a node have at a label.
///
/// # Errors
///
/// Want of memory. The graph stays as it was.
pub fn field(
    alloc: Global,
    world: &mut World,
    records: NodeId,
    label: &Name,
) -> Result<NodeId, AllocError>
    requires records { records.0 < length (graph_of world.old) }
    requires label { IsLabel label.now }
    ensures has { IfOk result (λ id. IsFieldOf label.now (elements_of (graph_of world.old) records)
        ⊆ elements_of (graph_of world.new) id) }
    ensures only { IfOk result (λ id. elements_of (graph_of world.new) id
        ⊆ IsFieldOf label.now (elements_of (graph_of world.old) records)) }
    ensures node { IfOk result (λ id. id.0 < length (graph_of world.new)) }
    ensures unchanged { OnErr result (graph_of world.new ≡ graph_of world.old) }
    ensures sound { IsGraph (graph_of world.new) }
    ensures grows { Grows world.old world.new }
{
    // The contract of this call says that the graph begins with the built-in nodes.
    world.graph();
    let rows = rows_of(alloc, world, records)?;
    let mut asked = Vec::new(alloc);
    add_asked(rows.as_slice(), label, &mut asked)?;
    let questions = copies(alloc, asked.as_slice())?;
    union(alloc, world, questions.as_slice())
}
