//! Nodes of pairs in a row.
ghost use Rattle.std.specs.Prelude.{◌≡◌, ◌<◌, map, length, IfOk, OnErr};
ghost use Rattle.cd_model.specs.AllOf.{AllOf};
ghost use Rattle.cd_model.specs.Formula.{IsGraph};
ghost use Rattle.cd_meaning.specs.Sets.{◌⊆◌, elements_of};
ghost use Rattle.cd_typing.specs.Typ.{typ};
ghost use Rattle.cd_empty.specs.Growth.{Grows};
ghost use Rattle.cd_empty.specs.Seen.{graph_of};
ghost use Rattle.cd_forms.specs.Inner.Chains.{AreBefore};

use crate::pairs::{add_pairs, begin};
use cd_empty::World;
use cd_graph::Formulas;
use cd_sets::node_id::NodeId;
use std::alloc::{AllocError, Global};

/// A node that holds elements of the heads, one of each, and then an element of the end, as pairs
/// in a row.
///
/// # Errors
///
/// Want of memory. The graph stays as it was.
pub(crate) fn row_before(
    alloc: Global,
    world: &mut World,
    heads: &[NodeId],
    end: NodeId,
) -> Result<NodeId, AllocError>
    requires heads { AllOf (λ id. id.0 < length (graph_of world.old)) heads.now }
    requires end { end.0 < length (graph_of world.old) }
    ensures has { IfOk result (λ id. AreBefore (map (typ (graph_of world.old)) heads.now)
        (elements_of (graph_of world.old) end) ⊆ elements_of (graph_of world.new) id) }
    ensures only { IfOk result (λ id. elements_of (graph_of world.new) id
        ⊆ AreBefore (map (typ (graph_of world.old)) heads.now)
        (elements_of (graph_of world.old) end)) }
    ensures node { IfOk result (λ id. id.0 < length (graph_of world.new)) }
    ensures unchanged { OnErr result (graph_of world.new ≡ graph_of world.old) }
    ensures sound { IsGraph (graph_of world.new) }
    ensures grows { Grows world.old world.new }
{
    let first = world.graph().len();
    let mut formulas = Vec::new(alloc);
    add_pairs(&mut formulas, first, heads, end)?;
    world.extend(Formulas::of(formulas)?)?;
    Ok(begin(first, heads, end))
}
