ghost use Rattle.std.specs.Prelude.{◌≡◌, ◌<◌, map, length, IfOk, OnErr};
ghost use Rattle.cd_model.specs.AllOf.{AllOf};
ghost use Rattle.cd_model.specs.Formula.{IsGraph};
ghost use Rattle.cd_program.specs.Expr.{fields_of};
ghost use Rattle.cd_program.specs.PlainExpr.{plain_field};
ghost use Rattle.cd_meaning.specs.Sets.{◌⊆◌, elements_of};
ghost use Rattle.cd_typing.specs.Results.{IsRecordOf};
ghost use Rattle.cd_typing.specs.Typ.{typ};
ghost use Rattle.cd_empty.specs.Growth.{Grows};
ghost use Rattle.cd_empty.specs.Seen.{graph_of};
ghost use Rattle.cd_forms.specs.Labels.{labels_of, AreLabels, AreOnce};

use crate::sorting::fields_in_order;
use cd_builders::put;
use cd_empty::World;
use cd_graph::Formula;
use cd_graph::built_in::EMPTY;
use cd_graph::fields::{FieldList, Fields};
use cd_program::expr::FieldExpr;
use cd_sets::node_id::NodeId;
use std::alloc::{AllocError, Global};

/// A node that holds exactly the records of a record expression: at the label of each field an
/// element of the field's node, and nothing elsewhere.
///
/// # Errors
///
/// Want of memory. The graph stays as it was.
pub fn record(
    alloc: Global,
    world: &mut World,
    fields: &[FieldExpr],
    parts: &[NodeId],
) -> Result<NodeId, AllocError>
    requires labels { AreLabels (fields_of (map plain_field fields.now)) }
    requires differ { AreOnce (labels_of (fields_of (map plain_field fields.now))) }
    requires count { length parts.now ≡ length fields.now }
    requires parts { AllOf (λ id. id.0 < length (graph_of world.old)) parts.now }
    ensures has { IfOk result (λ id. IsRecordOf (fields_of (map plain_field fields.now))
        (map (typ (graph_of world.old)) parts.now) ⊆ elements_of (graph_of world.new) id) }
    ensures only { IfOk result (λ id. elements_of (graph_of world.new) id
        ⊆ IsRecordOf (fields_of (map plain_field fields.now))
        (map (typ (graph_of world.old)) parts.now)) }
    ensures node { IfOk result (λ id. id.0 < length (graph_of world.new)) }
    ensures unchanged { OnErr result (graph_of world.new ≡ graph_of world.old) }
    ensures sound { IsGraph (graph_of world.new) }
    ensures grows { Grows world.old world.new }
{
    // The contract of this call says that the graph begins with the built-in nodes.
    world.graph();
    let named = FieldList::of(fields_in_order(alloc, fields, parts)?)?;
    let rest = EMPTY;
    put(alloc, world, Formula::record(Fields { named, rest }))
}
