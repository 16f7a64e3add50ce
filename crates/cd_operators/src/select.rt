//! Fields of records.
ghost use Rattle.std.specs.Prelude.{◌≡◌, ◌<◌, [], ◌∷◌, false, length, IfOk, IfErr, OnOk};
ghost use Rattle.cd_syntax.specs.Name.{IsLabel};
ghost use Rattle.cd_model.specs.Formula as formula;
ghost use Rattle.cd_model.specs.Formula.{IsGraph};
ghost use Rattle.cd_meaning.specs.Sets.{◌⊆◌, elements_of};
ghost use Rattle.cd_meaning.specs.Records.{HasFieldAt, IsFieldOf, IsRestOf};
ghost use Rattle.cd_typing.specs.Typ.{BuiltIn};
ghost use Rattle.cd_graph.specs.PlainFormula.{plain};
ghost use Rattle.cd_empty.specs.Growth.{Grows};
ghost use Rattle.cd_empty.specs.Seen.{graph_of, table_of};
ghost use Rattle.cd_operators.specs.Misfits.{IsMisfitOf};

use crate::misfit::{Side, Stop};
use crate::need::need;
use cd_empty::World;
use cd_graph::built_in::{ANY, RECORD};
use cd_graph::fields::{Field, FieldList, Fields};
use cd_graph::{Formula, Formulas};
use cd_records::{field, without};
use cd_sets::node_id::NodeId;
use cd_syntax::name::Name;
use cd_typing::rule::Rule;
use std::alloc::{AllocError, Global};

/// A node of the records of a node, without their fields at a label.
///
/// # Errors
///
/// The operand is refused, with an element that is no record; or want of memory.
pub fn drop_field(
    alloc: Global,
    world: &mut World,
    records: NodeId,
    label: &Name,
) -> Result<NodeId, Stop>
    requires records { records.0 < length (graph_of world.old) }
    requires label { IsLabel label.now }
    ensures records { OnOk result (elements_of (graph_of world.old) records ⊆ BuiltIn RECORD) }
    ensures gives { IfOk result (λ id. IsRestOf label.now (elements_of (graph_of world.old) records)
        ⊆ elements_of (graph_of world.new) id) }
    ensures only { IfOk result (λ id. elements_of (graph_of world.new) id
        ⊆ IsRestOf label.now (elements_of (graph_of world.old) records)) }
    ensures node { IfOk result (λ id. id.0 < length (graph_of world.new)) }
    ensures misfit { IfErr result (IsMisfitOf (graph_of world.old) (table_of world.new) Side.First
        records (BuiltIn RECORD) Rule.Record) }
    ensures sound { IsGraph (graph_of world.new) }
    ensures grows { Grows world.old world.new }
{
    // The contract of this call says that the graph is sound and begins with the built-in nodes.
    world.graph();
    need(world, Side::First, records, RECORD, Rule::Record)?;
    Ok(without(alloc, world, records, label)?)
}

/// A node of what the records of a node have at a label.
///
/// # Errors
///
/// The operand is refused, with an element that has no such field; or want of memory.
pub fn take_field(
    alloc: Global,
    world: &mut World,
    records: NodeId,
    label: &Name,
) -> Result<NodeId, Stop>
    requires records { records.0 < length (graph_of world.old) }
    requires label { IsLabel label.now }
    ensures have { OnOk result (elements_of (graph_of world.old) records ⊆ HasFieldAt label.now) }
    ensures gives { IfOk result (λ id. IsFieldOf label.now
        (elements_of (graph_of world.old) records)
        ⊆ elements_of (graph_of world.new) id) }
    ensures only { IfOk result (λ id. elements_of (graph_of world.new) id
        ⊆ IsFieldOf label.now (elements_of (graph_of world.old) records)) }
    ensures node { IfOk result (λ id. id.0 < length (graph_of world.new)) }
    ensures misfit { IfErr result (IsMisfitOf (graph_of world.old) (table_of world.new) Side.First
        records (HasFieldAt label.now) Rule.Field) }
    ensures sound { IsGraph (graph_of world.new) }
    ensures grows { Grows world.old world.new }
{
    // The contract of this call says that the graph is sound.
    world.graph();
    let needed = with_field(alloc, world, label)?;
    need(world, Side::First, records, needed, Rule::Field)?;
    Ok(field(alloc, world, records, label)?)
}

// A node of the records that have something at a label.
fn with_field(alloc: Global, world: &mut World, label: &Name) -> Result<NodeId, AllocError>
    requires label { IsLabel label.now }
    ensures have { IfOk result (λ id.
        elements_of (graph_of world.new) id ⊆ HasFieldAt label.now) }
    ensures all { IfOk result (λ id.
        HasFieldAt label.now ⊆ elements_of (graph_of world.new) id) }
    ensures node { IfOk result (λ id. id.0 < length (graph_of world.new)) }
    ensures sound { IsGraph (graph_of world.new) }
    ensures grows { Grows world.old world.new }
{
    // The contract of this call says that the graph is sound and begins with the built-in nodes.
    world.graph();
    let record = open_record(alloc, label)?;
    world.extend(Formulas::of(vec![in alloc; record]?)?)
}

// The records that have something at a label.
fn open_record(alloc: Global, label: &Name) -> Result<Formula, AllocError>
    requires label { IsLabel label.now }
    ensures { IfOk result (λ is. plain is ≡ formula.Record
        ((label.now, record { optional = false; type = ANY }) ∷ []) ANY) }
{
    let something = Field {
        optional: false,
        node: ANY,
    };
    let named = FieldList::of(vec![in alloc; (label.copy()?, something)]?)?;
    let rest = ANY;
    Ok(Formula::record(Fields { named, rest }))
}
