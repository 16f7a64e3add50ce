//! What is found of sets of nodes, and not known yet.
ghost use Rattle.std.specs.Prelude.{◌≡◌, ◌<◌, length, IfOk, map};
ghost use Rattle.cd_graph.specs.Nodes.{nodes};
ghost use Rattle.cd_cells.specs.Table.{names};
ghost use Rattle.cd_asking.specs.Inner.Shapes.{members};
ghost use Rattle.cd_asking.specs.Inner.Tasks.{Covers, answered};
ghost use Rattle.cd_asking.specs.Inner.Asked.{set_at, child_by, plain_child, plain_shape, HasLabel};
ghost use Rattle.cd_asking.specs.Inner.Asked.{shape_by, fields_by, IsCase, done_by, held};
ghost use Rattle.cd_asking.specs.Inner.Asked.{AreNodesOf, Grow, Found};

use crate::case::{Case, shape_of};
use crate::field_rows::FieldRows;
use crate::led::{Child, led_from};
use crate::node_sets::{NodeSets, SetId};
use crate::row::Answered;
use crate::shape::{Held, Shape, hold_all, members_of};
use cd_cells::Values;
use cd_graph::Graph;
use cd_sets::node_id::NodeId;
use cd_syntax::name::Name;
use std::alloc::{AllocError, Global};

/// The set of nodes at which a set asks a child of a value.
pub(crate) fn find_lead(
    sets: &mut NodeSets,
    graph: &Graph,
    values: &Values,
    set: SetId,
    child: Child,
) -> Result<SetId, AllocError>
    requires sound { AreNodesOf (nodes graph.now) sets.old }
    ensures covers { let child_is = plain_child (names values.now) child in
        IfOk result (λ next. Covers (nodes graph.now) child_is (set_at sets.old set)
        (set_at sets.new next)) }
    ensures within { IfOk result (λ next. next.0 < length sets.new) }
    ensures sound { AreNodesOf (nodes graph.now) sets.new }
    ensures grows { Grow sets.old sets.new }
{
    let alloc = sets.allocator();
    let label = label_of(alloc, values, child)?;
    let next = led_from(alloc, graph, sets.get(set), child, &label)?;
    sets.number(next.ids())
}

// The label of a field, or the empty name.
fn label_of(alloc: Global, values: &Values, child: Child) -> Result<Name, AllocError>
    ensures { IfOk result (λ label. child_by label child ≡ plain_child (names values.now) child) }
{
    match child {
        Child::At(label) => Name::of(alloc, values.name_of(label)),
        Child::First => Name::of(alloc, ""),
        Child::Second => Name::of(alloc, ""),
        Child::Tag => Name::of(alloc, ""),
        Child::Attributes => Name::of(alloc, ""),
        Child::Content => Name::of(alloc, ""),
    }
}

/// The set of those nodes of a set that hold a value.
pub(crate) fn find_members(
    sets: &mut NodeSets,
    graph: &Graph,
    set: SetId,
    shape: &Shape<'_>,
) -> Result<SetId, AllocError>
    requires set { set.0 < length sets.old }
    requires label { HasLabel shape.now }
    requires sound { AreNodesOf (nodes graph.now) sets.old }
    ensures found { let ids = set_at sets.old set in
        IfOk result (Found (nodes graph.now) (plain_shape shape.now) ids sets.new) }
    ensures sound { AreNodesOf (nodes graph.now) sets.new }
    ensures grows { Grow sets.old sets.new }
{
    if hold_all(graph, shape, sets.get(set)) {
        return Ok(set);
    }
    let ids = members_of(sets.allocator(), graph, shape, sets.get(set))?;
    sets.number(ids.as_slice())
}

/// The same of a value by its case.
pub(crate) fn find_case(
    sets: &mut NodeSets,
    rows: &FieldRows,
    graph: &Graph,
    values: &Values,
    set: SetId,
    case: Case,
) -> Result<SetId, AllocError>
    requires case { IsCase (names values.now) case }
    requires sound { AreNodesOf (nodes graph.now) sets.old }
    ensures found { let shape = shape_by (names values.now) sets.old rows.now case in
        IfOk result (Found (nodes graph.now) shape (set_at sets.old set) sets.new) }
    ensures sound { AreNodesOf (nodes graph.now) sets.new }
    ensures grows { Grow sets.old sets.new }
{
    let ids = case_members(sets, rows, graph, values, set, case)?;
    sets.number(ids.as_slice())
}

// Those nodes of a set that hold the value.
fn case_members(
    sets: &NodeSets,
    rows: &FieldRows,
    graph: &Graph,
    values: &Values,
    set: SetId,
    case: Case,
) -> Result<Vec<NodeId>, AllocError>
    requires { IsCase (names values.now) case }
    ensures { let shape = shape_by (names values.now) sets.now rows.now case in
        IfOk result
        (λ ids. ids.items ≡ members (nodes graph.now) shape (set_at sets.now set)) }
{
    let fields = case_fields(sets, rows, values, case)?;
    let shape = shape_of(sets, values, fields.as_slice(), case);
    members_of(sets.allocator(), graph, &shape, sets.get(set))
}

// The fields of a record with the nodes that hold their values. Another value has none.
fn case_fields<'s>(
    sets: &'s NodeSets,
    rows: &FieldRows,
    values: &'s Values,
    case: Case,
) -> Result<Vec<Held<'s>>, AllocError>
    ensures { IfOk result
        (λ fields. map held fields.items ≡ fields_by (names values.now) sets.now rows.now case) }
{
    match case {
        Case::Record(row) => {
            let done = rows.fields(row)?;
            held_fields(sets, values, done.as_slice())
        }
        _ => Ok(Vec::new(sets.allocator())),
    }
}

// The fields with the nodes that hold their values.
fn held_fields<'s>(
    sets: &'s NodeSets,
    values: &'s Values,
    done: &[Answered],
) -> Result<Vec<Held<'s>>, AllocError>
    ensures { IfOk result (λ fields. map held fields.items
        ≡ answered (map (done_by (names values.now) sets.now) done.now)) }
{
    let mut fields = Vec::new(sets.allocator());
    for field in done {
        fields.push(Held {
            label: values.name_of(field.label),
            nodes: sets.get(field.nodes),
        })?;
    }
    Ok(fields)
}
