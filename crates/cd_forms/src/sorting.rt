//! Fields in the order of their labels.
ghost use Rattle.std.specs.Prelude.{◌≡◌, ◌≤◌, ◌++◌, ◌∷◌, [], map, length, take, drop, IfOk, OnOk};
ghost use Rattle.std.specs.Ordering.{nat_cmp};
ghost use Rattle.std.specs.Cmp.Lexicographic.{slice_cmp};
ghost use Rattle.cd_graph.specs.PlainFormula.{plain_field as plain_graph_field, plain_named};
ghost use Rattle.cd_program.specs.Expr.{fields_of};
ghost use Rattle.cd_program.specs.PlainExpr.{plain_field};
ghost use Rattle.cd_model.specs.SortedFields.{inserted};
ghost use Rattle.cd_forms.specs.Inner.Sorting.{sorted_over, typed_fields};

use cd_graph::fields::Field;
use cd_program::expr::FieldExpr;
use cd_sets::node_id::NodeId;
use cd_syntax::name::Name;
use std::alloc::{AllocError, Global};
use std::cmp::Ordering;

// The order of two names by their characters.
fn compare(one: &Name, other: &Name) -> Ordering
    ensures { result ≡ slice_cmp nat_cmp one.now other.now }
{
    one.as_str().chars().cmp(other.as_str().chars())
}

// Where a field is to stand among fields in order: before the first whose label is above its own.
fn place_for(sorted: &[(Name, Field)], label: &Name, field: Field) -> usize
    ensures within { result ≤ length sorted.now }
    ensures put { inserted (label.now, plain_graph_field field) (plain_named sorted.now)
        ≡ take result (plain_named sorted.now)
        ++ (label.now, plain_graph_field field) ∷ drop result (plain_named sorted.now) }
{
    for index in 0..sorted.len() {
        match compare(label, &sorted[index].0) {
            Ordering::Less => return index,
            Ordering::Equal => {}
            Ordering::Greater => {}
        }
    }
    sorted.len()
}

// Puts a field among fields in order.
fn insert(sorted: &mut Vec<(Name, Field)>, label: Name, field: Field) -> Result<(), AllocError>
    ensures { OnOk result (plain_named sorted.new.items
        ≡ inserted (label, plain_graph_field field) (plain_named sorted.old.items)) }
{
    let index = place_for(sorted.as_slice(), &label, field);
    sorted.insert(index, (label, field))?;
    Ok(())
}

// The label of a field.
fn label_of(field: &FieldExpr) -> &Name
    ensures { result.now ≡ (plain_field field.now).label }
{
    &field.label
}

/// What a record type says of fields whose values are in these nodes, in the order of their labels:
/// each has to be there.
pub(crate) fn fields_in_order(
    alloc: Global,
    fields: &[FieldExpr],
    parts: &[NodeId],
) -> Result<Vec<(Name, Field)>, AllocError>
    requires { length parts.now ≡ length fields.now }
    ensures { IfOk result (λ named. plain_named named.items
        ≡ sorted_over [] (typed_fields (fields_of (map plain_field fields.now)) parts.now)) }
{
    let mut named = Vec::new(alloc);
    for (index, field) in fields.iter().enumerate() {
        let label = label_of(field).copy()?;
        let node = parts[index];
        let optional = false;
        insert(&mut named, label, Field { optional, node })?;
    }
    Ok(named)
}
