//! Questions with one node more, and cells with one field more.
ghost use Rattle.std.specs.Prelude.{◌≡◌, IfOk};
ghost use Rattle.cd_graph.specs.PlainFormula.{plain_field};
ghost use Rattle.cd_needs.specs.RecordTypes.{plain_cell};
ghost use Rattle.cd_rules.specs.Needs.{with_id};
ghost use Rattle.cd_products.specs.QuestionBoxes.{within_node, without_node};
ghost use Rattle.cd_rows.specs.Inner.Refining.{within_field, without_field};

use cd_graph::fields::Field;
use cd_needs::row::FieldCell;
use cd_sets::id_set::IdSet;
use cd_sets::node_id::NodeId;
use cd_sets::question::Question;
use std::alloc::AllocError;

/// What of a cell is as a field says.
pub(crate) fn within(field: Field, cell: &FieldCell) -> Result<FieldCell, AllocError>
    ensures { IfOk result (λ narrowed.
        plain_cell narrowed ≡ within_field (plain_field field) (plain_cell cell.now)) }
{
    Ok(FieldCell {
        absent: cell.absent && field.optional,
        value: in_node(field.node, &cell.value)?,
    })
}

/// What of a cell is not as a field says.
pub(crate) fn without(field: Field, cell: &FieldCell) -> Result<FieldCell, AllocError>
    ensures { IfOk result (λ narrowed.
        plain_cell narrowed ≡ without_field (plain_field field) (plain_cell cell.now)) }
{
    Ok(FieldCell {
        absent: cell.absent && !field.optional,
        value: outside_node(field.node, &cell.value)?,
    })
}

// What of a question is in a node too.
fn in_node(id: NodeId, question: &Question) -> Result<Question, AllocError>
    ensures { IfOk result (λ narrowed. narrowed ≡ within_node id question.now) }
{
    let pos = with(question.pos.copy()?, id)?;
    let neg = question.neg.copy()?;
    Ok(Question { pos, neg })
}

/// What of a question is outside a node.
pub(crate) fn outside_node(id: NodeId, question: &Question) -> Result<Question, AllocError>
    ensures { IfOk result (λ narrowed. narrowed ≡ without_node id question.now) }
{
    let pos = question.pos.copy()?;
    let neg = with(question.neg.copy()?, id)?;
    Ok(Question { pos, neg })
}

// A set with one more number.
fn with(mut set: IdSet, id: NodeId) -> Result<IdSet, AllocError>
    ensures { IfOk result (λ all. all ≡ with_id id set) }
{
    set.knows();
    set.insert(id)?;
    // The contract of this call says that the set rises.
    set.knows();
    Ok(set)
}
