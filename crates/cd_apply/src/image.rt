//! What functions of clauses give.
ghost use Rattle.std.specs.Prelude.{◌≡◌, ◌<◌, length, map, IfOk, OnOk};
ghost use Rattle.cd_model.specs.AllOf.{AllOf};
ghost use Rattle.cd_rules.specs.Family.{AsksNodes};
ghost use Rattle.cd_empty.specs.Growth.{Grows};
ghost use Rattle.cd_empty.specs.Seen.{graph_of, table_of};
ghost use Rattle.cd_apply.specs.Inner.FunctionClauses.{IsClauseWithin};
ghost use Rattle.cd_apply.specs.Inner.Images.{IsImage, AddsClause};
ghost use Rattle.cd_apply.specs.Inner.PlainClauses.{plain_function_clause};

use crate::beyond::beyond;
use crate::clauses::FunctionClause;
use crate::refusing::has_function;
use crate::unsettled::add_image;
use cd_elements::ElementId;
use cd_empty::World;
use cd_sets::node_id::NodeId;
use cd_sets::question::Question;
use std::alloc::{AllocError, Global};

/// What functions give for arguments.
#[derive(Drop)]
pub(crate) enum Image {
    /// Some function fails at this argument.
    Fails(ElementId),
    /// The results are what is in one of these questions.
    Union(Vec<Question>),
}

/// What the functions of these clauses give for what is in a node.
pub(crate) fn image_of(
    alloc: Global,
    world: &mut World,
    clauses: &[FunctionClause],
    argument: NodeId,
) -> Result<Image, AllocError>
    requires argument { argument.0 < length (graph_of world.old) }
    requires clauses { AllOf (IsClauseWithin (length (graph_of world.old)))
        (map plain_function_clause clauses.now) }
    ensures image { IfOk result (IsImage (graph_of world.old) argument (table_of world.new)
        (map plain_function_clause clauses.now)) }
    ensures graph { graph_of world.new ≡ graph_of world.old }
    ensures grows { Grows world.old world.new }
{
    let mut questions = Vec::new(alloc);
    for clause in clauses {
        if let Some(element) = add_clause(alloc, world, clause, argument, &mut questions)? {
            return Ok(Image::Fails(element));
        }
    }
    Ok(Image::Union(questions))
}

// Adds questions of the results of the functions of a clause, or finds an argument at which one of
// them fails.
fn add_clause(
    alloc: Global,
    world: &mut World,
    clause: &FunctionClause,
    argument: NodeId,
    questions: &mut Vec<Question>,
) -> Result<Option<ElementId>, AllocError>
    requires argument { argument.0 < length (graph_of world.old) }
    requires clause { IsClauseWithin (length (graph_of world.old))
        (plain_function_clause clause.now) }
    requires questions { AllOf (AsksNodes (length (graph_of world.old))) questions.old.items }
    ensures added { IfOk result (AddsClause (graph_of world.old) argument (table_of world.new)
        (plain_function_clause clause.now) questions.old.items questions.new.items) }
    ensures asks { OnOk result
        (AllOf (AsksNodes (length (graph_of world.old))) questions.new.items) }
    ensures graph { graph_of world.new ≡ graph_of world.old }
    ensures grows { Grows world.old world.new }
{
    if !has_function(alloc, world, clause)? {
        return Ok(None);
    }
    let wanted = clause.wanted.as_slice();
    if let Some(element) = beyond(alloc, world, argument, wanted)? {
        return Ok(Some(element));
    }
    add_image(alloc, world, argument, wanted, questions)?;
    Ok(None)
}
