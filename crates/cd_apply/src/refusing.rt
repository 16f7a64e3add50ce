//! Whether clauses have functions.
ghost use Rattle.std.specs.Prelude.{◌≡◌, ◌<◌, ◌↔◌, length, IfOk, IsTrue};
ghost use Rattle.cd_model.specs.AllOf.{AllOf};
ghost use Rattle.cd_rules.specs.Family.{AsksNodes};
ghost use Rattle.cd_rules.specs.Within.{IsPairWithin};
ghost use Rattle.cd_empty.specs.Growth.{Grows};
ghost use Rattle.cd_empty.specs.Seen.{graph_of};
ghost use Rattle.cd_apply.specs.Inner.FunctionClauses.{IsClauseWithin, HasFunction};
ghost use Rattle.cd_apply.specs.Inner.Found.{HasOneOutside};
ghost use Rattle.cd_apply.specs.Inner.PlainClauses.{plain_function_clause};
ghost use Rattle.cd_apply.specs.Inner.Results.{CanRefuse};

use crate::beyond::beyond;
use crate::clauses::FunctionClause;
use crate::found::is_inside;
use crate::unsettled::add_image;
use cd_empty::World;
use cd_sets::node_id::NodeId;
use cd_sets::question::Question;
use std::alloc::{AllocError, Global};

/// Whether some function is in a clause.
pub(crate) fn has_function(
    alloc: Global,
    world: &mut World,
    clause: &FunctionClause,
) -> Result<bool, AllocError>
    requires { IsClauseWithin (length (graph_of world.old)) (plain_function_clause clause.now) }
    ensures has { IfOk result (λ has. IsTrue has
        ↔ HasFunction (graph_of world.old) (plain_function_clause clause.now)) }
    ensures graph { graph_of world.new ≡ graph_of world.old }
    ensures grows { Grows world.old world.new }
{
    for refused in clause.refused.as_slice() {
        if !can_refuse(alloc, world, clause.wanted.as_slice(), *refused)? {
            return Ok(false);
        }
    }
    Ok(true)
}

// Whether a function of the wanted arrows can be outside a refused one: it may fail at an argument
// of that one, or map it to what is outside the result of that one.
fn can_refuse(
    alloc: Global,
    world: &mut World,
    wanted: &[(NodeId, NodeId)],
    refused: (NodeId, NodeId),
) -> Result<bool, AllocError>
    requires wanted { AllOf (IsPairWithin (length (graph_of world.old))) wanted.now }
    requires refused { IsPairWithin (length (graph_of world.old)) refused }
    ensures can { IfOk result
        (λ can. IsTrue can ↔ CanRefuse (graph_of world.old) wanted.now refused) }
    ensures graph { graph_of world.new ≡ graph_of world.old }
    ensures grows { Grows world.old world.new }
{
    if beyond(alloc, world, refused.0, wanted)?.is_some() {
        return Ok(true);
    }
    let mut questions = Vec::new(alloc);
    add_image(alloc, world, refused.0, wanted, &mut questions)?;
    has_one_outside(world, questions.as_slice(), refused.1)
}

// Whether some element of one of these questions is outside a node.
fn has_one_outside(
    world: &mut World,
    questions: &[Question],
    id: NodeId,
) -> Result<bool, AllocError>
    requires questions { AllOf (AsksNodes (length (graph_of world.old))) questions.now }
    requires id { id.0 < length (graph_of world.old) }
    ensures has { IfOk result
        (λ has. IsTrue has ↔ HasOneOutside (graph_of world.old) questions.now id) }
    ensures graph { graph_of world.new ≡ graph_of world.old }
    ensures grows { Grows world.old world.new }
{
    for question in questions {
        if !is_inside(world, question, id)? {
            return Ok(true);
        }
    }
    Ok(false)
}
