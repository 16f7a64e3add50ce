//! Nodes for what is in one of some questions.
ghost use Rattle.std.specs.Prelude.{length, map, IfOk, OnOk};
ghost use Rattle.cd_model.specs.AllOf.{AllOf};
ghost use Rattle.cd_graph.specs.Nodes.{nodes};
ghost use Rattle.cd_graph.specs.PlainFormula.{plain};
ghost use Rattle.cd_rules.specs.Family.{AsksNodes};
ghost use Rattle.cd_records.specs.Inner.Plain.{plain_questions};
ghost use Rattle.cd_records.specs.Inner.Standing.{Adds, HoldsUnion, HoldsOutside};

use crate::batch::put;
use crate::questions::copies;
use cd_builders::{only_node, union_formula};
use cd_graph::{Formula, Graph};
use cd_products::question_formula;
use cd_sets::node_id::NodeId;
use cd_sets::question::Question;
use std::alloc::{AllocError, Global};
use std::rc::Rc;

/// A node that holds what is in one of the questions: one of the graph, or else one for which a
/// formula is added.
pub(crate) fn node_of(
    alloc: Global,
    graph: &Graph,
    batch: &mut Vec<Formula>,
    questions: &[&Question],
) -> Result<NodeId, AllocError>
    requires { AllOf (AsksNodes (length (nodes graph.now))) (plain_questions questions.now) }
    ensures holding { IfOk result (λ id. HoldsUnion (nodes graph.now)
        (map plain batch.new.items) (plain_questions questions.now) id) }
    ensures adds { OnOk result
        (Adds (nodes graph.now) (map plain batch.old.items) (map plain batch.new.items)) }
{
    // The contract of this call says that the graph is sound and begins with the built-in nodes.
    graph.knows();
    let asked = copies(alloc, questions)?;
    match only_node(asked.as_slice()) {
        Some(id) => Ok(id),
        None => {
            let union = union_formula(alloc, graph, asked.as_slice())?;
            Ok(put(graph, batch, union)?)
        }
    }
}

/// A node that holds what is outside a question.
pub(crate) fn outside(
    alloc: Global,
    graph: &Graph,
    batch: &mut Vec<Formula>,
    question: &Question,
) -> Result<NodeId, AllocError>
    requires { AsksNodes (length (nodes graph.now)) question.now }
    ensures holding { IfOk result (λ id. HoldsOutside (nodes graph.now)
        (map plain batch.new.items) question.now id) }
    ensures adds { OnOk result
        (Adds (nodes graph.now) (map plain batch.old.items) (map plain batch.new.items)) }
{
    // The contract of this call says that the graph is sound.
    graph.knows();
    let inside = question_formula(alloc, graph, question)?;
    let negated = Formula::not(Rc::new(alloc, inside)?);
    Ok(put(graph, batch, negated)?)
}
