//! The formula of a union of questions.
ghost use Rattle.std.specs.Prelude.{length, IfOk};
ghost use Rattle.cd_model.specs.AllOf.{AllOf};
ghost use Rattle.cd_graph.specs.Nodes.{nodes};
ghost use Rattle.cd_graph.specs.PlainFormula.{plain};
ghost use Rattle.cd_rules.specs.Family.{AsksNodes};
ghost use Rattle.cd_builders.specs.Unions.{IsFormulaOfUnion};
ghost use Rattle.cd_builders.specs.Inner.Members.{IsMember};

use crate::alone::alone;
use cd_graph::{Formula, Formulas, Graph};
use cd_products::question_formula;
use cd_sets::question::Question;
use std::alloc::{AllocError, Global};

/// A formula that holds exactly what is in one of some questions: the union of a formula of each.
///
/// # Errors
///
/// Want of memory, also where connectives nest too deep.
pub fn union_formula(
    alloc: Global,
    graph: &Graph,
    questions: &[Question],
) -> Result<Formula, AllocError>
    requires { AllOf (AsksNodes (length (nodes graph.now))) questions.now }
    ensures { IfOk result (λ is. IsFormulaOfUnion (nodes graph.now) questions.now (plain is)) }
{
    let mut members = Vec::with_capacity(alloc, questions.len())?;
    for question in questions {
        members.push(member(alloc, graph, question)?)?;
    }
    Ok(Formula::or(Formulas::of(members)?))
}

// The formula of a question: a copy of that of the node that it asks for alone, so that a union of
// unions is seen to be one.
fn member(alloc: Global, graph: &Graph, question: &Question) -> Result<Formula, AllocError>
    requires { AsksNodes (length (nodes graph.now)) question.now }
    ensures { IfOk result (λ is. IsMember (nodes graph.now) question.now (plain is)) }
{
    // The contract of this call says that the graph begins with the built-in nodes.
    graph.knows();
    match alone(question) {
        Some(id) => graph.formula(id).copy(),
        None => question_formula(alloc, graph, question),
    }
}
