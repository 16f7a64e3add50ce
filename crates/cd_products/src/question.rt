//! The formula of a question.
ghost use Rattle.std.specs.Prelude.{◌<◌, length, IfOk};
ghost use Rattle.cd_model.specs.AllOf.{AllOf};
ghost use Rattle.cd_graph.specs.Nodes.{nodes};
ghost use Rattle.cd_graph.specs.PlainFormula.{plain};
ghost use Rattle.cd_products.specs.Keeping.{IsFormulaOfQuestion};

use crate::basic::one_node_is_basic;
use crate::sets::of_sets;
use cd_graph::{Formula, Graph};
use cd_normal::basics;
use cd_sets::question::Question;
use std::alloc::{AllocError, Global};

/// A formula that holds just what is in each node of `pos` and in none of `neg`. Where one of those
/// nodes is seen to hold no thing with parts, it has one set of integers, of characters and of
/// atoms at most, so that it does not grow with what it is made from; else it is made of copies of
/// their formulas.
///
/// # Errors
///
/// Want of memory, also where connectives nest too deep.
pub fn question_formula(
    alloc: Global,
    graph: &Graph,
    question: &Question,
) -> Result<Formula, AllocError>
    requires pos { AllOf (λ id. id.0 < length (nodes graph.now)) question.now.pos }
    requires neg { AllOf (λ id. id.0 < length (nodes graph.now)) question.now.neg }
    ensures { IfOk result (λ is. IsFormulaOfQuestion (nodes graph.now) question.now (plain is)) }
{
    if one_node_is_basic(graph, question.pos.ids()) {
        return of_sets(alloc, basics(alloc, graph, question)?);
    }
    graph.formula_of(question)
}
