//! Formulas of questions.
ghost use Rattle.std.specs.Prelude.{map, length, IfOk};
ghost use Rattle.std.specs.List.{AllZip};
ghost use Rattle.cd_model.specs.AllOf.{AllOf};
ghost use Rattle.cd_graph.specs.Nodes.{nodes};
ghost use Rattle.cd_graph.specs.PlainFormula.{plain};
ghost use Rattle.cd_products.specs.Keeping.{IsFormulaOfQuestion};
ghost use Rattle.cd_rules.specs.Family.{AsksNodes};

use crate::of_sequences::numbered::Numbered;
use cd_graph::{Formula, Graph};
use cd_products::question_formula;
use std::alloc::{AllocError, Global};

/// A formula for each of some questions.
pub(crate) fn question_formulas(
    alloc: Global,
    graph: &Graph,
    questions: &Numbered,
) -> Result<Vec<Formula>, AllocError>
    requires { AllOf (AsksNodes (length (nodes graph.now))) questions.now }
    ensures { IfOk result (λ formulas. AllZip (IsFormulaOfQuestion (nodes graph.now)) questions.now
        (map plain formulas.items)) }
{
    let mut formulas = Vec::new(alloc);
    while let Some(question) = questions.get(formulas.len()) {
        formulas.push(question_formula(alloc, graph, question)?)?;
    }
    Ok(formulas)
}
