//! The clauses of a question.
ghost use Rattle.std.specs.Prelude.{◌≡◌, ◌<◌, ◌++◌, ◌⊎◌, length, map, IfOk, OnOk};
ghost use Rattle.cd_model.specs.AllOf.{AllOf, AnyOf};
ghost use Rattle.cd_graph.specs.Nodes.{nodes};
ghost use Rattle.cd_rules.specs.BasicSets.{IsBasic};
ghost use Rattle.cd_rules.specs.Clauses.{Clause as PlainClause, IsClauseOfQuestion};
ghost use Rattle.cd_normal.specs.PlainClause.{plain_clause};
ghost use Rattle.cd_normal.specs.Inner.ClausesOfKinds.{clauses_of_kind, clauses_of_all};

use crate::clause::Clause;
use crate::conjunct::dnf_of;
use crate::kind::{Kind, kinds};
use crate::of_conjunct::clause_of;
use cd_graph::Graph;
use cd_sets::question::Question;
use std::alloc::{AllocError, Global};

/// The clauses of a question for the kinds of things that have parts.
///
/// # Errors
///
/// Want of memory.
pub fn clauses<'g>(
    alloc: Global,
    graph: &'g Graph,
    question: &Question,
) -> Result<Vec<Clause<'g>>, AllocError>
    requires pos { AllOf (λ id. id.0 < length (nodes graph.now)) question.now.pos }
    requires neg { AllOf (λ id. id.0 < length (nodes graph.now)) question.now.neg }
    ensures sound { IfOk result (λ clauses. AllOf
        (λ clause. IsClauseOfQuestion (nodes graph.now) question.now (plain_clause clause))
        clauses.items) }
    ensures complete { IfOk result
        (λ clauses. (is : PlainClause) → IsClauseOfQuestion (nodes graph.now) question.now is
        → IsBasic is ⊎ AnyOf (λ clause. plain_clause clause ≡ is) clauses.items) }
{
    clauses_by_kind(alloc, graph, question)
}

// Those of one kind, and then those of the next.
fn clauses_by_kind<'g>(
    alloc: Global,
    graph: &'g Graph,
    question: &Question,
) -> Result<Vec<Clause<'g>>, AllocError>
    requires pos { AllOf (λ id. id.0 < length (nodes graph.now)) question.now.pos }
    requires neg { AllOf (λ id. id.0 < length (nodes graph.now)) question.now.neg }
    ensures { IfOk result (λ clauses.
        map plain_clause clauses.items ≡ clauses_of_all (nodes graph.now) question.now) }
{
    let mut found = Vec::new(alloc);
    for kind in kinds() {
        add_clauses(&mut found, graph, *kind, question)?;
    }
    Ok(found)
}

// Adds those of a kind.
fn add_clauses<'g>(
    found: &mut Vec<Clause<'g>>,
    graph: &'g Graph,
    kind: Kind,
    question: &Question,
) -> Result<(), AllocError>
    requires pos { AllOf (λ id. id.0 < length (nodes graph.now)) question.now.pos }
    requires neg { AllOf (λ id. id.0 < length (nodes graph.now)) question.now.neg }
    ensures { OnOk result (map plain_clause found.new.items ≡ map plain_clause found.old.items
        ++ clauses_of_kind (nodes graph.now) question.now kind) }
{
    let alloc = *found.allocator();
    let conjuncts = dnf_of(alloc, graph, kind, question)?;
    for conjunct in conjuncts.as_slice() {
        found.push(clause_of(alloc, kind, conjunct.as_slice())?)?;
    }
    Ok(())
}
