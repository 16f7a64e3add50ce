//! The records of questions as rows.
ghost use Rattle.std.specs.Prelude.{◌≡◌, ◌<◌, List, length, map, IfOk};
ghost use Rattle.cd_model.specs.AllOf.{AllOf};
ghost use Rattle.cd_model.specs.Formula.{in_node};
ghost use Rattle.cd_model.specs.Thing.{IsElement};
ghost use Rattle.cd_graph.specs.Nodes.{nodes};
ghost use Rattle.cd_needs.specs.RecordType.{record_types};
ghost use Rattle.cd_needs.specs.RecordTypes.{plain_row};
ghost use Rattle.cd_normal.specs.PlainClause.{plain_clause};
ghost use Rattle.cd_rules.specs.Clauses.{Clause as PlainClause};
ghost use Rattle.cd_rules.specs.Family.{AsksNodes};
ghost use Rattle.cd_empty.specs.Growth.{Grows};
ghost use Rattle.cd_empty.specs.Seen.{graph_of};
ghost use Rattle.cd_products.specs.Inner.ClauseBoxes.{AreClauses};
ghost use Rattle.cd_rows.specs.RecordRows.{AreRecordRows, CoverRecordValues, RowAsksNodes};
ghost use Rattle.cd_rows.specs.Inner.PlainClauses.{plain_row_clause, plain_types};
ghost use Rattle.cd_rows.specs.Inner.PlainClauses.{row_clause, row_clauses};

use crate::refused::rows_of;
use crate::row_clause::RowClause;
use cd_empty::World;
use cd_graph::Graph;
use cd_graph::fields::Fields;
use cd_needs::labels::labels_of;
use cd_needs::record_rows::row;
use cd_needs::row::Row;
use cd_normal::clause::Clause;
use cd_normal::clauses;
use cd_sets::question::Question;
use std::alloc::{AllocError, Global};

/// The records of a question as rows, each of which has a record.
///
/// # Errors
///
/// Want of memory.
pub fn record_rows(
    alloc: Global,
    world: &mut World,
    question: &Question,
) -> Result<Vec<Row>, AllocError>
    requires { AsksNodes (length (graph_of world.old)) question.now }
    ensures rows { IfOk result (λ rows. AreRecordRows (in_node (graph_of world.old)) IsElement
        question.now (map plain_row rows.items)) }
    ensures values { IfOk result (λ rows.
        CoverRecordValues (graph_of world.old) question.now (map plain_row rows.items)) }
    ensures asks { IfOk result (λ rows.
        AllOf (RowAsksNodes (length (graph_of world.old))) (map plain_row rows.items)) }
    ensures graph { graph_of world.new ≡ graph_of world.old }
    ensures grows { Grows world.old world.new }
{
    let clauses = clauses_of(alloc, world.graph(), question)?;
    rows_of(alloc, world, clauses.as_slice())
}

// The clauses of records of a question.
fn clauses_of(
    alloc: Global,
    graph: &Graph,
    question: &Question,
) -> Result<Vec<RowClause>, AllocError>
    requires { AsksNodes (length (nodes graph.now)) question.now }
    ensures { IfOk result (λ clauses. (all : List PlainClause)
        × AreClauses (nodes graph.now) question.now all
        × (map plain_row_clause clauses.items ≡ row_clauses all)) }
{
    let all = clauses(alloc, graph, question)?;
    of_records(alloc, all.as_slice())
}

// Those among some clauses.
fn of_records(alloc: Global, clauses: &[Clause<'_>]) -> Result<Vec<RowClause>, AllocError>
    ensures { IfOk result (λ found.
        map plain_row_clause found.items ≡ row_clauses (map plain_clause clauses.now)) }
{
    let mut found = Vec::new(alloc);
    for clause in clauses {
        if let Clause::Records(wanted, refused) = clause {
            found.push(clause_of(alloc, wanted.as_slice(), refused.as_slice())?)?;
        }
    }
    Ok(found)
}

// A clause of records as a row, and types that are refused.
fn clause_of(
    alloc: Global,
    wanted: &[&Fields],
    refused: &[&Fields],
) -> Result<RowClause, AllocError>
    ensures { IfOk result (λ clause. plain_row_clause clause
        ≡ row_clause (record_types wanted.now) (record_types refused.now)) }
{
    let labels = labels_of(alloc, wanted, refused)?;
    let row = row(alloc, labels.as_slice(), wanted, &[])?;
    let refused = copies(alloc, refused)?;
    Ok(RowClause { row, refused })
}

// Equal record types.
fn copies(alloc: Global, types: &[&Fields]) -> Result<Vec<Fields>, AllocError>
    ensures { IfOk result (λ all. plain_types all.items ≡ record_types types.now) }
{
    let mut all = Vec::with_capacity(alloc, types.len())?;
    for fields in types {
        all.push(fields.copy()?)?;
    }
    Ok(all)
}
