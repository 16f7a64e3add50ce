//! The rows of clauses.
ghost use Rattle.std.specs.Prelude.{◌≡◌, [], ◌∷◌, Bool, List, length, map, IfOk};
ghost use Rattle.cd_sets.specs.declared.question.Question.{Question as AQuestion};
ghost use Rattle.cd_model.specs.AllOf.{AllOf};
ghost use Rattle.cd_rules.specs.Within.{IsTypeWithin};
ghost use Rattle.cd_needs.specs.RecordType.{record_type};
ghost use Rattle.cd_needs.specs.RecordTypes.{plain_row};
ghost use Rattle.cd_empty.specs.Seen.{graph_of};
ghost use Rattle.cd_products.specs.Inner.After.{IsAfter};
ghost use Rattle.cd_products.specs.Inner.Tests.{IsTest};
ghost use Rattle.cd_rows.specs.RecordRows.{RowAsksNodes};
ghost use Rattle.cd_rows.specs.Inner.PlainClauses.{plain_row_clause};
ghost use Rattle.cd_rows.specs.Inner.Refining.{ClauseAsks, refuse as refuse_type, keep as keep_rows};
ghost use Rattle.cd_rows.specs.Inner.Refining.{rows_of_clause, rows_of_clauses};

use crate::cut::less;
use crate::row_clause::RowClause;
use crate::witnesses::{keep, keep_one};
use cd_empty::World;
use cd_graph::fields::Fields;
use cd_needs::row::Row;
use std::alloc::{AllocError, Global};

/// Rows, each of which has a record, for what is in the clauses.
pub(crate) fn rows_of(
    alloc: Global,
    world: &mut World,
    clauses: &[RowClause],
) -> Result<Vec<Row>, AllocError>
    requires { AllOf (ClauseAsks (length (graph_of world.old)))
        (map plain_row_clause clauses.now) }
    ensures exact { IfOk result
        (λ rows. (test : List AQuestion → Bool) → IsTest (graph_of world.old) test
        → map plain_row rows.items
        ≡ rows_of_clauses test (map plain_row_clause clauses.now)) }
    ensures after { IsAfter world.old world.new }
{
    let mut all = Vec::new(alloc);
    for clause in clauses {
        let mut rows = rows_of_one(alloc, world, clause)?;
        all.append(&mut rows)?;
    }
    Ok(all)
}

// For what is in one clause.
fn rows_of_one(alloc: Global, world: &mut World, clause: &RowClause) -> Result<Vec<Row>, AllocError>
    requires { ClauseAsks (length (graph_of world.old)) (plain_row_clause clause.now) }
    ensures exact { IfOk result
        (λ rows. (test : List AQuestion → Bool) → IsTest (graph_of world.old) test
        → map plain_row rows.items ≡ rows_of_clause test (plain_row_clause clause.now)) }
    ensures after { IsAfter world.old world.new }
{
    let mut rows = first_row(alloc, world, &clause.row)?;
    for fields in clause.refused.as_slice() {
        rows = refuse(alloc, world, fields, rows.as_slice())?;
    }
    Ok(rows)
}

// The row of a clause, if it has a record.
fn first_row(alloc: Global, world: &mut World, row: &Row) -> Result<Vec<Row>, AllocError>
    requires { RowAsksNodes (length (graph_of world.old)) (plain_row row.now) }
    ensures exact { IfOk result
        (λ rows. (test : List AQuestion → Bool) → IsTest (graph_of world.old) test
        → map plain_row rows.items ≡ keep_rows test (plain_row row.now ∷ [])) }
    ensures of_graph { IfOk result (λ rows.
        AllOf (RowAsksNodes (length (graph_of world.old))) (map plain_row rows.items)) }
    ensures after { IsAfter world.old world.new }
{
    // The contract of this call says that the graph is sound.
    world.graph();
    let mut rows = Vec::new(alloc);
    keep_one(world, row, &mut rows)?;
    Ok(rows)
}

// What of rows is outside a type.
fn refuse(
    alloc: Global,
    world: &mut World,
    refused: &Fields,
    rows: &[Row],
) -> Result<Vec<Row>, AllocError>
    requires within { IsTypeWithin (length (graph_of world.old)) (record_type refused.now) }
    requires rows { AllOf (RowAsksNodes (length (graph_of world.old))) (map plain_row rows.now) }
    ensures exact { IfOk result
        (λ found. (test : List AQuestion → Bool) → IsTest (graph_of world.old) test
        → map plain_row found.items
        ≡ refuse_type test (record_type refused.now) (map plain_row rows.now)) }
    ensures of_graph { IfOk result (λ found.
        AllOf (RowAsksNodes (length (graph_of world.old))) (map plain_row found.items)) }
    ensures after { IsAfter world.old world.new }
{
    // The contract of this call says that the graph is sound.
    world.graph();
    let mut found = Vec::new(alloc);
    for row in rows {
        let parts = less(alloc, refused, row)?;
        keep(world, parts.as_slice(), &mut found)?;
    }
    Ok(found)
}
