//! The pieces of clauses.
ghost use Rattle.std.specs.Prelude.{◌≡◌, ◌<◌, [], ◌∷◌, Bool, List, length, map, IfOk};
ghost use Rattle.cd_sets.specs.declared.question.Question.{Question as AQuestion};
ghost use Rattle.cd_model.specs.AllOf.{AllOf};
ghost use Rattle.cd_rules.specs.Family.{AsksNodes};
ghost use Rattle.cd_empty.specs.Seen.{graph_of};
ghost use Rattle.cd_products.specs.QuestionBoxes.{question_pieces, question_pieces_of};
ghost use Rattle.cd_products.specs.Inner.After.{IsAfter};
ghost use Rattle.cd_products.specs.Inner.PlainBoxes.{plain_box};
ghost use Rattle.cd_products.specs.Inner.Tests.{IsTest, AreOfGraph, IsBoxOfGraph};
ghost use Rattle.cd_products.specs.Inner.Tests.{keep_boxes, refuse_row};

use crate::clause_box::ClauseBox;
use crate::cut::less;
use crate::inhabited::{keep, keep_one};
use cd_empty::World;
use cd_sets::node_id::NodeId;
use cd_sets::question::Questions;
use std::alloc::{AllocError, Global};

/// Disjoint boxes, each of whose questions has an element, for what is in the clauses.
pub(crate) fn pieces(
    alloc: Global,
    world: &mut World,
    clauses: &[ClauseBox],
) -> Result<Vec<Questions>, AllocError>
    requires { AllOf (IsBoxOfGraph (graph_of world.old)) (map plain_box clauses.now) }
    ensures exact { IfOk result
        (λ boxes. (test : List AQuestion → Bool) → IsTest (graph_of world.old) test
        → boxes.items ≡ question_pieces test (map plain_box clauses.now)) }
    ensures after { IsAfter world.old world.new }
{
    let mut all = Vec::new(alloc);
    for clause in clauses {
        let mut boxes = pieces_of(alloc, world, clause)?;
        all.append(&mut boxes)?;
    }
    Ok(all)
}

// For what is in one clause.
fn pieces_of(
    alloc: Global,
    world: &mut World,
    clause: &ClauseBox,
) -> Result<Vec<Questions>, AllocError>
    requires { IsBoxOfGraph (graph_of world.old) (plain_box clause.now) }
    ensures exact { IfOk result
        (λ boxes. (test : List AQuestion → Bool) → IsTest (graph_of world.old) test
        → boxes.items ≡ question_pieces_of test (plain_box clause.now)) }
    ensures after { IsAfter world.old world.new }
{
    let mut boxes = first_box(alloc, world, &clause.cells)?;
    for row in clause.refused.as_slice() {
        boxes = refuse(alloc, world, row.as_slice(), boxes.as_slice())?;
    }
    Ok(boxes)
}

// The box of a clause, if it is inhabited.
fn first_box(
    alloc: Global,
    world: &mut World,
    cells: &Questions,
) -> Result<Vec<Questions>, AllocError>
    requires { AllOf (AsksNodes (length (graph_of world.old))) cells.now }
    ensures exact { IfOk result
        (λ boxes. (test : List AQuestion → Bool) → IsTest (graph_of world.old) test
        → boxes.items ≡ keep_boxes test (cells.now ∷ [])) }
    ensures of_graph { IfOk result (λ boxes. AreOfGraph (graph_of world.old) boxes.items) }
    ensures after { IsAfter world.old world.new }
{
    // The contract of this call says that the graph is sound.
    world.graph();
    let mut boxes = Vec::new(alloc);
    keep_one(world, cells, &mut boxes)?;
    Ok(boxes)
}

// What of boxes is outside a row.
fn refuse(
    alloc: Global,
    world: &mut World,
    row: &[NodeId],
    boxes: &[Questions],
) -> Result<Vec<Questions>, AllocError>
    requires row { AllOf (λ id. id.0 < length (graph_of world.old)) row.now }
    requires boxes { AreOfGraph (graph_of world.old) boxes.now }
    ensures exact { IfOk result
        (λ found. (test : List AQuestion → Bool) → IsTest (graph_of world.old) test
        → found.items ≡ refuse_row test row.now boxes.now) }
    ensures of_graph { IfOk result (λ found. AreOfGraph (graph_of world.old) found.items) }
    ensures after { IsAfter world.old world.new }
{
    // The contract of this call says that the graph is sound.
    world.graph();
    let mut found = Vec::new(alloc);
    for cells in boxes {
        let parts = less(alloc, row, cells.items())?;
        keep(world, parts.as_slice(), &mut found)?;
    }
    Ok(found)
}
