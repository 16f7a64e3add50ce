//! The products of the pairs of questions.
ghost use Rattle.std.specs.Prelude.{◌≡◌, ◌<◌, ◌++◌, List, length, map, IfOk};
ghost use Rattle.cd_model.specs.AllOf.{AllOf};
ghost use Rattle.cd_model.specs.Formula.{in_node};
ghost use Rattle.cd_model.specs.Thing.{IsElement};
ghost use Rattle.cd_graph.specs.Nodes.{nodes};
ghost use Rattle.cd_normal.specs.PlainClause.{plain_clause};
ghost use Rattle.cd_rules.specs.Clauses.{Clause as PlainClause};
ghost use Rattle.cd_rules.specs.Family.{AsksNodes};
ghost use Rattle.cd_empty.specs.Growth.{Grows};
ghost use Rattle.cd_empty.specs.Seen.{graph_of};
ghost use Rattle.cd_products.specs.Products.{AreProducts, CoverValues, ProductsAsk};
ghost use Rattle.cd_products.specs.QuestionBoxes.{pairs_of};
ghost use Rattle.cd_products.specs.Inner.ClauseBoxes.{AreClauses, pair_box, pair_boxes, pair_row};
ghost use Rattle.cd_products.specs.Inner.PlainBoxes.{plain_box};

use crate::clause_box::ClauseBox;
use crate::refused::pieces;
use cd_empty::World;
use cd_graph::Graph;
use cd_normal::clause::Clause;
use cd_normal::clauses;
use cd_parts::parts::pair_questions;
use cd_sets::node_id::NodeId;
use cd_sets::question::{Question, Questions};
use std::alloc::{AllocError, Global};

/// The pairs of a question as products: pairs of questions, each of which has an element.
///
/// # Errors
///
/// Want of memory.
pub fn pair_products(
    alloc: Global,
    world: &mut World,
    question: &Question,
) -> Result<Vec<(Question, Question)>, AllocError>
    requires { AsksNodes (length (graph_of world.old)) question.now }
    ensures products { IfOk result (λ products.
        AreProducts (in_node (graph_of world.old)) IsElement question.now products.items) }
    ensures values { IfOk result
        (λ products. CoverValues (graph_of world.old) question.now products.items) }
    ensures asks { IfOk result
        (λ products. ProductsAsk (length (graph_of world.old)) products.items) }
    ensures graph { graph_of world.new ≡ graph_of world.old }
    ensures grows { Grows world.old world.new }
{
    let clauses = boxes_of_pairs(alloc, world.graph(), question)?;
    let boxes = pieces(alloc, world, clauses.as_slice())?;
    pairs_in(alloc, boxes.as_slice())
}

// The boxes of the clauses of pairs of a question.
fn boxes_of_pairs(
    alloc: Global,
    graph: &Graph,
    question: &Question,
) -> Result<Vec<ClauseBox>, AllocError>
    requires { AsksNodes (length (nodes graph.now)) question.now }
    ensures { IfOk result (λ boxes. (all : List PlainClause)
        × AreClauses (nodes graph.now) question.now all
        × (map plain_box boxes.items ≡ pair_boxes all)) }
{
    let all = clauses(alloc, graph, question)?;
    boxes_of(alloc, all.as_slice())
}

// Those of clauses.
fn boxes_of(alloc: Global, clauses: &[Clause<'_>]) -> Result<Vec<ClauseBox>, AllocError>
    ensures { IfOk result
        (λ boxes. map plain_box boxes.items ≡ pair_boxes (map plain_clause clauses.now)) }
{
    let mut boxes = Vec::new(alloc);
    for clause in clauses {
        if let Clause::Pairs(wanted, refused) = clause {
            boxes.push(box_of(alloc, wanted.as_slice(), refused.as_slice())?)?;
        }
    }
    Ok(boxes)
}

// That of a clause.
fn box_of(
    alloc: Global,
    wanted: &[(NodeId, NodeId)],
    refused: &[(NodeId, NodeId)],
) -> Result<ClauseBox, AllocError>
    ensures { IfOk result (λ clause. plain_box clause ≡ pair_box wanted.now refused.now) }
{
    let cells = Questions::of(pair_questions(alloc, wanted, &[], &[])?);
    let refused = rows_of(alloc, refused)?;
    Ok(ClauseBox { cells, refused })
}

// Pairs as rows.
fn rows_of(alloc: Global, pairs: &[(NodeId, NodeId)]) -> Result<Vec<Vec<NodeId>>, AllocError>
    ensures { IfOk result (λ rows. map (λ row. row.items) rows.items ≡ map pair_row pairs.now) }
{
    let mut rows = Vec::with_capacity(alloc, pairs.len())?;
    for parts in pairs {
        rows.push(vec![in alloc; parts.0, parts.1]?)?;
    }
    Ok(rows)
}

// Boxes of two cells as pairs.
fn pairs_in(alloc: Global, boxes: &[Questions]) -> Result<Vec<(Question, Question)>, AllocError>
    ensures { IfOk result (λ pairs. pairs.items ≡ pairs_of boxes.now) }
{
    let mut pairs = Vec::new(alloc);
    for cells in boxes {
        if let [first, second] = cells.items() {
            pairs.push((first.copy()?, second.copy()?))?;
        }
    }
    Ok(pairs)
}
