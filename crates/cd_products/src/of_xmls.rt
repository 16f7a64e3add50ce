//! The products of the XML elements of questions.
ghost use Rattle.std.specs.Prelude.{◌≡◌, ◌<◌, ◌++◌, List, length, map, IfOk};
ghost use Rattle.cd_model.specs.AllOf.{AllOf};
ghost use Rattle.cd_model.specs.Formula.{in_node};
ghost use Rattle.cd_model.specs.Thing.{IsElement};
ghost use Rattle.cd_graph.specs.Nodes.{nodes};
ghost use Rattle.cd_normal.specs.PlainClause.{plain_clause};
ghost use Rattle.cd_rules.specs.Clauses.{Clause as PlainClause};
ghost use Rattle.cd_rules.specs.Family.{AsksNodes};
ghost use Rattle.cd_empty.specs.Growth.{Grows};
ghost use Rattle.cd_empty.specs.Seen.{graph_of};
ghost use Rattle.cd_products.specs.Products.{AreTriples, CoverTripleValues, TriplesAsk};
ghost use Rattle.cd_products.specs.QuestionBoxes.{triples_of};
ghost use Rattle.cd_products.specs.Inner.ClauseBoxes.{AreClauses, triple_box, triple_boxes};
ghost use Rattle.cd_products.specs.Inner.ClauseBoxes.{triple_row};
ghost use Rattle.cd_products.specs.Inner.PlainBoxes.{plain_box};

use crate::clause_box::ClauseBox;
use crate::refused::pieces;
use cd_empty::World;
use cd_graph::Graph;
use cd_normal::clause::Clause;
use cd_normal::clauses;
use cd_parts::parts::xml_questions;
use cd_sets::node_id::NodeId;
use cd_sets::question::{Question, Questions};
use std::alloc::{AllocError, Global};

/// The XML elements of a question as products: triples of questions, of the tag, the attributes and
/// the content, each of which has an element.
///
/// # Errors
///
/// Want of memory.
pub fn xml_triples(
    alloc: Global,
    world: &mut World,
    question: &Question,
) -> Result<Vec<(Question, Question, Question)>, AllocError>
    requires { AsksNodes (length (graph_of world.old)) question.now }
    ensures triples { IfOk result (λ triples.
        AreTriples (in_node (graph_of world.old)) IsElement question.now triples.items) }
    ensures values { IfOk result
        (λ triples. CoverTripleValues (graph_of world.old) question.now triples.items) }
    ensures asks { IfOk result
        (λ triples. TriplesAsk (length (graph_of world.old)) triples.items) }
    ensures graph { graph_of world.new ≡ graph_of world.old }
    ensures grows { Grows world.old world.new }
{
    let clauses = boxes_of_xmls(alloc, world.graph(), question)?;
    let boxes = pieces(alloc, world, clauses.as_slice())?;
    triples_in(alloc, boxes.as_slice())
}

// The boxes of the clauses of XML elements of a question.
fn boxes_of_xmls(
    alloc: Global,
    graph: &Graph,
    question: &Question,
) -> Result<Vec<ClauseBox>, AllocError>
    requires { AsksNodes (length (nodes graph.now)) question.now }
    ensures { IfOk result (λ boxes. (all : List PlainClause)
        × AreClauses (nodes graph.now) question.now all
        × (map plain_box boxes.items ≡ triple_boxes all)) }
{
    let all = clauses(alloc, graph, question)?;
    boxes_of(alloc, all.as_slice())
}

// Those of clauses.
fn boxes_of(alloc: Global, clauses: &[Clause<'_>]) -> Result<Vec<ClauseBox>, AllocError>
    ensures { IfOk result
        (λ boxes. map plain_box boxes.items ≡ triple_boxes (map plain_clause clauses.now)) }
{
    let mut boxes = Vec::new(alloc);
    for clause in clauses {
        if let Clause::Xmls(wanted, refused) = clause {
            boxes.push(box_of(alloc, wanted.as_slice(), refused.as_slice())?)?;
        }
    }
    Ok(boxes)
}

// That of a clause.
fn box_of(
    alloc: Global,
    wanted: &[(NodeId, NodeId, NodeId)],
    refused: &[(NodeId, NodeId, NodeId)],
) -> Result<ClauseBox, AllocError>
    ensures { IfOk result (λ clause. plain_box clause ≡ triple_box wanted.now refused.now) }
{
    let cells = Questions::of(xml_questions(alloc, wanted, &[], &[], &[])?);
    let refused = rows_of(alloc, refused)?;
    Ok(ClauseBox { cells, refused })
}

// The parts of XML types as rows.
fn rows_of(
    alloc: Global,
    triples: &[(NodeId, NodeId, NodeId)],
) -> Result<Vec<Vec<NodeId>>, AllocError>
    ensures { IfOk result
        (λ rows. map (λ row. row.items) rows.items ≡ map triple_row triples.now) }
{
    let mut rows = Vec::with_capacity(alloc, triples.len())?;
    for parts in triples {
        rows.push(vec![in alloc; parts.0, parts.1, parts.2]?)?;
    }
    Ok(rows)
}

// Boxes of three cells as triples.
fn triples_in(
    alloc: Global,
    boxes: &[Questions],
) -> Result<Vec<(Question, Question, Question)>, AllocError>
    ensures { IfOk result (λ triples. triples.items ≡ triples_of boxes.now) }
{
    let mut triples = Vec::new(alloc);
    for cells in boxes {
        if let [tag, attributes, content] = cells.items() {
            triples.push((tag.copy()?, attributes.copy()?, content.copy()?))?;
        }
    }
    Ok(triples)
}
