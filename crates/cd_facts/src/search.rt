//! The search for what is not known yet.
ghost use Rattle.std.specs.Prelude.{◌≡◌, ℕ, ◌<◌, ◌^◌, None, length, IfOk, OnOk};
ghost use Rattle.cd_graph.specs.Nodes.{nodes};
ghost use Rattle.cd_graph.specs.PlainFormula.{plain_named};
ghost use Rattle.cd_model.specs.Formula.{Graph as PlainGraph, Record};
ghost use Rattle.cd_model.specs.Membership.{answers, reader};
ghost use Rattle.cd_needs.specs.RecordType.{record_type};
ghost use Rattle.cd_rules.specs.Within.{IsTypeWithin};
ghost use Rattle.cd_elements.specs.Elements.{table};
ghost use Rattle.cd_elements.specs.Table.{element_at};
ghost use Rattle.cd_facts.specs.Facts.{AreRight, Grows, IsNamed};
ghost use Rattle.cd_facts.specs.Inner.Known.{known};
ghost use Rattle.cd_facts.specs.Inner.Finding.{Justifies, AsksPart};

use crate::facts::Facts;
use crate::facts_of_parts::at_record;
use crate::finding::Finding;
use crate::formula::finding_of;
use crate::membership::Membership;
use cd_elements::{ElementId, Elements};
use cd_graph::Graph;
use cd_graph::fields::Fields;
use std::alloc::AllocError;

/// Finds out whether an element is in a node, which is not known yet, and adds what it finds. What
/// has to be known first is found out first.
pub(crate) fn find_out(
    facts: &mut Facts,
    graph: &Graph,
    elements: &Elements,
    asked: Membership,
) -> Result<bool, AllocError>
    requires named { IsNamed (nodes graph.now) (table elements.now) asked }
    requires unknown { known facts.old asked.id asked.node ≡ None }
    requires right { AreRight (nodes graph.now) (table elements.now) facts.old }
    ensures answer { let all = table elements.now in
        IfOk result (answers (nodes graph.now) (element_at all asked.id) asked.node) }
    ensures right { AreRight (nodes graph.now) (table elements.now) facts.new }
    ensures grows { Grows facts.old facts.new }
    ensures longer { OnOk result (length facts.old < length facts.new) }
    ensures few { OnOk result (length facts.new < 2 ^ 63) }
{
    let mut waiting = Vec::new(facts.allocator());
    let mut current = asked;
    loop {
        match finding(facts, graph, elements, current) {
            Finding::Known(answer) => {
                facts.add(current, answer)?;
                match waiting.pop() {
                    Some(next) => current = next,
                    None => return Ok(answer),
                }
            }
            Finding::Unknown(id, node) => {
                waiting.push(current)?;
                current = Membership { id, node };
            }
        }
    }
}

/// Whether an element is in a node, as far as it follows from what is known.
pub(crate) fn finding(
    facts: &Facts,
    graph: &Graph,
    elements: &Elements,
    asked: Membership,
) -> Finding
    requires named { IsNamed (nodes graph.now) (table elements.now) asked }
    requires right { AreRight (nodes graph.now) (table elements.now) facts.now }
    ensures right { let all = table elements.now in
        Justifies (answers (nodes graph.now) (element_at all asked.id) asked.node) result }
    ensures asks { AsksPart (known facts.now) asked.id.0 (length (nodes graph.now)) result }
{
    finding_of(facts, elements.shape(asked.id), graph.formula(asked.node))
}

/// Whether an element is as a record type says, as far as it follows from what is known.
pub(crate) fn finding_of_type(
    facts: &Facts,
    elements: &Elements,
    id: ElementId,
    fields: &Fields,
) -> Finding
    requires { id.0 < length (table elements.now) }
    ensures right { (graph : PlainGraph) → AreRight graph (table elements.now) facts.now
        → Justifies (reader graph (element_at (table elements.now) id)
        (Record (plain_named fields.now.named) fields.now.rest)) result }
    ensures asks { (size : ℕ) → IsTypeWithin size (record_type fields.now)
        → AsksPart (known facts.now) id.0 size result }
{
    at_record(facts, elements.shape(id), fields)
}
