ghost use Rattle.std.specs.Prelude.{◌≡◌, ◌<◌, ◌^◌, ◌∷◌, ◌++◌, [], None, length, IfOk, OnOk, OnErr};
ghost use Rattle.std.specs.Prelude.{IfSome};
ghost use Rattle.cd_graph.specs.Nodes.{nodes};
ghost use Rattle.cd_graph.specs.PlainFormula.{plain_named};
ghost use Rattle.cd_model.specs.Formula.{Record};
ghost use Rattle.cd_model.specs.Membership.{answers, reader};
ghost use Rattle.cd_needs.specs.RecordType.{record_type};
ghost use Rattle.cd_rules.specs.Within.{IsTypeWithin};
ghost use Rattle.cd_elements.specs.Elements.{table};
ghost use Rattle.cd_elements.specs.Table.{element_at};
ghost use Rattle.cd_facts.specs.Facts.{AreRight, Grows, IsNamed};
ghost use Rattle.cd_facts.specs.Inner.Known.{known};

use crate::finding::Finding;
use crate::formula::has_few_parts;
use crate::membership::Membership;
use crate::search::{find_out, finding, finding_of_type};
use cd_elements::{ElementId, Elements};
use cd_graph::Graph;
use cd_graph::fields::Fields;
use cd_sets::node_id::NodeId;
use indexmap::IndexMap;
use std::alloc::{AllocError, Global};
use std::marker::Model;

/// What is known of elements and nodes. A contract sees it as a list of facts.
#[derive(Drop)]
pub struct Facts {
    answers: IndexMap<Membership, bool>,
}

impl Model for Facts {
    ghost use Rattle.std.specs.Prelude.{List};
    ghost use Rattle.cd_facts.specs.Facts.{Fact};

    ghost Value = { List Fact };

    ghost view = { λ facts. facts.answers.entries };
}

impl Facts {
    /// Nothing is known.
    pub fn new(alloc: Global) -> Facts
        ensures { result ≡ [] }
    {
        Facts {
            answers: IndexMap::new(alloc),
        }
    }

    /// Whether an element is in a node. What is found out on the way is added to the facts, also
    /// where memory runs out.
    pub fn is_in(
        &mut self,
        graph: &Graph,
        elements: &Elements,
        id: ElementId,
        node: NodeId,
    ) -> Result<bool, AllocError>
        requires id { id.0 < length (table elements.now) }
        requires node { node.0 < length (nodes graph.now) }
        requires right { AreRight (nodes graph.now) (table elements.now) self.old }
        ensures answer { let all = table elements.now in
            IfOk result (answers (nodes graph.now) (element_at all id) node) }
        ensures right { AreRight (nodes graph.now) (table elements.now) self.new }
        ensures grows { Grows self.old self.new }
    {
        let asked = Membership { id, node };
        if let Some(answer) = self.at_once(graph, elements, asked) {
            return Ok(answer);
        }
        if let Some(answer) = self.get(id, node) {
            return Ok(answer);
        }
        find_out(self, graph, elements, asked)
    }

    // Whether an element is in a node, where few steps tell, as of an element with another tag. So
    // most facts need not be kept.
    fn at_once(&self, graph: &Graph, elements: &Elements, asked: Membership) -> Option<bool>
        requires named { IsNamed (nodes graph.now) (table elements.now) asked }
        requires right { AreRight (nodes graph.now) (table elements.now) self.now }
        ensures { let all = table elements.now in
            IfSome result (answers (nodes graph.now) (element_at all asked.id) asked.node) }
    {
        if !has_few_parts(graph.formula(asked.node)) {
            return None;
        }
        match finding(self, graph, elements, asked) {
            Finding::Known(answer) => Some(answer),
            Finding::Unknown(_, _) => None,
        }
    }

    /// Whether an element is as a record type says. What is found out on the way is added to the
    /// facts, also where memory runs out.
    pub fn is_in_type(
        &mut self,
        graph: &Graph,
        elements: &Elements,
        id: ElementId,
        fields: &Fields,
    ) -> Result<bool, AllocError>
        requires id { id.0 < length (table elements.now) }
        requires nodes { IsTypeWithin (length (nodes graph.now)) (record_type fields.now) }
        requires right { AreRight (nodes graph.now) (table elements.now) self.old }
        ensures answer { let all = table elements.now in
            IfOk result (reader (nodes graph.now) (element_at all id)
            (Record (plain_named fields.now.named) fields.now.rest)) }
        ensures right { AreRight (nodes graph.now) (table elements.now) self.new }
        ensures grows { Grows self.old self.new }
    {
        loop {
            match finding_of_type(self, elements, id, fields) {
                Finding::Known(answer) => return Ok(answer),
                Finding::Unknown(part, node) => {
                    find_out(self, graph, elements, Membership { id: part, node })?;
                }
            }
        }
    }

    // Whether an element is in a node, if it is known.
    pub(crate) fn get(&self, id: ElementId, node: NodeId) -> Option<bool>
        ensures { result ≡ known self.now id node }
    {
        self.answers.get(&Membership { id, node }).copied()
    }

    // Adds what was not known. Where memory runs out nothing is added.
    pub(crate) fn add(&mut self, asked: Membership, answer: bool) -> Result<(), AllocError>
        requires { known self.old asked.id asked.node ≡ None }
        ensures added { OnOk result (self.new ≡ self.old ++ (asked, answer) ∷ []) }
        ensures few { OnOk result (length self.new < 2 ^ 63) }
        ensures kept { OnErr result (self.new ≡ self.old) }
    {
        self.answers.insert(asked, answer)?;
        let _count = self.answers.len();
        Ok(())
    }

    // What the facts take their memory from.
    pub fn allocator(&self) -> Global {
        *self.answers.allocator()
    }
}
