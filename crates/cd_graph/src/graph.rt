ghost use Rattle.std.specs.Prelude.{◌≡◌, ◌+◌, ◌<◌, ◌++◌, ◌↔◌, Bool, List, map, take, length, IfOk};
ghost use Rattle.std.specs.Prelude.{OnOk, OnErr};
ghost use Rattle.cd_sets.specs.declared.node_id.NodeId.{NodeId as AnId};
ghost use Rattle.cd_model.specs.Thing.{Thing};
ghost use Rattle.cd_model.specs.AllOf.{AllOf};
ghost use Rattle.cd_model.specs.Formula.{Graph as PlainGraph, IsFormula, IsGraph, formula_at};
ghost use Rattle.cd_model.specs.BuiltIns.{built_ins as built_in_formulas};
ghost use Rattle.cd_model.specs.Interfaces.{Interfaces};
ghost use Rattle.cd_model.specs.Membership.{asked, holds, reader, value_reader, answers};
ghost use Rattle.cd_model.specs.Membership.{value_answers};
ghost use Rattle.cd_graph.specs.PlainFormula.{plain, plain_list};
ghost use Rattle.cd_graph.specs.Inner.Questions.{inside, outside, question_formula};

use crate::built_in::built_ins;
use crate::formula::{Formula, Formulas};
use cd_sets::node_id::NodeId;
use cd_sets::question::Question;
use std::alloc::{AllocError, Global};
use std::rc::Rc;

/// A graph of types: a list of formulas, each under the number of its place, which begins with the
/// built-in nodes.
#[derive(Drop)]
pub struct Graph {
    formulas: Vec<Formula>,
    ghost sound: { ∥ IsGraph (map plain formulas.items) ∥₁ },
    ghost built_in: { ∥ take 14 (map plain formulas.items) ≡ built_in_formulas ∥₁ },
}

impl Graph {
    ghost use Rattle.cd_graph.specs.Nodes.{nodes};

    /// The graph of the built-in nodes alone.
    pub fn new(alloc: Global) -> Result<Graph, AllocError>
        ensures { IfOk result (λ graph. nodes graph ≡ built_in_formulas) }
    {
        Ok(Graph {
            formulas: built_ins(alloc)?,
        })
    }

    /// Puts formulas after those of the graph, which stays sound, and gives the number of the
    /// first. Each old node holds what it held. Where memory runs out the graph stays as it was.
    pub fn extend(&mut self, batch: Formulas) -> Result<NodeId, AllocError>
        requires { AllOf (IsFormula (length (nodes self.old) + length (plain_list batch)))
            (plain_list batch) }
        ensures first { IfOk result (λ first. first.0 ≡ length (nodes self.old)) }
        ensures added { OnOk result (nodes self.new ≡ nodes self.old ++ plain_list batch) }
        ensures elements { OnOk result
            ((is : Thing) (id : AnId) (answer : Bool) → id.0 < length (nodes self.old)
            → answers (nodes self.old) is id answer ↔ answers (nodes self.new) is id answer) }
        ensures values { OnOk result
            ((interfaces : Interfaces) (is : Thing) (id : AnId) (answer : Bool)
            → id.0 < length (nodes self.old)
            → value_answers (nodes self.old) interfaces is id answer
            ↔ value_answers (nodes self.new) interfaces is id answer) }
        ensures kept { OnErr result (nodes self.new ≡ nodes self.old) }
        ensures sound { IsGraph (nodes self.new) }
    {
        let first = NodeId(self.len());
        append(&mut self.formulas, batch)?;
        Ok(first)
    }

    /// The formula of a node, which is one of the graph.
    pub fn formula(&self, id: NodeId) -> &Formula
        requires { id.0 < length (nodes self.now) }
        ensures formula { plain result.now ≡ formula_at (nodes self.now) id }
        ensures sound { IsFormula (length (nodes self.now)) (plain result.now) }
    {
        let formulas = self.formulas.as_slice();
        &formulas[id.0]
    }

    /// The number of nodes.
    pub fn len(&self) -> usize
        ensures count { result ≡ length (nodes self.now) }
        ensures sound { IsGraph (nodes self.now) }
        ensures built_in { (more : PlainGraph) × (nodes self.now ≡ built_in_formulas ++ more) }
    {
        self.formulas.len()
    }

    /// What is known of every graph: its formulas are those of a graph, and it begins with the
    /// built-in ones.
    pub fn knows(&self)
        ensures sound { IsGraph (nodes self.now) }
        ensures built_in { (more : PlainGraph) × (nodes self.now ≡ built_in_formulas ++ more) }
    {}

    /// A formula that holds just what is in each node of `pos` and in none of `neg`, made of copies
    /// of their formulas.
    pub fn formula_of(&self, question: &Question) -> Result<Formula, AllocError>
        requires pos { AllOf (λ id. id.0 < length (nodes self.now)) question.now.pos }
        requires neg { AllOf (λ id. id.0 < length (nodes self.now)) question.now.neg }
        ensures elements { IfOk result (λ formula. (is : Thing) (answer : Bool)
            → asked (answers (nodes self.now) is) question.now answer
            ↔ holds (reader (nodes self.now) is) (plain formula) answer) }
        ensures values { IfOk result
            (λ formula. (interfaces : Interfaces) (is : Thing) (answer : Bool)
            → asked (value_answers (nodes self.now) interfaces is) question.now answer
            ↔ holds (value_reader (nodes self.now) interfaces is) (plain formula) answer) }
        ensures sound { IfOk result
            (λ formula. IsFormula (length (nodes self.now)) (plain formula)) }
    {
        self.joined(question)
    }

    // The formula by its parts.
    fn joined(&self, question: &Question) -> Result<Formula, AllocError>
        requires pos { AllOf (λ id. id.0 < length (nodes self.now)) question.now.pos }
        requires neg { AllOf (λ id. id.0 < length (nodes self.now)) question.now.neg }
        ensures { IfOk result (λ is. plain is ≡ question_formula (nodes self.now) question.now) }
    {
        let mut formulas = self.copies(question.pos.ids())?;
        let mut complements = self.complements(question.neg.ids())?;
        formulas.append(&mut complements)?;
        Ok(Formula::and(Formulas::of(formulas)?))
    }

    // Copies of the formulas of nodes.
    fn copies(&self, ids: &[NodeId]) -> Result<Vec<Formula>, AllocError>
        requires { AllOf (λ id. id.0 < length (nodes self.now)) ids.now }
        ensures { IfOk result
            (λ formulas. map plain formulas.items ≡ inside (nodes self.now) ids.now) }
    {
        let mut formulas = Vec::new(*self.formulas.allocator());
        for id in ids {
            formulas.push(self.formula(*id).copy()?)?;
        }
        Ok(formulas)
    }

    // For each of the nodes what is outside it, with a copy of its formula.
    fn complements(&self, ids: &[NodeId]) -> Result<Vec<Formula>, AllocError>
        requires { AllOf (λ id. id.0 < length (nodes self.now)) ids.now }
        ensures { IfOk result
            (λ formulas. map plain formulas.items ≡ outside (nodes self.now) ids.now) }
    {
        let alloc = *self.formulas.allocator();
        let mut formulas = Vec::new(alloc);
        for id in ids {
            let copy = self.formula(*id).copy()?;
            formulas.push(Formula::not(Rc::new(alloc, copy)?))?;
        }
        Ok(formulas)
    }
}

// Puts a batch after formulas. Where memory runs out these stay as they were.
fn append(formulas: &mut Vec<Formula>, batch: Formulas) -> Result<(), AllocError>
    ensures added { OnOk result
        (map plain formulas.new.items ≡ map plain formulas.old.items ++ plain_list batch) }
    ensures kept { OnErr result (map plain formulas.new.items ≡ map plain formulas.old.items) }
{
    let mut items = batch.into_items()?;
    formulas.append(&mut items)?;
    Ok(())
}
