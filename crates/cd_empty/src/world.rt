use crate::decider::Decider;
use cd_elements::Elements;
use cd_graph::{Formulas, Graph};
use cd_needs::asking::question;
use cd_sets::node_id::NodeId;
use cd_sets::question::Question;
use cd_verdicts::Verdict;
use std::alloc::{AllocError, Global};
use std::marker::Model;

/// A graph of types, a table of elements, and what is settled of questions: whether there is an
/// element in some nodes and outside some others. What is settled stays so.
#[derive(Drop)]
pub struct World {
    graph: Graph,
    decider: Decider,
}

impl Model for World {
    ghost use Rattle.cd_graph.specs.Nodes.{nodes};
    ghost use Rattle.cd_empty.specs.Kept.{IsSound, kept};
    ghost use Rattle.cd_empty.specs.Seen.{Seen, seen_code};

    ghost Value = { Seen };

    ghost coded = { seen_code };

    ghost view = { λ world. record {
      graph = world.graph;
      elements = world.decider.elements;
      verdicts = kept world.decider;
    } };

    ghost invariant = { λ world. IsSound (nodes world.graph) world.decider };
}

impl World {
    ghost use Rattle.cd_graph.specs.Nodes.{nodes};
    ghost use Rattle.cd_elements.specs.Elements.{table};
    ghost use Rattle.std.specs.Prelude.{◌≡◌, ◌+◌, ◌<◌, ◌++◌, [], ◌∷◌, true, Some, None, length};
    ghost use Rattle.std.specs.Prelude.{slice_get, IfOk, OnOk, OnErr, MatchOption};
    ghost use Rattle.cd_sets.specs.declared.node_id.NodeId.{NodeId as AnId};
    ghost use Rattle.cd_sets.specs.declared.question.Question.{Question as AQuestion};
    ghost use Rattle.cd_model.specs.Thing.{Thing, IsElement};
    ghost use Rattle.cd_model.specs.BuiltIns.{built_ins};
    ghost use Rattle.cd_model.specs.AllOf.{AllOf};
    ghost use Rattle.cd_model.specs.Formula.{Graph as PlainGraph, IsFormula, IsGraph};
    ghost use Rattle.cd_model.specs.Membership.{answers};
    ghost use Rattle.cd_graph.specs.PlainFormula.{plain_list};
    ghost use Rattle.cd_rules.specs.Family.{AsksNodes, IsClosed};
    ghost use Rattle.cd_rules.specs.Needs.{question};
    ghost use Rattle.cd_verdicts.specs.declared.verdict.Verdict.{Verdict as AVerdict};
    ghost use Rattle.cd_verdicts.specs.declared.verdict.Verdict.TheVariants.{Empty};
    ghost use Rattle.cd_verdicts.specs.Verdicts.{IsExact, IsKept, AreWithin, family};
    ghost use Rattle.cd_empty.specs.Seen.{graph_of, table_of, kept};
    ghost use Rattle.cd_empty.specs.Growth.{Grows};

    /// The graph of the built-in nodes alone, of which nothing is settled.
    pub fn new(alloc: Global) -> Result<World, AllocError>
        ensures graph { IfOk result (λ world. graph_of world ≡ built_ins) }
        ensures elements { IfOk result (λ world. table_of world ≡ []) }
        ensures settled { IfOk result (λ world. kept world ≡ []) }
    {
        Ok(World {
            graph: Graph::new(alloc)?,
            decider: Decider::new(alloc),
        })
    }

    /// Puts formulas after those of the graph, which stays sound, and gives the number of the
    /// first. What is settled stays so. Where memory runs out the graph stays as it was.
    pub fn extend(&mut self, batch: Formulas) -> Result<NodeId, AllocError>
        requires { AllOf (IsFormula (length (graph_of self.old) + length (plain_list batch)))
            (plain_list batch) }
        ensures first { IfOk result (λ first. first.0 ≡ length (graph_of self.old)) }
        ensures added { OnOk result (graph_of self.new ≡ graph_of self.old ++ plain_list batch) }
        ensures unchanged { OnErr result (graph_of self.new ≡ graph_of self.old) }
        ensures sound { IsGraph (graph_of self.new) }
        ensures settled { kept self.new ≡ kept self.old }
        ensures elements { table_of self.new ≡ table_of self.old }
        ensures grows { Grows self.old self.new }
    {
        // The contract of this call says that the graph is sound.
        self.graph.knows();
        self.graph.extend(batch)
    }

    /// Settles whether there is an element in each node of `pos` and in none of `neg`: Empty where
    /// there is none, nor a value, and else one. The closures of values may have arrows of this
    /// graph, or of any that it grows to.
    ///
    /// # Errors
    ///
    /// Want of memory. What was settled before stays so.
    pub fn decide(&mut self, question: &Question) -> Result<Verdict, AllocError>
        requires { AsksNodes (length (graph_of self.old)) question.now }
        ensures exact { IfOk result
            (λ verdict. IsExact (graph_of self.old) (table_of self.new) question.now verdict) }
        ensures settled { IfOk result (λ verdict. IsKept (kept self.new) question.now verdict) }
        ensures graph { graph_of self.new ≡ graph_of self.old }
        ensures grows { Grows self.old self.new }
    {
        // The contract of this call says that the graph begins with the built-in nodes.
        self.graph.knows();
        self.decider.decide(&self.graph, question)
    }

    /// Settles whether what is in the first node is in the second: Empty where it is, and else an
    /// element that is in the first alone. The closures of values may have arrows of this graph, or
    /// of any that it grows to.
    ///
    /// # Errors
    ///
    /// Want of memory. What was settled before stays so.
    pub fn subtype(&mut self, first: NodeId, second: NodeId) -> Result<Verdict, AllocError>
        requires first { first.0 < length (graph_of self.old) }
        requires second { second.0 < length (graph_of self.old) }
        ensures elements { IfOk result (λ verdict. verdict ≡ Empty → (is : Thing) → IsElement is
            → answers (graph_of self.old) is first true
            → answers (graph_of self.old) is second true) }
        ensures values { IfOk result (λ verdict. verdict ≡ Empty
            → AreWithin (graph_of self.old) first second) }
        ensures exact { IfOk result
            (λ verdict. IsExact (graph_of self.old) (table_of self.new)
            (question (first ∷ []) (second ∷ [])) verdict) }
        ensures settled { IfOk result
            (λ verdict. IsKept (kept self.new) (question (first ∷ []) (second ∷ [])) verdict) }
        ensures graph { graph_of self.new ≡ graph_of self.old }
        ensures grows { Grows self.old self.new }
    {
        // The contract of this call says that the graph begins with the built-in nodes.
        self.graph();
        let question = question(self.decider.allocator(), &[first], &[second])?;
        self.decide(&question)
    }

    /// The verdict that is kept for a question. All that are kept are of questions of the graph and
    /// exact, one for each question, and the questions without elements are a closed family.
    pub fn settled(&self, question: &Question) -> Option<Verdict>
        ensures found { MatchOption result
            ((verdict : AVerdict) → IsKept (kept self.now) question.now verdict → ⊥)
            (λ verdict. IsKept (kept self.now) question.now verdict) }
        ensures asks { AllOf (λ one. AsksNodes (length (graph_of self.now)) one.0) (kept self.now) }
        ensures exact { AllOf (λ one. IsExact (graph_of self.now) (table_of self.now) one.0 one.1)
            (kept self.now) }
        ensures once { (asked : AQuestion) (one other : AVerdict) → IsKept (kept self.now) asked one
            → IsKept (kept self.now) asked other → one ≡ other }
        ensures closed { IsClosed (graph_of self.now) (family (kept self.now)) }
    {
        // The contract of this call says that the graph begins with the built-in nodes.
        self.graph.knows();
        self.decider.verdicts.get(question)
    }

    /// The questions that are settled to have no element, in the order in which they were settled:
    /// a closed family.
    pub fn family(&self) -> &[Question]
        ensures family { result.now ≡ family (kept self.now) }
        ensures closed { IsClosed (graph_of self.now) result.now }
    {
        self.decider.verdicts.family()
    }

    /// The question at a place among those whose verdicts are kept, and its verdict.
    pub fn kept_at(&self, place: usize) -> Option<(&Question, Verdict)>
        ensures { MatchOption result (slice_get (kept self.now) place ≡ None)
            (λ one. slice_get (kept self.now) place ≡ Some (one.0.now, one.1)) }
    {
        self.decider.verdicts.at(place)
    }

    /// The graph, which is sound and begins with the built-in nodes.
    pub fn graph(&self) -> &Graph
        ensures graph { nodes result.now ≡ graph_of self.now }
        ensures sound { IsGraph (graph_of self.now) }
        ensures built_in { (more : PlainGraph) × (graph_of self.now ≡ built_ins ++ more) }
    {
        // The contract of this call says that the graph is sound and begins with the built-ins.
        self.graph.knows();
        &self.graph
    }

    /// The table of elements.
    pub fn elements(&self) -> &Elements
        ensures table { table result.now ≡ table_of self.now }
        ensures sound { AllOf IsElement (table_of self.now) }
    {
        // The contract of this call says that the table is sound.
        self.decider.elements.knows();
        &self.decider.elements
    }
}
