ghost use Rattle.std.specs.Prelude.{◌≡◌, ◌++◌, [], List, length, IfOk};
ghost use Rattle.cd_sets.specs.declared.question.Question.{Question as AQuestion};
ghost use Rattle.cd_model.specs.Thing.{Thing};
ghost use Rattle.cd_model.specs.Formula.{Graph as PlainGraph};
ghost use Rattle.cd_graph.specs.Nodes.{nodes};
ghost use Rattle.cd_rules.specs.Family.{AsksNodes};

use cd_elements::Elements;
use cd_facts::Facts;
use cd_graph::Graph;
use cd_sets::question::Question;
use cd_verdicts::Verdict;
use cd_verdicts::asked::Asked;
use cd_verdicts::verdicts::Verdicts;
use std::alloc::{AllocError, Global};

/// A table of elements, what is known of them, and verdicts on questions. While it decides, a list
/// of questions that are assumed to have no element.
#[derive(Drop)]
pub(crate) struct Decider {
    pub(crate) elements: Elements,
    pub(crate) facts: Facts,
    pub(crate) verdicts: Verdicts,
    pub(crate) list: Asked,
}

impl Decider {
    ghost use Rattle.cd_verdicts.specs.declared.verdict.Verdict.{Verdict as AVerdict};
    ghost use Rattle.cd_empty.specs.Kept.{IsSound, kept, table};
    ghost use Rattle.cd_verdicts.specs.Verdicts.{IsKept};

    /// No elements and no verdicts.
    pub(crate) fn new(alloc: Global) -> Decider
        ensures kept { kept result ≡ [] }
        ensures table { table result ≡ [] }
        ensures sound { (graph : PlainGraph) → IsSound graph result }
    {
        Decider {
            elements: Elements::new(alloc),
            facts: Facts::new(alloc),
            verdicts: Verdicts::new(alloc),
            list: Asked::new(alloc),
        }
    }

    /// Settles a question.
    ///
    /// # Errors
    ///
    /// Want of memory. What was settled before stays so.
    pub(crate) fn decide(
        &mut self,
        graph: &Graph,
        question: &Question,
    ) -> Result<Verdict, AllocError>
        requires asks { AsksNodes (length (nodes graph.now)) question.now }
        requires sound { IsSound (nodes graph.now) self.old }
        ensures sound { IsSound (nodes graph.now) self.new }
        ensures settled { IfOk result (λ verdict. IsKept (kept self.new) question.now verdict) }
        ensures stays { (more : List (AQuestion × AVerdict))
            × (kept self.new ≡ kept self.old ++ more) }
        ensures grows { (more : List Thing) × (table self.new ≡ table self.old ++ more) }
    {
        if let Some(verdict) = self.verdicts.get(question) {
            return Ok(verdict);
        }
        self.list.truncate(0);
        self.run(graph, question)?;
        self.verdicts.settle(&self.list)?;
        match self.verdicts.get(question) {
            Some(verdict) => Ok(verdict),
            None => unreachable!(),
        }
    }

    /// What the decider takes its memory from.
    pub(crate) fn allocator(&self) -> Global {
        self.verdicts.allocator()
    }
}
