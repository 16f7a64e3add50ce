ghost use Rattle.std.specs.Prelude.{◌≡◌, [], None, List, length};
ghost use Rattle.cd_model.specs.AllOf.{AllOf};
ghost use Rattle.cd_model.specs.Formula.{Graph as PlainGraph};
ghost use Rattle.cd_model.specs.Thing.{Thing};
ghost use Rattle.cd_rules.specs.Machine.{frame, work};
ghost use Rattle.cd_normal.specs.ConjunctsGoOn.{IsOfNodes};
ghost use Rattle.cd_normal.specs.Partials.{partials};
ghost use Rattle.cd_empty.specs.Inner.Fit.{IsFit};
ghost use Rattle.cd_empty.specs.Inner.PlainFrame.{plain_frame};

use crate::stack::Stack;
use cd_elements::ElementId;
use cd_normal::clause::Clause;
use cd_normal::conjuncts::Conjuncts;
use cd_sets::question::Question;
use cd_tasks::Task;
use std::alloc::Global;

/// A question that is assumed to have no element, and what is left to do for it.
#[derive(Drop)]
pub(crate) struct Frame<'g> {
    /// The place of the question in the list of those that are assumed.
    pub(crate) place: usize,
    pub(crate) question: Question,
    /// The conjuncts whose clauses are not begun.
    pub(crate) conjuncts: Conjuncts<'g>,
    /// The clause that is begun.
    pub(crate) clause: Option<Clause<'g>>,
    /// Its tasks that are not begun.
    pub(crate) later: Stack<Task<'g>>,
    /// The branches of its task that is begun.
    pub(crate) branches: Stack<Task<'g>>,
    /// The pairs of a function for the tasks that are done, the last one first.
    pub(crate) pairs: Vec<(ElementId, Option<ElementId>)>,
}

impl<'g> Frame<'g> {
    /// A frame with these conjuncts, of which none is begun.
    pub(crate) fn new(
        alloc: Global,
        place: usize,
        question: Question,
        conjuncts: Conjuncts<'g>,
    ) -> Frame<'g>
        ensures plain { plain_frame result
            ≡ frame place question (work (partials conjuncts.entry) None [] []) }
        ensures fit { (graph : PlainGraph) (table : List Thing)
            → AllOf (IsOfNodes (length graph)) (partials conjuncts.entry)
            → IsFit graph table result }
    {
        Frame {
            place,
            question,
            conjuncts,
            clause: None,
            later: Stack::new(alloc),
            branches: Stack::new(alloc),
            pairs: Vec::new(alloc),
        }
    }
}
