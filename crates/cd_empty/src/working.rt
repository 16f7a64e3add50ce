//! What is done for the question of a frame, one thing at a time.
ghost use Rattle.std.specs.Prelude.{◌≡◌, ◌<◌, List, [], ◌∷◌, length, map, IfOk};
ghost use Rattle.cd_graph.specs.Nodes.{nodes};
ghost use Rattle.cd_model.specs.AllOf.{AllOf};
ghost use Rattle.cd_elements.specs.Table.{Names, element_at, pairs_of};
ghost use Rattle.cd_members.specs.Attempts.{IsAttempt};
ghost use Rattle.cd_rules.specs.Right.{IsWorkOf};
ghost use Rattle.cd_model.specs.Thing.{Function};
ghost use Rattle.cd_normal.specs.ConjunctsGoOn.{IsOfNodes};
ghost use Rattle.cd_normal.specs.Partials.{partials};
ghost use Rattle.cd_normal.specs.PlainClause.{plain_clause};
ghost use Rattle.cd_rules.specs.Tasks.{IsTaskOfNodes, count_left, questions_of};
ghost use Rattle.cd_tasks.specs.PlainTask.{plain_task};
ghost use Rattle.cd_empty.specs.Inner.Doing.{IsDoing};
ghost use Rattle.cd_empty.specs.Inner.Fit.{IsFit, IsPairNamed};
ghost use Rattle.cd_empty.specs.Inner.Looking.{HaveElements};
ghost use Rattle.cd_empty.specs.Inner.PlainFrame.{plain_work, known};
ghost use Rattle.cd_empty.specs.Inner.Running.{KeepsKnown};
ghost use Rattle.cd_empty.specs.Inner.Working.{IsReady, AddsElements, AddsPair, IsLook, Begins};
ghost use Rattle.cd_empty.specs.Inner.Working.{with_branch};
ghost use Rattle.cd_empty.specs.Kept.{IsSound, table};

use crate::choosing::Cases;
use crate::decider::Decider;
use crate::doing::Doing;
use crate::frame::Frame;
use crate::parts::Parts;
use cd_elements::{ElementId, Pairs, Shape};
use cd_graph::Graph;
use cd_members::{Attempt, attempt_task};
use cd_normal::advance::Advance;
use cd_normal::clause::Clause;
use cd_normal::conjuncts::Conjuncts;
use cd_tasks::{Task, tasks_of};
use std::alloc::AllocError;
use std::mem;

impl Decider {
    /// Does one thing for the question of a frame.
    ///
    /// # Errors
    ///
    /// Want of memory. The frame is then of no use.
    pub(crate) fn work_at<'g>(
        &mut self,
        graph: &'g Graph,
        frame: &mut Frame<'g>,
    ) -> Result<Doing, AllocError>
        requires sound { IsSound (nodes graph.now) self.old }
        requires work { IsWorkOf (nodes graph.now) (known self.old) frame.old.question
            (plain_work frame.old) }
        requires fit { IsFit (nodes graph.now) (table self.old) frame.old }
        ensures doing { IfOk result (IsDoing (nodes graph.now) self.new frame.old frame.new) }
        ensures question { frame.new.question ≡ frame.old.question }
        ensures place { frame.new.place ≡ frame.old.place }
        ensures sound { IsSound (nodes graph.now) self.new }
        ensures keeps { KeepsKnown self.old self.new }
    {
        match frame.branches.pop() {
            Some(branch) => self.work_at_branch(graph, frame, branch),
            None => self.work_at_conjunct(graph, frame),
        }
    }

    // Does one thing for a branch, which was taken from the frame: it ends where a question of it
    // has no element, and is tried where all have one.
    fn work_at_branch<'g>(
        &mut self,
        graph: &Graph,
        frame: &mut Frame<'g>,
        branch: Task<'g>,
    ) -> Result<Doing, AllocError>
        requires { IsReady (nodes graph.now) self.old (with_branch branch frame.old) }
        ensures doing { IfOk result
            (IsDoing (nodes graph.now) self.new (with_branch branch.entry frame.old) frame.new) }
        ensures question { frame.new.question ≡ frame.old.question }
        ensures place { frame.new.place ≡ frame.old.place }
        ensures sound { IsSound (nodes graph.now) self.new }
        ensures keeps { KeepsKnown self.old self.new }
    {
        // The contract of this call says that the graph is sound, and how it begins.
        graph.knows();
        match self.parts_of(&branch)? {
            Parts::Missing => Ok(Doing::Worked),
            Parts::Unknown(question) => {
                frame.branches.push(branch)?;
                Ok(Doing::Wants(question))
            }
            Parts::Are(ids) => self.try_branch(graph, frame, branch, ids.as_slice()),
        }
    }

    // Makes a thing of elements of the questions of a branch. Where a member that is left holds it,
    // the branch becomes its cases.
    fn try_branch<'g>(
        &mut self,
        graph: &Graph,
        frame: &mut Frame<'g>,
        branch: Task<'g>,
        ids: &[ElementId],
    ) -> Result<Doing, AllocError>
        requires ready { IsReady (nodes graph.now) self.old (with_branch branch frame.old) }
        requires nodes { IsTaskOfNodes (length (nodes graph.now)) (plain_task branch) }
        requires have { HaveElements self.old ids.now (questions_of (plain_task branch)) }
        ensures doing { IfOk result
            (IsDoing (nodes graph.now) self.new (with_branch branch.entry frame.old) frame.new) }
        ensures question { frame.new.question ≡ frame.old.question }
        ensures place { frame.new.place ≡ frame.old.place }
        ensures sound { IsSound (nodes graph.now) self.new }
        ensures keeps { KeepsKnown self.old self.new }
    {
        match self.attempt(graph, &branch, ids)? {
            Attempt::Held(place) => self.split(graph, frame, branch, place),
            Attempt::Made(id) => Ok(Doing::Found(id)),
            Attempt::Maps(from, to) => self.add_pair(frame, from, to),
        }
    }

    // A branch becomes its cases, where the member at this place of those left is given to each side.
    fn split<'g>(
        &self,
        graph: &Graph,
        frame: &mut Frame<'g>,
        branch: Task<'g>,
        place: usize,
    ) -> Result<Doing, AllocError>
        requires ready { IsReady (nodes graph.now) self.now (with_branch branch frame.old) }
        requires place { place < count_left (plain_task branch) }
        ensures doing { IfOk result
            (IsDoing (nodes graph.now) self.now (with_branch branch.entry frame.old) frame.new) }
        ensures question { frame.new.question ≡ frame.old.question }
        ensures place { frame.new.place ≡ frame.old.place }
    {
        // The contract of this call says that the graph is sound, and how it begins.
        graph.knows();
        match self.cases_of(&branch, place)? {
            Cases::Are(cases) => {
                frame.branches.push_all(cases)?;
                Ok(Doing::Worked)
            }
            Cases::Wants(question) => {
                frame.branches.push(branch)?;
                Ok(Doing::Wants(question))
            }
        }
    }

    // An attempt at a branch, with elements of its questions. Where what is made is held, `choose`
    // says by which member: any that holds it is right, and which it is decides how soon all ends.
    fn attempt(
        &mut self,
        graph: &Graph,
        branch: &Task<'_>,
        ids: &[ElementId],
    ) -> Result<Attempt, AllocError>
        requires sound { IsSound (nodes graph.now) self.old }
        requires nodes { IsTaskOfNodes (length (nodes graph.now)) (plain_task branch.now) }
        requires have { HaveElements self.old ids.now (questions_of (plain_task branch.now)) }
        ensures attempt { let parts = map (element_at (table self.old)) ids.now in IfOk result
            (IsAttempt (nodes graph.now) (table self.new) (plain_task branch.now) parts) }
        ensures sound { IsSound (nodes graph.now) self.new }
        ensures keeps { KeepsKnown self.old self.new }
    {
        match self.first_attempt(graph, branch, ids)? {
            Attempt::Held(place) => {
                let place = self.choose(graph, branch, ids, place)?;
                Ok(Attempt::Held(place))
            }
            attempt => Ok(attempt),
        }
    }

    // A first attempt at a branch, with elements of its questions.
    fn first_attempt(
        &mut self,
        graph: &Graph,
        branch: &Task<'_>,
        ids: &[ElementId],
    ) -> Result<Attempt, AllocError>
        requires sound { IsSound (nodes graph.now) self.old }
        requires nodes { IsTaskOfNodes (length (nodes graph.now)) (plain_task branch.now) }
        requires have { HaveElements self.old ids.now (questions_of (plain_task branch.now)) }
        ensures attempt { let parts = map (element_at (table self.old)) ids.now in IfOk result
            (IsAttempt (nodes graph.now) (table self.new) (plain_task branch.now) parts) }
        ensures sound { IsSound (nodes graph.now) self.new }
        ensures keeps { KeepsKnown self.old self.new }
    {
        let alloc = self.allocator();
        attempt_task(
            alloc,
            graph,
            &mut self.elements,
            &mut self.facts,
            branch,
            ids,
        )
    }

    // Adds a pair to the function of a frame, for the task that is done. The next task is begun, or
    // the function is found.
    fn add_pair(
        &mut self,
        frame: &mut Frame<'_>,
        from: ElementId,
        to: Option<ElementId>,
    ) -> Result<Doing, AllocError>
        requires pair { IsPairNamed (table self.old) (from, to) }
        requires named { AllOf (IsPairNamed (table self.old)) frame.old.pairs.items }
        ensures adds_pair { IfOk result (AddsPair self.new (from, to) frame.old frame.new) }
        ensures question { frame.new.question ≡ frame.old.question }
        ensures place { frame.new.place ≡ frame.old.place }
        ensures adds { AddsElements self.old self.new }
    {
        frame.pairs.insert(0, (from, to))?;
        match frame.later.pop() {
            Some(next) => {
                frame.branches.clear();
                frame.branches.push(next)?;
                Ok(Doing::Worked)
            }
            None => {
                let pairs = mem::replace(&mut frame.pairs, Vec::new(self.allocator()));
                Ok(Doing::Found(self.function(pairs)?))
            }
        }
    }

    // The function of these pairs.
    fn function(
        &mut self,
        pairs: Vec<(ElementId, Option<ElementId>)>,
    ) -> Result<ElementId, AllocError>
        requires { AllOf (IsPairNamed (table self.old)) pairs.items }
        ensures made { IfOk result (λ id. Names (table self.new) id
            × (element_at (table self.new) id ≡ Function (pairs_of (table self.new) pairs.items))) }
        ensures adds { AddsElements self.old self.new }
    {
        self.elements.make(Shape::Fun(Pairs::of(pairs)))
    }

    // Does one thing for the first conjunct of a frame without branches.
    fn work_at_conjunct<'g>(
        &mut self,
        graph: &Graph,
        frame: &mut Frame<'g>,
    ) -> Result<Doing, AllocError>
        requires ready { IsReady (nodes graph.now) self.old frame.old }
        requires none { frame.old.branches ≡ [] }
        ensures doing { IfOk result (IsDoing (nodes graph.now) self.new frame.old frame.new) }
        ensures question { frame.new.question ≡ frame.old.question }
        ensures place { frame.new.place ≡ frame.old.place }
        ensures sound { IsSound (nodes graph.now) self.new }
        ensures keeps { KeepsKnown self.old self.new }
    {
        if let Some(doing) = self.look_at_needs(graph, &mut frame.conjuncts)? {
            return Ok(doing);
        }
        match frame.conjuncts.advance()? {
            Advance::Nothing => Ok(Doing::Nothing),
            Advance::Went => Ok(Doing::Worked),
            Advance::Complete(clause) => self.begin(frame, clause),
        }
    }

    // Looks at the needs of the first conjunct, which is taken away where one of them has no
    // element.
    fn look_at_needs(
        &self,
        graph: &Graph,
        conjuncts: &mut Conjuncts<'_>,
    ) -> Result<Option<Doing>, AllocError>
        requires { AllOf (IsOfNodes (length (nodes graph.now))) (partials conjuncts.old) }
        ensures { IfOk result
            (IsLook (nodes graph.now) self.now (partials conjuncts.old) (partials conjuncts.new)) }
    {
        // The contract of this call says that the graph begins with the built-in nodes.
        graph.knows();
        let Some(questions) = conjuncts.needs()? else {
            return Ok(None);
        };
        match self.parts(questions.as_slice())? {
            Parts::Missing => {
                conjuncts.cut();
                Ok(Some(Doing::Worked))
            }
            Parts::Unknown(question) => Ok(Some(Doing::Wants(question))),
            Parts::Are(_) => {
                conjuncts.look();
                Ok(None)
            }
        }
    }

    // Begins a clause. Where it has no task, as arrows of which none is refused, the function
    // without pairs is in it.
    fn begin<'g>(&mut self, frame: &mut Frame<'g>, clause: Clause<'g>) -> Result<Doing, AllocError>
        requires { frame.old.branches ≡ [] }
        ensures begins { IfOk result
            (Begins self.new (plain_clause clause.entry) frame.old frame.new) }
        ensures question { frame.new.question ≡ frame.old.question }
        ensures place { frame.new.place ≡ frame.old.place }
        ensures adds { AddsElements self.old self.new }
    {
        let tasks = tasks_of(self.allocator(), &clause)?;
        frame.later.clear();
        frame.later.push_all(tasks)?;
        match frame.later.pop() {
            Some(task) => {
                frame.branches.push(task)?;
                frame.clause = Some(clause);
                frame.pairs.clear();
                Ok(Doing::Worked)
            }
            None => {
                let none = Vec::new(self.allocator());
                Ok(Doing::Found(self.function(none)?))
            }
        }
    }
}
