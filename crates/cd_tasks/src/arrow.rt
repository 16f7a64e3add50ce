//! Tasks for refused arrows.
ghost use Rattle.std.specs.Prelude.{◌≡◌, ◌<◌, ◌++◌, [], length, map, IfOk};
ghost use Rattle.cd_model.specs.AllOf.{AllOf};
ghost use Rattle.cd_rules.specs.Tasks as rules;
ghost use Rattle.cd_rules.specs.Tasks.{AreCases, left_of};
ghost use Rattle.cd_tasks.specs.Inner.Groups.{arrow_case, plain_side, sides_to};
ghost use Rattle.cd_tasks.specs.LeftWithout.{IsLeftWithout, left_without};
ghost use Rattle.cd_tasks.specs.PlainTask.{plain_task};

use crate::group::{Group, alone, group_at, in_order};
use crate::lists::joined;
use crate::task::{ArrowTask, Task};
use cd_sets::node_id::NodeId;
use std::alloc::{AllocError, Global};
use std::rc::Rc;

impl ArrowTask {
    /// What is to do for the pair by which a function of the wanted arrows is outside a refused
    /// one. Nothing is given yet.
    pub(crate) fn of(
        alloc: Global,
        refused: (NodeId, NodeId),
        wanted: &Rc<Vec<(NodeId, NodeId)>>,
    ) -> Result<ArrowTask, AllocError>
        ensures { let all = wanted.now.value.items in
            IfOk result (λ task. plain_task (Task.Arrow task)
            ≡ rules.ArrowTask refused all ([], []) all) }
    {
        let left = wanted.clone()?;
        let wanted = wanted.clone()?;
        Ok(ArrowTask {
            refused,
            wanted,
            outside: Vec::new(alloc),
            results: Vec::new(alloc),
            left,
        })
    }

    // The case where these are given, and this is the rest that is left.
    fn case(
        &self,
        rest: &Rc<Vec<(NodeId, NodeId)>>,
        outside: Vec<(NodeId, NodeId)>,
        results: Vec<(NodeId, NodeId)>,
    ) -> Result<ArrowTask, AllocError>
        ensures { IfOk result (λ task. plain_task (Task.Arrow task)
            ≡ rules.ArrowTask self.now.refused self.now.wanted.value.items
            (outside.items, results.items) rest.now.value.items) }
    {
        let left = rest.clone()?;
        let wanted = self.wanted.clone()?;
        Ok(ArrowTask {
            refused: self.refused,
            wanted,
            outside,
            results,
            left,
        })
    }

    // The case where the pair's argument is outside those of this group.
    fn to_outside(&self, alloc: Global, group: &Group) -> Result<ArrowTask, AllocError>
        ensures { IfOk result (λ task. plain_task (Task.Arrow task)
            ≡ rules.ArrowTask self.now.refused self.now.wanted.value.items
            (group.now.members.items ++ self.now.outside.items, self.now.results.items)
            group.now.rest.value.items) }
    {
        let outside = joined(alloc, group.members.as_slice(), self.outside.as_slice())?;
        let results = Vec::from_slice(alloc, self.results.as_slice())?;
        self.case(&group.rest, outside, results)
    }

    // The case where the pair's result is in those of this group.
    fn to_results(&self, alloc: Global, group: &Group) -> Result<ArrowTask, AllocError>
        ensures { IfOk result (λ task. plain_task (Task.Arrow task)
            ≡ rules.ArrowTask self.now.refused self.now.wanted.value.items
            (self.now.outside.items, group.now.members.items ++ self.now.results.items)
            group.now.rest.value.items) }
    {
        let outside = Vec::from_slice(alloc, self.outside.as_slice())?;
        let results = joined(alloc, group.members.as_slice(), self.results.as_slice())?;
        self.case(&group.rest, outside, results)
    }

    // The cases of a group, that of the side on which it differs as the last one.
    fn cases_of<'g>(&self, alloc: Global, group: &Group) -> Result<Vec<Task<'g>>, AllocError>
        ensures { IfOk result (λ cases. map plain_task cases.items
            ≡ map (arrow_case self.now group.now) (sides_to (plain_side group.now.differs))) }
    {
        let outside = self.to_outside(alloc, group)?;
        let results = self.to_results(alloc, group)?;
        in_order(
            alloc,
            group.differs,
            Task::Arrow(outside),
            Task::Arrow(results),
        )
    }

    /// The cases of the task, where the pair's argument is outside that of the member at this place
    /// of those left, and where its result is in that of the member.
    pub(crate) fn cases<'g>(&self, alloc: Global, place: usize) -> Result<Vec<Task<'g>>, AllocError>
        requires { place < length self.now.left.value.items }
        ensures cases { IfOk result
            (λ cases. AreCases (plain_task (Task.Arrow self.now)) (map plain_task cases.items)) }
        ensures taken { IfOk result (λ cases. AllOf (λ case. left_of (plain_task case)
            ≡ left_without place (plain_task (Task.Arrow self.now))) cases.items) }
    {
        let group = alone(alloc, self.left.as_slice(), place)?;
        self.cases_of(alloc, &group)
    }

    /// The cases of the task, where the pair's argument is outside those of the group of the member
    /// at this place, and where its result is in those of the group.
    pub(crate) fn cases_together<'g>(
        &self,
        alloc: Global,
        place: usize,
    ) -> Result<Vec<Task<'g>>, AllocError>
        requires { place < length self.now.left.value.items }
        ensures cases { IfOk result
            (λ cases. AreCases (plain_task (Task.Arrow self.now)) (map plain_task cases.items)) }
        ensures taken { IfOk result (λ cases. AllOf
            (λ case. IsLeftWithout place (plain_task (Task.Arrow self.now))
            (left_of (plain_task case))) cases.items) }
    {
        let group = group_at(alloc, self.left.as_slice(), place)?;
        self.cases_of(alloc, &group)
    }
}
