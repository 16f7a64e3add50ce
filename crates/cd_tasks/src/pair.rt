//! Tasks for pairs.
ghost use Rattle.std.specs.Prelude.{◌≡◌, ◌<◌, ◌++◌, [], length, map, IfOk};
ghost use Rattle.cd_model.specs.AllOf.{AllOf};
ghost use Rattle.cd_rules.specs.Tasks as rules;
ghost use Rattle.cd_rules.specs.Tasks.{AreCases, left_of};
ghost use Rattle.cd_tasks.specs.Inner.Groups.{pair_case, plain_side, sides_to};
ghost use Rattle.cd_tasks.specs.LeftWithout.{IsLeftWithout, left_without};
ghost use Rattle.cd_tasks.specs.PlainTask.{plain_task};

use crate::group::{Group, alone, group_at, in_order};
use crate::lists::joined;
use crate::task::{PairTask, Task};
use cd_sets::node_id::NodeId;
use std::alloc::{AllocError, Global};
use std::rc::Rc;

impl PairTask {
    /// What is to do for a pair that is in each of the wanted pairs and in none of the refused
    /// ones. Nothing is given yet.
    pub(crate) fn of(
        alloc: Global,
        wanted: &Rc<Vec<(NodeId, NodeId)>>,
        refused: &Rc<Vec<(NodeId, NodeId)>>,
    ) -> Result<PairTask, AllocError>
        ensures { let all = refused.now.value.items in
            IfOk result (λ task. plain_task (Task.Pair task)
            ≡ rules.PairTask wanted.now.value.items all ([], []) all) }
    {
        let left = refused.clone()?;
        let wanted = wanted.clone()?;
        let refused = refused.clone()?;
        Ok(PairTask {
            wanted,
            refused,
            firsts: Vec::new(alloc),
            seconds: Vec::new(alloc),
            left,
        })
    }

    // The case where these are given, and this is the rest that is left.
    fn case(
        &self,
        rest: &Rc<Vec<(NodeId, NodeId)>>,
        firsts: Vec<(NodeId, NodeId)>,
        seconds: Vec<(NodeId, NodeId)>,
    ) -> Result<PairTask, AllocError>
        ensures { IfOk result (λ task. plain_task (Task.Pair task)
            ≡ rules.PairTask self.now.wanted.value.items self.now.refused.value.items
            (firsts.items, seconds.items) rest.now.value.items) }
    {
        let left = rest.clone()?;
        let wanted = self.wanted.clone()?;
        let refused = self.refused.clone()?;
        Ok(PairTask {
            wanted,
            refused,
            firsts,
            seconds,
            left,
        })
    }

    // The case where this group is given to the first part.
    fn to_first(&self, alloc: Global, group: &Group) -> Result<PairTask, AllocError>
        ensures { IfOk result (λ task. plain_task (Task.Pair task)
            ≡ rules.PairTask self.now.wanted.value.items self.now.refused.value.items
            (group.now.members.items ++ self.now.firsts.items, self.now.seconds.items)
            group.now.rest.value.items) }
    {
        let firsts = joined(alloc, group.members.as_slice(), self.firsts.as_slice())?;
        let seconds = Vec::from_slice(alloc, self.seconds.as_slice())?;
        self.case(&group.rest, firsts, seconds)
    }

    // The case where it is given to the second part.
    fn to_second(&self, alloc: Global, group: &Group) -> Result<PairTask, AllocError>
        ensures { IfOk result (λ task. plain_task (Task.Pair task)
            ≡ rules.PairTask self.now.wanted.value.items self.now.refused.value.items
            (self.now.firsts.items, group.now.members.items ++ self.now.seconds.items)
            group.now.rest.value.items) }
    {
        let firsts = Vec::from_slice(alloc, self.firsts.as_slice())?;
        let seconds = joined(alloc, group.members.as_slice(), self.seconds.as_slice())?;
        self.case(&group.rest, firsts, seconds)
    }

    // The cases of a group, that of the side on which it differs as the last one.
    fn cases_of<'g>(&self, alloc: Global, group: &Group) -> Result<Vec<Task<'g>>, AllocError>
        ensures { IfOk result (λ cases. map plain_task cases.items
            ≡ map (pair_case self.now group.now) (sides_to (plain_side group.now.differs))) }
    {
        let first = self.to_first(alloc, group)?;
        let second = self.to_second(alloc, group)?;
        in_order(alloc, group.differs, Task::Pair(first), Task::Pair(second))
    }

    /// The cases of the task, where the member at this place of those left is given to each part.
    pub(crate) fn cases<'g>(&self, alloc: Global, place: usize) -> Result<Vec<Task<'g>>, AllocError>
        requires { place < length self.now.left.value.items }
        ensures cases { IfOk result
            (λ cases. AreCases (plain_task (Task.Pair self.now)) (map plain_task cases.items)) }
        ensures taken { IfOk result (λ cases. AllOf (λ case. left_of (plain_task case)
            ≡ left_without place (plain_task (Task.Pair self.now))) cases.items) }
    {
        let group = alone(alloc, self.left.as_slice(), place)?;
        self.cases_of(alloc, &group)
    }

    /// The cases of the task, where the group of the member at this place is given to each part.
    pub(crate) fn cases_together<'g>(
        &self,
        alloc: Global,
        place: usize,
    ) -> Result<Vec<Task<'g>>, AllocError>
        requires { place < length self.now.left.value.items }
        ensures cases { IfOk result
            (λ cases. AreCases (plain_task (Task.Pair self.now)) (map plain_task cases.items)) }
        ensures taken { IfOk result (λ cases. AllOf
            (λ case. IsLeftWithout place (plain_task (Task.Pair self.now))
            (left_of (plain_task case))) cases.items) }
    {
        let group = group_at(alloc, self.left.as_slice(), place)?;
        self.cases_of(alloc, &group)
    }
}
