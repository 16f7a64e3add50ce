//! Tasks for records.
ghost use Rattle.std.specs.Prelude.{◌≡◌, ◌<◌, [], ◌∷◌, length, map, IfOk};
ghost use Rattle.std.specs.List.{remove};
ghost use Rattle.cd_model.specs.AllOf.{AllOf};
ghost use Rattle.cd_needs.specs.RecordType.{record_types};
ghost use Rattle.cd_needs.specs.PlainReasons.{plain_chosen, plain_reasons};
ghost use Rattle.cd_rules.specs.Tasks as rules;
ghost use Rattle.cd_rules.specs.Tasks.{AreCases, left_of};
ghost use Rattle.cd_tasks.specs.LeftWithout.{left_without};
ghost use Rattle.cd_tasks.specs.PlainTask.{plain_task};

use crate::lists::{prepended, shared_without};
use crate::task::{RecordTask, Task};
use cd_graph::fields::Fields;
use cd_needs::labels::labels_of;
use cd_needs::reasons::Chosen;
use std::alloc::{AllocError, Global};
use std::rc::Rc;

impl<'g> RecordTask<'g> {
    /// What is to do for a record that is in each of the wanted types and in none of the refused
    /// ones. Nothing is given yet.
    pub(crate) fn of(
        alloc: Global,
        wanted: &Rc<Vec<&'g Fields>>,
        refused: &Rc<Vec<&'g Fields>>,
    ) -> Result<RecordTask<'g>, AllocError>
        ensures { let all = record_types refused.now.value.items in
            IfOk result (λ task. plain_task (Task.Record task)
            ≡ rules.RecordTask (record_types wanted.now.value.items) all [] all) }
    {
        let labels = labels_of(alloc, wanted.as_slice(), refused.as_slice())?;
        let labels = Rc::new(alloc, labels)?;
        let left = refused.clone()?;
        let wanted = wanted.clone()?;
        let refused = refused.clone()?;
        Ok(RecordTask {
            wanted,
            refused,
            labels,
            given: Vec::new(alloc),
            left,
        })
    }

    // The case where a type has this reason, and this is the rest that is left.
    fn case(
        &self,
        alloc: Global,
        rest: &Rc<Vec<&'g Fields>>,
        chosen: Chosen<'g>,
    ) -> Result<RecordTask<'g>, AllocError>
        ensures { let given = plain_reasons self.now.given.items in
            IfOk result (λ task. plain_task (Task.Record task)
            ≡ rules.RecordTask (record_types self.now.wanted.value.items)
            (record_types self.now.refused.value.items) (plain_chosen chosen.entry ∷ given)
            (record_types rest.now.value.items)) }
    {
        let given = prepended(alloc, chosen, self.given.as_slice())?;
        let left = rest.clone()?;
        let wanted = self.wanted.clone()?;
        let refused = self.refused.clone()?;
        let labels = self.labels.clone()?;
        Ok(RecordTask {
            wanted,
            refused,
            labels,
            given,
            left,
        })
    }

    /// The cases of the task, where the type at this place of those left has each reason.
    pub(crate) fn cases(&self, alloc: Global, place: usize) -> Result<Vec<Task<'g>>, AllocError>
        requires { place < length self.now.left.value.items }
        ensures cases { IfOk result
            (λ cases. AreCases (plain_task (Task.Record self.now)) (map plain_task cases.items)) }
        ensures taken { IfOk result (λ cases. AllOf (λ case. left_of (plain_task case)
            ≡ left_without place (plain_task (Task.Record self.now))) cases.items) }
    {
        let refused = self.left[place];
        let rest = shared_without(alloc, self.left.as_slice(), place)?;
        let reason = None;
        let unnamed = self.case(alloc, &rest, Chosen { refused, reason })?;
        let mut cases = vec![in alloc; Task::Record(unnamed)]?;
        for label in self.labels.as_slice() {
            let reason = Some(*label);
            let named = self.case(alloc, &rest, Chosen { refused, reason })?;
            cases.push(Task::Record(named))?;
        }
        Ok(cases)
    }
}
