//! What is known of questions that all have to have elements.
ghost use Rattle.std.specs.Prelude.{IfOk};
ghost use Rattle.cd_rules.specs.Tasks.{questions_of};
ghost use Rattle.cd_tasks.specs.PlainTask.{plain_task};
ghost use Rattle.cd_empty.specs.Inner.Looking.{AreParts, AddsPart};
ghost use Rattle.cd_empty.specs.Kept.{kept};
ghost use Rattle.cd_verdicts.specs.Looking.{IsSeen};

use crate::decider::Decider;
use cd_elements::ElementId;
use cd_sets::question::Question;
use cd_tasks::{PairTask, Task, XmlTask};
use cd_verdicts::look::{Look, look_at};
use smallvec::SmallVec;
use std::alloc::AllocError;

/// What is known of questions that all have to have elements.
#[derive(Drop)]
pub(crate) enum Parts {
    /// One of them has none, or is assumed to have none.
    Missing,
    /// Nothing is known of this one.
    Unknown(Question),
    /// These are elements of them, in their order.
    Are(SmallVec<ElementId, 4>),
}

impl Decider {
    /// What is known of a question.
    pub(crate) fn look(&self, question: &Question) -> Look
        ensures { IsSeen (kept self.now) self.now.list question.now result }
    {
        look_at(&self.verdicts, &self.list, question)
    }

    /// What is known of questions that all have to have elements.
    pub(crate) fn parts(&self, questions: &[Question]) -> Result<Parts, AllocError>
        ensures { IfOk result (AreParts self.now questions.now) }
    {
        let mut ids = SmallVec::new(self.allocator());
        for question in questions {
            match self.look(question) {
                Look::Empty => return Ok(Parts::Missing),
                Look::Has(id) => ids.push(id)?,
                Look::Unknown => return Ok(Parts::Unknown(question.copy()?)),
            }
        }
        Ok(Parts::Are(ids))
    }

    /// What is known of the questions of a task. Those of a pair or of an XML element are made one
    /// by one, since most often the first ones tell.
    pub(crate) fn parts_of(&self, task: &Task<'_>) -> Result<Parts, AllocError>
        ensures { IfOk result (AreParts self.now (questions_of (plain_task task.now))) }
    {
        match task {
            Task::Pair(task) => self.parts_of_pair(task),
            Task::Xml(task) => self.parts_of_xml(task),
            Task::Arrow(task) => self.parts(task.questions(self.allocator())?.as_slice()),
            Task::Record(task) => self.parts(task.questions(self.allocator())?.as_slice()),
        }
    }

    // What is known of the questions of a task for a pair.
    fn parts_of_pair(&self, task: &PairTask) -> Result<Parts, AllocError>
        ensures { IfOk result
            (AreParts self.now (questions_of (plain_task (Task.Pair task.now)))) }
    {
        let alloc = self.allocator();
        let mut ids = SmallVec::new(alloc);
        if let Some(stop) = self.add_part(&mut ids, task.first_question(alloc)?)? {
            return Ok(stop);
        }
        if let Some(stop) = self.add_part(&mut ids, task.second_question(alloc)?)? {
            return Ok(stop);
        }
        Ok(Parts::Are(ids))
    }

    // What is known of the questions of a task for an XML element.
    fn parts_of_xml(&self, task: &XmlTask) -> Result<Parts, AllocError>
        ensures { IfOk result
            (AreParts self.now (questions_of (plain_task (Task.Xml task.now)))) }
    {
        let alloc = self.allocator();
        let mut ids = SmallVec::new(alloc);
        if let Some(stop) = self.add_part(&mut ids, task.tag_question(alloc)?)? {
            return Ok(stop);
        }
        if let Some(stop) = self.add_part(&mut ids, task.attributes_question(alloc)?)? {
            return Ok(stop);
        }
        if let Some(stop) = self.add_part(&mut ids, task.content_question(alloc)?)? {
            return Ok(stop);
        }
        Ok(Parts::Are(ids))
    }

    // Adds the element of a question. Where it is not known to have one, that is the answer.
    fn add_part(
        &self,
        ids: &mut SmallVec<ElementId, 4>,
        question: Question,
    ) -> Result<Option<Parts>, AllocError>
        ensures { IfOk result (AddsPart self.now question ids.old.items ids.new.items) }
    {
        match self.look(&question) {
            Look::Empty => Ok(Some(Parts::Missing)),
            Look::Has(id) => {
                ids.push(id)?;
                Ok(None)
            }
            Look::Unknown => Ok(Some(Parts::Unknown(question))),
        }
    }
}
