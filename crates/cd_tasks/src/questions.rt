//! The questions of tasks.
ghost use Rattle.std.specs.Prelude.{◌≡◌, Some, slice_get, IfOk};
ghost use Rattle.cd_needs.specs.RecordTypes.{plain_row};
ghost use Rattle.cd_needs.specs.RecordType.{record_types};
ghost use Rattle.cd_needs.specs.PlainReasons.{plain_reasons};
ghost use Rattle.cd_rules.specs.Tasks.{questions_of, row_of_given};
ghost use Rattle.cd_tasks.specs.PlainTask.{plain_task};

use crate::task::{ArrowTask, PairTask, RecordTask, Task, XmlTask};
use cd_graph::built_in::{ATOM, RECORD};
use cd_needs::needed_questions;
use cd_needs::record_rows::row;
use cd_needs::row::Row;
use cd_parts::parts::{
    arrow_questions, question_of_attributes, question_of_contents, question_of_firsts,
    question_of_seconds, question_of_tags,
};
use cd_sets::question::Question;
use std::alloc::{AllocError, Global};

impl PairTask {
    /// The question of the first part.
    ///
    /// # Errors
    ///
    /// Want of memory.
    pub fn first_question(&self, alloc: Global) -> Result<Question, AllocError>
        ensures { IfOk result (λ asked.
            slice_get (questions_of (plain_task (Task.Pair self.now))) 0 ≡ Some asked) }
    {
        question_of_firsts(alloc, self.wanted.as_slice(), self.firsts.as_slice())
    }

    /// The question of the second part.
    ///
    /// # Errors
    ///
    /// Want of memory.
    pub fn second_question(&self, alloc: Global) -> Result<Question, AllocError>
        ensures { IfOk result (λ asked.
            slice_get (questions_of (plain_task (Task.Pair self.now))) 1 ≡ Some asked) }
    {
        question_of_seconds(alloc, self.wanted.as_slice(), self.seconds.as_slice())
    }
}

impl XmlTask {
    /// The question of the tag.
    ///
    /// # Errors
    ///
    /// Want of memory.
    pub fn tag_question(&self, alloc: Global) -> Result<Question, AllocError>
        ensures { IfOk result (λ asked.
            slice_get (questions_of (plain_task (Task.Xml self.now))) 0 ≡ Some asked) }
    {
        question_of_tags(alloc, ATOM, self.wanted.as_slice(), self.tags.as_slice())
    }

    /// The question of the attributes.
    ///
    /// # Errors
    ///
    /// Want of memory.
    pub fn attributes_question(&self, alloc: Global) -> Result<Question, AllocError>
        ensures { IfOk result (λ asked.
            slice_get (questions_of (plain_task (Task.Xml self.now))) 1 ≡ Some asked) }
    {
        let attributes = self.attributes.as_slice();
        question_of_attributes(alloc, RECORD, self.wanted.as_slice(), attributes)
    }

    /// The question of the content.
    ///
    /// # Errors
    ///
    /// Want of memory.
    pub fn content_question(&self, alloc: Global) -> Result<Question, AllocError>
        ensures { IfOk result (λ asked.
            slice_get (questions_of (plain_task (Task.Xml self.now))) 2 ≡ Some asked) }
    {
        question_of_contents(alloc, self.wanted.as_slice(), self.contents.as_slice())
    }
}

impl ArrowTask {
    /// The questions of which each has to have an element, for what was given.
    ///
    /// # Errors
    ///
    /// Want of memory.
    pub fn questions(&self, alloc: Global) -> Result<Vec<Question>, AllocError>
        ensures { IfOk result (λ all. all.items ≡ questions_of (plain_task (Task.Arrow self.now))) }
    {
        let outside = self.outside.as_slice();
        arrow_questions(alloc, self.refused, outside, self.results.as_slice())
    }
}

impl RecordTask<'_> {
    /// The questions of which each has to have an element, for what was given.
    ///
    /// # Errors
    ///
    /// Want of memory.
    pub fn questions(&self, alloc: Global) -> Result<Vec<Question>, AllocError>
        ensures { IfOk result
            (λ all. all.items ≡ questions_of (plain_task (Task.Record self.now))) }
    {
        let labels = self.labels.as_slice();
        let wanted = self.wanted.as_slice();
        needed_questions(alloc, labels, wanted, self.given.as_slice())
    }

    /// The row of what was given.
    ///
    /// # Errors
    ///
    /// Want of memory.
    pub fn row(&self, alloc: Global) -> Result<Row, AllocError>
        ensures { let wanted = record_types self.now.wanted.value.items in
            let refused = record_types self.now.refused.value.items in
            IfOk result (λ row.
            plain_row row ≡ row_of_given wanted refused (plain_reasons self.now.given.items)) }
    {
        let labels = self.labels.as_slice();
        let wanted = self.wanted.as_slice();
        row(alloc, labels, wanted, self.given.as_slice())
    }
}
