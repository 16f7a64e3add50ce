//! The cases of tasks.
ghost use Rattle.std.specs.Prelude.{◌≡◌, ◌<◌, map, IfOk};
ghost use Rattle.cd_model.specs.AllOf.{AllOf};
ghost use Rattle.cd_rules.specs.Tasks.{AreCases, count_left, left_of};
ghost use Rattle.cd_tasks.specs.LeftWithout.{IsLeftWithout, left_without};
ghost use Rattle.cd_tasks.specs.PlainTask.{plain_task};

use crate::group::{has_begun, has_group};
use crate::task::Task;
use crate::xml_group::{has_begun_xml, has_xml_group};
use std::alloc::{AllocError, Global};

impl<'g> Task<'g> {
    /// The cases of the task, where the member at this place of those left is given to each side in
    /// turn.
    ///
    /// # Errors
    ///
    /// Want of memory.
    pub fn cases(&self, alloc: Global, place: usize) -> Result<Vec<Task<'g>>, AllocError>
        requires { place < count_left (plain_task self.now) }
        ensures cases { IfOk result
            (λ cases. AreCases (plain_task self.now) (map plain_task cases.items)) }
        ensures taken { IfOk result (λ cases. AllOf (λ case. left_of (plain_task case)
            ≡ left_without place (plain_task self.now)) cases.items) }
    {
        match self {
            Task::Pair(task) => task.cases(alloc, place),
            Task::Xml(task) => task.cases(alloc, place),
            Task::Arrow(task) => task.cases(alloc, place),
            Task::Record(task) => task.cases(alloc, place),
        }
    }

    /// The cases of the task, where the member at this place of those left is given to each side in
    /// turn, with all others that have the same parts on all sides but one, if these are many. The
    /// side on which they differ is that of the last case.
    ///
    /// # Errors
    ///
    /// Want of memory.
    pub fn cases_together(&self, alloc: Global, place: usize) -> Result<Vec<Task<'g>>, AllocError>
        requires { place < count_left (plain_task self.now) }
        ensures cases { IfOk result
            (λ cases. AreCases (plain_task self.now) (map plain_task cases.items)) }
        ensures taken { IfOk result (λ cases. AllOf (λ case.
            IsLeftWithout place (plain_task self.now) (left_of (plain_task case))) cases.items) }
    {
        match self {
            Task::Pair(task) => task.cases_together(alloc, place),
            Task::Xml(task) => task.cases_together(alloc, place),
            Task::Arrow(task) => task.cases_together(alloc, place),
            Task::Record(task) => task.cases(alloc, place),
        }
    }

    /// Whether many others have the same parts as the member at this place of those left on all
    /// sides but one.
    pub fn has_group(&self, place: usize) -> bool {
        match self {
            Task::Pair(task) => has_group(task.left.as_slice(), place),
            Task::Xml(task) => has_xml_group(task.left.as_slice(), place),
            Task::Arrow(task) => has_group(task.left.as_slice(), place),
            Task::Record(_) => false,
        }
    }

    /// Whether also many such were given to the side on which they differ.
    pub fn has_begun_group(&self, place: usize) -> bool {
        match self {
            Task::Pair(task) => has_begun(
                task.left.as_slice(),
                place,
                task.firsts.as_slice(),
                task.seconds.as_slice(),
            ),
            Task::Xml(task) => has_begun_xml(
                task.left.as_slice(),
                place,
                task.tags.as_slice(),
                task.attributes.as_slice(),
                task.contents.as_slice(),
            ),
            Task::Arrow(task) => has_begun(
                task.left.as_slice(),
                place,
                task.outside.as_slice(),
                task.results.as_slice(),
            ),
            Task::Record(_) => false,
        }
    }
}
