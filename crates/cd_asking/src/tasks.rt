//! The stack of what is left to do.
ghost use Rattle.std.specs.Prelude.{◌≡◌, ◌<◌, ◌+◌, ◌^◌, ◌++◌, IfOk, OnOk};
ghost use Rattle.cd_asking.specs.Inner.Running.{ArePut, pairs_of};
ghost use Rattle.cd_asking.specs.declared.task.Task.TheVariants.{OfPairs};

use crate::node_sets::SetId;
use crate::task::Task;
use std::alloc::AllocError;

/// Puts a task on top of the stack. Pairs in a row are one task.
pub(crate) fn put<'v>(tasks: &mut Vec<Task<'v>>, task: Task<'v>) -> Result<(), AllocError>
    ensures { OnOk result (ArePut tasks.old.items task.entry tasks.new.items) }
{
    match task {
        Task::OfPairs(set, first, count) => put_pairs(tasks, set, first, count),
        task => Ok(tasks.push(task)?),
    }
}

// Puts pairs in a row on top of the stack.
fn put_pairs<'v>(
    tasks: &mut Vec<Task<'v>>,
    set: SetId,
    first: SetId,
    count: u64,
) -> Result<(), AllocError>
    ensures { OnOk result (ArePut tasks.old.items (OfPairs set first count) tasks.new.items) }
{
    let others = take_pairs(tasks, set, first, count)?;
    tasks.push(Task::OfPairs(set, first, others + count))?;
    Ok(())
}

// Takes pairs like these from the top of the stack, if there are some, and gives how many. So many
// more can be counted with them.
fn take_pairs<'v>(
    tasks: &mut Vec<Task<'v>>,
    set: SetId,
    first: SetId,
    more: u64,
) -> Result<u64, AllocError>
    ensures taken { IfOk result (λ count.
        tasks.old.items ≡ tasks.new.items ++ pairs_of set first count) }
    ensures few { IfOk result (λ count. count + more < 2 ^ 64) }
{
    match tasks.pop() {
        None => Ok(0),
        Some(Task::OfPairs(other, one, count)) => {
            let is_like = other.0 == set.0 && one.0 == first.0;
            if is_like && count > 0 && count <= u64::MAX - more {
                return Ok(count);
            }
            tasks.push(Task::OfPairs(other, one, count))?;
            Ok(0)
        }
        Some(task) => {
            tasks.push(task)?;
            Ok(0)
        }
    }
}
