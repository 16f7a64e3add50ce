//! The tasks of a clause.
ghost use Rattle.std.specs.Prelude.{◌≡◌, map, IfOk};
ghost use Rattle.cd_normal.specs.PlainClause.{plain_clause};
ghost use Rattle.cd_rules.specs.Clauses.{Arrows};
ghost use Rattle.cd_rules.specs.Tasks.{tasks_of as tasks_of_clause};
ghost use Rattle.cd_tasks.specs.PlainTask.{plain_task};

use crate::task::{ArrowTask, PairTask, RecordTask, Task, XmlTask};
use cd_normal::clause::Clause;
use cd_sets::node_id::NodeId;
use std::alloc::{AllocError, Global};
use std::rc::Rc;

/// What is to do for a clause: one task for each refused arrow, else one. Nothing is given yet.
///
/// # Errors
///
/// Want of memory.
pub fn tasks_of<'g>(alloc: Global, clause: &Clause<'g>) -> Result<Vec<Task<'g>>, AllocError>
    ensures { IfOk result
        (λ tasks. map plain_task tasks.items ≡ tasks_of_clause (plain_clause clause.now)) }
{
    match clause {
        Clause::Pairs(wanted, refused) => {
            let task = PairTask::of(alloc, wanted, refused)?;
            Ok(vec![in alloc; Task::Pair(task)]?)
        }
        Clause::Xmls(wanted, refused) => {
            let task = XmlTask::of(alloc, wanted, refused)?;
            Ok(vec![in alloc; Task::Xml(task)]?)
        }
        Clause::Records(wanted, refused) => {
            let task = RecordTask::of(alloc, wanted, refused)?;
            Ok(vec![in alloc; Task::Record(task)]?)
        }
        Clause::Arrows(wanted, refused) => arrow_tasks(alloc, wanted, refused.as_slice()),
    }
}

// One task for each refused arrow.
fn arrow_tasks<'g>(
    alloc: Global,
    wanted: &Rc<Vec<(NodeId, NodeId)>>,
    refused: &[(NodeId, NodeId)],
) -> Result<Vec<Task<'g>>, AllocError>
    ensures { IfOk result (λ tasks. map plain_task tasks.items
        ≡ tasks_of_clause (Arrows wanted.now.value.items refused.now)) }
{
    let mut tasks = Vec::new(alloc);
    for one in refused {
        let task = ArrowTask::of(alloc, *one, wanted)?;
        tasks.push(Task::Arrow(task))?;
    }
    Ok(tasks)
}
