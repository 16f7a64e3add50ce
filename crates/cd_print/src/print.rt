//! The canonical text of a value. A stack of tasks has what is left to be written.
ghost use Rattle.std.specs.Prelude.{◌≡◌, ◌<◌, IfOk, length, string_bytes, encode_utf8_all};
ghost use Rattle.cd_cells.specs.Cells.{thing_at};
ghost use Rattle.cd_cells.specs.Table.{table};
ghost use Rattle.cd_model.specs.Canonical.{canonical};

use crate::task::{Task, Tasks};
use crate::value::write_task;
use cd_cells::{ValueId, Values};
use cd_elements::output::Output;
use std::alloc::{AllocError, Global};

/// The canonical text of a value.
///
/// # Errors
///
/// Want of memory.
pub fn print_value(alloc: Global, values: &Values, id: ValueId) -> Result<String, AllocError>
    requires { id.0 < length (table values.now) }
    ensures { IfOk result (λ text.
        string_bytes text ≡ encode_utf8_all (canonical (thing_at (table values.now) id.0))) }
{
    let mut output = Output::new(alloc);
    let mut tasks = Tasks::new(alloc);
    tasks.push(Task::Value(id))?;
    while let Some(task) = tasks.pop() {
        write_task(values, task, &mut tasks, &mut output)?;
    }
    Ok(output.into_text())
}
