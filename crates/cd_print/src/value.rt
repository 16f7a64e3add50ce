//! A piece of a text, or its beginning.
ghost use Rattle.std.specs.Prelude.{◌≡◌, ◌<◌, ◌++◌, length, OnOk, codes};
ghost use Rattle.cd_model.specs.Canonical.{atom_printed};
ghost use Rattle.cd_cells.specs.Cells.{name_at};
ghost use Rattle.cd_cells.specs.Table.{names};
ghost use Rattle.cd_print.specs.Inner.Texts.{text_at};
ghost use Rattle.cd_print.specs.Inner.Tasks.{task_text};
ghost use Rattle.cd_print.specs.Inner.Tasks.{Writes};

use crate::fields::{write_after_field, write_attributes, write_record, write_xml};
use crate::look::{is_nil, look_at};
use crate::spine::{write_after_item, write_after_part, write_spine};
use crate::task::{Task, Tasks};
use cd_cells::{Look, ValueId, Values};
use cd_elements::output::Output;
use cd_elements::quote::push_character;
use std::alloc::AllocError;

/// Writes a piece, or its beginning, and then the rest is left.
pub(crate) fn write_task<'v>(
    values: &'v Values,
    task: Task<'v>,
    tasks: &mut Tasks<'v>,
    output: &mut Output,
) -> Result<(), AllocError>
    ensures text { OnOk result (Writes values.now (task_text values.now task.entry)
        output.old tasks.old output.new tasks.new) }
    ensures longer { OnOk result (length output.old < length output.new) }
{
    match task {
        Task::Value(id) => write_value(values, id, tasks, output),
        Task::AfterItem(id) => write_after_item(values, id, tasks, output),
        Task::AfterPart(id) => write_after_part(values, id, tasks, output),
        Task::Close => output.push(')'),
        Task::Fields(parts) => write_after_field(values, parts, tasks, output),
        Task::Attributes(parts, content) => {
            write_attributes(values, parts, content, tasks, output)
        }
    }
}

// Writes a value, or its beginning, and then the rest is left.
fn write_value<'v>(
    values: &'v Values,
    id: ValueId,
    tasks: &mut Tasks<'v>,
    output: &mut Output,
) -> Result<(), AllocError>
    ensures text { OnOk result (Writes values.now (text_at values.now id)
        output.old tasks.old output.new tasks.new) }
    ensures longer { OnOk result (length output.old < length output.new) }
{
    match look_at(values, id) {
        None => output.push('`'),
        Some(Look::Int(n)) => output.push_number(n),
        Some(Look::Char(c)) => push_character(output, c),
        Some(Look::Atom(name)) => write_atom(values, name, output),
        Some(Look::Pair(_, _)) => write_spine(values, id, tasks, output),
        Some(Look::Xml(tag, attributes, content)) => {
            write_xml(values, tag, attributes, content, tasks, output)
        }
        Some(Look::Record(parts)) => write_record(values, parts, tasks, output),
        Some(Look::Closure(_, _)) => write_closure(output),
    }
}

// Writes the atom of this name.
fn write_atom(values: &Values, name: u32, output: &mut Output) -> Result<(), AllocError>
    ensures text { OnOk result
        (output.new ≡ output.old ++ (atom_printed (name_at (names values.now) name)).text) }
    ensures longer { OnOk result (length output.old < length output.new) }
{
    if is_nil(values, name) {
        return output.push_two('[', ']');
    }
    output.push('`')?;
    output.push_str(values.name_of(name))
}

// Writes what is written of each closure.
#[tactic(auto, using(crate::proofs::Literals::closure_characters))]
fn write_closure(output: &mut Output) -> Result<(), AllocError>
    ensures { OnOk result (output.new ≡ output.old ++ codes "<fun>") }
{
    output.push_str("<fun>")
}
