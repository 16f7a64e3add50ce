//! The fields of records and of XML values.
ghost use Rattle.std.specs.Prelude.{◌<◌, ◌++◌, length, OnOk};
ghost use Rattle.cd_model.specs.Canonical.{record_printed, canonical};
ghost use Rattle.cd_model.specs.Thing.{Xml as AnXml};
ghost use Rattle.cd_cells.specs.Cells.{thing_at};
ghost use Rattle.cd_cells.specs.Table.{table};
ghost use Rattle.cd_print.specs.Inner.Texts.{field_at, field_texts_at, after_field};
ghost use Rattle.cd_print.specs.Inner.Texts.{attributes_text};
ghost use Rattle.cd_print.specs.Inner.Tasks.{task_text, Writes};

use crate::look::{fields_at, tag_at};
use crate::task::{Task, Tasks};
use cd_cells::{Part, ValueId, Values};
use cd_elements::output::Output;
use std::alloc::AllocError;

/// Writes the beginning of a record, and then the rest is left.
pub(crate) fn write_record<'v>(
    values: &Values,
    parts: &'v [Part],
    tasks: &mut Tasks<'v>,
    output: &mut Output,
) -> Result<(), AllocError>
    ensures text { OnOk result (Writes values.now
        (record_printed (field_texts_at values.now parts.now)).text
        output.old tasks.old output.new tasks.new) }
    ensures longer { OnOk result (length output.old < length output.new) }
{
    output.push('{')?;
    match parts {
        [] => output.push('}'),
        [first, rest @ ..] => { write_field(values, *first, Task::Fields(rest), tasks, output) }
    }
}

// Writes the beginning of a field, and then its value is left, and what stands after it.
fn write_field<'v>(
    values: &Values,
    part: Part,
    after: Task<'v>,
    tasks: &mut Tasks<'v>,
    output: &mut Output,
) -> Result<(), AllocError>
    ensures text { OnOk result (Writes values.now
        (field_at values.now part ++ task_text values.now after.entry)
        output.old tasks.old output.new tasks.new) }
    ensures longer { OnOk result (length output.old < length output.new) }
{
    output.push_str(values.name_of(part.label))?;
    output.push('=')?;
    tasks.push(after)?;
    tasks.push(Task::Value(part.id()))
}

/// Writes what stands after a field of a record, and then the rest is left.
pub(crate) fn write_after_field<'v>(
    values: &Values,
    parts: &'v [Part],
    tasks: &mut Tasks<'v>,
    output: &mut Output,
) -> Result<(), AllocError>
    ensures text { OnOk result (Writes values.now
        (after_field (field_texts_at values.now parts.now))
        output.old tasks.old output.new tasks.new) }
    ensures longer { OnOk result (length output.old < length output.new) }
{
    match parts {
        [] => output.push('}'),
        [first, rest @ ..] => {
            output.push_two(';', ' ')?;
            write_field(values, *first, Task::Fields(rest), tasks, output)
        }
    }
}

/// Writes the beginning of an XML value, and then the rest is left.
pub(crate) fn write_xml<'v>(
    values: &'v Values,
    tag: ValueId,
    attributes: ValueId,
    content: ValueId,
    tasks: &mut Tasks<'v>,
    output: &mut Output,
) -> Result<(), AllocError>
    ensures text { let all = table values.now in
        let xml = AnXml (thing_at all tag.0) (thing_at all attributes.0) (thing_at all content.0) in
        OnOk result
        (Writes values.now (canonical xml) output.old tasks.old output.new tasks.new) }
    ensures longer { OnOk result (length output.old < length output.new) }
{
    output.push('<')?;
    output.push_str(tag_at(values, tag))?;
    tasks.push(Task::Attributes(fields_at(values, attributes), content))
}

/// Writes the next attribute, or the end of the tag, and then the rest is left.
pub(crate) fn write_attributes<'v>(
    values: &Values,
    parts: &'v [Part],
    content: ValueId,
    tasks: &mut Tasks<'v>,
    output: &mut Output,
) -> Result<(), AllocError>
    ensures text { OnOk result (Writes values.now (attributes_text values.now parts.now content)
        output.old tasks.old output.new tasks.new) }
    ensures longer { OnOk result (length output.old < length output.new) }
{
    match parts {
        [] => {
            output.push('>')?;
            tasks.push(Task::Value(content))
        }
        [first, rest @ ..] => {
            output.push(' ')?;
            write_field(
                values,
                *first,
                Task::Attributes(rest, content),
                tasks,
                output,
            )
        }
    }
}
