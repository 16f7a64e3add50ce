//! The canonical text of an element. A stack of tasks has what is left to be written.
ghost use Rattle.std.specs.Prelude.{◌≡◌, ◌<◌, ◌++◌, length, map, OnOk, IfOk};
ghost use Rattle.cd_model.specs.Canonical.{canonical, printed, atom_printed, spine_text};
ghost use Rattle.cd_model.specs.Canonical.{sequence_text, pieces_of};
ghost use Rattle.cd_model.specs.Thing.{Xml as AnXml, Record as ARecord, Function as AFunction};
ghost use Rattle.cd_elements.specs.Table.{element_at, fields_of, pairs_of};
ghost use Rattle.cd_elements.specs.Elements.{table};
ghost use Rattle.cd_elements.specs.Inner.Tasks.{task_text, text_in, part_in};
ghost use Rattle.cd_elements.specs.Inner.Writing.{Writes};

use crate::elements::Elements;
use crate::look::{fields_at, is_nil, tag_at};
use crate::output::Output;
use crate::quote::{push_character, push_escaped, push_quoted};
use crate::rows::{push_fields, push_function, push_record, push_tuple};
use crate::sequence::push_sequence;
use crate::shape::{ElementId, Shape};
use crate::spine::{letters, spine_of};
use crate::task::{Mark, Task, Tasks};
use cd_syntax::name::Name;
use std::alloc::AllocError;

/// The canonical text of an element of a table.
pub(crate) fn text_of(elements: &Elements, id: ElementId) -> Result<Name, AllocError>
    ensures { IfOk result (λ name. name ≡ canonical (element_at (table elements.now) id)) }
{
    let mut output = Output::new(elements.allocator());
    let mut tasks = Tasks::new(elements.allocator());
    tasks.push_element(id)?;
    while let Some(task) = tasks.pop() {
        write_task(elements, task, &mut tasks, &mut output)?;
    }
    output.name()
}

// Writes a piece, or its beginning, and then the rest is left.
fn write_task<'a>(
    elements: &'a Elements,
    task: Task<'a>,
    tasks: &mut Tasks<'a>,
    output: &mut Output,
) -> Result<(), AllocError>
    ensures { let all = table elements.now in
        OnOk result
        (Writes all (task_text all task.entry) output.old tasks.old output.new tasks.new) }
{
    match task {
        Task::Mark(mark) => output.push_str(mark.text()),
        Task::Letter(c) => push_escaped(output, '\'', c),
        Task::Field(label, value) => {
            output.push_str(label.as_str())?;
            output.push('=')?;
            tasks.push_element(value)
        }
        Task::Element(id) => write_element(elements, id, tasks, output),
    }
}

// Writes an element, or its beginning, and then the rest is left.
fn write_element<'a>(
    elements: &'a Elements,
    id: ElementId,
    tasks: &mut Tasks<'a>,
    output: &mut Output,
) -> Result<(), AllocError>
    ensures { let all = table elements.now in
        OnOk result (Writes all (text_in all id) output.old tasks.old output.new tasks.new) }
{
    match elements.at(id) {
        None => output.push('`'),
        Some(Shape::Int(n)) => output.push_number(*n),
        Some(Shape::Char(c)) => push_character(output, *c),
        Some(Shape::Atom(name)) => write_atom(name, output),
        Some(Shape::Pair(_, _)) => write_spine(elements, id, tasks, output),
        Some(Shape::Xml(tag, attributes, content)) => {
            write_xml(elements, *tag, *attributes, *content, tasks, output)
        }
        Some(Shape::Record(parts)) => write_record(elements, parts.items(), tasks, output),
        Some(Shape::Fun(pairs)) => write_function(elements, pairs.items(), tasks, output),
    }
}

// Writes an atom.
fn write_atom(name: &Name, output: &mut Output) -> Result<(), AllocError>
    ensures text { OnOk result (output.new ≡ output.old ++ (atom_printed name.now).text) }
    ensures longer { OnOk result (length output.old < length output.new) }
{
    if is_nil(name) {
        output.push('[')?;
        return output.push(']');
    }
    output.push('`')?;
    output.push_str(name.as_str())
}

// Writes the beginning of pairs, and then the rest is left.
fn write_spine(
    elements: &Elements,
    id: ElementId,
    tasks: &mut Tasks<'_>,
    output: &mut Output,
) -> Result<(), AllocError>
    requires { 0 < length (printed (element_at (table elements.now) id)).spine.parts }
    ensures { let all = table elements.now in
        let spine = (printed (element_at all id)).spine in
        OnOk result
        (Writes all (spine_text spine.parts spine.end) output.old tasks.old output.new tasks.new) }
{
    let spine = spine_of(elements, id)?;
    match spine.end {
        Some(end) => {
            push_tuple(spine.firsts.as_slice(), end, tasks)?;
            output.push('(')
        }
        None => write_sequence(elements, spine.firsts.as_slice(), tasks, output),
    }
}

// Writes a text of characters, or the beginning of a sequence, and then the rest is left.
fn write_sequence(
    elements: &Elements,
    firsts: &[ElementId],
    tasks: &mut Tasks<'_>,
    output: &mut Output,
) -> Result<(), AllocError>
    requires { 0 < length firsts.now }
    ensures { let all = table elements.now in
        let pieces = pieces_of (map (part_in all) firsts.now) in
        OnOk result (Writes all (sequence_text pieces) output.old tasks.old output.new tasks.new) }
{
    match letters(elements, firsts)? {
        Some(characters) => push_quoted(output, '"', characters.as_slice()),
        None => {
            push_sequence(elements, firsts, tasks)?;
            output.push('[')
        }
    }
}

// Writes the beginning of an XML element, and then the rest is left.
fn write_xml<'a>(
    elements: &'a Elements,
    tag: ElementId,
    attributes: ElementId,
    content: ElementId,
    tasks: &mut Tasks<'a>,
    output: &mut Output,
) -> Result<(), AllocError>
    ensures { let all = table elements.now in
        let xml = AnXml (element_at all tag) (element_at all attributes) (element_at all content) in
        OnOk result (Writes all (canonical xml) output.old tasks.old output.new tasks.new) }
{
    tasks.push_element(content)?;
    tasks.push_mark(Mark::Greater)?;
    push_fields(fields_at(elements, attributes), Mark::Space, tasks)?;
    output.push('<')?;
    output.push_str(tag_at(elements, tag))
}

// Writes the beginning of a record, and then the rest is left.
fn write_record<'a>(
    elements: &'a Elements,
    parts: &'a [(Name, ElementId)],
    tasks: &mut Tasks<'a>,
    output: &mut Output,
) -> Result<(), AllocError>
    ensures { let all = table elements.now in
        OnOk result
        (Writes all
        (canonical
        (ARecord (fields_of all parts.now))) output.old tasks.old output.new tasks.new) }
{
    push_record(parts, tasks)?;
    output.push('{')
}

// Writes the beginning of a function, and then the rest is left.
fn write_function(
    elements: &Elements,
    pairs: &[(ElementId, Option<ElementId>)],
    tasks: &mut Tasks<'_>,
    output: &mut Output,
) -> Result<(), AllocError>
    ensures { let all = table elements.now in
        OnOk result
        (Writes all
        (canonical
        (AFunction (pairs_of all pairs.now))) output.old tasks.old output.new tasks.new) }
{
    push_function(pairs, tasks)?;
    output.push_str("fun{")
}
