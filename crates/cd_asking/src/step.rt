//! The steps by which a value is asked.
ghost use Rattle.std.specs.Prelude.{◌<◌, ◌∷◌, ◌++◌, [], length, IfOk};
ghost use Rattle.cd_graph.specs.Nodes.{nodes};
ghost use Rattle.cd_cells.specs.Cells.{thing_at, fields_of, IsPart};
ghost use Rattle.cd_cells.specs.Looked.{looked};
ghost use Rattle.cd_cells.specs.Table.{table, names};
ghost use Rattle.cd_model.specs.AllOf.{AllOf};
ghost use Rattle.cd_model.specs.Thing as thing;
ghost use Rattle.cd_model.specs.Thing.{IsValue};
ghost use Rattle.cd_asking.specs.MappedArrows.{maps_at};
ghost use Rattle.cd_asking.specs.Known.{KnowsOf};
ghost use Rattle.cd_asking.specs.Inner.Rows.{row_at};
ghost use Rattle.cd_asking.specs.Inner.Asked.{set_at, shape_by, IsCase, IsCaseWithin, IsField};
ghost use Rattle.cd_asking.specs.Inner.Asked.{IsRow, IsTask, HasParts, Grows};
ghost use Rattle.cd_asking.specs.Inner.Steps.{Asks, AsksRecord, AsksShape, Does};
ghost use Rattle.cd_asking.specs.Inner.Entries.{LeadBoth};
ghost use Rattle.cd_asking.specs.Inner.Along.{GoesTo};
ghost use Rattle.cd_asking.specs.declared.task.Next.TheVariants.{Ask};
ghost use Rattle.cd_asking.specs.declared.task.Task.TheVariants.{OfSecond, OfAttributes, OfContent};
ghost use Rattle.cd_asking.specs.declared.task.Task.TheVariants.{OfPairs};

use crate::along::along;
use crate::asker::{Asker, PairLeads};
use crate::case::Case;
use crate::leaf::{leaf, leaf_at_some};
use crate::maps::Maps;
use crate::node_sets::SetId;
use crate::row::{Answered, RowId};
use crate::task::{Next, Task};
use cd_cells::{Look, Part, ValueId, Values};
use cd_graph::Graph;
use std::alloc::AllocError;

/// The first step for a value at a set of nodes, which answers at once where there are none.
pub(crate) fn ask<'v>(
    asker: &mut Asker,
    graph: &Graph,
    maps: &Maps,
    values: &'v Values,
    id: ValueId,
    set: SetId,
) -> Result<Next<'v>, AllocError>
    requires value { id.0 < length (table values.now) }
    requires set { set.0 < length asker.old.sets }
    requires values { AllOf IsValue (table values.now) }
    requires right { KnowsOf (nodes graph.now) (names values.now) asker.old }
    ensures step { let is = thing_at (table values.now) id.0 in
        IfOk result (Asks graph.now maps.now values.now asker.old asker.new set is) }
    ensures right { KnowsOf (nodes graph.now) (names values.now) asker.new }
    ensures grows { Grows asker.old asker.new }
{
    match asker.sets.get(set) {
        [] => Ok(Next::Answer(set)),
        [_, ..] => ask_some(asker, graph, maps, values, id, set),
    }
}

// The same where there are some.
fn ask_some<'v>(
    asker: &mut Asker,
    graph: &Graph,
    maps: &Maps,
    values: &'v Values,
    id: ValueId,
    set: SetId,
) -> Result<Next<'v>, AllocError>
    requires value { id.0 < length (table values.now) }
    requires set { set.0 < length asker.old.sets }
    requires values { AllOf IsValue (table values.now) }
    requires right { KnowsOf (nodes graph.now) (names values.now) asker.old }
    ensures step { let is = thing_at (table values.now) id.0 in
        IfOk result (Asks graph.now maps.now values.now asker.old asker.new set is) }
    ensures right { KnowsOf (nodes graph.now) (names values.now) asker.new }
    ensures grows { Grows asker.old asker.new }
{
    match values.look(id) {
        Look::Pair(first, second) => ask_pair(asker, graph, maps, values, set, first, second),
        Look::Xml(tag, attributes, content) => {
            ask_xml(asker, graph, maps, values, set, tag, (attributes, content))
        }
        Look::Record(parts) => ask_record(asker, graph, maps, values, set, parts),
        look => answer_leaf(asker, graph, maps, values, look, set),
    }
}

// The answer of a value without parts.
fn answer_leaf<'v>(
    asker: &mut Asker,
    graph: &Graph,
    maps: &Maps,
    values: &'v Values,
    look: Look<'v>,
    set: SetId,
) -> Result<Next<'v>, AllocError>
    requires parts { HasParts look → ⊥ }
    requires value { IsValue (looked (names values.now) (table values.now) look) }
    requires set { set.0 < length asker.old.sets }
    requires right { KnowsOf (nodes graph.now) (names values.now) asker.old }
    ensures step { let is = looked (names values.now) (table values.now) look.entry in
        IfOk result (Asks graph.now maps.now values.now asker.old asker.new set is) }
    ensures right { KnowsOf (nodes graph.now) (names values.now) asker.new }
    ensures grows { Grows asker.old asker.new }
{
    match leaf_at_some(asker, graph, maps, values, look, set)? {
        Some(answer) => Ok(Next::Answer(answer)),
        None => unreachable!(),
    }
}

// The answer of a value whose answers are kept.
fn answer_case<'v>(
    asker: &mut Asker,
    graph: &Graph,
    maps: &Maps,
    values: &'v Values,
    set: SetId,
    case: Case,
) -> Result<Next<'v>, AllocError>
    requires set { set.0 < length asker.old.sets }
    requires case { IsCase (names values.now) case }
    requires parts { IsCaseWithin (names values.now) asker.old.sets asker.old.rows case }
    requires right { KnowsOf (nodes graph.now) (names values.now) asker.old }
    ensures step { let is = shape_by (names values.now) asker.old.sets asker.old.rows case in
        IfOk result (AsksShape graph.now maps.now values.now asker.old asker.new set is) }
    ensures right { KnowsOf (nodes graph.now) (names values.now) asker.new }
    ensures grows { Grows asker.old asker.new }
{
    let answer = asker.answer(graph, values, set, case)?;
    Ok(Next::Answer(answer))
}

// The first part of a pair is asked.
fn ask_pair<'v>(
    asker: &mut Asker,
    graph: &Graph,
    maps: &Maps,
    values: &'v Values,
    set: SetId,
    first: ValueId,
    second: ValueId,
) -> Result<Next<'v>, AllocError>
    requires first { first.0 < length (table values.now) }
    requires second { second.0 < length (table values.now) }
    requires set { set.0 < length asker.old.sets }
    requires values { AllOf IsValue (table values.now) }
    requires right { KnowsOf (nodes graph.now) (names values.now) asker.old }
    ensures step { let all = table values.now in
        let is = thing.Pair (thing_at all first.0) (thing_at all second.0) in
        IfOk result (Asks graph.now maps.now values.now asker.old asker.new set is) }
    ensures right { KnowsOf (nodes graph.now) (names values.now) asker.new }
    ensures grows { Grows asker.old asker.new }
{
    let leads = asker.pair_leads(graph, values, set)?;
    match leaf(asker, graph, maps, values, values.look(first), leads.first)? {
        Some(answer) => ask_along(asker, graph, maps, values, set, leads, (answer, second)),
        None => Ok(Next::Ask(first, leads.first, Task::OfSecond(second, set))),
    }
}

// The tag of an XML value is asked.
fn ask_xml<'v>(
    asker: &mut Asker,
    graph: &Graph,
    maps: &Maps,
    values: &'v Values,
    set: SetId,
    tag: ValueId,
    rest: (ValueId, ValueId),
) -> Result<Next<'v>, AllocError>
    requires tag { tag.0 < length (table values.now) }
    requires attributes { rest.0.0 < length (table values.now) }
    requires content { rest.1.0 < length (table values.now) }
    requires set { set.0 < length asker.old.sets }
    requires values { AllOf IsValue (table values.now) }
    requires right { KnowsOf (nodes graph.now) (names values.now) asker.old }
    ensures step { let all = table values.now in
        let is = thing.Xml (thing_at all tag.0) (thing_at all rest.0.0) (thing_at all rest.1.0) in
        IfOk result (Asks graph.now maps.now values.now asker.old asker.new set is) }
    ensures right { KnowsOf (nodes graph.now) (names values.now) asker.new }
    ensures grows { Grows asker.old asker.new }
{
    let leads = asker.xml_leads(graph, values, set)?;
    match leaf(asker, graph, maps, values, values.look(tag), leads.tag)? {
        Some(answer) => ask_attributes(asker, graph, maps, values, set, answer, rest),
        None => Ok(Next::Ask(tag, leads.tag, Task::OfAttributes(rest.0, rest.1, set))),
    }
}

// The first field of a record is asked.
fn ask_record<'v>(
    asker: &mut Asker,
    graph: &Graph,
    maps: &Maps,
    values: &'v Values,
    set: SetId,
    parts: &'v [Part],
) -> Result<Next<'v>, AllocError>
    requires parts { AllOf (IsPart (names values.now) (length (table values.now))) parts.now }
    requires set { set.0 < length asker.old.sets }
    requires right { KnowsOf (nodes graph.now) (names values.now) asker.old }
    ensures step { let is = fields_of (names values.now) (table values.now) parts.now in
        IfOk result (Asks graph.now maps.now values.now asker.old asker.new set (thing.Record is)) }
    ensures right { KnowsOf (nodes graph.now) (names values.now) asker.new }
    ensures grows { Grows asker.old asker.new }
{
    ask_rest(asker, graph, maps, values, set, RowId(0), parts)
}

// The next field of a record is asked, or else the record answers.
fn ask_rest<'v>(
    asker: &mut Asker,
    graph: &Graph,
    maps: &Maps,
    values: &'v Values,
    set: SetId,
    row: RowId,
    left: &'v [Part],
) -> Result<Next<'v>, AllocError>
    requires left { AllOf (IsPart (names values.now) (length (table values.now))) left.now }
    requires row { IsRow (names values.now) asker.old.sets asker.old.rows row }
    requires set { set.0 < length asker.old.sets }
    requires right { KnowsOf (nodes graph.now) (names values.now) asker.old }
    ensures step { let done = row_at asker.old.rows row in
        IfOk result (AsksRecord graph.now maps.now values.now asker.old asker.new set done
        left.now) }
    ensures right { KnowsOf (nodes graph.now) (names values.now) asker.new }
    ensures grows { Grows asker.old asker.new }
{
    match left {
        [] => answer_case(asker, graph, maps, values, set, Case::Record(row)),
        [field, rest @ ..] => ask_field(asker, graph, maps, values, (set, row), *field, rest),
    }
}

// A field of a record is asked.
fn ask_field<'v>(
    asker: &mut Asker,
    graph: &Graph,
    maps: &Maps,
    values: &'v Values,
    known: (SetId, RowId),
    field: Part,
    left: &'v [Part],
) -> Result<Next<'v>, AllocError>
    requires field { IsPart (names values.now) (length (table values.now)) field }
    requires left { AllOf (IsPart (names values.now) (length (table values.now))) left.now }
    requires row { IsRow (names values.now) asker.old.sets asker.old.rows known.1 }
    requires set { known.0.0 < length asker.old.sets }
    requires right { KnowsOf (nodes graph.now) (names values.now) asker.old }
    ensures step { let done = row_at asker.old.rows known.1 in
        IfOk result (AsksRecord graph.now maps.now values.now asker.old asker.new known.0 done
        (field ∷ left.now)) }
    ensures right { KnowsOf (nodes graph.now) (names values.now) asker.new }
    ensures grows { Grows asker.old asker.new }
{
    let (set, row) = known;
    let next = asker.lead(graph, values, set, field.label)?;
    let task = Task::OfField(set, row, field.label, left);
    Ok(Next::Ask(field.id(), next, task))
}

/// The next step, where a value has answered and this task was to be done then.
pub(crate) fn go_on<'v>(
    asker: &mut Asker,
    graph: &Graph,
    maps: &Maps,
    values: &'v Values,
    task: Task<'v>,
    answer: SetId,
) -> Result<Next<'v>, AllocError>
    requires task { IsTask (names values.now) (length (table values.now)) asker.old task }
    requires answer { answer.0 < length asker.old.sets }
    requires values { AllOf IsValue (table values.now) }
    requires right { KnowsOf (nodes graph.now) (names values.now) asker.old }
    ensures step { IfOk result
        (Does graph.now maps.now values.now asker.old asker.new task.entry answer) }
    ensures right { KnowsOf (nodes graph.now) (names values.now) asker.new }
    ensures grows { Grows asker.old asker.new }
{
    match task {
        Task::OfSecond(second, set) => ask_second(asker, graph, maps, values, second, set, answer),
        Task::OfPairs(set, first, count) => {
            answer_pairs(asker, graph, maps, values, (set, first), count, answer)
        }
        Task::OfAttributes(attributes, content, set) => {
            ask_attributes(
                asker,
                graph,
                maps,
                values,
                set,
                answer,
                (attributes, content),
            )
        }
        Task::OfContent(content, set, tag) => {
            ask_content(asker, graph, maps, values, set, content, (tag, answer))
        }
        Task::OfXml(set, tag, attributes) => {
            answer_case(
                asker,
                graph,
                maps,
                values,
                set,
                Case::Xml(tag, attributes, answer),
            )
        }
        Task::OfField(set, row, label, left) => {
            let field = Answered {
                label,
                nodes: answer,
            };
            ask_next_field(asker, graph, maps, values, (set, row), field, left)
        }
    }
}

// The second part of a pair is asked.
fn ask_second<'v>(
    asker: &mut Asker,
    graph: &Graph,
    maps: &Maps,
    values: &'v Values,
    second: ValueId,
    set: SetId,
    first: SetId,
) -> Result<Next<'v>, AllocError>
    requires task { IsTask (names values.now) (length (table values.now)) asker.old
        (OfSecond second set) }
    requires answer { first.0 < length asker.old.sets }
    requires values { AllOf IsValue (table values.now) }
    requires right { KnowsOf (nodes graph.now) (names values.now) asker.old }
    ensures step { let task = OfSecond second set in
        IfOk result (Does graph.now maps.now values.now asker.old asker.new task first) }
    ensures right { KnowsOf (nodes graph.now) (names values.now) asker.new }
    ensures grows { Grows asker.old asker.new }
{
    let leads = asker.pair_leads(graph, values, set)?;
    ask_along(asker, graph, maps, values, set, leads, (first, second))
}

// The second part of a pair is asked, where the first part is in these nodes. Pairs after it that
// are like it are passed.
fn ask_along<'v>(
    asker: &mut Asker,
    graph: &Graph,
    maps: &Maps,
    values: &'v Values,
    set: SetId,
    leads: PairLeads,
    pair: (SetId, ValueId),
) -> Result<Next<'v>, AllocError>
    requires second { pair.1.0 < length (table values.now) }
    requires first { pair.0.0 < length asker.old.sets }
    requires leads { LeadBoth (nodes graph.now) asker.old.sets (set_at asker.old.sets set) leads }
    requires values { AllOf IsValue (table values.now) }
    requires right { KnowsOf (nodes graph.now) (names values.now) asker.old }
    ensures goes { IfOk result (GoesTo (names values.now) (nodes graph.now) (maps_at maps.now)
        (table values.now) asker.old asker.new (Ask pair.1 leads.second (OfPairs set pair.0 1))) }
    ensures right { KnowsOf (nodes graph.now) (names values.now) asker.new }
    ensures grows { Grows asker.old asker.new }
{
    let (first, second) = pair;
    if leads.second.0 != set.0 {
        return Ok(Next::Ask(second, leads.second, Task::OfPairs(set, first, 1)));
    }
    let (id, count) = along(asker, graph, maps, values, leads, first, second)?;
    end_along(asker, graph, maps, values, (leads.second, first), count, id)
}

// The second part of the last one of pairs in a row is asked.
fn end_along<'v>(
    asker: &mut Asker,
    graph: &Graph,
    maps: &Maps,
    values: &'v Values,
    pair: (SetId, SetId),
    count: u64,
    id: ValueId,
) -> Result<Next<'v>, AllocError>
    requires value { id.0 < length (table values.now) }
    requires set { pair.0.0 < length asker.old.sets }
    requires first { pair.1.0 < length asker.old.sets }
    requires values { AllOf IsValue (table values.now) }
    requires right { KnowsOf (nodes graph.now) (names values.now) asker.old }
    ensures goes { IfOk result (GoesTo (names values.now) (nodes graph.now) (maps_at maps.now)
        (table values.now) asker.old asker.new (Ask id pair.0 (OfPairs pair.0 pair.1 count))) }
    ensures right { KnowsOf (nodes graph.now) (names values.now) asker.new }
    ensures grows { Grows asker.old asker.new }
{
    let (set, first) = pair;
    match leaf(asker, graph, maps, values, values.look(id), set)? {
        Some(answer) => answer_pairs(asker, graph, maps, values, pair, count, answer),
        None => Ok(Next::Ask(id, set, Task::OfPairs(set, first, count))),
    }
}

// The answer of pairs in a row, from the answer of the last second part.
fn answer_pairs<'v>(
    asker: &mut Asker,
    graph: &Graph,
    maps: &Maps,
    values: &'v Values,
    pair: (SetId, SetId),
    count: u64,
    answer: SetId,
) -> Result<Next<'v>, AllocError>
    requires task { IsTask (names values.now) (length (table values.now)) asker.old
        (OfPairs pair.0 pair.1 count) }
    requires answer { answer.0 < length asker.old.sets }
    requires right { KnowsOf (nodes graph.now) (names values.now) asker.old }
    ensures step { let task = OfPairs pair.0 pair.1 count in
        IfOk result (Does graph.now maps.now values.now asker.old asker.new task answer) }
    ensures right { KnowsOf (nodes graph.now) (names values.now) asker.new }
    ensures grows { Grows asker.old asker.new }
{
    let (set, first) = pair;
    let mut last = answer;
    for _ in 0..count {
        let next = asker.answer(graph, values, set, Case::Pair(first, last))?;
        if next.0 == last.0 {
            return Ok(Next::Answer(last));
        }
        last = next;
    }
    Ok(Next::Answer(last))
}

// The attributes of an XML value are asked.
fn ask_attributes<'v>(
    asker: &mut Asker,
    graph: &Graph,
    maps: &Maps,
    values: &'v Values,
    set: SetId,
    tag: SetId,
    rest: (ValueId, ValueId),
) -> Result<Next<'v>, AllocError>
    requires task { IsTask (names values.now) (length (table values.now)) asker.old
        (OfAttributes rest.0 rest.1 set) }
    requires answer { tag.0 < length asker.old.sets }
    requires values { AllOf IsValue (table values.now) }
    requires right { KnowsOf (nodes graph.now) (names values.now) asker.old }
    ensures step { let task = OfAttributes rest.0 rest.1 set in
        IfOk result (Does graph.now maps.now values.now asker.old asker.new task tag) }
    ensures right { KnowsOf (nodes graph.now) (names values.now) asker.new }
    ensures grows { Grows asker.old asker.new }
{
    let leads = asker.xml_leads(graph, values, set)?;
    match leaf(
        asker,
        graph,
        maps,
        values,
        values.look(rest.0),
        leads.attributes,
    )? {
        Some(answer) => ask_content(asker, graph, maps, values, set, rest.1, (tag, answer)),
        None => {
            let task = Task::OfContent(rest.1, set, tag);
            Ok(Next::Ask(rest.0, leads.attributes, task))
        }
    }
}

// The content of an XML value is asked.
fn ask_content<'v>(
    asker: &mut Asker,
    graph: &Graph,
    maps: &Maps,
    values: &'v Values,
    set: SetId,
    content: ValueId,
    known: (SetId, SetId),
) -> Result<Next<'v>, AllocError>
    requires task { IsTask (names values.now) (length (table values.now)) asker.old
        (OfContent content set known.0) }
    requires answer { known.1.0 < length asker.old.sets }
    requires right { KnowsOf (nodes graph.now) (names values.now) asker.old }
    ensures step { let task = OfContent content set known.0 in
        IfOk result (Does graph.now maps.now values.now asker.old asker.new task known.1) }
    ensures right { KnowsOf (nodes graph.now) (names values.now) asker.new }
    ensures grows { Grows asker.old asker.new }
{
    let leads = asker.xml_leads(graph, values, set)?;
    let task = Task::OfXml(set, known.0, known.1);
    Ok(Next::Ask(content, leads.content, task))
}

// A field of a record has answered.
fn ask_next_field<'v>(
    asker: &mut Asker,
    graph: &Graph,
    maps: &Maps,
    values: &'v Values,
    known: (SetId, RowId),
    field: Answered,
    left: &'v [Part],
) -> Result<Next<'v>, AllocError>
    requires field { IsField (names values.now) (length asker.old.sets) field }
    requires left { AllOf (IsPart (names values.now) (length (table values.now))) left.now }
    requires row { IsRow (names values.now) asker.old.sets asker.old.rows known.1 }
    requires set { known.0.0 < length asker.old.sets }
    requires right { KnowsOf (nodes graph.now) (names values.now) asker.old }
    ensures step { let done = row_at asker.old.rows known.1 ++ field ∷ [] in
        IfOk result (AsksRecord graph.now maps.now values.now asker.old asker.new known.0 done
        left.now) }
    ensures right { KnowsOf (nodes graph.now) (names values.now) asker.new }
    ensures grows { Grows asker.old asker.new }
{
    let (set, row) = known;
    let row = asker.longer(graph, values, row, field)?;
    ask_rest(asker, graph, maps, values, set, row, left)
}
