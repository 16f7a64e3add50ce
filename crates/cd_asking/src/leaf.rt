//! Values that answer at once.
ghost use Rattle.std.specs.Prelude.{◌<◌, length, IfOk, MatchOption};
ghost use Rattle.cd_graph.specs.Nodes.{nodes};
ghost use Rattle.cd_cells.specs.Cells.{fields_of};
ghost use Rattle.cd_cells.specs.Looked.{looked};
ghost use Rattle.cd_cells.specs.Table.{table, names};
ghost use Rattle.cd_model.specs.Thing.{IsValue};
ghost use Rattle.cd_asking.specs.MappedArrows.{maps_at};
ghost use Rattle.cd_asking.specs.Known.{KnowsOf};
ghost use Rattle.cd_asking.specs.Inner.Shapes as shapes;
ghost use Rattle.cd_asking.specs.Inner.Shapes.{shape_of, fields_with};
ghost use Rattle.cd_asking.specs.Inner.Asked.{set_at, plain_shape, HasLabel, Grows, Found};
ghost use Rattle.cd_asking.specs.Inner.Asked.{HasParts};

use crate::asker::Asker;
use crate::case::Case;
use crate::finding::find_members;
use crate::maps::Maps;
use crate::node_sets::SetId;
use crate::row::RowId;
use crate::shape::Shape;
use cd_cells::{Look, Part, Values};
use cd_graph::Graph;
use std::alloc::AllocError;

/// The set of those nodes of a set that hold a value, if there are none to be asked, or the value
/// has no parts.
pub(crate) fn leaf(
    asker: &mut Asker,
    graph: &Graph,
    maps: &Maps,
    values: &Values,
    look: Look<'_>,
    set: SetId,
) -> Result<Option<SetId>, AllocError>
    requires value { IsValue (looked (names values.now) (table values.now) look) }
    requires set { set.0 < length asker.old.sets }
    requires right { KnowsOf (nodes graph.now) (names values.now) asker.old }
    ensures found { let is = looked (names values.now) (table values.now) look.entry in
        IfOk result (λ answer. MatchOption answer (HasParts look.entry)
        (Found (nodes graph.now) (shape_of (nodes graph.now) (maps_at maps.now) is)
        (set_at asker.old.sets set) asker.new.sets)) }
    ensures right { KnowsOf (nodes graph.now) (names values.now) asker.new }
    ensures grows { Grows asker.old asker.new }
{
    match look {
        Look::Char(c) => Ok(Some(asker.letter(graph, values, set, c)?)),
        look => leaf_at_any(asker, graph, maps, values, look, set),
    }
}

// The same of a value that is most often no character.
fn leaf_at_any(
    asker: &mut Asker,
    graph: &Graph,
    maps: &Maps,
    values: &Values,
    look: Look<'_>,
    set: SetId,
) -> Result<Option<SetId>, AllocError>
    requires value { IsValue (looked (names values.now) (table values.now) look) }
    requires set { set.0 < length asker.old.sets }
    requires right { KnowsOf (nodes graph.now) (names values.now) asker.old }
    ensures found { let is = looked (names values.now) (table values.now) look.entry in
        IfOk result (λ answer. MatchOption answer (HasParts look.entry)
        (Found (nodes graph.now) (shape_of (nodes graph.now) (maps_at maps.now) is)
        (set_at asker.old.sets set) asker.new.sets)) }
    ensures right { KnowsOf (nodes graph.now) (names values.now) asker.new }
    ensures grows { Grows asker.old asker.new }
{
    match asker.sets.get(set) {
        [] => Ok(Some(set)),
        [_, ..] => leaf_at_some(asker, graph, maps, values, look, set),
    }
}

/// The same where there are some.
pub(crate) fn leaf_at_some(
    asker: &mut Asker,
    graph: &Graph,
    maps: &Maps,
    values: &Values,
    look: Look<'_>,
    set: SetId,
) -> Result<Option<SetId>, AllocError>
    requires value { IsValue (looked (names values.now) (table values.now) look) }
    requires set { set.0 < length asker.old.sets }
    requires right { KnowsOf (nodes graph.now) (names values.now) asker.old }
    ensures found { let is = looked (names values.now) (table values.now) look.entry in
        IfOk result (λ answer. MatchOption answer (HasParts look.entry)
        (Found (nodes graph.now) (shape_of (nodes graph.now) (maps_at maps.now) is)
        (set_at asker.old.sets set) asker.new.sets)) }
    ensures right { KnowsOf (nodes graph.now) (names values.now) asker.new }
    ensures grows { Grows asker.old asker.new }
{
    match look {
        Look::Int(n) => Ok(Some(basic(asker, graph, values, set, Shape::Integer(n))?)),
        Look::Char(c) => Ok(Some(asker.letter(graph, values, set, c)?)),
        Look::Atom(name) => Ok(Some(asker.answer(graph, values, set, Case::Atom(name))?)),
        Look::Pair(_, _) => Ok(None),
        Look::Xml(_, _, _) => Ok(None),
        Look::Record(parts) => empty(asker, graph, maps, values, set, parts),
        Look::Closure(function, _) => Ok(Some(basic(
            asker,
            graph,
            values,
            set,
            Shape::Closure(maps, function),
        )?)),
    }
}

// The same of an integer or a closure.
fn basic(
    asker: &mut Asker,
    graph: &Graph,
    values: &Values,
    set: SetId,
    shape: Shape<'_>,
) -> Result<SetId, AllocError>
    requires set { set.0 < length asker.old.sets }
    requires label { HasLabel shape }
    requires right { KnowsOf (nodes graph.now) (names values.now) asker.old }
    ensures found { let ids = set_at asker.old.sets set in
        IfOk result (Found (nodes graph.now) (plain_shape shape.entry) ids asker.new.sets) }
    ensures right { KnowsOf (nodes graph.now) (names values.now) asker.new }
    ensures grows { Grows asker.old asker.new }
{
    find_members(&mut asker.sets, graph, set, &shape)
}

// The same of a record.
fn empty(
    asker: &mut Asker,
    graph: &Graph,
    maps: &Maps,
    values: &Values,
    set: SetId,
    parts: &[Part],
) -> Result<Option<SetId>, AllocError>
    requires set { set.0 < length asker.old.sets }
    requires right { KnowsOf (nodes graph.now) (names values.now) asker.old }
    ensures found { IfOk result (λ answer. MatchOption answer (0 < length parts.now)
        (Found (nodes graph.now) (shapes.Record (fields_with (nodes graph.now) (maps_at maps.now)
        (fields_of (names values.now) (table values.now) parts.now))) (set_at asker.old.sets set)
        asker.new.sets)) }
    ensures right { KnowsOf (nodes graph.now) (names values.now) asker.new }
    ensures grows { Grows asker.old asker.new }
{
    match parts {
        [] => Ok(Some(asker.answer(graph, values, set, Case::Record(RowId(0)))?)),
        [_, ..] => Ok(None),
    }
}
