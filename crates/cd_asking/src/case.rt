//! Values whose answers are kept.
ghost use Rattle.std.specs.Prelude.{◌≡◌, ◌<◌, ◌^◌, map};
ghost use Rattle.std.specs.Str.{chars};
ghost use Rattle.cd_cells.specs.Table.{names};
ghost use Rattle.cd_asking.specs.Inner.Asked.{plain_shape, held, HasLabel, shape_with, IsCase};

use crate::node_sets::{NodeSets, SetId};
use crate::row::RowId;
use crate::shape::{Held, Shape};
use cd_cells::Values;

/// A value whose answers are kept, by the sets of the nodes that hold its parts.
#[derive(Clone, Copy, PartialEq, Eq, Hash)]
pub(crate) enum Case {
    /// A character.
    Letter(char),
    /// The atom whose name has this number.
    Atom(u32),
    /// A pair.
    Pair(SetId, SetId),
    /// An XML value.
    Xml(SetId, SetId, SetId),
    /// A record with the fields of a row.
    Record(RowId),
}

impl Case {
    /// A number, which is most often another one for another value.
    pub(crate) fn number(self) -> usize
        ensures { result < 2 ^ 36 }
    {
        match self {
            Case::Letter(c) => c as usize,
            Case::Atom(name) => name as usize,
            Case::Pair(first, second) => 3 * first.0 as usize + second.0 as usize,
            Case::Xml(tag, attributes, content) => {
                5 * tag.0 as usize + 3 * attributes.0 as usize + content.0 as usize
            }
            Case::Record(row) => row.0 as usize,
        }
    }
}

/// The value with the nodes of these sets. A record has these fields.
pub(crate) fn shape_of<'s>(
    sets: &'s NodeSets,
    values: &'s Values,
    fields: &'s [Held<'s>],
    case: Case,
) -> Shape<'s>
    requires { IsCase (names values.now) case }
    ensures shape { plain_shape result
        ≡ shape_with (names values.now) sets.now (map held fields.now) case }
    ensures label { HasLabel result }
{
    match case {
        Case::Letter(c) => Shape::Character(c),
        Case::Atom(name) => Shape::Atom(values.name_of(name)),
        Case::Pair(first, second) => Shape::Pair(sets.get(first), sets.get(second)),
        Case::Xml(tag, attributes, content) => {
            Shape::Xml(sets.get(tag), sets.get(attributes), sets.get(content))
        }
        Case::Record(_) => Shape::Record(fields),
    }
}
