//! What a text asks of the elements that it is of.
ghost use Rattle.std.specs.Prelude.{◌≡◌, map, bytes_eq, codes};
ghost use Rattle.std.specs.Str.{chars};
ghost use Rattle.cd_model.specs.Canonical.{printed, tag_name};
ghost use Rattle.cd_elements.specs.Table.{element_at};
ghost use Rattle.cd_elements.specs.Elements.{table};
ghost use Rattle.cd_elements.specs.Inner.Tasks.{text_in, part_in};
ghost use Rattle.cd_elements.specs.Inner.Rows.{part_text_in};
ghost use Rattle.cd_elements.specs.Inner.Looks.{part_by, GoesOn};

use crate::elements::Elements;
use crate::shape::{ElementId, Shape};
use cd_syntax::name::Name;

/// Whether the name is `nil`.
pub(crate) fn is_nil(name: &Name) -> bool
    ensures { result ≡ bytes_eq name.now (codes "nil") }
{
    name.is_spelled(&['n', 'i', 'l'])
}

/// The character that an element is, if it is one.
pub(crate) fn letter_at(elements: &Elements, id: ElementId) -> Option<char>
    ensures { part_in (table elements.now) id ≡ part_by result (text_in (table elements.now) id) }
{
    match elements.at(id) {
        Some(Shape::Char(c)) => Some(*c),
        _ => None,
    }
}

/// How the pairs along the right go on.
pub(crate) enum Along {
    /// By a pair.
    Pair(ElementId, ElementId),
    /// They end in `nil`.
    Nil,
    /// They end in something else.
    End,
}

/// How the pairs along the right go on at an element.
pub(crate) fn goes_on(elements: &Elements, id: ElementId) -> Along
    ensures { GoesOn (table elements.now) id result }
{
    match elements.at(id) {
        Some(Shape::Pair(first, second)) => Along::Pair(*first, *second),
        Some(Shape::Atom(name)) if is_nil(name) => Along::Nil,
        _ => Along::End,
    }
}

/// The name of a tag. What is no atom has none.
#[tactic(auto, using(crate::proofs::Looks::no_characters))]
pub(crate) fn tag_at<'a>(elements: &'a Elements, id: ElementId) -> &'a str
    ensures { chars result.now ≡ tag_name (element_at (table elements.now) id) }
{
    match elements.at(id) {
        Some(Shape::Atom(name)) => name.as_str(),
        _ => "",
    }
}

/// The fields of a record. What is no record has none.
#[tactic(auto, using(crate::proofs::Looks::fields_written))]
pub(crate) fn fields_at<'a>(elements: &'a Elements, id: ElementId) -> &'a [(Name, ElementId)]
    ensures { (printed (element_at (table elements.now) id)).fields
        ≡ map (part_text_in (table elements.now)) result.now }
{
    match elements.at(id) {
        Some(Shape::Record(parts)) => parts.items(),
        _ => &[],
    }
}
