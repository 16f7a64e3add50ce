//! What a text asks of the values that it is of.
ghost use Rattle.std.specs.Prelude.{◌≡◌, [], MatchOption, bytes_eq, codes};
ghost use Rattle.std.specs.Str.{chars};
ghost use Rattle.cd_model.specs.Thing.{Atom};
ghost use Rattle.cd_model.specs.Canonical.{printed, tag_name};
ghost use Rattle.cd_cells.specs.Cells.{thing_at, name_at};
ghost use Rattle.cd_cells.specs.Looked.{looked, ArePartsBelow};
ghost use Rattle.cd_cells.specs.Table.{table, names};
ghost use Rattle.cd_print.specs.Inner.Texts.{text_at, part_at, field_texts_at};
ghost use Rattle.cd_print.specs.Inner.Looks.{part_by, GoesOn, IsLower};

use cd_cells::{Look, Part, ValueId, Values};

/// What a value is, if the number names one.
pub(crate) fn look_at<'v>(values: &'v Values, id: ValueId) -> Option<Look<'v>>
    ensures { MatchOption result (thing_at (table values.now) id.0 ≡ Atom [])
        (λ look. (looked (names values.now) (table values.now) look
        ≡ thing_at (table values.now) id.0) × ArePartsBelow (names values.now) id.0 look) }
{
    if id.0 < values.len() {
        return Some(values.look(id));
    }
    None
}

/// Whether the name of this number is `nil`.
pub(crate) fn is_nil(values: &Values, name: u32) -> bool
    ensures { result ≡ bytes_eq (name_at (names values.now) name) (codes "nil") }
{
    values.name_of(name) == "nil"
}

/// The character that a value is, if it is one.
pub(crate) fn letter_at(values: &Values, id: ValueId) -> Option<char>
    ensures { part_at values.now id ≡ part_by result (text_at values.now id) }
{
    match look_at(values, id) {
        Some(Look::Char(c)) => Some(c),
        _ => None,
    }
}

/// How the pairs along the right go on.
#[derive(Clone, Copy)]
pub(crate) enum Along {
    /// By a pair of a character and this value.
    Letter(char, ValueId),
    /// By another pair.
    Item(ValueId, ValueId),
    /// They end in `nil`.
    Nil,
    /// They end in something else.
    End,
}

/// How the pairs along the right go on at a value.
pub(crate) fn goes_on(values: &Values, id: ValueId) -> Along
    ensures spine { GoesOn values.now id result }
    ensures lower { IsLower result id }
{
    match look_at(values, id) {
        Some(Look::Pair(first, rest)) => match letter_at(values, first) {
            Some(c) => Along::Letter(c, rest),
            None => Along::Item(first, rest),
        },
        Some(Look::Atom(name)) if is_nil(values, name) => Along::Nil,
        _ => Along::End,
    }
}

/// The name of a tag. What is no atom has none.
#[tactic(auto, using(cd_elements::proofs::Looks::no_characters))]
pub(crate) fn tag_at<'v>(values: &'v Values, id: ValueId) -> &'v str
    ensures { chars result.now ≡ tag_name (thing_at (table values.now) id.0) }
{
    match look_at(values, id) {
        Some(Look::Atom(name)) => values.name_of(name),
        _ => "",
    }
}

/// The fields of a record. What is no record has none.
pub(crate) fn fields_at<'v>(values: &'v Values, id: ValueId) -> &'v [Part]
    ensures { (printed (thing_at (table values.now) id.0)).fields
        ≡ field_texts_at values.now result.now }
{
    match look_at(values, id) {
        Some(Look::Record(parts)) => parts,
        _ => &[],
    }
}
