//! The characters of texts.
ghost use Rattle.std.specs.Prelude.{◌≡◌, ◌<◌, length, map, IfOk};
ghost use Rattle.std.specs.Fmt.{signed_decimal};
ghost use Rattle.std.specs.Str.{chars};
ghost use Rattle.cd_model.specs.Thing.{Character};
ghost use Rattle.cd_matching.specs.Sequences as sequences;
ghost use Rattle.cd_cells.specs.Cells.{thing_at};
ghost use Rattle.cd_cells.specs.Table.{table, IsAt, Grows};
ghost use Rattle.cd_evaluation.specs.Lists.{before};
ghost use Rattle.cd_operations.specs.Along.{items_along, turned};
ghost use Rattle.cd_operations.specs.Inner.Spelling.{AreCharacters, character_of};

use crate::added::pair;
use crate::pairs::{is_nil, pair_at};
use cd_cells::{Look, ValueId, Values};
use std::alloc::{AllocError, Global};

/// The characters of a text put one by one before the items that are done, which are kept from the
/// last one.
///
/// # Errors
///
/// Want of memory.
pub fn characters(values: &mut Values, text: &str, done: ValueId) -> Result<ValueId, AllocError>
    requires { done.0 < length (table values.old) }
    ensures is { IfOk result (λ id. IsAt (table values.new) id.0
        (turned (map Character (chars text.now)) (thing_at (table values.old) done.0))) }
    ensures items { let items = items_along (thing_at (table values.old) done.0) in
        IfOk result (λ id. items_along (thing_at (table values.new) id.0)
        ≡ before (map Character (chars text.now)) items) }
    ensures grows { Grows values.old values.new }
{
    let mut made = done;
    for c in text.chars() {
        let letter = values.char(c)?;
        made = pair(values, letter, made)?;
    }
    Ok(made)
}

/// The sequence of the characters of a text.
pub(crate) fn text_of(values: &mut Values, text: &str) -> Result<ValueId, AllocError>
    ensures is { IfOk result (λ id.
        IsAt (table values.new) id.0 (sequences.text_of (chars text.now))) }
    ensures grows { Grows values.old values.new }
{
    let mut made = values.nil()?;
    for c in text.chars().rev() {
        let letter = values.char(c)?;
        made = pair(values, letter, made)?;
    }
    Ok(made)
}

/// The text of an integer.
pub(crate) fn decimal_of(alloc: Global, values: &mut Values, n: i128) -> Result<ValueId, AllocError>
    ensures is { IfOk result (λ id.
        IsAt (table values.new) id.0 (sequences.text_of (signed_decimal n))) }
    ensures grows { Grows values.old values.new }
{
    let text = format!(in alloc; "{n}")?;
    Ok(text_of(values, text.as_str())?)
}

/// The characters of a text, in place of those that were there. Whether the value is a text.
pub(crate) fn collect(
    values: &Values,
    value: ValueId,
    text: &mut Vec<char>,
) -> Result<bool, AllocError>
    requires { value.0 < length (table values.now) }
    ensures { IfOk result (AreCharacters (thing_at (table values.now) value.0) text.new.items) }
{
    text.clear();
    let mut left = value;
    while let Some((first, rest)) = pair_at(values, left) {
        let Some(c) = character_at(values, first) else {
            return Ok(false);
        };
        text.push(c)?;
        left = rest;
    }
    Ok(is_nil(values, left))
}

// The character that a value is, if it is one.
fn character_at(values: &Values, id: ValueId) -> Option<char>
    requires { id.0 < length (table values.now) }
    ensures { result ≡ character_of (thing_at (table values.now) id.0) }
{
    match values.look(id) {
        Look::Char(c) => Some(c),
        _ => None,
    }
}
