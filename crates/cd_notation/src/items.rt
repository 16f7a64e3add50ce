ghost use Rattle.std.specs.Prelude.{◌≡◌, ◌<◌, List, length, IfOk, OnOk};
ghost use Rattle.std.specs.Str.{chars};
ghost use Rattle.cd_model.specs.Thing.{Thing as AThing};
ghost use Rattle.cd_cells.specs.declared.cell.ValueId.{ValueId as AnId};
ghost use Rattle.cd_cells.specs.Table.{table, IsAt, Grows};
ghost use Rattle.cd_documents.specs.Document.{characters_before};
ghost use Rattle.cd_notation.specs.Inner.Open.{HasItems};
ghost use Rattle.cd_notation.specs.Inner.Leading.{HasLetters, IsGathered};

use crate::stack::Stack;
use cd_cells::{ValueId, Values};
use std::alloc::AllocError;

/// The items down to this number as pairs that end so. They are taken away.
pub(crate) fn gather(
    values: &mut Values,
    items: &mut Stack<ValueId>,
    from: usize,
    end: ValueId,
) -> Result<ValueId, AllocError>
    requires items { (below : List AnId) × (all : List AThing)
        × HasItems (table values.old) from items.old below all }
    requires end { end.0 < length (table values.old) }
    ensures pairs { IfOk result (λ id.
        IsGathered (table values.old) from items.old end.0 (table values.new) items.new id.0) }
    ensures grows { Grows values.old values.new }
{
    let mut end = end;
    while items.len() > from {
        let Some(first) = items.pop() else {
            return Ok(end);
        };
        end = values.pair(first, end)?;
    }
    Ok(end)
}

/// Puts characters on the items.
pub(crate) fn letters(
    values: &mut Values,
    items: &mut Stack<ValueId>,
    text: &str,
) -> Result<(), AllocError>
    ensures letters { OnOk result
        (HasLetters (table values.new) (chars text.now) items.old items.new) }
    ensures grows { Grows values.old values.new }
{
    for c in text.chars() {
        let id = values.char(c)?;
        items.push(id)?;
    }
    Ok(())
}

/// The characters of a text as pairs that end so.
#[inline(never)]
pub(crate) fn text_before(
    values: &mut Values,
    text: &str,
    end: ValueId,
) -> Result<ValueId, AllocError>
    requires { end.0 < length (table values.old) }
    ensures pairs { IfOk result (λ id. (last : AThing) → IsAt (table values.old) end.0 last
        → IsAt (table values.new) id.0 (characters_before (chars text.now) last)) }
    ensures grows { Grows values.old values.new }
{
    let mut end = end;
    for c in text.chars().rev() {
        let letter = values.char(c)?;
        end = values.pair(letter, end)?;
    }
    Ok(end)
}
