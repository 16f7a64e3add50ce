//! XML values.
ghost use Rattle.std.specs.Prelude.{◌≡◌, ◌<◌, length, IfOk};
ghost use Rattle.cd_cells.specs.Cells.{thing_at};
ghost use Rattle.cd_cells.specs.Table.{table, Grows};
ghost use Rattle.cd_evaluation.specs.Operations as operations;
ghost use Rattle.cd_operations.specs.Endings.{plain_ending, IsEnding};

use crate::ending::Ending;
use cd_cells::{Look, ValueId, Values};
use std::alloc::AllocError;

/// The XML value of a tag, attributes and a content. It is stuck where the tag is no atom, or the
/// attributes are no record.
///
/// # Errors
///
/// Want of memory.
pub fn element(
    values: &mut Values,
    tag: ValueId,
    attributes: ValueId,
    content: ValueId,
) -> Result<Ending, AllocError>
    requires tag { tag.0 < length (table values.old) }
    requires attributes { attributes.0 < length (table values.old) }
    requires content { content.0 < length (table values.old) }
    ensures is { let old = table values.old in
        IfOk result (λ ending. plain_ending (table values.new) ending
        ≡ operations.xml (thing_at old tag.0) (thing_at old attributes.0)
        (thing_at old content.0)) }
    ensures within { IfOk result (IsEnding (length (table values.new))) }
    ensures grows { Grows values.old values.new }
{
    let Look::Atom(_) = values.look(tag) else {
        return Ok(Ending::Stuck);
    };
    let Look::Record(_) = values.look(attributes) else {
        return Ok(Ending::Stuck);
    };
    Ok(Ending::Done(values.xml(tag, attributes, content)?))
}
