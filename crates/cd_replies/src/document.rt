//! Documents as values.
ghost use Rattle.std.specs.Prelude.{◌<◌, IfOk, IfErr, length};
ghost use Rattle.std.specs.Str.{chars};
ghost use Rattle.cd_documents.specs.Reading.{WritesValue};
ghost use Rattle.cd_cells.specs.Cells.{thing_at};
ghost use Rattle.cd_cells.specs.Table.{table, Grows};
ghost use Rattle.cd_replies.specs.Documents.{RefusesDocument};
ghost use Rattle.cd_replies.specs.Refusals.{IfRefused};

use crate::refusal::RefusalError;
use cd_cells::{ValueId, Values};
use cd_notation::read_value;
use std::alloc::Global;

/// The value that the text of a document stands for, which is added to the values.
///
/// # Errors
///
/// What stands against the text, or want of memory.
pub fn read_document(
    alloc: Global,
    values: &mut Values,
    text: &str,
) -> Result<ValueId, RefusalError>
    ensures within { IfOk result (λ id. id.0 < length (table values.new)) }
    ensures read { IfOk result
        (λ id. WritesValue (chars text.now) (thing_at (table values.new) id.0)) }
    ensures refused { IfErr result (λ error. IfRefused error (RefusesDocument text.now)) }
    ensures grows { Grows values.old values.new }
{
    let id = read_value(alloc, values, text)?;
    Ok(id)
}
