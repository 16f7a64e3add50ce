//! Fields of records.
ghost use Rattle.std.specs.Prelude.{◌≡◌, ◌<◌, length, filter, not, IfOk};
ghost use Rattle.std.specs.Str.{chars};
ghost use Rattle.cd_syntax.specs.Name.{IsLabel};
ghost use Rattle.cd_model.specs.Thing.{Record};
ghost use Rattle.cd_cells.specs.Cells.{thing_at};
ghost use Rattle.cd_cells.specs.FieldOf.{is_of};
ghost use Rattle.cd_cells.specs.Table.{table, names, IsAt, Grows};
ghost use Rattle.cd_evaluation.specs.Operations.{dropped};
ghost use Rattle.cd_evaluation.specs.Operations as operations;
ghost use Rattle.cd_evaluation.specs.RecordFields as fields;
ghost use Rattle.cd_operations.specs.Endings.{plain_ending, IsEnding};
ghost use Rattle.cd_operations.specs.FieldsOf.{fields_of};
ghost use Rattle.cd_operations.specs.Inner.Merging.{fields_by, AreOfRecord};

use crate::ending::Ending;
use crate::merging::merge;
use cd_cells::names::{field_of, is_named};
use cd_cells::{Look, Part, ValueId, Values};
use std::alloc::{AllocError, Global};

/// The record of the fields of a record, and this value at a label, in place of one that stood
/// there.
///
/// # Errors
///
/// Want of memory.
pub fn put(
    alloc: Global,
    values: &mut Values,
    whole: ValueId,
    label: &str,
    value: ValueId,
) -> Result<ValueId, AllocError>
    requires whole { whole.0 < length (table values.old) }
    requires value { value.0 < length (table values.old) }
    requires label { IsLabel (chars label.now) }
    ensures is { let old = table values.old in
        IfOk result (λ id. IsAt (table values.new) id.0 (Record (fields.put (chars label.now)
        (thing_at old value.0) (fields_of (thing_at old whole.0))))) }
    ensures grows { Grows values.old values.new }
{
    let number = values.label(label)?;
    let part = Part::of(number, value)?;
    let made = merge(alloc, values, parts_at(values, whole), &[part])?;
    Ok(values.record_of(made.as_slice())?)
}

/// A record without the field of a label.
///
/// # Errors
///
/// Want of memory.
pub fn without(
    alloc: Global,
    values: &mut Values,
    value: ValueId,
    label: &str,
) -> Result<Ending, AllocError>
    requires { value.0 < length (table values.old) }
    ensures is { IfOk result (λ ending. plain_ending (table values.new) ending
        ≡ dropped (chars label.now) (thing_at (table values.old) value.0)) }
    ensures within { IfOk result (IsEnding (length (table values.new))) }
    ensures grows { Grows values.old values.new }
{
    let Look::Record(_) = values.look(value) else {
        return Ok(Ending::Stuck);
    };
    let made = parts_without(alloc, values, parts_at(values, value), label)?;
    Ok(Ending::Done(values.record_of(made.as_slice())?))
}

// All parts but those of a label.
fn parts_without(
    alloc: Global,
    values: &Values,
    parts: &[Part],
    label: &str,
) -> Result<Vec<Part>, AllocError>
    ensures { IfOk result (λ made. made.items
        ≡ filter (λ part. not (is_of (names values.now) (chars label.now) part)) parts.now) }
{
    parts
        .iter()
        .copied()
        .filter(|part| !is_named(values, part.label, label))
        .collect(alloc)
}

/// The fields of both records. At a label of both it is that of the second one.
pub(crate) fn merged(
    alloc: Global,
    values: &mut Values,
    first: ValueId,
    second: ValueId,
) -> Result<ValueId, AllocError>
    requires first { first.0 < length (table values.old) }
    requires second { second.0 < length (table values.old) }
    ensures is { let old = table values.old in
        IfOk result (λ id. IsAt (table values.new) id.0 (Record (fields.merged
        (fields_of (thing_at old first.0)) (fields_of (thing_at old second.0))))) }
    ensures grows { Grows values.old values.new }
{
    let made = merge(
        alloc,
        values,
        parts_at(values, first),
        parts_at(values, second),
    )?;
    Ok(values.record_of(made.as_slice())?)
}

// The fields of a record. What is no record has none.
fn parts_at(values: &Values, id: ValueId) -> &[Part]
    requires { id.0 < length (table values.now) }
    ensures record { AreOfRecord values.now result.now }
    ensures fields { fields_by values.now result.now
        ≡ fields_of (thing_at (table values.now) id.0) }
{
    values.knows();
    match values.look(id) {
        Look::Record(parts) => parts,
        _ => &[],
    }
}

/// The field of a record at a label. It is stuck where there is none.
pub fn select(values: &Values, value: ValueId, label: &str) -> Ending
    requires { value.0 < length (table values.now) }
    ensures is { plain_ending (table values.now) result
        ≡ operations.selected (chars label.now) (thing_at (table values.now) value.0) }
    ensures within { IsEnding (length (table values.now)) result }
{
    let Look::Record(parts) = values.look(value) else {
        return Ending::Stuck;
    };
    match field_of(values, parts, label) {
        Some(part) => Ending::Done(part.id()),
        None => Ending::Stuck,
    }
}
