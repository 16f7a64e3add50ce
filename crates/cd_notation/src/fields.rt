ghost use Rattle.std.specs.Prelude.{◌≡◌, ℕ, List, length, IfOk, OnOk};
ghost use Rattle.cd_model.specs.AllOf.{AllOf};
ghost use Rattle.cd_model.specs.Thing.{NoField, Record as ARecord};
ghost use Rattle.cd_cells.specs.declared.cell.ValueId.{ValueId as AnId};
ghost use Rattle.cd_cells.specs.Cells.{IsPart};
ghost use Rattle.cd_cells.specs.Table.{table, names, IsAt, Grows};
ghost use Rattle.cd_notation.specs.Open.{names_of, values_of, LabelsDiffer};
ghost use Rattle.cd_documents.specs.Machine.{with_fields};
ghost use Rattle.cd_notation.specs.Inner.Open.{IsTop};
ghost use Rattle.cd_notation.specs.Inner.Leading.{parts_of, IsTaken};
ghost use Rattle.cd_notation.specs.Inner.Leading.{HasFields, TakesRecord};

use crate::labels::Labels;
use crate::reader::Reader;
use crate::sorting::sort_fields;
use crate::stack::Stack;
use cd_cells::{Part, ValueId, Values};
use std::alloc::AllocError;

impl Reader {
    /// The record of a form, whose labels and items begin at these numbers. They are taken away.
    pub(crate) fn take_record(
        &mut self,
        values: &mut Values,
        first: usize,
        from: usize,
    ) -> Result<ValueId, AllocError>
        requires { HasFields values.old self.old first from }
        ensures is { IfOk result (λ id.
            TakesRecord values.old self.old first from values.new id.0 self.new) }
        ensures forms { self.new.forms ≡ self.old.forms }
        ensures grows { Grows values.old values.new }
    {
        if self.labels.len() <= first {
            self.items.cut(from);
            return Ok(values.record_of(&[])?);
        }
        collect(
            &mut self.parts,
            &mut self.labels,
            &mut self.items,
            first,
            from,
        )?;
        Ok(record_of_parts(values, &mut self.parts)?)
    }
}

// The labels and the items down to these numbers as parts, the last one first. They are taken away.
fn collect(
    parts: &mut Vec<Part>,
    labels: &mut Labels,
    items: &mut Stack<ValueId>,
    first: usize,
    from: usize,
) -> Result<(), AllocError>
    ensures { OnOk result ((numbers below_numbers : List ℕ) (ids below : List AnId)
        → IsTop first numbers below_numbers labels.old → IsTop from ids below items.old
        → (parts.new.items ≡ parts_of numbers ids) × (labels.new ≡ below_numbers)
        × (items.new ≡ below)) }
{
    parts.clear();
    while let Some(part) = take_part(labels, items, first, from)? {
        parts.push(part)?;
    }
    labels.cut(first);
    items.cut(from);
    Ok(())
}

fn take_part(
    labels: &mut Labels,
    items: &mut Stack<ValueId>,
    first: usize,
    from: usize,
) -> Result<Option<Part>, AllocError>
    ensures { IfOk result (λ taken.
        IsTaken first from labels.old items.old taken labels.new items.new) }
{
    if labels.len() <= first || items.len() <= from {
        return Ok(None);
    }
    let Some(label) = labels.pop() else {
        return Ok(None);
    };
    let Some(value) = items.pop() else {
        return Ok(None);
    };
    Ok(Some(Part::of(label, value)?))
}

// The record of parts, of which the last one stands first.
fn record_of_parts(values: &mut Values, parts: &mut Vec<Part>) -> Result<ValueId, AllocError>
    requires parts { AllOf (IsPart (names values.old) (length (table values.old))) parts.old.items }
    requires differ { LabelsDiffer parts.old.items }
    ensures is { IfOk result (λ id. IsAt (table values.new) id.0
        (ARecord (with_fields (names_of (names values.old) parts.old.items)
        (values_of (table values.old) parts.old.items) NoField))) }
    ensures grows { Grows values.old values.new }
{
    sorted_record(values, parts.as_mut_slice())
}

fn sorted_record(values: &mut Values, parts: &mut [Part]) -> Result<ValueId, AllocError>
    requires parts { AllOf (IsPart (names values.old) (length (table values.old))) parts.old }
    requires differ { LabelsDiffer parts.old }
    ensures is { IfOk result (λ id. IsAt (table values.new) id.0
        (ARecord (with_fields (names_of (names values.old) parts.old)
        (values_of (table values.old) parts.old) NoField))) }
    ensures grows { Grows values.old values.new }
{
    parts.reverse();
    sort_fields(values, parts);
    values.record_of(parts)
}
