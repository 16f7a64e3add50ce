//! What a row says of one label.
ghost use Rattle.std.specs.Prelude.{◌≡◌, map, not, IfOk};
ghost use Rattle.std.specs.List.{list_all};
ghost use Rattle.cd_rules.specs.Rows.{field_at as field_at_of, is_reason as is_reason_of, types_at};
ghost use Rattle.cd_rules.specs.Rows.{cell_at};
ghost use Rattle.cd_needs.specs.RecordType.{record_types};
ghost use Rattle.cd_needs.specs.RecordTypes.{plain_cell};
ghost use Rattle.cd_needs.specs.PlainReasons.{plain_chosen, plain_reasons};

use crate::asking::question;
use crate::reasons::Chosen;
use crate::row::FieldCell;
use cd_graph::fields::{Fields, is_same};
use cd_sets::node_id::NodeId;
use cd_sets::question::Question;
use cd_syntax::name::Name;
use std::alloc::{AllocError, Global};

// Whether the label is this reason.
fn is_reason(label: &Name, chosen: &Chosen<'_>) -> bool
    ensures { result ≡ is_reason_of label.now (plain_chosen chosen.now).1 }
{
    match chosen.reason {
        Some(other) => is_same(other, label),
        None => false,
    }
}

// The nodes of the wanted types at a label.
fn wanted_nodes(alloc: Global, wanted: &[&Fields], label: &Name) -> Result<Vec<NodeId>, AllocError>
    ensures { IfOk result (λ nodes.
        nodes.items ≡ map (λ type. (field_at_of type label.now).type) (record_types wanted.now)) }
{
    let mut nodes = Vec::new(alloc);
    for fields in wanted {
        nodes.push(fields.at(label).node)?;
    }
    Ok(nodes)
}

// The nodes at a label of the types that have it as their reason.
fn refused_nodes(
    alloc: Global,
    reasons: &[Chosen<'_>],
    label: &Name,
) -> Result<Vec<NodeId>, AllocError>
    ensures { IfOk result (λ nodes.
        nodes.items ≡ map (λ type. (field_at_of type label.now).type)
        (types_at label.now (plain_reasons reasons.now))) }
{
    let mut nodes = Vec::new(alloc);
    for chosen in reasons {
        if is_reason(label, chosen) {
            nodes.push(chosen.refused.at(label).node)?;
        }
    }
    Ok(nodes)
}

// Whether each wanted type lets the field of a label be absent.
fn all_optional(wanted: &[&Fields], label: &Name) -> bool
    ensures { result ≡ list_all (λ type. (field_at_of type label.now).optional)
        (record_types wanted.now) }
{
    for fields in wanted {
        if !fields.at(label).optional {
            return false;
        }
    }
    true
}

// Whether none of the types that have a label as their reason lets its field be absent.
fn none_optional(reasons: &[Chosen<'_>], label: &Name) -> bool
    ensures { result ≡ list_all (λ type. not (field_at_of type label.now).optional)
        (types_at label.now (plain_reasons reasons.now)) }
{
    for chosen in reasons {
        if is_reason(label, chosen) && chosen.refused.at(label).optional {
            return false;
        }
    }
    true
}

/// Whether nothing may stand at a label in the records of the wanted types that are outside the
/// refused ones for these reasons.
pub(crate) fn may_be_absent(wanted: &[&Fields], reasons: &[Chosen<'_>], label: &Name) -> bool
    ensures { let cell = cell_at (record_types wanted.now) (plain_reasons reasons.now) label.now in
        result ≡ cell.absent }
{
    all_optional(wanted, label) && none_optional(reasons, label)
}

/// What a value at a label is in, in these records.
pub(crate) fn value_at(
    alloc: Global,
    wanted: &[&Fields],
    reasons: &[Chosen<'_>],
    label: &Name,
) -> Result<Question, AllocError>
    ensures { let cell = cell_at (record_types wanted.now) (plain_reasons reasons.now) label.now in
        IfOk result (λ asked. asked ≡ cell.value) }
{
    let pos = wanted_nodes(alloc, wanted, label)?;
    let neg = refused_nodes(alloc, reasons, label)?;
    question(alloc, pos.as_slice(), neg.as_slice())
}

/// What may stand at a label in these records.
pub(crate) fn cell_at(
    alloc: Global,
    wanted: &[&Fields],
    reasons: &[Chosen<'_>],
    label: &Name,
) -> Result<FieldCell, AllocError>
    ensures { IfOk result (λ cell.
        plain_cell cell ≡ cell_at (record_types wanted.now)
        (plain_reasons reasons.now) label.now) }
{
    Ok(FieldCell {
        absent: may_be_absent(wanted, reasons, label),
        value: value_at(alloc, wanted, reasons, label)?,
    })
}
