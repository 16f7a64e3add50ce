//! The labels that record types name.
ghost use Rattle.std.specs.Prelude.{◌≡◌, ◌++◌, map, bytes_eq, IfOk};
ghost use Rattle.std.specs.List.{list_any};
ghost use Rattle.cd_graph.specs.PlainFormula.{plain_named};
ghost use Rattle.cd_rules.specs.Rows.{with_label as with_label_of, labels_after};
ghost use Rattle.cd_rules.specs.Rows.{labels_of as labels_of_types};
ghost use Rattle.cd_needs.specs.RecordType.{record_types};
ghost use Rattle.cd_needs.specs.Inner.LabelsBefore.{labels_before};
ghost use Rattle.cd_needs.specs.PlainReasons.{plain_labels};

use cd_graph::fields::{Field, Fields, is_same};
use cd_syntax::name::Name;
use std::alloc::{AllocError, Global};

// Whether a label is one of these.
fn is_among(label: &Name, labels: &[&Name]) -> bool
    ensures { result ≡ list_any (bytes_eq label.now) (plain_labels labels.now) }
{
    for other in labels {
        if is_same(label, other) {
            return true;
        }
    }
    false
}

// These labels, with one more before them, where it is not one of them.
fn with_label<'t>(labels: Vec<&'t Name>, label: &'t Name) -> Result<Vec<&'t Name>, AllocError>
    ensures { IfOk result (λ all.
        plain_labels all.items ≡ with_label_of label.now (plain_labels labels.entry.items)) }
{
    let mut all = labels;
    if !is_among(label, all.as_slice()) {
        all.insert(0, label)?;
    }
    Ok(all)
}

// These labels, with those of some fields before them, each once.
fn with_fields<'t>(
    labels: Vec<&'t Name>,
    fields: &'t [(Name, Field)],
) -> Result<Vec<&'t Name>, AllocError>
    ensures { IfOk result (λ all.
        plain_labels all.items ≡ labels_after (map (λ field. field.0) (plain_named fields.now))
        (plain_labels labels.entry.items)) }
{
    let mut all = labels;
    let mut index = fields.len();
    while index > 0 {
        index -= 1;
        all = with_label(all, &fields[index].0)?;
    }
    Ok(all)
}

// These labels, with those of some record types before them, each once.
fn with_types<'t>(labels: Vec<&'t Name>, types: &[&'t Fields]) -> Result<Vec<&'t Name>, AllocError>
    ensures { IfOk result (λ all.
        plain_labels all.items ≡ labels_before (record_types types.now)
        (plain_labels labels.entry.items)) }
{
    let mut all = labels;
    let mut index = types.len();
    while index > 0 {
        index -= 1;
        all = with_fields(all, types[index].named.items())?;
    }
    Ok(all)
}

/// The labels that some type names of those that are wanted and those that are refused, each once.
///
/// # Errors
///
/// Want of memory.
pub fn labels_of<'t>(
    alloc: Global,
    wanted: &[&'t Fields],
    refused: &[&'t Fields],
) -> Result<Vec<&'t Name>, AllocError>
    ensures { IfOk result (λ labels.
        plain_labels labels.items
        ≡ labels_of_types (record_types wanted.now ++ record_types refused.now)) }
{
    let labels = with_types(Vec::new(alloc), refused)?;
    Ok(with_types(labels, wanted)?)
}
