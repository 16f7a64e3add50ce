//! The fields of records.
ghost use Rattle.std.specs.Prelude.{◌≡◌, ◌<◌, ◌+◌, ◌^◌, ◌||◌, List, length, map, option_map, slice_get, bytes_eq};
ghost use Rattle.std.specs.Prelude.{IfSome, ℕ};
ghost use Rattle.std.specs.List.{list_all};
ghost use Rattle.std.specs.Str.{chars};
ghost use Rattle.cd_model.specs.AllOf.{AllOf};
ghost use Rattle.cd_model.specs.Thing.{Thing};
ghost use Rattle.cd_matching.specs.Kernel.{all_named};
ghost use Rattle.cd_matching.specs.PlainKernel.{plain_kind, plain_kernel_field, plain_nodes};
ghost use Rattle.cd_matching.specs.Take.{at_label};
ghost use Rattle.cd_cells.specs.Cells.{thing_at, fields_of as fields_at, IsPart};
ghost use Rattle.cd_cells.specs.Table.{table, names};
ghost use Rattle.cd_taking.specs.Inner.Machine.{as_record, record_node, work_at, next_field, field_work};
ghost use Rattle.cd_taking.specs.Inner.Coded.{plain_task, IsTaskWithin, IfTask, value_in, names_part};

use crate::node_parts::record_node;
use crate::views::fields_of;
use cd_cells::names::field_of;
use cd_cells::{Part, ValueId, Values};
use cd_matching::kernel::{FieldKind, Kernel, KernelField};
use cd_sets::node_id::NodeId;

/// What has to be done about a field.
#[derive(Clone, Copy)]
pub(crate) enum FieldTask {
    /// There is no more field.
    Ends,
    /// A field has to be there, and is not.
    Lacks,
    /// A field may be absent, and is.
    Passes,
    /// A value has to be in this type.
    Asks(NodeId, ValueId),
    /// The node with this number has to take a value.
    Looks(ValueId, usize),
}

/// What has to be done about the field of a node that is at this place, for a record.
pub(crate) fn field_task(
    kernel: &Kernel,
    values: &Values,
    value: ValueId,
    node: usize,
    index: usize,
) -> FieldTask
    requires { value.0 < length (table values.now) }
    ensures is { let all = table values.now in plain_task all result
        ≡ work_at (as_record (thing_at all value.0))
        (record_node (slice_get (plain_nodes kernel.now.nodes.items) node)) index }
    ensures within { IsTaskWithin (length (table values.now)) result }
    ensures more { IfTask result (index + 1 < 2 ^ 64) }
{
    let Some(parts) = fields_of(values, value) else {
        return FieldTask::Lacks;
    };
    match record_node(kernel, node) {
        Some((fields, _)) => next_task(values, parts, fields, index),
        None => FieldTask::Lacks,
    }
}

fn next_task(values: &Values, parts: &[Part], fields: &[KernelField], index: usize) -> FieldTask
    requires { AllOf (IsPart (names values.now) (length (table values.now))) parts.now }
    ensures is { let all = fields_at (names values.now) (table values.now) parts.now in
        plain_task (table values.now) result
        ≡ next_field all (slice_get (map plain_kernel_field fields.now) index) }
    ensures within { IsTaskWithin (length (table values.now)) result }
    ensures more { IfTask result (index + 1 < 2 ^ 64) }
{
    match fields.get(index) {
        Some(field) => task_of(field.kind, value_at(values, parts, field.label.as_str())),
        None => FieldTask::Ends,
    }
}

fn task_of(kind: FieldKind, value: Option<ValueId>) -> FieldTask
    ensures is { (table : List Thing)
        → plain_task table result ≡ field_work (plain_kind kind) (value_in table value) }
    ensures within { (bound : ℕ) → IfSome value (λ id. id.0 < bound) → IsTaskWithin bound result }
{
    match (kind, value) {
        (FieldKind::Present(node), Some(id)) => FieldTask::Looks(id, node),
        (FieldKind::Present(_), None) => FieldTask::Lacks,
        (FieldKind::Optional(type_id), Some(id)) => FieldTask::Asks(type_id, id),
        (FieldKind::Optional(_), None) => FieldTask::Passes,
    }
}

// The value of a label.
fn value_at(values: &Values, parts: &[Part], label: &str) -> Option<ValueId>
    requires { AllOf (IsPart (names values.now) (length (table values.now))) parts.now }
    ensures is { let all = fields_at (names values.now) (table values.now) parts.now in
        value_in (table values.now) result ≡ at_label all (chars label.now) }
    ensures within { IfSome result (λ id. id.0 < length (table values.now)) }
{
    match field_of(values, parts, label) {
        Some(part) => Some(part.id()),
        None => None,
    }
}

/// Whether a record may have these fields: others may stand beside those of the node, or each has a
/// label that the node names.
pub(crate) fn may_have(values: &Values, fields: &[KernelField], more: bool, parts: &[Part]) -> bool
    ensures { result ≡ more || all_named (map plain_kernel_field fields.now)
        (fields_at (names values.now) (table values.now) parts.now) }
{
    more || are_named(values, fields, parts)
}

// Whether the node names the label of each part.
fn are_named(values: &Values, fields: &[KernelField], parts: &[Part]) -> bool
    ensures { result ≡ list_all (names_part (names values.now) fields.now) parts.now }
{
    parts.iter().all(|part| names_label(values, fields, part))
}

// Whether the node names the label of a part.
fn names_label(values: &Values, fields: &[KernelField], part: &Part) -> bool
    ensures { result ≡ names_part (names values.now) fields.now part.now }
{
    let label = values.name_of(part.label);
    fields
        .iter()
        .any(|field| is_text(field.label.as_str(), label))
}

fn is_text(name: &str, text: &str) -> bool
    ensures { result ≡ bytes_eq (chars name.now) (chars text.now) }
{
    name == text
}
