//! The formulas of nodes that take things apart.
ghost use Rattle.std.specs.Prelude.{◌≡◌, IfOk, None, map};
ghost use Rattle.cd_model.specs.Formula as formula;
ghost use Rattle.cd_graph.specs.PlainFormula.{plain, plain_field, plain_named};
ghost use Rattle.cd_model.specs.Formula.{AreRisingLabels};
ghost use Rattle.cd_matching.specs.PlainKernel.{plain_kind, plain_kernel_field};
ghost use Rattle.cd_filter.specs.Accepting.{place as place_in, field_of, fields_of, rest_of};

use cd_graph::Formula;
use cd_graph::built_in::{ANY, EMPTY};
use cd_graph::fields::{Field, FieldList, Fields};
use cd_matching::kernel::{FieldKind, KernelField};
use cd_sets::node_id::NodeId;
use cd_syntax::name::Name;
use std::alloc::{AllocError, Global};

/// The node that is to stand for the node of a kernel with this number. No graph has so many that
/// their number is no word.
pub(crate) fn place(first: usize, number: usize) -> Result<NodeId, AllocError>
    ensures { IfOk result (λ id. id ≡ place_in first number) }
{
    match first.checked_add(number) {
        Some(sum) => Ok(NodeId(sum)),
        None => Err(AllocError),
    }
}

/// The pairs whose parts are taken.
pub(crate) fn pair(first: usize, p: usize, q: usize) -> Result<Formula, AllocError>
    ensures { IfOk result (λ is. plain is ≡ formula.Pair (place_in first p) (place_in first q)) }
{
    Ok(Formula::pair(place(first, p)?, place(first, q)?))
}

/// The XML elements whose parts are taken.
pub(crate) fn xml(
    first: usize,
    tag: usize,
    attributes: usize,
    content: usize,
) -> Result<Formula, AllocError>
    ensures { IfOk result (λ is. plain is ≡
        formula.Xml (place_in first tag) (place_in first attributes) (place_in first content)) }
{
    let tag = place(first, tag)?;
    let attributes = place(first, attributes)?;
    let content = place(first, content)?;
    Ok(Formula::xml(tag, attributes, content))
}

/// The records whose fields are taken.
pub(crate) fn record(
    alloc: Global,
    first: usize,
    fields: &[KernelField],
    more: bool,
) -> Result<Formula, AllocError>
    requires { AreRisingLabels None (map plain_kernel_field fields.now) }
    ensures { IfOk result (λ is. plain is ≡
        formula.Record (fields_of first (map plain_kernel_field fields.now)) (rest_of more)) }
{
    let named = FieldList::of(named_fields(alloc, first, fields)?)?;
    let rest = if more { ANY } else { EMPTY };
    Ok(Formula::record(Fields { named, rest }))
}

// The fields of the record type.
fn named_fields(
    alloc: Global,
    first: usize,
    fields: &[KernelField],
) -> Result<Vec<(Name, Field)>, AllocError>
    ensures { IfOk result (λ named. plain_named named.items
        ≡ fields_of first (map plain_kernel_field fields.now)) }
{
    let mut named = Vec::new(alloc);
    for field in fields {
        named.push((field.label.copy()?, field_of(first, field.kind)?))?;
    }
    Ok(named)
}

// What the record type says of a field.
fn field_of(first: usize, kind: FieldKind) -> Result<Field, AllocError>
    ensures { IfOk result (λ field. plain_field field ≡ field_of first (plain_kind kind)) }
{
    Ok(match kind {
        FieldKind::Present(number) => Field {
            optional: false,
            node: place(first, number)?,
        },
        FieldKind::Optional(node) => Field {
            optional: true,
            node,
        },
    })
}
