//! The questions that must have elements for a conjunct.
ghost use Rattle.std.specs.Prelude.{◌≡◌, ◌<◌, ◌&&◌, not, [], ◌∷◌, length, map, take, IfOk, OnOk};
ghost use Rattle.std.specs.List.{list_any};
ghost use Rattle.cd_model.specs.AllOf.{AllOf};
ghost use Rattle.cd_model.specs.Kinds.{APair, AnXml, ARecord, AFunction};
ghost use Rattle.cd_needs.specs.RecordType.{record_types};
ghost use Rattle.cd_rules.specs.Needs.{question};
ghost use Rattle.cd_rules.specs.Rows.{field_at};
ghost use Rattle.cd_normal.specs.Inner.IsNeed.{IsNeed, IsFieldNeed};
ghost use Rattle.cd_normal.specs.Inner.PlainConjunct.{plain_conjunct};
ghost use Rattle.cd_normal.specs.Inner.PlainKind.{plain_kind};

use crate::kind::Kind;
use crate::literal::Literal;
use crate::side::{arrows, pairs, records, wanted_xmls};
use cd_graph::fields::Fields;
use cd_needs::asking::question;
use cd_parts::parts::{pair_questions, xml_questions};
use cd_sets::node_id::NodeId;
use cd_sets::question::Question;
use cd_syntax::name::Name;
use std::alloc::{AllocError, Global};

/// Questions each of which has to have an element, or each conjunct for the kind with these
/// literals fails.
pub(crate) fn needs_of(
    alloc: Global,
    kind: Kind,
    conjunct: &[Literal<'_>],
) -> Result<Vec<Question>, AllocError>
    ensures { IfOk result
        (λ needs. AllOf (IsNeed (plain_kind kind) (plain_conjunct conjunct.now)) needs.items) }
{
    match kind {
        Kind::Pair => needs_of_pairs(alloc, conjunct),
        Kind::Xml => needs_of_xmls(alloc, conjunct),
        Kind::Record => needs_of_records(alloc, conjunct),
        Kind::Function => needs_of_arrows(alloc, conjunct),
    }
}

fn needs_of_pairs(alloc: Global, conjunct: &[Literal<'_>]) -> Result<Vec<Question>, AllocError>
    ensures { IfOk result
        (λ needs. AllOf (IsNeed APair (plain_conjunct conjunct.now)) needs.items) }
{
    let wanted = pairs(alloc, true, conjunct)?;
    pair_questions(alloc, wanted.as_slice(), &[], &[])
}

fn needs_of_xmls(alloc: Global, conjunct: &[Literal<'_>]) -> Result<Vec<Question>, AllocError>
    ensures { IfOk result
        (λ needs. AllOf (IsNeed AnXml (plain_conjunct conjunct.now)) needs.items) }
{
    let wanted = wanted_xmls(alloc, conjunct)?;
    xml_questions(alloc, wanted.as_slice(), &[], &[], &[])
}

fn needs_of_records(alloc: Global, conjunct: &[Literal<'_>]) -> Result<Vec<Question>, AllocError>
    ensures { IfOk result
        (λ needs. AllOf (IsNeed ARecord (plain_conjunct conjunct.now)) needs.items) }
{
    let wanted = records(alloc, true, conjunct)?;
    field_needs(alloc, wanted.as_slice())
}

fn needs_of_arrows(alloc: Global, conjunct: &[Literal<'_>]) -> Result<Vec<Question>, AllocError>
    ensures { IfOk result
        (λ needs. AllOf (IsNeed AFunction (plain_conjunct conjunct.now)) needs.items) }
{
    let refused = arrows(alloc, false, conjunct)?;
    argument_needs(alloc, refused.as_slice())
}

// The questions of the arguments of arrows.
fn argument_needs(alloc: Global, refused: &[(NodeId, NodeId)]) -> Result<Vec<Question>, AllocError>
    ensures { IfOk result (λ needs.
        needs.items ≡ map (λ parts. question (parts.0 ∷ []) []) refused.now) }
{
    let mut needs = Vec::new(alloc);
    for parts in refused {
        needs.push(question(alloc, &[parts.0], &[])?)?;
    }
    Ok(needs)
}

// The questions of the labels for which one of the types asks.
fn field_needs(alloc: Global, types: &[&Fields]) -> Result<Vec<Question>, AllocError>
    ensures { IfOk result
        (λ needs. AllOf (IsFieldNeed (record_types types.now)) needs.items) }
{
    let mut needs = Vec::new(alloc);
    for place in 0..types.len() {
        add_field_needs(&mut needs, types, place)?;
    }
    Ok(needs)
}

// Adds those of the labels for which the type at this place asks, and none before it.
fn add_field_needs(
    needs: &mut Vec<Question>,
    types: &[&Fields],
    place: usize,
) -> Result<(), AllocError>
    requires { place < length types.now }
    ensures { OnOk result (AllOf (IsFieldNeed (record_types types.now)) needs.old.items
        → AllOf (IsFieldNeed (record_types types.now)) needs.new.items) }
{
    for (label, field) in types[place].named.items() {
        add_field_need(needs, types, place, label, field.optional)?;
    }
    Ok(())
}

// Adds that of a label of the type at this place, where it asks for a field there, and none before
// it does.
fn add_field_need(
    needs: &mut Vec<Question>,
    types: &[&Fields],
    place: usize,
    label: &Name,
    optional: bool,
) -> Result<(), AllocError>
    requires { place < length types.now }
    ensures { OnOk result (AllOf (IsFieldNeed (record_types types.now)) needs.old.items
        → AllOf (IsFieldNeed (record_types types.now)) needs.new.items) }
{
    if optional {
        return Ok(());
    }
    if !is_first_asked_at(types, place, label) {
        return Ok(());
    }
    let need = field_need(*needs.allocator(), types, label)?;
    Ok(needs.push(need)?)
}

// Whether one of the types asks for a field at the label, and none before this place does.
fn is_first_asked_at(types: &[&Fields], place: usize, label: &Name) -> bool
    requires { place < length types.now }
    ensures { result ≡ (list_any (λ type. not (field_at type label.now).optional)
        (record_types types.now)
        && not (list_any (λ type. not (field_at type label.now).optional)
        (record_types (take place types.now)))) }
{
    is_asked_for(types, label) && !is_asked_for(&types[..place], label)
}

// Whether one of the types asks for a field at the label.
fn is_asked_for(types: &[&Fields], label: &Name) -> bool
    ensures { result ≡ list_any (λ type. not (field_at type label.now).optional)
        (record_types types.now) }
{
    for fields in types {
        if !fields.at(label).optional {
            return true;
        }
    }
    false
}

// The question of what all of the types say of the label.
fn field_need(alloc: Global, types: &[&Fields], label: &Name) -> Result<Question, AllocError>
    ensures { IfOk result (λ need. need
        ≡ question (map (λ type. (field_at type label.now).type) (record_types types.now)) []) }
{
    let nodes = nodes_at(alloc, types, label)?;
    question(alloc, nodes.as_slice(), &[])
}

// The nodes of the types at the label.
fn nodes_at(alloc: Global, types: &[&Fields], label: &Name) -> Result<Vec<NodeId>, AllocError>
    ensures { IfOk result (λ nodes.
        nodes.items ≡ map (λ type. (field_at type label.now).type) (record_types types.now)) }
{
    let mut nodes = Vec::new(alloc);
    for fields in types {
        nodes.push(fields.at(label).node)?;
    }
    Ok(nodes)
}
