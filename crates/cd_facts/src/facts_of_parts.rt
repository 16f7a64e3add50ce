//! Whether an element is in a formula that speaks of its parts.
ghost use Rattle.std.specs.Prelude.{◌≡◌, map, option_copied};
ghost use Rattle.cd_graph.specs.PlainFormula.{plain_named, plain_field};
ghost use Rattle.cd_model.specs.Formula as formula;
ghost use Rattle.cd_elements.specs.Parts.{HasLabels};
ghost use Rattle.cd_facts.specs.Inner.Finding.{finding_of, finding_at_pairs, labels};
ghost use Rattle.cd_facts.specs.Inner.Finding.{look as look_of, both as both_of};
ghost use Rattle.cd_facts.specs.Inner.Finding.{finding_at_labels, finding_at_field};
ghost use Rattle.cd_facts.specs.Inner.Finding.{finding_at_other, finding_at_others};
ghost use Rattle.cd_facts.specs.Inner.Known.{known};

use crate::facts::Facts;
use crate::finding::{Finding, look, look_at_result, one_of, opposite};
use crate::rising::{first_at, from_label};
use cd_elements::{ElementId, Shape};
use cd_graph::fields::{Field, Fields};
use cd_sets::node_id::NodeId;
use cd_syntax::name::Name;

// Whether it is a pair of what is in these nodes.
pub(crate) fn at_pair(facts: &Facts, shape: &Shape, one: NodeId, other: NodeId) -> Finding
    ensures { result ≡ finding_of (known facts.now) shape.now (formula.Pair one other) }
{
    match shape {
        Shape::Pair(first, second) => look_at_both(facts, (*first, one), (*second, other)),
        _ => Finding::Known(false),
    }
}

// Whether it is an XML element of what is in these nodes.
pub(crate) fn at_xml(
    facts: &Facts,
    shape: &Shape,
    one: NodeId,
    other: NodeId,
    last: NodeId,
) -> Finding
    ensures { result ≡ finding_of (known facts.now) shape.now (formula.Xml one other last) }
{
    match shape {
        Shape::Xml(tag, attributes, content) => match look(facts, *tag, one) {
            Finding::Known(true) => look_at_both(facts, (*attributes, other), (*content, last)),
            Finding::Known(false) => Finding::Known(false),
            Finding::Unknown(id, node) => Finding::Unknown(id, node),
        },
        _ => Finding::Known(false),
    }
}

// Whether two parts are in two nodes. The second is looked up where the first is in its node.
fn look_at_both(facts: &Facts, first: (ElementId, NodeId), second: (ElementId, NodeId)) -> Finding
    ensures { result ≡ both_of (look_of (known facts.now) first.0 first.1)
        (look_of (known facts.now) second.0 second.1) }
{
    match look(facts, first.0, first.1) {
        Finding::Known(true) => look(facts, second.0, second.1),
        Finding::Known(false) => Finding::Known(false),
        Finding::Unknown(id, node) => Finding::Unknown(id, node),
    }
}

// Whether it is a function that maps the one node into the other.
pub(crate) fn at_arrow(facts: &Facts, shape: &Shape, argument: NodeId, mapped: NodeId) -> Finding
    ensures { result ≡ finding_of (known facts.now) shape.now (formula.Arrow argument mapped) }
{
    match shape {
        Shape::Fun(pairs) => at_pairs(facts, pairs.items(), argument, mapped),
        _ => Finding::Known(false),
    }
}

// Whether each of these pairs maps the one node into the other.
fn at_pairs(
    facts: &Facts,
    pairs: &[(ElementId, Option<ElementId>)],
    argument: NodeId,
    mapped: NodeId,
) -> Finding
    ensures { result ≡ finding_at_pairs (known facts.now) pairs.now argument mapped }
{
    for pair in pairs {
        let outside = opposite(look(facts, pair.0, argument));
        match one_of(outside, look_at_result(facts, pair.1, mapped)) {
            Finding::Known(true) => {}
            Finding::Known(false) => return Finding::Known(false),
            Finding::Unknown(id, node) => return Finding::Unknown(id, node),
        }
    }
    Finding::Known(true)
}

// Whether it is a record as a record type says.
pub(crate) fn at_record(facts: &Facts, shape: &Shape, fields: &Fields) -> Finding
    ensures { result ≡ finding_of (known facts.now) shape.now
        (formula.Record (plain_named fields.now.named) fields.now.rest) }
{
    match shape {
        Shape::Record(parts) => at_fields(facts, parts.items(), fields),
        _ => Finding::Known(false),
    }
}

// Whether a record is as a record type says of each label: those that one of both has are enough.
fn at_fields(facts: &Facts, parts: &[(Name, ElementId)], fields: &Fields) -> Finding
    requires { HasLabels parts.now }
    ensures { let named = plain_named fields.now.named in
        result ≡ finding_at_labels (known facts.now) parts.now named fields.now.rest
        (labels named parts.now) }
{
    match at_named(facts, parts, fields) {
        Finding::Known(true) => at_others(facts, parts, fields),
        Finding::Known(false) => Finding::Known(false),
        Finding::Unknown(id, node) => Finding::Unknown(id, node),
    }
}

// Whether a record is as a record type says of the labels that the type names.
fn at_named(facts: &Facts, parts: &[(Name, ElementId)], fields: &Fields) -> Finding
    requires { HasLabels parts.now }
    ensures { let named = plain_named fields.now.named in
        result ≡ finding_at_labels (known facts.now) parts.now named fields.now.rest
        (map (λ field. field.0) named) }
{
    let mut left = parts;
    for (label, field) in fields.named.items() {
        left = from_label(left, label);
        match at_field(facts, first_at(left, label).copied(), field) {
            Finding::Known(true) => {}
            Finding::Known(false) => return Finding::Known(false),
            Finding::Unknown(id, node) => return Finding::Unknown(id, node),
        }
    }
    Finding::Known(true)
}

// Whether a record is as a record type says of the labels that the record alone has.
fn at_others(facts: &Facts, parts: &[(Name, ElementId)], fields: &Fields) -> Finding
    requires { HasLabels parts.now }
    ensures { result ≡ finding_at_others (known facts.now) fields.now.named fields.now.rest
        parts.now }
{
    let mut left = fields.named.items();
    for (label, id) in parts {
        left = from_label(left, label);
        match at_other(facts, first_at(left, label), *id, fields.rest) {
            Finding::Known(true) => {}
            Finding::Known(false) => return Finding::Known(false),
            Finding::Unknown(id, node) => return Finding::Unknown(id, node),
        }
    }
    Finding::Known(true)
}

// Whether a part is in the rest of a record type, if the type has no field at its label.
fn at_other(facts: &Facts, field: Option<&Field>, id: ElementId, rest: NodeId) -> Finding
    ensures { result ≡ finding_at_other (known facts.now) (option_copied field.entry) id rest }
{
    match field {
        Some(_) => Finding::Known(true),
        None => look(facts, id, rest),
    }
}

// Whether what is at a label, if anything is, is as a field says.
fn at_field(facts: &Facts, part: Option<ElementId>, field: &Field) -> Finding
    ensures { result ≡ finding_at_field (known facts.now) part (plain_field field.now) }
{
    match part {
        Some(id) => look(facts, id, field.node),
        None => Finding::Known(field.optional),
    }
}
