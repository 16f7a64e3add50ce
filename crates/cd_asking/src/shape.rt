//! Whether a value whose parts have answered is in a formula.
ghost use Rattle.std.specs.Prelude.{◌≡◌, IfOk, IsTrue, map, bytes_eq};
ghost use Rattle.std.specs.Option.{option_map};
ghost use Rattle.std.specs.Str.{chars};
ghost use Rattle.cd_sets.specs.IdSet.{holds};
ghost use Rattle.cd_sets.specs.Atoms as atoms;
ghost use Rattle.cd_syntax.specs.Name.{IsLabel};
ghost use Rattle.cd_graph.specs.Nodes.{nodes};
ghost use Rattle.cd_graph.specs.PlainFormula.{plain, plain_formulas, plain_named, plain_field};
ghost use Rattle.cd_model.specs.Formula as formula;
ghost use Rattle.cd_asking.specs.Inner.Shapes.{in_formula as in_plain, in_each, in_one, in_basic};
ghost use Rattle.cd_asking.specs.Inner.Shapes.{in_named as named_of, in_rest as rest_of, members};
ghost use Rattle.cd_asking.specs.Inner.Shapes.{item_at, is_named as is_named_in};
ghost use Rattle.cd_asking.specs.Inner.Shapes.{in_field as field_holds};
ghost use Rattle.cd_asking.specs.Inner.Tasks.{among};
ghost use Rattle.cd_asking.specs.Inner.Asked.{plain_shape, HasLabel, held};

use crate::maps::Maps;
use crate::node::node_formula;
use cd_graph::fields::{Field, Fields};
use cd_graph::{Formula, Formulas, Graph};
use cd_sets::atom_set::AtomSet;
use cd_sets::char_set::CharSet;
use cd_sets::int_set::IntSet;
use cd_sets::node_id::NodeId;
use cd_syntax::name::Name;
use std::alloc::{AllocError, Global};

/// A value whose parts are known by the nodes that hold them.
#[derive(Clone, Copy)]
pub(crate) enum Shape<'s> {
    Integer(i128),
    Character(char),
    Atom(&'s str),
    Pair(&'s [NodeId], &'s [NodeId]),
    Xml(&'s [NodeId], &'s [NodeId], &'s [NodeId]),
    Record(&'s [Held<'s>]),
    /// A closure of a function with this number, by the arrows that it is in.
    Closure(&'s Maps, usize),
}

/// A field by its label and the nodes that hold its value.
#[derive(Clone, Copy)]
pub(crate) struct Held<'s> {
    pub(crate) label: &'s str,
    pub(crate) nodes: &'s [NodeId],
}

/// Those of some nodes that hold the value.
pub(crate) fn members_of(
    alloc: Global,
    graph: &Graph,
    shape: &Shape<'_>,
    set: &[NodeId],
) -> Result<Vec<NodeId>, AllocError>
    requires { HasLabel shape.now }
    ensures { IfOk result
        (λ ids. ids.items ≡ members (nodes graph.now) (plain_shape shape.now) set.now) }
{
    let mut ids = Vec::new(alloc);
    for id in set {
        if is_in_node(graph, shape, *id) {
            ids.push(*id)?;
        }
    }
    Ok(ids)
}

/// Whether each of some nodes holds the value.
pub(crate) fn hold_all(graph: &Graph, shape: &Shape<'_>, set: &[NodeId]) -> bool
    requires { HasLabel shape.now }
    ensures { IsTrue result → members (nodes graph.now) (plain_shape shape.now) set.now ≡ set.now }
{
    for id in set {
        if !is_in_node(graph, shape, *id) {
            return false;
        }
    }
    true
}

// Whether a node holds the value.
fn is_in_node(graph: &Graph, shape: &Shape<'_>, id: NodeId) -> bool
    requires { HasLabel shape.now }
    ensures { result ≡ in_plain (plain_shape shape.now) (formula.formula_at (nodes graph.now) id) }
{
    match node_formula(graph, id) {
        Some(formula) => in_formula(shape, formula),
        None => false,
    }
}

// Whether the value is in a formula.
#[cycle(in_formula)]
fn in_formula(shape: &Shape<'_>, formula: &Formula) -> bool
    requires { HasLabel shape.now }
    ensures { result ≡ in_plain (plain_shape shape.now) (plain formula.now) }
{
    match formula {
        Formula::None => false,
        Formula::All => true,
        Formula::And(formulas) => in_all(shape, formulas),
        Formula::Or(formulas) => in_any(shape, formulas),
        Formula::Not(inner) => !in_formula(shape, inner),
        Formula::Ints(set) => in_integers(shape, set),
        Formula::Chars(set) => in_characters(shape, set),
        Formula::Atoms(set) => in_atoms(shape, set),
        Formula::Pair(one, other) => in_pair(shape, *one, *other),
        Formula::Xml(one, other, last) => in_xml(shape, *one, *other, *last),
        Formula::Record(fields) => in_record(shape, fields),
        Formula::Arrow(from, to) => in_arrow(shape, *from, *to),
    }
}

// Whether it is in each of these formulas.
#[cycle(in_formula)]
fn in_all(shape: &Shape<'_>, formulas: &Formulas) -> bool
    requires { HasLabel shape.now }
    ensures { result ≡ in_each (plain_shape shape.now) (plain_formulas formulas.now) }
{
    for formula in formulas.items() {
        if !in_formula(shape, formula) {
            return false;
        }
    }
    true
}

// Whether it is in one of these formulas.
#[cycle(in_formula)]
fn in_any(shape: &Shape<'_>, formulas: &Formulas) -> bool
    requires { HasLabel shape.now }
    ensures { result ≡ in_one (plain_shape shape.now) (plain_formulas formulas.now) }
{
    for formula in formulas.items() {
        if in_formula(shape, formula) {
            return true;
        }
    }
    false
}

// Whether it is one of these integers.
fn in_integers(shape: &Shape<'_>, set: &IntSet) -> bool
    ensures { result ≡ in_basic (plain_shape shape.now) (formula.Ints set.now) }
{
    match shape {
        Shape::Integer(n) => set.contains(*n),
        _ => false,
    }
}

// Whether it is one of these characters.
fn in_characters(shape: &Shape<'_>, set: &CharSet) -> bool
    ensures { result ≡ in_basic (plain_shape shape.now) (formula.Chars set.now) }
{
    match shape {
        Shape::Character(c) => set.contains(*c),
        _ => false,
    }
}

// Whether it is one of these atoms.
fn in_atoms(shape: &Shape<'_>, set: &AtomSet) -> bool
    requires { HasLabel shape.now }
    ensures { result ≡ in_basic (plain_shape shape.now) (formula.Atoms set.now) }
{
    match shape {
        Shape::Atom(name) => is_among(name, set),
        _ => false,
    }
}

// Whether the atom of a name is in a set.
fn is_among(name: &str, set: &AtomSet) -> bool
    requires { IsLabel (chars name.now) }
    ensures { result ≡ atoms.holds set.now (chars name.now) }
{
    set.contains(name)
}

// Whether it is a pair of what is in these nodes.
fn in_pair(shape: &Shape<'_>, one: NodeId, other: NodeId) -> bool
    ensures { result ≡ in_basic (plain_shape shape.now) (formula.Pair one other) }
{
    match shape {
        Shape::Pair(first, second) => contains(first, one) && contains(second, other),
        _ => false,
    }
}

// Whether it is an XML value of what is in these nodes.
fn in_xml(shape: &Shape<'_>, one: NodeId, other: NodeId, last: NodeId) -> bool
    ensures { result ≡ in_basic (plain_shape shape.now) (formula.Xml one other last) }
{
    match shape {
        Shape::Xml(tag, attributes, content) => {
            contains(tag, one) && (contains(attributes, other) && contains(content, last))
        }
        _ => false,
    }
}

// Whether it is a record as a record type says.
fn in_record(shape: &Shape<'_>, type_is: &Fields) -> bool
    ensures { let type = formula.Record (plain_named type_is.now.named) type_is.now.rest in
        result ≡ in_basic (plain_shape shape.now) type }
{
    match shape {
        Shape::Record(fields) => in_named(fields, type_is) && in_rest(fields, type_is),
        _ => false,
    }
}

// Whether it is a closure that is in an arrow.
fn in_arrow(shape: &Shape<'_>, from: NodeId, to: NodeId) -> bool
    ensures { result ≡ in_basic (plain_shape shape.now) (formula.Arrow from to) }
{
    match shape {
        Shape::Closure(maps, function) => maps.holds(*function, from, to),
        _ => false,
    }
}

// Whether a record is as a record type says of the labels that the type names.
fn in_named(fields: &[Held<'_>], type_is: &Fields) -> bool
    ensures { let named = plain_named type_is.now.named in
        result ≡ named_of (map held fields.now) named type_is.now.rest }
{
    for (label, field) in type_is.named.items() {
        if !in_field(fields, label, field) {
            return false;
        }
    }
    true
}

// Whether what a record has at a label, if anything, is as a record type says.
fn in_field(fields: &[Held<'_>], label: &Name, field: &Field) -> bool
    ensures { result
        ≡ field_holds (item_at (map held fields.now) label.now) (plain_field field.now) }
{
    match find(fields, label.as_str()) {
        Some(nodes) => contains(nodes, field.node),
        None => field.optional,
    }
}

// Whether a record is as a record type says of the labels that the type does not name.
fn in_rest(fields: &[Held<'_>], type_is: &Fields) -> bool
    ensures { let named = plain_named type_is.now.named in
        result ≡ rest_of (map held fields.now) named type_is.now.rest }
{
    for field in fields {
        if !is_named(type_is, field.label) && !contains(field.nodes, type_is.rest) {
            return false;
        }
    }
    true
}

// Whether a number is one of these.
pub(crate) fn contains(ids: &[NodeId], id: NodeId) -> bool
    ensures { result ≡ holds ids.now id }
{
    ids.iter().any(|one| one.0 == id.0)
}

// The nodes that hold the value of a label, if the record has it.
fn find<'s>(fields: &[Held<'s>], label: &str) -> Option<&'s [NodeId]>
    ensures { option_map (λ nodes. among nodes.now) result
        ≡ item_at (map held fields.now) (chars label.now) }
{
    for field in fields {
        if is_same(field.label, label) {
            return Some(field.nodes);
        }
    }
    None
}

// Whether a record type names a label.
fn is_named(type_is: &Fields, label: &str) -> bool
    ensures { result ≡ is_named_in (plain_named type_is.now.named) (chars label.now) }
{
    for field in type_is.named.items() {
        if is_same(field.0.as_str(), label) {
            return true;
        }
    }
    false
}

// Whether two labels are equal.
fn is_same(one: &str, other: &str) -> bool
    ensures { result ≡ bytes_eq (chars one.now) (chars other.now) }
{
    one == other
}
