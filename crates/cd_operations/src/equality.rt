//! Equality of values. Pairs of parts that are left to be compared stand on a stack.
ghost use Rattle.std.specs.Prelude.{◌≡◌, ◌<◌, ◌-◌, length, bytes_eq, IfOk};
ghost use Rattle.std.specs.Ordering.{int_eq};
ghost use Rattle.cd_model.specs.AllOf.{AllOf};
ghost use Rattle.cd_model.specs.Thing.{Integer, Character, Atom, Pair, Xml, Record};
ghost use Rattle.cd_cells.specs.Cells.{thing_at, name_at, fields_of, IsPart};
ghost use Rattle.cd_cells.specs.Table.{table, names};
ghost use Rattle.cd_evaluation.specs.Equality as equality;
ghost use Rattle.cd_operations.specs.Inner.Comparing.{AreComparable, Adds};
ghost use Rattle.cd_operations.specs.Inner.Comparing.{weight, weight_of_fields};

use crate::merging::split;
use cd_cells::{Look, Part, ValueId, Values};
use std::alloc::{AllocError, Global};

/// Whether two values are equal. A function is equal to none.
pub(crate) fn same(
    alloc: Global,
    values: &Values,
    left: ValueId,
    right: ValueId,
) -> Result<bool, AllocError>
    requires left { left.0 < length (table values.now) }
    requires right { right.0 < length (table values.now) }
    ensures { let all = table values.now in
        IfOk result (λ is. is ≡ equality.same (thing_at all left.0) (thing_at all right.0)) }
{
    let mut pairs = Vec::new(alloc);
    if !same_parts(values, left, right, &mut pairs)? {
        return Ok(false);
    }
    while let Some((one, other)) = pairs.pop() {
        if !same_parts(values, one, other, &mut pairs)? {
            return Ok(false);
        }
    }
    Ok(true)
}

// Whether two values may be equal. They are where the pairs that are added are.
fn same_parts(
    values: &Values,
    one: ValueId,
    other: ValueId,
    pairs: &mut Vec<(ValueId, ValueId)>,
) -> Result<bool, AllocError>
    requires one { one.0 < length (table values.now) }
    requires other { other.0 < length (table values.now) }
    requires pairs { AreComparable (table values.now) pairs.old.items }
    ensures { let all = table values.now in
        IfOk result (Adds all (equality.same (thing_at all one.0) (thing_at all other.0))
        (weight (thing_at all one.0) - 1) pairs.old.items pairs.new.items) }
{
    match values.look(one) {
        Look::Int(n) => Ok(is_integer(values, n, other)),
        Look::Char(c) => Ok(is_character(values, c, other)),
        Look::Atom(name) => Ok(is_atom(values, name, other)),
        Look::Pair(first, second) => same_pair(values, first, second, other, pairs),
        Look::Xml(tag, attributes, content) => {
            same_xml(values, tag, attributes, content, other, pairs)
        }
        Look::Record(parts) => same_record(values, parts, other, pairs),
        Look::Closure(_, _) => Ok(false),
    }
}

fn is_integer(values: &Values, n: i128, other: ValueId) -> bool
    requires { other.0 < length (table values.now) }
    ensures { result ≡ equality.same (Integer n) (thing_at (table values.now) other.0) }
{
    match values.look(other) {
        Look::Int(m) => n == m,
        _ => false,
    }
}

fn is_character(values: &Values, c: char, other: ValueId) -> bool
    requires { other.0 < length (table values.now) }
    ensures { result ≡ equality.same (Character c) (thing_at (table values.now) other.0) }
{
    match values.look(other) {
        Look::Char(d) => c == d,
        _ => false,
    }
}

fn is_atom(values: &Values, name: u32, other: ValueId) -> bool
    requires { other.0 < length (table values.now) }
    ensures { result ≡ equality.same (Atom (name_at (names values.now) name))
        (thing_at (table values.now) other.0) }
{
    match values.look(other) {
        Look::Atom(other) => same_name(values, name, other),
        _ => false,
    }
}

fn same_pair(
    values: &Values,
    first: ValueId,
    second: ValueId,
    other: ValueId,
    pairs: &mut Vec<(ValueId, ValueId)>,
) -> Result<bool, AllocError>
    requires first { first.0 < length (table values.now) }
    requires second { second.0 < length (table values.now) }
    requires other { other.0 < length (table values.now) }
    requires pairs { AreComparable (table values.now) pairs.old.items }
    ensures { let all = table values.now in
        let pair = Pair (thing_at all first.0) (thing_at all second.0) in
        IfOk result (Adds all (equality.same pair (thing_at all other.0)) (weight pair - 1)
        pairs.old.items pairs.new.items) }
{
    let Look::Pair(one, last) = values.look(other) else {
        return Ok(false);
    };
    pairs.push((second, last))?;
    pairs.push((first, one))?;
    Ok(true)
}

fn same_xml(
    values: &Values,
    tag: ValueId,
    attributes: ValueId,
    content: ValueId,
    other: ValueId,
    pairs: &mut Vec<(ValueId, ValueId)>,
) -> Result<bool, AllocError>
    requires tag { tag.0 < length (table values.now) }
    requires attributes { attributes.0 < length (table values.now) }
    requires content { content.0 < length (table values.now) }
    requires other { other.0 < length (table values.now) }
    requires pairs { AreComparable (table values.now) pairs.old.items }
    ensures { let all = table values.now in
        let xml = Xml (thing_at all tag.0) (thing_at all attributes.0) (thing_at all content.0) in
        IfOk result (Adds all (equality.same xml (thing_at all other.0)) (weight xml - 1)
        pairs.old.items pairs.new.items) }
{
    let Look::Xml(one, more, last) = values.look(other) else {
        return Ok(false);
    };
    pairs.push((content, last))?;
    pairs.push((attributes, more))?;
    pairs.push((tag, one))?;
    Ok(true)
}

fn same_record(
    values: &Values,
    parts: &[Part],
    other: ValueId,
    pairs: &mut Vec<(ValueId, ValueId)>,
) -> Result<bool, AllocError>
    requires parts { AllOf (IsPart (names values.now) (length (table values.now))) parts.now }
    requires other { other.0 < length (table values.now) }
    requires pairs { AreComparable (table values.now) pairs.old.items }
    ensures { let all = table values.now in
        let record_of = Record (fields_of (names values.now) all parts.now) in
        IfOk result (Adds all (equality.same record_of (thing_at all other.0))
        (weight record_of - 1) pairs.old.items pairs.new.items) }
{
    let Look::Record(others) = values.look(other) else {
        return Ok(false);
    };
    same_fields(values, parts, others, pairs)
}

fn same_fields(
    values: &Values,
    parts: &[Part],
    others: &[Part],
    pairs: &mut Vec<(ValueId, ValueId)>,
) -> Result<bool, AllocError>
    requires parts { AllOf (IsPart (names values.now) (length (table values.now))) parts.now }
    requires others { AllOf (IsPart (names values.now) (length (table values.now))) others.now }
    requires pairs { AreComparable (table values.now) pairs.old.items }
    ensures { let fields = fields_of (names values.now) (table values.now) in
        IfOk result (Adds (table values.now)
        (equality.same_fields (fields parts.now) (fields others.now))
        (weight_of_fields (fields parts.now)) pairs.old.items pairs.new.items) }
{
    let mut left = parts;
    let mut right = others;
    while let Some((one, rest)) = split(left) {
        let Some((other, later)) = split(right) else {
            return Ok(false);
        };
        if !same_name(values, one.label, other.label) {
            return Ok(false);
        }
        pairs.push((one.id(), other.id()))?;
        left = rest;
        right = later;
    }
    Ok(right.is_empty())
}

// Whether two names are equal.
fn same_name(values: &Values, one: u32, other: u32) -> bool
    ensures { let name = name_at (names values.now) in
        result ≡ bytes_eq (name one) (name other) }
{
    if one == other {
        return true;
    }
    values.name_of(one) == values.name_of(other)
}
