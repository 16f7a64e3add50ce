//! Values by their parts.
ghost use Rattle.std.specs.Prelude.{◌≡◌, ◌<◌, length, option_map, IfSome};
ghost use Rattle.cd_model.specs.AllOf.{AllOf};
ghost use Rattle.cd_cells.specs.Cells.{thing_at, IsPart};
ghost use Rattle.cd_cells.specs.Table.{table, names};
ghost use Rattle.cd_taking.specs.Inner.Machine.{as_pair, as_xml, as_record};
ghost use Rattle.cd_taking.specs.Inner.Coded.{both_at, all_at, fields_by};

use cd_cells::{Look, Part, ValueId, Values};

/// Both parts of a pair.
pub(crate) fn pair_of(values: &Values, id: ValueId) -> Option<(ValueId, ValueId)>
    requires { id.0 < length (table values.now) }
    ensures is { let all = table values.now in
        option_map (both_at all) result ≡ as_pair (thing_at all id.0) }
    ensures first { IfSome result (λ pair. pair.0.0 < length (table values.now)) }
    ensures second { IfSome result (λ pair. pair.1.0 < length (table values.now)) }
{
    match values.look(id) {
        Look::Pair(first, second) => Some((first, second)),
        _ => None,
    }
}

/// The tag, the attributes and the content of an XML value.
pub(crate) fn xml_of(values: &Values, id: ValueId) -> Option<(ValueId, ValueId, ValueId)>
    requires { id.0 < length (table values.now) }
    ensures is { let all = table values.now in
        option_map (all_at all) result ≡ as_xml (thing_at all id.0) }
    ensures tag { IfSome result (λ xml. xml.0.0 < length (table values.now)) }
    ensures attributes { IfSome result (λ xml. xml.1.0 < length (table values.now)) }
    ensures content { IfSome result (λ xml. xml.2.0 < length (table values.now)) }
{
    match values.look(id) {
        Look::Xml(tag, attributes, content) => Some((tag, attributes, content)),
        _ => None,
    }
}

/// The fields of a record.
pub(crate) fn fields_of(values: &Values, id: ValueId) -> Option<&[Part]>
    requires { id.0 < length (table values.now) }
    ensures is { let all = table values.now in
        option_map (fields_by (names values.now) all) result ≡ as_record (thing_at all id.0) }
    ensures within { let bound = length (table values.now) in
        IfSome result (λ parts. AllOf (IsPart (names values.now) bound) parts.now) }
{
    match values.look(id) {
        Look::Record(parts) => Some(parts),
        _ => None,
    }
}
