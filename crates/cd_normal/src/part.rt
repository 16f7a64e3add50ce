//! The parts of formulas, where these are of one kind.
ghost use Rattle.std.specs.Prelude.{◌≡◌};
ghost use Rattle.std.specs.Option.{option_map};
ghost use Rattle.cd_graph.specs.PlainFormula.{plain};
ghost use Rattle.cd_needs.specs.RecordType.{record_type};
ghost use Rattle.cd_rules.specs.Clauses.{pair_of, xml_of, record_of, arrow_of};

use cd_graph::Formula;
use cd_graph::fields::Fields;
use cd_sets::node_id::NodeId;

/// The nodes of the parts of a pair.
pub(crate) fn pair(formula: &Formula) -> Option<(NodeId, NodeId)>
    ensures { result ≡ pair_of (plain formula.now) }
{
    match formula {
        Formula::Pair(first, second) => Some((*first, *second)),
        Formula::None
        | Formula::All
        | Formula::Ints(_)
        | Formula::Chars(_)
        | Formula::Atoms(_)
        | Formula::Xml(_, _, _)
        | Formula::Record(_)
        | Formula::Arrow(_, _)
        | Formula::And(_)
        | Formula::Or(_)
        | Formula::Not(_) => None,
    }
}

/// The nodes of the parts of an XML element.
pub(crate) fn xml(formula: &Formula) -> Option<(NodeId, NodeId, NodeId)>
    ensures { result ≡ xml_of (plain formula.now) }
{
    match formula {
        Formula::Xml(tag, attributes, content) => Some((*tag, *attributes, *content)),
        Formula::None
        | Formula::All
        | Formula::Ints(_)
        | Formula::Chars(_)
        | Formula::Atoms(_)
        | Formula::Pair(_, _)
        | Formula::Record(_)
        | Formula::Arrow(_, _)
        | Formula::And(_)
        | Formula::Or(_)
        | Formula::Not(_) => None,
    }
}

/// The fields of a record.
pub(crate) fn record(formula: &Formula) -> Option<&Fields>
    ensures { option_map (λ fields. record_type fields.now) result ≡ record_of (plain formula.now) }
{
    match formula {
        Formula::Record(fields) => Some(fields),
        Formula::None
        | Formula::All
        | Formula::Ints(_)
        | Formula::Chars(_)
        | Formula::Atoms(_)
        | Formula::Pair(_, _)
        | Formula::Xml(_, _, _)
        | Formula::Arrow(_, _)
        | Formula::And(_)
        | Formula::Or(_)
        | Formula::Not(_) => None,
    }
}

/// The nodes of the argument and of the result of a function.
pub(crate) fn arrow(formula: &Formula) -> Option<(NodeId, NodeId)>
    ensures { result ≡ arrow_of (plain formula.now) }
{
    match formula {
        Formula::Arrow(argument, mapped) => Some((*argument, *mapped)),
        Formula::None
        | Formula::All
        | Formula::Ints(_)
        | Formula::Chars(_)
        | Formula::Atoms(_)
        | Formula::Pair(_, _)
        | Formula::Xml(_, _, _)
        | Formula::Record(_)
        | Formula::And(_)
        | Formula::Or(_)
        | Formula::Not(_) => None,
    }
}
