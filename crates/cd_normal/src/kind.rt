//! The kinds of things that have parts, and the formulas of each.
ghost use Rattle.std.specs.Prelude.{◌≡◌};
ghost use Rattle.cd_graph.specs.PlainFormula.{plain};
ghost use Rattle.cd_rules.specs.KindDnf.{is_of as is_of_kind};
ghost use Rattle.cd_normal.specs.Inner.PlainKind.{plain_kind, kinds as all_kinds};

use crate::part::{arrow, pair, record, xml};
use cd_graph::Formula;

/// A kind of things that have parts.
#[derive(Clone, Copy)]
pub(crate) enum Kind {
    Pair,
    Xml,
    Record,
    Function,
}

/// All of them.
pub(crate) fn kinds() -> &'static [Kind]
    ensures { result.now ≡ all_kinds }
{
    &[Kind::Pair, Kind::Xml, Kind::Record, Kind::Function]
}

/// Whether the formula is one of the things of this kind.
pub(crate) fn is_of(kind: Kind, formula: &Formula) -> bool
    ensures { result ≡ is_of_kind (plain_kind kind) (plain formula.now) }
{
    match kind {
        Kind::Pair => pair(formula).is_some(),
        Kind::Xml => xml(formula).is_some(),
        Kind::Record => record(formula).is_some(),
        Kind::Function => arrow(formula).is_some(),
    }
}
