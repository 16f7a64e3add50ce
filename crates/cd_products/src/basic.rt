//! Formulas that by their form hold integers, characters and atoms alone.
ghost use Rattle.std.specs.Prelude.{◌≡◌, ◌<◌, map, length};
ghost use Rattle.cd_model.specs.AllOf.{AllOf};
ghost use Rattle.cd_model.specs.Formula.{formulas_of};
ghost use Rattle.cd_graph.specs.Nodes.{nodes};
ghost use Rattle.cd_graph.specs.PlainFormula.{plain};
ghost use Rattle.cd_products.specs.Inner.Basic.{is_basic, one_is_basic, all_are_basic};
ghost use Rattle.cd_products.specs.Inner.Basic.{one_node_is_basic};

use cd_graph::{Formula, Graph};
use cd_sets::node_id::NodeId;

/// Whether one of these nodes is seen to hold no thing with parts.
pub(crate) fn one_node_is_basic(graph: &Graph, ids: &[NodeId]) -> bool
    requires { AllOf (λ id. id.0 < length (nodes graph.now)) ids.now }
    ensures { result ≡ one_node_is_basic (nodes graph.now) ids.now }
{
    for id in ids {
        if is_basic(graph.formula(*id)) {
            return true;
        }
    }
    false
}

// Whether a formula is seen to hold no thing with parts.
#[cycle(is_basic)]
fn is_basic(formula: &Formula) -> bool
    ensures { result ≡ is_basic (plain formula.now) }
{
    match formula {
        Formula::None | Formula::Ints(_) | Formula::Chars(_) | Formula::Atoms(_) => true,
        Formula::And(formulas) => one_is_basic(formulas.items()),
        Formula::Or(formulas) => all_are_basic(formulas.items()),
        Formula::All
        | Formula::Not(_)
        | Formula::Pair(_, _)
        | Formula::Xml(_, _, _)
        | Formula::Record(_)
        | Formula::Arrow(_, _) => false,
    }
}

// Whether one of these is, by halves.
#[cycle(is_basic)]
fn one_is_basic(formulas: &[Formula]) -> bool
    ensures { result ≡ one_is_basic (formulas_of (map plain formulas.now)) }
{
    match formulas {
        [] => false,
        [formula, rest @ ..] if rest.is_empty() => is_basic(formula),
        [_, ..] => {
            let half = formulas.len() / 2;
            one_is_basic(&formulas[..half]) || one_is_basic(&formulas[half..])
        }
    }
}

// Whether all of these are, by halves.
#[cycle(is_basic)]
fn all_are_basic(formulas: &[Formula]) -> bool
    ensures { result ≡ all_are_basic (formulas_of (map plain formulas.now)) }
{
    match formulas {
        [] => true,
        [formula, rest @ ..] if rest.is_empty() => is_basic(formula),
        [_, ..] => {
            let half = formulas.len() / 2;
            all_are_basic(&formulas[..half]) && all_are_basic(&formulas[half..])
        }
    }
}
