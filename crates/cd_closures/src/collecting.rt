//! The arrows that stand in the formulas of a graph.
ghost use Rattle.std.specs.Prelude.{◌≡◌, [], IfOk, OnOk};
ghost use Rattle.cd_model.specs.Formula.{IsGraph};
ghost use Rattle.cd_graph.specs.Nodes.{nodes};
ghost use Rattle.cd_graph.specs.PlainFormula.{plain, plain_formulas};
ghost use Rattle.cd_closures.specs.Inner.Collected.{with_arrows, with_all, with_nodes};

use crate::arrow::NodeArrow;
use crate::arrows::Arrows;
use cd_graph::{Formula, Formulas, Graph};
use cd_sets::node_id::NodeId;
use std::alloc::{AllocError, Global};

/// The arrows that stand in the formulas of a graph, by themselves or under connectives.
pub(crate) fn arrows_of(alloc: Global, graph: &Graph) -> Result<Arrows, AllocError>
    ensures arrows { IfOk result (λ arrows. arrows ≡ with_nodes [] (nodes graph.now)) }
    ensures sound { IsGraph (nodes graph.now) }
{
    let mut arrows = Arrows::new(alloc);
    for place in 0..graph.len() {
        add_arrows(graph.formula(NodeId(place)), &mut arrows)?;
    }
    Ok(arrows)
}

// Adds those of a formula.
#[cycle(add_arrows)]
fn add_arrows(formula: &Formula, arrows: &mut Arrows) -> Result<(), AllocError>
    ensures { OnOk result (arrows.new ≡ with_arrows arrows.old (plain formula.now)) }
{
    match formula {
        Formula::Arrow(from, to) => arrows.add(NodeArrow {
            argument: *from,
            result: *to,
        }),
        Formula::And(formulas) => add_all(formulas, arrows),
        Formula::Or(formulas) => add_all(formulas, arrows),
        Formula::Not(negated) => add_arrows(negated, arrows),
        Formula::None => Ok(()),
        Formula::All => Ok(()),
        Formula::Ints(_) => Ok(()),
        Formula::Chars(_) => Ok(()),
        Formula::Atoms(_) => Ok(()),
        Formula::Pair(_, _) => Ok(()),
        Formula::Xml(_, _, _) => Ok(()),
        Formula::Record(_) => Ok(()),
    }
}

// And those of each of some.
#[cycle(add_arrows)]
fn add_all(formulas: &Formulas, arrows: &mut Arrows) -> Result<(), AllocError>
    ensures { OnOk result (arrows.new ≡ with_all arrows.old (plain_formulas formulas.now)) }
{
    for formula in formulas.items() {
        add_arrows(formula, arrows)?;
    }
    Ok(())
}
