//! Nodes of the functions in all of some arrows.
#![tactic(auto)]

ghost use Rattle.std.specs.Prelude.{◌≡◌, ◌++◌, IfOk};
ghost use Rattle.cd_model.specs.Formula.{And, formulas_of, Graph as PlainGraph, IsGraph};
ghost use Rattle.cd_graph.specs.Nodes.{nodes};
ghost use Rattle.cd_graph.specs.PlainFormula.{plain};
ghost use Rattle.cd_meet.specs.Meets.{AreNodes, IsMeet, arrow_formulas};

use cd_graph::built_in::{ANY, EMPTY};
use cd_graph::{Formula, Formulas, Graph};
use cd_sets::node_id::NodeId;
use std::alloc::{AllocError, Global};

/// A node of the functions in all of these arrows, which are between nodes of a graph: its formula
/// is the meet of all functions and of the arrows. It is put after the nodes of the graph, which
/// stays sound.
///
/// # Errors
///
/// Want of memory.
pub fn put_meet(
    alloc: Global,
    graph: &mut Graph,
    arrows: &[(NodeId, NodeId)],
) -> Result<NodeId, AllocError>
    requires { AreNodes (nodes graph.old) arrows.now }
    ensures meet { IfOk result (IsMeet (nodes graph.new) arrows.now) }
    ensures sound { IsGraph (nodes graph.new) }
    ensures grows { (more : PlainGraph) × (nodes graph.new ≡ nodes graph.old ++ more) }
{
    // The contract of this call says that the graph begins with the built-in nodes.
    graph.knows();
    let formula = meet(alloc, arrows)?;
    let formulas = vec![in alloc; formula]?;
    graph.extend(Formulas::of(formulas)?)
}

// The meet of all functions and of these arrows.
fn meet(alloc: Global, arrows: &[(NodeId, NodeId)]) -> Result<Formula, AllocError>
    ensures { IfOk result (λ is. plain is ≡ And (formulas_of (arrow_formulas arrows.now))) }
{
    let mut formulas = Vec::new(alloc);
    formulas.push(Formula::arrow(EMPTY, ANY))?;
    for (argument, outcome) in arrows {
        formulas.push(Formula::arrow(*argument, *outcome))?;
    }
    Ok(Formula::and(Formulas::of(formulas)?))
}
