//! From functions to the nodes of their interfaces.
ghost use Rattle.std.specs.Prelude.{◌≡◌, ◌++◌, [], ◌∷◌, map, IfOk};
ghost use Rattle.cd_model.specs.AllOf.{AllOf};
ghost use Rattle.cd_model.specs.Formula.{Graph as PlainGraph, IsGraph};
ghost use Rattle.cd_graph.specs.Nodes.{nodes};
ghost use Rattle.cd_program.specs.PlainExpr.{plain_function};
ghost use Rattle.cd_resolve.specs.Faults.{Fault, IsFaultOfDeclarations};
ghost use Rattle.cd_resolve.specs.Named.{AreNamed, plain_names, declared_by};
ghost use Rattle.cd_names.specs.Arrows.{AreArrows};
ghost use Rattle.cd_evaluation.specs.ProgramInterfaces.{interface_of};
ghost use Rattle.cd_resolved.specs.Resolved.{HasNodes, function_of};
ghost use Rattle.cd_resolved.specs.Inner.PlainParts.{functions_of};
ghost use Rattle.cd_resolved.specs.Inner.SoundInterfaces.{HasSoundInterface};

use crate::function_nodes::FunctionNodes;
use cd_graph::Graph;
use cd_meet::put_meet;
use cd_names::{ArrowsBatch, resolve_arrows};
use cd_program::expr::FunctionTree;
use cd_resolve::Names;
use cd_sets::node_id::NodeId;
use std::alloc::{AllocError, Global};

/// Functions with the nodes of their interfaces, in turn, which are put into the graph.
pub(crate) fn interfaces_of<'p>(
    alloc: Global,
    graph: &mut Graph,
    names: &Names<'_>,
    functions: &[&'p FunctionTree],
) -> Result<Vec<FunctionNodes<'p>>, AllocError>
    requires named { AreNamed (nodes graph.old) (plain_names names.now) }
    requires names_sound { (fault : Fault) → IsFaultOfDeclarations (declared_by names.now) fault
        → ⊥ }
    requires interfaces { AllOf (HasSoundInterface (declared_by names.now))
        (functions_of functions.now) }
    ensures interfaces { IfOk result (λ all.
        AllOf (HasNodes (declared_by names.now ∷ []) (nodes graph.new)) all.items) }
    ensures functions { IfOk result (λ all.
        map function_of all.items ≡ functions_of functions.now) }
    ensures sound { IsGraph (nodes graph.new) }
    ensures grows { (more : PlainGraph) × (nodes graph.new ≡ nodes graph.old ++ more) }
{
    // The contract of this call says that the graph is sound.
    graph.knows();
    let mut all = Vec::new(alloc);
    for function in functions {
        all.push(interface_of(alloc, graph, names, function)?)?;
    }
    Ok(all)
}

// A function with the nodes of its interface.
fn interface_of<'p>(
    alloc: Global,
    graph: &mut Graph,
    names: &Names<'_>,
    function: &'p FunctionTree,
) -> Result<FunctionNodes<'p>, AllocError>
    requires named { AreNamed (nodes graph.old) (plain_names names.now) }
    requires names_sound { (fault : Fault) → IsFaultOfDeclarations (declared_by names.now) fault
        → ⊥ }
    requires interface { HasSoundInterface (declared_by names.now) (plain_function function.now) }
    ensures nodes { IfOk result (HasNodes (declared_by names.now ∷ []) (nodes graph.new)) }
    ensures function { IfOk result (λ one. one.function.now ≡ function.now) }
    ensures sound { IsGraph (nodes graph.new) }
    ensures grows { (more : PlainGraph) × (nodes graph.new ≡ nodes graph.old ++ more) }
{
    let arrows = arrows_of(alloc, graph, names, function)?;
    let whole = put_meet(alloc, graph, arrows.as_slice())?;
    Ok(FunctionNodes {
        function,
        arrows,
        whole,
    })
}

// The nodes of the arrows of a function.
fn arrows_of(
    alloc: Global,
    graph: &mut Graph,
    names: &Names<'_>,
    function: &FunctionTree,
) -> Result<Vec<(NodeId, NodeId)>, AllocError>
    requires named { AreNamed (nodes graph.old) (plain_names names.now) }
    requires names_sound { (fault : Fault) → IsFaultOfDeclarations (declared_by names.now) fault
        → ⊥ }
    requires interface { HasSoundInterface (declared_by names.now) (plain_function function.now) }
    ensures arrows { IfOk result (λ arrows. AreArrows (declared_by names.now ∷ [])
        (nodes graph.new) (interface_of (plain_function function.now)) arrows.items) }
    ensures sound { IsGraph (nodes graph.new) }
    ensures grows { (more : PlainGraph) × (nodes graph.new ≡ nodes graph.old ++ more) }
{
    // The contract of this call says that the graph is sound.
    graph.knows();
    let ArrowsBatch { formulas, arrows } = resolve_arrows(
        alloc,
        graph,
        names,
        &function.interface,
    )?;
    graph.extend(formulas)?;
    Ok(arrows)
}
