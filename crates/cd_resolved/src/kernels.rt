//! From patterns to their kernels.
ghost use Rattle.std.specs.Prelude.{◌≡◌, ◌++◌, [], ◌∷◌, map, IfOk};
ghost use Rattle.cd_model.specs.AllOf.{AllOf};
ghost use Rattle.cd_model.specs.Formula.{Graph as PlainGraph, IsGraph};
ghost use Rattle.cd_graph.specs.Nodes.{nodes};
ghost use Rattle.cd_resolve.specs.Faults.{Fault, IsFaultOfDeclarations};
ghost use Rattle.cd_resolve.specs.Named.{AreNamed, plain_names, declared_by};
ghost use Rattle.cd_resolved.specs.Resolved.{HasKernel, pattern_of};
ghost use Rattle.cd_resolved.specs.Inner.PlainParts.{trees_of};
ghost use Rattle.cd_resolved.specs.Inner.SoundPatterns.{IsSoundPattern};

use crate::pattern::kernel_of;
use crate::pattern_kernel::PatternKernel;
use cd_graph::Graph;
use cd_resolve::Names;
use cd_syntax::type_tree::Tree;
use std::alloc::{AllocError, Global};

/// Patterns with their kernels, in turn, whose types are put into the graph.
pub(crate) fn kernels_of<'p>(
    alloc: Global,
    graph: &mut Graph,
    names: &Names<'_>,
    patterns: &[&'p Tree],
) -> Result<Vec<PatternKernel<'p>>, AllocError>
    requires named { AreNamed (nodes graph.old) (plain_names names.now) }
    requires names_sound { (fault : Fault) → IsFaultOfDeclarations (declared_by names.now) fault
        → ⊥ }
    requires patterns { AllOf (IsSoundPattern (declared_by names.now)) (trees_of patterns.now) }
    ensures kernels { IfOk result (λ kernels.
        AllOf (HasKernel (declared_by names.now ∷ []) (nodes graph.new)) kernels.items) }
    ensures patterns { IfOk result (λ kernels.
        map pattern_of kernels.items ≡ trees_of patterns.now) }
    ensures sound { IsGraph (nodes graph.new) }
    ensures grows { (more : PlainGraph) × (nodes graph.new ≡ nodes graph.old ++ more) }
{
    // The contract of this call says that the graph is sound.
    graph.knows();
    let mut kernels = Vec::new(alloc);
    for pattern in patterns {
        let kernel = kernel_of(alloc, graph, names, pattern)?;
        kernels.push(PatternKernel { pattern, kernel })?;
    }
    Ok(kernels)
}
