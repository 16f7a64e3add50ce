//! From a pattern to its kernel.
ghost use Rattle.std.specs.Prelude.{◌≡◌, ◌++◌, [], ◌∷◌, IfOk};
ghost use Rattle.cd_syntax.specs.PlainTree.{plain as plain_tree};
ghost use Rattle.cd_model.specs.Formula.{Graph as PlainGraph, IsGraph};
ghost use Rattle.cd_graph.specs.Nodes.{nodes};
ghost use Rattle.cd_resolve.specs.Faults.{Fault, IsFaultOfDeclarations};
ghost use Rattle.cd_resolve.specs.Named.{AreNamed, plain_names, declared_by};
ghost use Rattle.cd_matching.specs.PlainKernel.{plain_kernel};
ghost use Rattle.cd_resolved.specs.Kernels.{IsKernelOf};
ghost use Rattle.cd_resolved.specs.Inner.SoundPatterns.{IsSoundPattern};

use cd_graph::Graph;
use cd_matching::kernel::Kernel;
use cd_merged::kernel;
use cd_names::laws::sound_patterns_are_named;
use cd_patterns::resolve_pattern;
use cd_resolve::Names;
use cd_syntax::type_tree::Tree;
use std::alloc::{AllocError, Global};

/// A kernel that takes what a pattern takes, whose types are put into the graph.
pub(crate) fn kernel_of(
    alloc: Global,
    graph: &mut Graph,
    names: &Names<'_>,
    pattern: &Tree,
) -> Result<Kernel, AllocError>
    requires named { AreNamed (nodes graph.old) (plain_names names.now) }
    requires names_sound { (fault : Fault) → IsFaultOfDeclarations (declared_by names.now) fault
        → ⊥ }
    requires pattern { IsSoundPattern (declared_by names.now) (plain_tree pattern.now) }
    ensures kernel { IfOk result (λ kernel. IsKernelOf (nodes graph.new)
        (declared_by names.now ∷ []) (plain_tree pattern.now) (plain_kernel kernel)) }
    ensures sound { IsGraph (nodes graph.new) }
    ensures grows { (more : PlainGraph) × (nodes graph.new ≡ nodes graph.old ++ more) }
{
    // The contracts of these calls say that no variable of a pattern without a fault is at fault,
    // and that the graph begins with the built-in nodes.
    sound_patterns_are_named();
    graph.knows();
    let batch = resolve_pattern(alloc, graph, names, pattern)?;
    graph.extend(batch.formulas)?;
    let resolved = batch.pattern;
    let kernel = kernel(alloc, &resolved)?;
    drop(resolved);
    Ok(kernel)
}
