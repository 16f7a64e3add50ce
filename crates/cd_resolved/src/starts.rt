//! Where patterns and functions begin.
ghost use Rattle.std.specs.Prelude.{◌≡◌, map, IfOk};
ghost use Rattle.cd_syntax.specs.PlainTree.{plain};
ghost use Rattle.cd_program.specs.PlainExpr.{plain_function};
ghost use Rattle.cd_evaluation.specs.Code.{place_of};
ghost use Rattle.cd_placed.specs.Patterns.{start_of};
ghost use Rattle.cd_resolved.specs.Inner.PlainParts.{trees_of};

use cd_program::expr::FunctionTree;
use cd_syntax::type_tree::Tree;
use std::alloc::{AllocError, Global};

/// Where a pattern begins.
#[tactic(auto, using(crate::proofs::TreeStarts::tree_starts))]
pub(crate) fn start(pattern: &Tree) -> usize
    ensures { result ≡ start_of (plain pattern.now) }
{
    pattern.span.from
}

/// Where the word `fun` of a function stands.
pub(crate) fn place(function: &FunctionTree) -> usize
    ensures { result ≡ place_of (plain_function function.now) }
{
    function.at
}

/// Where patterns begin, in turn.
pub(crate) fn starts_of(alloc: Global, patterns: &[&Tree]) -> Result<Vec<usize>, AllocError>
    ensures { IfOk result (λ starts. starts.items ≡ map start_of (trees_of patterns.now)) }
{
    let mut starts = Vec::new(alloc);
    for pattern in patterns {
        starts.push(start(pattern))?;
    }
    Ok(starts)
}
