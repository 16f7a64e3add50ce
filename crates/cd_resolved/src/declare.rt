//! Nodes of declared names.
ghost use Rattle.std.specs.Prelude.{◌≡◌, IfOk};
ghost use Rattle.cd_syntax.specs.PlainTree.{plain_declarations};
ghost use Rattle.cd_syntax.specs.WellMade.{AreWellMadeDeclarations};
ghost use Rattle.cd_graph.specs.Nodes.{nodes};
ghost use Rattle.cd_resolve.specs.Faults.{Fault, IsFaultOfDeclarations};
ghost use Rattle.cd_resolve.specs.Named.{AreNamed, plain_names, declared_by};

use cd_graph::Graph;
use cd_resolve::error::NameError;
use cd_resolve::{Names, resolve};
use cd_syntax::type_tree::Declarations;
use std::alloc::{AllocError, Global};

/// The names of declarations without a fault, whose nodes are put into the graph.
pub(crate) fn declare<'p>(
    alloc: Global,
    graph: &mut Graph,
    types: &'p Declarations,
) -> Result<Names<'p>, AllocError>
    requires well_made { AreWellMadeDeclarations (plain_declarations types.now) }
    requires sound { (fault : Fault)
        → IsFaultOfDeclarations (plain_declarations types.now) fault → ⊥ }
    ensures named { IfOk result (λ names. AreNamed (nodes graph.new) (plain_names names)) }
    ensures declared { IfOk result (λ names. declared_by names ≡ plain_declarations types.now) }
{
    // The contract of this call says that the graph begins with the built-in nodes.
    graph.knows();
    let batch = match resolve(alloc, graph.len(), types) {
        Ok(batch) => batch,
        Err(NameError::Memory) => return Err(AllocError),
        Err(NameError::Fault { .. }) => unreachable!(),
    };
    graph.extend(batch.formulas)?;
    Ok(batch.names)
}
