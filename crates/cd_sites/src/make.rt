//! The site of a pattern that has a kernel.
ghost use Rattle.std.specs.Prelude.{◌<◌, length, IfOk};
ghost use Rattle.cd_syntax.specs.TypeTree.{Tree};
ghost use Rattle.cd_model.specs.Formula.{IsGraph};
ghost use Rattle.cd_model.specs.Scope.{Scope};
ghost use Rattle.cd_matching.specs.Kernel.{IsSound};
ghost use Rattle.cd_matching.specs.PlainKernel.{plain_kernel};
ghost use Rattle.cd_empty.specs.Growth.{Grows};
ghost use Rattle.cd_empty.specs.Seen.{graph_of};
ghost use Rattle.cd_resolved.specs.Kernels.{IsKernelOf};
ghost use Rattle.cd_sites.specs.Sites.{IsSite};

use crate::site::Site;
use cd_empty::World;
use cd_filter::accepted;
use cd_matching::kernel::Kernel;
use std::alloc::{AllocError, Global};

/// The site of each pattern that this is a kernel of.
///
/// # Errors
///
/// Want of memory. The graph is sound then, and begins with what it was.
pub fn site_of<'k>(
    alloc: Global,
    world: &mut World,
    kernel: &'k Kernel,
) -> Result<Site<'k>, AllocError>
    requires { IsSound (λ id. id.0 < length (graph_of world.old)) (plain_kernel kernel.now) }
    ensures site { IfOk result (λ site. (scope : Scope) (written : Tree)
        → IsKernelOf (graph_of world.old) scope written (plain_kernel kernel.now)
        → IsSite (graph_of world.new) scope written site) }
    ensures sound { IsGraph (graph_of world.new) }
    ensures grows { Grows world.old world.new }
{
    // The contract of this call says that the graph is sound and begins with the built-in nodes.
    world.graph();
    let accepted = accepted(alloc, world, kernel)?;
    Ok(Site { kernel, accepted })
}
