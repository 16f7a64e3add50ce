//! A world in which the types of a program are checked.
ghost use Rattle.std.specs.Prelude.{◌≡◌, IfOk};
ghost use Rattle.cd_empty.specs.Seen.{graph_of};
ghost use Rattle.cd_resolved.specs.Resolved.{program_graph};

use cd_empty::World;
use cd_resolved::Resolved;
use cd_resolved::copy::formulas_after;
use std::alloc::{AllocError, Global};

/// A world whose graph is that of a resolved program.
///
/// # Errors
///
/// Want of memory.
pub fn world_of(alloc: Global, program: &Resolved<'_>) -> Result<World, AllocError>
    ensures { IfOk result (λ world. graph_of world ≡ program_graph program.now) }
{
    // The contract of this call says that the graph is sound and begins with the built-in nodes.
    let graph = program.graph();
    graph.knows();
    let mut world = World::new(alloc)?;
    let formulas = formulas_after(alloc, graph, world.graph().len())?;
    world.extend(formulas)?;
    Ok(world)
}
