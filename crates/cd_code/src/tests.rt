//! What tests whether values are in types.
ghost use Rattle.std.specs.Prelude.{◌≡◌, List, IfOk};
ghost use Rattle.cd_syntax.specs.Name.{Name};
ghost use Rattle.cd_graph.specs.Nodes.{nodes};
ghost use Rattle.cd_asking.specs.Known.{KnowsOf};
ghost use Rattle.cd_empty.specs.Growth.{Grows};
ghost use Rattle.cd_empty.specs.Seen.{graph_of};
ghost use Rattle.cd_evaluation.specs.ProgramInterfaces.{interfaces_of};
ghost use Rattle.cd_resolved.specs.Resolved.{program_of, asked_graph, IsResolved, Extends};
ghost use Rattle.cd_code.specs.Tested.{AreTested};

use cd_asking::Asker;
use cd_closures::maps_of;
use cd_empty::World;
use cd_resolved::Resolved;
use cd_resolved::copy::copy;
use cd_taking::Tests;
use std::alloc::{AllocError, Global};

/// Tests of the types that values of a program are asked for. Arrows of these are put into the
/// world.
pub(crate) fn tests_of(
    alloc: Global,
    world: &mut World,
    program: &Resolved<'_>,
) -> Result<Tests, AllocError>
    requires resolved { IsResolved program.now }
    requires begins { Extends program.now (graph_of world.old) }
    ensures graph { IfOk result (λ tests. nodes tests.graph ≡ asked_graph program.now) }
    ensures tested { IfOk result (λ tests. AreTested (nodes tests.graph)
        (interfaces_of (program_of program.now)) tests.maps) }
    ensures knows { IfOk result (λ tests.
        (labels : List Name) → KnowsOf (nodes tests.graph) labels tests.asker) }
    ensures grows { Grows world.old world.new }
{
    let graph = copy(alloc, program.asked())?;
    // The contract of this call says that the graph begins with the built-in nodes.
    graph.knows();
    let maps = maps_of(alloc, world, program)?;
    let asker = Asker::new(alloc);
    Ok(Tests { graph, maps, asker })
}
