//! The table of the arrows that closures are in.
ghost use Rattle.std.specs.Prelude.{◌≡◌, [], ℕ, map, IfOk};
ghost use Rattle.cd_model.specs.AllOf.{AllOf};
ghost use Rattle.cd_empty.specs.Growth.{Grows};
ghost use Rattle.cd_empty.specs.Seen.{graph_of};
ghost use Rattle.cd_asking.specs.MappedArrows.{MapsRight};
ghost use Rattle.cd_evaluation.specs.ProgramInterfaces.{interfaces_of};
ghost use Rattle.cd_resolved.specs.Resolved.{program_of, asked_graph, IsResolved, Extends};
ghost use Rattle.cd_closures.specs.Inner.Asked.{IsAsked};
ghost use Rattle.cd_closures.specs.Inner.Collected.{with_nodes};

use crate::arrow::NodeArrow;
use crate::asked::Asked;
use crate::asking::put_all;
use crate::collecting::arrows_of;
use crate::entries::add_entries;
use crate::functions::add_functions;
use cd_asking::Maps;
use cd_empty::World;
use cd_graph::built_in::ARROW;
use cd_resolved::Resolved;
use std::alloc::{AllocError, Global};

/// Which arrows of the nodes that values are asked for the closures of a program are in: by the
/// interfaces of its functions. Of functions at one place the first counts, and a closure of a
/// number that is the place of none of them is in the arrows that all functions are in.
///
/// The world's graph begins with that of the program, and grows by nodes of arrows.
///
/// # Errors
///
/// Want of memory.
pub fn maps_of(alloc: Global, world: &mut World, program: &Resolved<'_>) -> Result<Maps, AllocError>
    requires resolved { IsResolved program.now }
    requires begins { Extends program.now (graph_of world.old) }
    ensures right { IfOk result (λ maps. (function : ℕ) → MapsRight (asked_graph program.now)
        (interfaces_of (program_of program.now)) maps function) }
    ensures grows { Grows world.old world.new }
{
    let arrows = arrows_of(alloc, program.asked())?;
    match arrows.as_slice() {
        [] => Ok(Maps::new(alloc)),
        some => maps_for(alloc, world, program, some),
    }
}

// Where these are the arrows of the graph.
fn maps_for(
    alloc: Global,
    world: &mut World,
    program: &Resolved<'_>,
    arrows: &[NodeArrow],
) -> Result<Maps, AllocError>
    requires resolved { IsResolved program.now }
    requires begins { Extends program.now (graph_of world.old) }
    requires arrows { arrows.now ≡ with_nodes [] (asked_graph program.now) }
    ensures right { IfOk result (λ maps. (function : ℕ) → MapsRight (asked_graph program.now)
        (interfaces_of (program_of program.now)) maps function) }
    ensures grows { Grows world.old world.new }
{
    let asked = put_all(alloc, world, arrows)?;
    maps_by(alloc, world, program, asked.as_slice())
}

// Where there are nodes of these arrows.
fn maps_by(
    alloc: Global,
    world: &mut World,
    program: &Resolved<'_>,
    asked: &[Asked],
) -> Result<Maps, AllocError>
    requires resolved { IsResolved program.now }
    requires begins { Extends program.now (graph_of world.old) }
    requires asked { AllOf (IsAsked (graph_of world.old)) asked.now }
    requires arrows { map (λ one. one.arrow) asked.now ≡ with_nodes [] (asked_graph program.now) }
    ensures right { IfOk result (λ maps. (function : ℕ) → MapsRight (asked_graph program.now)
        (interfaces_of (program_of program.now)) maps function) }
    ensures grows { Grows world.old world.new }
{
    // The contract of this call says that the graph begins with the built-in nodes.
    world.graph();
    let mut maps = Maps::new(alloc);
    add_entries(&mut maps, world, None, ARROW, asked)?;
    add_functions(world, asked, program.interfaces(), &mut maps)?;
    Ok(maps)
}
