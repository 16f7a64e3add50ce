//! Entries of one function, or of all that are not listed.
ghost use Rattle.std.specs.Prelude.{◌≡◌, ◌<◌, length, IfOk, OnOk};
ghost use Rattle.cd_model.specs.AllOf.{AllOf};
ghost use Rattle.cd_empty.specs.Growth.{Grows};
ghost use Rattle.cd_empty.specs.Seen.{graph_of};
ghost use Rattle.cd_closures.specs.Inner.Asked.{IsAsked, Decides};
ghost use Rattle.cd_closures.specs.Inner.Entries.{HasNone, IsDecided, AreAdded};

use crate::asked::Asked;
use cd_asking::Maps;
use cd_empty::World;
use cd_sets::node_id::NodeId;
use cd_verdicts::Verdict;
use std::alloc::AllocError;

/// Adds an entry for each of some arrows that all elements of a node are in.
///
/// # Errors
///
/// Want of memory.
pub(crate) fn add_entries(
    maps: &mut Maps,
    world: &mut World,
    function: Option<usize>,
    whole: NodeId,
    asked: &[Asked],
) -> Result<(), AllocError>
    requires whole { whole.0 < length (graph_of world.old) }
    requires asked { AllOf (IsAsked (graph_of world.old)) asked.now }
    requires none { HasNone function maps.old }
    ensures added { OnOk result
        (AreAdded (graph_of world.old) whole function asked.now maps.old maps.new) }
    ensures graph { graph_of world.new ≡ graph_of world.old }
    ensures grows { Grows world.old world.new }
{
    for one in asked {
        add_entry(maps, world, function, whole, one)?;
    }
    Ok(())
}

// For one arrow.
fn add_entry(
    maps: &mut Maps,
    world: &mut World,
    function: Option<usize>,
    whole: NodeId,
    one: &Asked,
) -> Result<(), AllocError>
    requires whole { whole.0 < length (graph_of world.old) }
    requires asked { IsAsked (graph_of world.old) one.now }
    ensures decided { OnOk result
        (IsDecided (graph_of world.old) whole function one.now.arrow maps.old maps.new) }
    ensures graph { graph_of world.new ≡ graph_of world.old }
    ensures grows { Grows world.old world.new }
{
    if is_within(world, whole, one)? {
        maps.add(function, one.arrow.argument, one.arrow.result)
    } else {
        Ok(())
    }
}

// Whether all elements of a node are in an arrow.
fn is_within(world: &mut World, whole: NodeId, one: &Asked) -> Result<bool, AllocError>
    requires whole { whole.0 < length (graph_of world.old) }
    requires asked { IsAsked (graph_of world.old) one.now }
    ensures decides { IfOk result (Decides (graph_of world.old) whole one.now.arrow) }
    ensures graph { graph_of world.new ≡ graph_of world.old }
    ensures grows { Grows world.old world.new }
{
    match world.subtype(whole, one.node)? {
        Verdict::Empty => Ok(true),
        Verdict::Inhabited(_) => Ok(false),
    }
}
