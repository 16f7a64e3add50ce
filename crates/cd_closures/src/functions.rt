//! Entries of functions.
ghost use Rattle.std.specs.Prelude.{◌≡◌, ◌<◌, ◌∷◌, [], false, List, map, length, OnOk};
ghost use Rattle.cd_model.specs.AllOf.{AllOf};
ghost use Rattle.cd_model.specs.Scope.{Scope};
ghost use Rattle.cd_program.specs.Expr.{FunctionTree as PlainFunction};
ghost use Rattle.cd_empty.specs.Growth.{Grows};
ghost use Rattle.cd_empty.specs.Seen.{graph_of};
ghost use Rattle.cd_asking.specs.MappedArrows.{is_listed};
ghost use Rattle.cd_evaluation.specs.Code.{place_of};
ghost use Rattle.cd_resolved.specs.Resolved.{function_of};
ghost use Rattle.cd_closures.specs.Inner.Asked.{IsAsked};
ghost use Rattle.cd_closures.specs.Inner.Ready.{AddsFunctions};
ghost use Rattle.cd_closures.specs.Inner.Tables.{UnlistedHaveNone};
ghost use Rattle.cd_closures.specs.Inner.Wholes.{HasWhole};

use crate::asked::Asked;
use crate::entries::add_entries;
use cd_asking::Maps;
use cd_empty::World;
use cd_resolved::FunctionNodes;
use std::alloc::AllocError;

/// Adds the entries of functions, of those at one place those of the first.
///
/// # Errors
///
/// Want of memory.
pub(crate) fn add_functions(
    world: &mut World,
    asked: &[Asked],
    functions: &[FunctionNodes<'_>],
    maps: &mut Maps,
) -> Result<(), AllocError>
    requires asked { AllOf (IsAsked (graph_of world.old)) asked.now }
    requires wholes { AllOf (λ one. one.whole.0 < length (graph_of world.old)) functions.now }
    requires none { UnlistedHaveNone maps.old }
    ensures table { OnOk result ((scope : Scope)
        → AllOf (HasWhole scope (graph_of world.old)) functions.now
        → AddsFunctions (graph_of world.old) scope asked.now (map function_of functions.now) []
        maps.old maps.new) }
    ensures grows { Grows world.old world.new }
{
    for function in functions {
        add_function(world, asked, function, maps)?;
    }
    Ok(())
}

// Those of one function, if it is not listed already.
fn add_function(
    world: &mut World,
    asked: &[Asked],
    function: &FunctionNodes<'_>,
    maps: &mut Maps,
) -> Result<(), AllocError>
    requires asked { AllOf (IsAsked (graph_of world.old)) asked.now }
    requires whole { function.now.whole.0 < length (graph_of world.old) }
    requires none { UnlistedHaveNone maps.old }
    ensures table { OnOk result ((scope : Scope) (left : List PlainFunction)
        → HasWhole scope (graph_of world.old) function.now
        → AddsFunctions (graph_of world.old) scope asked.now (function_of function.now ∷ left) left
        maps.old maps.new) }
    ensures none { OnOk result (UnlistedHaveNone maps.new) }
    ensures graph { graph_of world.new ≡ graph_of world.old }
    ensures grows { Grows world.old world.new }
{
    if maps.lists(function.function.at) {
        Ok(())
    } else {
        add_unlisted(world, asked, function, maps)
    }
}

// Those of a function that is not listed.
fn add_unlisted(
    world: &mut World,
    asked: &[Asked],
    function: &FunctionNodes<'_>,
    maps: &mut Maps,
) -> Result<(), AllocError>
    requires asked { AllOf (IsAsked (graph_of world.old)) asked.now }
    requires whole { function.now.whole.0 < length (graph_of world.old) }
    requires none { UnlistedHaveNone maps.old }
    requires unlisted { is_listed maps.old (place_of (function_of function.now)) ≡ false }
    ensures table { OnOk result ((scope : Scope) (left : List PlainFunction)
        → HasWhole scope (graph_of world.old) function.now
        → AddsFunctions (graph_of world.old) scope asked.now (function_of function.now ∷ left) left
        maps.old maps.new) }
    ensures none { OnOk result (UnlistedHaveNone maps.new) }
    ensures graph { graph_of world.new ≡ graph_of world.old }
    ensures grows { Grows world.old world.new }
{
    maps.list(function.function.at)?;
    add_entries(
        maps,
        world,
        Some(function.function.at),
        function.whole,
        asked,
    )?;
    Ok(())
}
