//! Functions.
ghost use Rattle.std.specs.Prelude.{◌<◌, length, IfOk, IfErr, OnOk};
ghost use Rattle.cd_program.specs.Expr.{Function};
ghost use Rattle.cd_program.specs.PlainExpr.{plain_function, plain_branches};
ghost use Rattle.cd_empty.specs.Seen.{graph_of, table_of};
ghost use Rattle.cd_check.specs.Inner.Failing.{FormFails, PromiseFails, ArrowFails};
ghost use Rattle.cd_check.specs.Inner.Giving.{KindGives, ArrowKept, PromiseKept};
ghost use Rattle.cd_check.specs.Inner.Promises.{HasPromise};
ghost use Rattle.cd_check.specs.Inner.LeastNodes.{KindLeast};
ghost use Rattle.cd_check.specs.Inner.Ready.{IsReady, IsAfter, program_of, names_seen, scope_of};
ghost use Rattle.cd_check.specs.Inner.SoundNames.{BranchesAreSound, FunctionIsSound};

use crate::base::Base;
use crate::bodies::{Limit, check_bodies};
use crate::fault::CheckError;
use crate::locals::with_own_name;
use crate::nodes::nodes_of;
use crate::sites::{cover, divide};
use cd_empty::World;
use cd_program::expr::{Branches, FunctionTree};
use cd_resolved::FunctionNodes;
use cd_sets::node_id::NodeId;
use cd_syntax::name::Name;
use cd_typing::rule::Rule;

/// The type of a function: that of its interface, where its branches keep what that promises.
#[cycle(check)]
pub(crate) fn check_function(
    base: &Base<'_, '_, '_>,
    world: &mut World,
    locals: &[(Name, NodeId)],
    function: &FunctionTree,
) -> Result<NodeId, CheckError>
    requires ready { IsReady base.now (graph_of world.old) locals.now }
    requires sound { FunctionIsSound (program_of base.now) (names_seen base.now locals.now)
        (plain_function function.now) }
    ensures gives { IfOk result (KindGives base.now (graph_of world.old) locals.now
        (graph_of world.new) (Function (plain_function function.now))) }
    ensures after { IsAfter base.now locals.now world.old world.new }
    ensures least { IfOk result (KindLeast base.now (graph_of world.old) locals.now
        (graph_of world.new) (Function (plain_function function.now))) }
    ensures fault { IfErr result (FormFails base.now (graph_of world.old) locals.now
        (table_of world.new) (Function (plain_function function.now))) }
{
    let nodes = nodes_of(base, function);
    check_promise(base, world, locals, function, nodes)?;
    Ok(nodes.whole)
}

/// Checks the branches of a function for each of its arrows, where its own name has the type of its
/// interface.
#[cycle(check)]
pub(crate) fn check_promise(
    base: &Base<'_, '_, '_>,
    world: &mut World,
    locals: &[(Name, NodeId)],
    function: &FunctionTree,
    nodes: &FunctionNodes<'_>,
) -> Result<(), CheckError>
    requires ready { IsReady base.now (graph_of world.old) locals.now }
    requires sound { FunctionIsSound (program_of base.now) (names_seen base.now locals.now)
        (plain_function function.now) }
    requires promise { HasPromise (scope_of base.now) (graph_of world.old)
        (plain_function function.now) nodes.now.arrows.items nodes.now.whole }
    ensures kept { OnOk result (PromiseKept base.now (graph_of world.old) locals.now
        (plain_function function.now) nodes.now) }
    ensures after { IsAfter base.now locals.now world.old world.new }
    ensures fault { IfErr result (PromiseFails base.now (graph_of world.old) locals.now
        (table_of world.new) (plain_function function.now)) }
{
    let inner = with_own_name(base.alloc, &function.name, nodes.whole, locals)?;
    for (argument, result) in nodes.arrows.as_slice() {
        let arrow = (*argument, *result);
        check_arrow(
            base,
            world,
            inner.as_slice(),
            &function.branches,
            arrow,
            function.at,
        )?;
    }
    Ok(())
}

// Checks branches for an arrow: they take each argument, and their bodies are within the result.
// The function stands at this place.
#[cycle(check)]
fn check_arrow(
    base: &Base<'_, '_, '_>,
    world: &mut World,
    locals: &[(Name, NodeId)],
    branches: &Branches,
    arrow: (NodeId, NodeId),
    at: usize,
) -> Result<(), CheckError>
    requires ready { IsReady base.now (graph_of world.old) locals.now }
    requires sound { BranchesAreSound (program_of base.now) (names_seen base.now locals.now)
        (plain_branches branches.now) }
    requires argument { arrow.0.0 < length (graph_of world.old) }
    requires result { arrow.1.0 < length (graph_of world.old) }
    ensures kept { OnOk result (ArrowKept base.now (graph_of world.old) locals.now
        (plain_branches branches.now) arrow) }
    ensures after { IsAfter base.now locals.now world.old world.new }
    ensures fault { IfErr result (ArrowFails base.now (graph_of world.old) locals.now
        (table_of world.new) at (plain_branches branches.now) arrow) }
{
    let (argument, result) = arrow;
    let division = divide(base, world, argument, branches)?;
    cover(world, division.rest, at)?;
    let limit = Limit {
        node: result,
        rule: Rule::Result,
    };
    check_bodies(base, world, locals, branches, &division, Some(limit))?;
    Ok(())
}
