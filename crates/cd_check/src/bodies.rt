//! The bodies of branches.
ghost use Rattle.std.specs.Prelude.{◌≡◌, ◌<◌, ◌++◌, Some, map, length, IfOk, IfErr, OnOk};
ghost use Rattle.cd_program.specs.PlainExpr.{plain, plain_branches};
ghost use Rattle.cd_meaning.specs.Sets.{elements_of};
ghost use Rattle.cd_names.specs.ProgramFaults.{names_of, patterns};
ghost use Rattle.cd_empty.specs.Growth.{Grows};
ghost use Rattle.cd_empty.specs.Seen.{graph_of, table_of};
ghost use Rattle.cd_check.specs.Inner.BodyFaults.{BodyLeast, BodiesLeast};
ghost use Rattle.cd_check.specs.Inner.Failing.{BranchesFail, BodyFails, IsBeyond};
ghost use Rattle.cd_check.specs.Inner.Bodies.{BodyGives};
ghost use Rattle.cd_check.specs.Inner.Divided.{IsSited, IsDivision, coming_pattern, sited_pattern};
ghost use Rattle.cd_check.specs.Inner.Giving.{BodiesGive};
ghost use Rattle.cd_check.specs.Inner.Limits.{AreWithin, IsOneWithin, IsLimit};
ghost use Rattle.cd_check.specs.Inner.Ready.{IsReady, IsAfter, program_of, names_seen, scope_of, seen_by};
ghost use Rattle.cd_check.specs.Inner.SoundNames.{IsSound, BranchesAreSound};

use crate::base::Base;
use crate::expr::check;
use crate::fault::CheckError;
use crate::locals::with_outer;
use crate::needing::{add, need_at};
use crate::sites::{Coming, Division};
use cd_coming::captures;
use cd_empty::World;
use cd_program::expr::{Branches, Expr};
use cd_sets::node_id::NodeId;
use cd_syntax::name::Name;
use cd_typing::rule::Rule;

/// What a body has to be within, and the rule that says so.
#[derive(Clone, Copy)]
pub(crate) struct Limit {
    pub(crate) node: NodeId,
    pub(crate) rule: Rule,
}

/// The types of the bodies of branches that something comes to.
#[cycle(check)]
pub(crate) fn check_bodies(
    base: &Base<'_, '_, '_>,
    world: &mut World,
    locals: &[(Name, NodeId)],
    branches: &Branches,
    division: &Division<'_, '_, '_>,
    limit: Option<Limit>,
) -> Result<Vec<NodeId>, CheckError>
    requires ready { IsReady base.now (graph_of world.old) locals.now }
    requires sound { BranchesAreSound (program_of base.now) (names_seen base.now locals.now)
        (plain_branches branches.now) }
    requires division { IsDivision (graph_of world.old) (scope_of base.now) division.now }
    requires patterns { map coming_pattern division.now.comings.items
        ≡ patterns (plain_branches branches.now) }
    requires limit { IsLimit (graph_of world.old) limit }
    ensures gives { IfOk result (λ results. BodiesGive base.now (graph_of world.old) locals.now
        (graph_of world.new) (plain_branches branches.now) division.now.matched
        results.items) }
    ensures within { IfOk result
        (λ results. AreWithin (graph_of world.new) limit results.items) }
    ensures after { IsAfter base.now locals.now world.old world.new }
    ensures least { IfOk result (λ results. BodiesLeast (scope_of base.now) (graph_of world.old)
        (seen_by base.now locals.now) (graph_of world.new)
        (plain_branches branches.now) (elements_of (graph_of world.old) division.now.matched)
        results.items) }
    ensures fault { IfErr result (BranchesFail base.now (graph_of world.old) locals.now
        (table_of world.new) division.now.matched limit (plain_branches branches.now)) }
{
    let mut results = Vec::new(base.alloc);
    for (number, branch) in branches.items().iter().enumerate() {
        let coming = match division.comings.get(number) {
            Some(coming) => *coming,
            None => unreachable!(),
        };
        if let Some(id) = check_body(base, world, locals, coming, &branch.body, limit)? {
            add(&mut results, id)?;
        }
    }
    Ok(results)
}

/// The type of a body for what comes to it, if anything does.
#[cycle(check)]
pub(crate) fn check_body(
    base: &Base<'_, '_, '_>,
    world: &mut World,
    locals: &[(Name, NodeId)],
    coming: Coming<'_, '_, '_>,
    body: &Expr,
    limit: Option<Limit>,
) -> Result<Option<NodeId>, CheckError>
    requires ready { IsReady base.now (graph_of world.old) locals.now }
    requires sound { IsSound (program_of base.now)
        (names_of (coming_pattern coming) ++ names_seen base.now locals.now) (plain body.now) }
    requires sited { IsSited (graph_of world.old) (scope_of base.now) coming.sited.now }
    requires matched { coming.matched.0 < length (graph_of world.old) }
    requires limit { IsLimit (graph_of world.old) limit }
    ensures gives { IfOk result (BodyGives (scope_of base.now) (graph_of world.old)
        (seen_by base.now locals.now) (graph_of world.new)
        (elements_of (graph_of world.old) coming.entry.matched) (coming_pattern coming.entry)
        (plain body.now)) }
    ensures within { IfOk result (λ found. IsOneWithin (graph_of world.new) limit found) }
    ensures after { IsAfter base.now locals.now world.old world.new }
    ensures least { IfOk result (BodyLeast (scope_of base.now) (graph_of world.old)
        (seen_by base.now locals.now) (graph_of world.new)
        (elements_of (graph_of world.old) coming.entry.matched) (coming_pattern coming.entry)
        (plain body.now)) }
    ensures fault { IfErr result (BodyFails base.now (graph_of world.old) locals.now
        (table_of world.new) coming.entry.matched limit (coming_pattern coming.entry)
        (plain body.now)) }
{
    match captures(base.alloc, world, coming.matched, &coming.sited.site)? {
        None => Ok(None),
        Some(own) => {
            let all = with_outer(own, locals)?;
            let id = check(base, world, all.as_slice(), body)?;
            keep_limit(world, id, limit, body.span.from)?;
            Ok(Some(id))
        }
    }
}

// Refuses a body at this place that is not within the limit, if there is one.
fn keep_limit(
    world: &mut World,
    id: NodeId,
    limit: Option<Limit>,
    at: usize,
) -> Result<(), CheckError>
    requires id { id.0 < length (graph_of world.old) }
    requires limit { IsLimit (graph_of world.old) limit }
    ensures within { OnOk result (IsOneWithin (graph_of world.old) limit (Some id)) }
    ensures fault { IfErr result
        (IsBeyond (graph_of world.old) (table_of world.new) id limit at) }
    ensures graph { graph_of world.new ≡ graph_of world.old }
    ensures grows { Grows world.old world.new }
{
    match limit {
        None => Ok(()),
        Some(limit) => need_at(world, id, limit.node, limit.rule, at),
    }
}
