//! Forms with branches.
ghost use Rattle.std.specs.Prelude.{◌<◌, ◌++◌, length, IfOk, IfErr};
ghost use Rattle.cd_syntax.specs.PlainTree.{plain as plain_tree};
ghost use Rattle.cd_program.specs.Expr.{Match, Try, Map, Transform, Let};
ghost use Rattle.cd_program.specs.PlainExpr.{plain, plain_branches};
ghost use Rattle.cd_meaning.specs.Sets.{elements_of};
ghost use Rattle.cd_names.specs.ProgramFaults.{names_of};
ghost use Rattle.cd_empty.specs.Seen.{graph_of, table_of};
ghost use Rattle.cd_resolved.specs.Parts.{IsPatternOf};
ghost use Rattle.cd_check.specs.Inner.BodyFaults.{BodiesLeast, BranchesLeast};
ghost use Rattle.cd_check.specs.Inner.Failing.{KindFails, FormFails, CoveringFails, BranchesFail};
ghost use Rattle.cd_check.specs.Inner.Giving.{KindGives, BranchesGive, BodiesGive};
ghost use Rattle.cd_check.specs.Inner.Limits.{AreWithin, IsLimit};
ghost use Rattle.cd_check.specs.Inner.LeastNodes.{KindLeast};
ghost use Rattle.cd_check.specs.Inner.Ready.{IsReady, IsAfter, program_of, names_seen};
ghost use Rattle.cd_check.specs.Inner.Ready.{scope_of, seen_by};
ghost use Rattle.cd_check.specs.Inner.SoundNames.{IsSound, BranchesAreSound};

use crate::base::Base;
use crate::bodies::{Limit, check_bodies, check_body};
use crate::expr::check;
use crate::fault::CheckError;
use crate::needing::{add, need_at};
use crate::sites::{Coming, cover, divide, site_at};
use cd_empty::World;
use cd_forms::{items, list_of, union};
use cd_graph::built_in::{DATA, EMPTY};
use cd_program::expr::{Branches, Expr};
use cd_sets::node_id::NodeId;
use cd_sites::remaining;
use cd_syntax::name::Name;
use cd_syntax::type_tree::Tree;
use cd_typing::rule::Rule;

/// `match`, which stands at this place.
#[cycle(check)]
pub(crate) fn check_match(
    base: &Base<'_, '_, '_>,
    world: &mut World,
    locals: &[(Name, NodeId)],
    value: &Expr,
    branches: &Branches,
    at: usize,
) -> Result<NodeId, CheckError>
    requires ready { IsReady base.now (graph_of world.old) locals.now }
    requires value { IsSound (program_of base.now) (names_seen base.now locals.now)
        (plain value.now) }
    requires branches { BranchesAreSound (program_of base.now) (names_seen base.now locals.now)
        (plain_branches branches.now) }
    ensures gives { IfOk result (KindGives base.now (graph_of world.old) locals.now
        (graph_of world.new) (Match (plain value.now) (plain_branches branches.now))) }
    ensures after { IsAfter base.now locals.now world.old world.new }
    ensures least { IfOk result (KindLeast base.now (graph_of world.old) locals.now
        (graph_of world.new) (Match (plain value.now) (plain_branches branches.now))) }
    ensures fault { IfErr result (KindFails base.now (graph_of world.old) locals.now
        (table_of world.new) at (Match (plain value.now) (plain_branches branches.now))) }
{
    let matched = check(base, world, locals, value)?;
    check_covering(base, world, locals, matched, branches, at)
}

// What branches give for what is in a node, where they have to take all of it.
#[cycle(check)]
fn check_covering(
    base: &Base<'_, '_, '_>,
    world: &mut World,
    locals: &[(Name, NodeId)],
    matched: NodeId,
    branches: &Branches,
    at: usize,
) -> Result<NodeId, CheckError>
    requires ready { IsReady base.now (graph_of world.old) locals.now }
    requires matched { matched.0 < length (graph_of world.old) }
    requires branches { BranchesAreSound (program_of base.now) (names_seen base.now locals.now)
        (plain_branches branches.now) }
    ensures gives { IfOk result (BranchesGive base.now (graph_of world.old) locals.now
        (graph_of world.new) matched (plain_branches branches.now)) }
    ensures after { IsAfter base.now locals.now world.old world.new }
    ensures least { IfOk result (BranchesLeast (scope_of base.now) (graph_of world.old)
        (seen_by base.now locals.now) (graph_of world.new)
        (plain_branches branches.now) (elements_of (graph_of world.old) matched)) }
    ensures fault { IfErr result (CoveringFails base.now (graph_of world.old) locals.now
        (table_of world.new) at matched (plain_branches branches.now)) }
{
    let division = divide(base, world, matched, branches)?;
    cover(world, division.rest, at)?;
    let results = check_bodies(base, world, locals, branches, &division, None)?;
    Ok(union(base.alloc, world, results.as_slice())?)
}

// What branches give for what is in a node, where they may leave some of it. Each body is within
// the limit, if there is one.
#[cycle(check)]
fn check_some(
    base: &Base<'_, '_, '_>,
    world: &mut World,
    locals: &[(Name, NodeId)],
    matched: NodeId,
    branches: &Branches,
    limit: Option<Limit>,
) -> Result<Vec<NodeId>, CheckError>
    requires ready { IsReady base.now (graph_of world.old) locals.now }
    requires matched { matched.0 < length (graph_of world.old) }
    requires branches { BranchesAreSound (program_of base.now) (names_seen base.now locals.now)
        (plain_branches branches.now) }
    requires limit { IsLimit (graph_of world.old) limit }
    ensures gives { IfOk result (λ results. BodiesGive base.now (graph_of world.old) locals.now
        (graph_of world.new) (plain_branches branches.now) matched results.items) }
    ensures within { IfOk result
        (λ results. AreWithin (graph_of world.new) limit results.items) }
    ensures after { IsAfter base.now locals.now world.old world.new }
    ensures least { IfOk result (λ results. BodiesLeast (scope_of base.now) (graph_of world.old)
        (seen_by base.now locals.now) (graph_of world.new)
        (plain_branches branches.now) (elements_of (graph_of world.old) matched) results.items) }
    ensures fault { IfErr result (BranchesFail base.now (graph_of world.old) locals.now
        (table_of world.new) matched limit (plain_branches branches.now)) }
{
    let division = divide(base, world, matched, branches)?;
    check_bodies(base, world, locals, branches, &division, limit)
}

/// `let`, which stands at this place.
#[cycle(check)]
pub(crate) fn check_let(
    base: &Base<'_, '_, '_>,
    world: &mut World,
    locals: &[(Name, NodeId)],
    pattern: &Tree,
    value: &Expr,
    rest: &Expr,
    at: usize,
) -> Result<NodeId, CheckError>
    requires ready { IsReady base.now (graph_of world.old) locals.now }
    requires pattern { IsPatternOf (program_of base.now) (plain_tree pattern.now) }
    requires value { IsSound (program_of base.now) (names_seen base.now locals.now)
        (plain value.now) }
    requires rest { IsSound (program_of base.now)
        (names_of (plain_tree pattern.now) ++ names_seen base.now locals.now) (plain rest.now) }
    ensures gives { IfOk result (KindGives base.now (graph_of world.old) locals.now
        (graph_of world.new)
        (Let (plain_tree pattern.now) (plain value.now) (plain rest.now))) }
    ensures after { IsAfter base.now locals.now world.old world.new }
    ensures least { IfOk result (KindLeast base.now (graph_of world.old) locals.now
        (graph_of world.new) (Let (plain_tree pattern.now) (plain value.now) (plain rest.now))) }
    ensures fault { IfErr result (KindFails base.now (graph_of world.old) locals.now
        (table_of world.new) at (Let (plain_tree pattern.now) (plain value.now) (plain rest.now))) }
{
    let matched = check(base, world, locals, value)?;
    let sited = site_at(base, pattern);
    let left = remaining(base.alloc, world, matched, &sited.site)?;
    cover(world, left, at)?;
    let coming = Coming { sited, matched };
    match check_body(base, world, locals, coming, rest, None)? {
        Some(id) => Ok(id),
        None => Ok(EMPTY),
    }
}

/// `try`.
#[cycle(check)]
pub(crate) fn check_try(
    base: &Base<'_, '_, '_>,
    world: &mut World,
    locals: &[(Name, NodeId)],
    body: &Expr,
    branches: &Branches,
) -> Result<NodeId, CheckError>
    requires ready { IsReady base.now (graph_of world.old) locals.now }
    requires body { IsSound (program_of base.now) (names_seen base.now locals.now)
        (plain body.now) }
    requires branches { BranchesAreSound (program_of base.now) (names_seen base.now locals.now)
        (plain_branches branches.now) }
    ensures gives { IfOk result (KindGives base.now (graph_of world.old) locals.now
        (graph_of world.new) (Try (plain body.now) (plain_branches branches.now))) }
    ensures after { IsAfter base.now locals.now world.old world.new }
    ensures least { IfOk result (KindLeast base.now (graph_of world.old) locals.now
        (graph_of world.new) (Try (plain body.now) (plain_branches branches.now))) }
    ensures fault { IfErr result (FormFails base.now (graph_of world.old) locals.now
        (table_of world.new) (Try (plain body.now) (plain_branches branches.now))) }
{
    let id = check(base, world, locals, body)?;
    let mut results = check_some(base, world, locals, DATA, branches, None)?;
    add(&mut results, id)?;
    Ok(union(base.alloc, world, results.as_slice())?)
}

/// `map`, which stands at this place.
#[cycle(check)]
pub(crate) fn check_map(
    base: &Base<'_, '_, '_>,
    world: &mut World,
    locals: &[(Name, NodeId)],
    value: &Expr,
    branches: &Branches,
    at: usize,
) -> Result<NodeId, CheckError>
    requires ready { IsReady base.now (graph_of world.old) locals.now }
    requires value { IsSound (program_of base.now) (names_seen base.now locals.now)
        (plain value.now) }
    requires branches { BranchesAreSound (program_of base.now) (names_seen base.now locals.now)
        (plain_branches branches.now) }
    ensures gives { IfOk result (KindGives base.now (graph_of world.old) locals.now
        (graph_of world.new) (Map (plain value.now) (plain_branches branches.now))) }
    ensures after { IsAfter base.now locals.now world.old world.new }
    ensures least { IfOk result (KindLeast base.now (graph_of world.old) locals.now
        (graph_of world.new) (Map (plain value.now) (plain_branches branches.now))) }
    ensures fault { IfErr result (KindFails base.now (graph_of world.old) locals.now
        (table_of world.new) at (Map (plain value.now) (plain_branches branches.now))) }
{
    let list = check(base, world, locals, value)?;
    let (sequences, from) = (base.tools.sequences, value.span.from);
    need_at(world, list, sequences, Rule::Sequence, from)?;
    let matched = items(base.alloc, world, list)?;
    let result = check_covering(base, world, locals, matched, branches, at)?;
    Ok(list_of(base.alloc, world, result)?)
}

/// `transform`.
#[cycle(check)]
pub(crate) fn check_transform(
    base: &Base<'_, '_, '_>,
    world: &mut World,
    locals: &[(Name, NodeId)],
    value: &Expr,
    branches: &Branches,
) -> Result<NodeId, CheckError>
    requires ready { IsReady base.now (graph_of world.old) locals.now }
    requires value { IsSound (program_of base.now) (names_seen base.now locals.now)
        (plain value.now) }
    requires branches { BranchesAreSound (program_of base.now) (names_seen base.now locals.now)
        (plain_branches branches.now) }
    ensures gives { IfOk result (KindGives base.now (graph_of world.old) locals.now
        (graph_of world.new) (Transform (plain value.now) (plain_branches branches.now))) }
    ensures after { IsAfter base.now locals.now world.old world.new }
    ensures least { IfOk result (KindLeast base.now (graph_of world.old) locals.now
        (graph_of world.new) (Transform (plain value.now) (plain_branches branches.now))) }
    ensures fault { IfErr result (FormFails base.now (graph_of world.old) locals.now
        (table_of world.new) (Transform (plain value.now) (plain_branches branches.now))) }
{
    let list = check(base, world, locals, value)?;
    let (sequences, from) = (base.tools.sequences, value.span.from);
    need_at(world, list, sequences, Rule::Sequence, from)?;
    let matched = items(base.alloc, world, list)?;
    let limit = Limit {
        node: sequences,
        rule: Rule::BranchSequence,
    };
    let results = check_some(base, world, locals, matched, branches, Some(limit))?;
    let lists = union(base.alloc, world, results.as_slice())?;
    let item = items(base.alloc, world, lists)?;
    Ok(list_of(base.alloc, world, item)?)
}
