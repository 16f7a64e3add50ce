//! Truth values.
ghost use Rattle.std.specs.Prelude.{◌≡◌, ◌<◌, true, false, length, IfOk, IfErr};
ghost use Rattle.cd_model.specs.Formula.{IsGraph};
ghost use Rattle.cd_meaning.specs.Sets.{◌⊆◌, elements_of};
ghost use Rattle.cd_program.specs.Expr.{If, Operand};
ghost use Rattle.cd_program.specs.PlainExpr.{plain};
ghost use Rattle.cd_empty.specs.Growth.{Grows};
ghost use Rattle.cd_empty.specs.Seen.{graph_of, table_of};
ghost use Rattle.cd_check.specs.Inner.Failing.{FormFails, TailFails, SideFails};
ghost use Rattle.cd_check.specs.Inner.Giving.{KindGives, TailGives, SideGives};
ghost use Rattle.cd_check.specs.Inner.LeastNodes.{KindLeast, TailLeast, SideLeast};
ghost use Rattle.cd_check.specs.Inner.Ready.{IsReady, IsAfter, program_of, names_seen};
ghost use Rattle.cd_check.specs.Inner.Sides.{short_op, truth_node, AreDisjoint, IfSome, HoldsSome};
ghost use Rattle.cd_check.specs.Inner.Sides.{MaySkip, AreTogether, IsInEither};
ghost use Rattle.cd_check.specs.Inner.SoundNames.{IsSound};

use crate::base::Base;
use crate::expr::check;
use crate::fault::CheckError;
use crate::needing::need_at;
use cd_empty::World;
use cd_forms::union;
use cd_graph::built_in::{BOOL, EMPTY};
use cd_needs::asking::question;
use cd_program::expr::Expr;
use cd_sets::node_id::NodeId;
use cd_syntax::name::Name;
use cd_typing::rule::Rule;
use cd_verdicts::Verdict;
use std::alloc::AllocError;

/// The second expression where the first may be true, or the third where it may be false.
#[cycle(check)]
pub(crate) fn check_if(
    base: &Base<'_, '_, '_>,
    world: &mut World,
    locals: &[(Name, NodeId)],
    condition: &Expr,
    then_one: &Expr,
    else_one: &Expr,
) -> Result<NodeId, CheckError>
    requires ready { IsReady base.now (graph_of world.old) locals.now }
    requires condition { IsSound (program_of base.now) (names_seen base.now locals.now)
        (plain condition.now) }
    requires then_one { IsSound (program_of base.now) (names_seen base.now locals.now)
        (plain then_one.now) }
    requires else_one { IsSound (program_of base.now) (names_seen base.now locals.now)
        (plain else_one.now) }
    ensures gives { IfOk result (KindGives base.now (graph_of world.old) locals.now
        (graph_of world.new)
        (If (plain condition.now) (plain then_one.now) (plain else_one.now))) }
    ensures after { IsAfter base.now locals.now world.old world.new }
    ensures least { IfOk result (KindLeast base.now (graph_of world.old) locals.now
        (graph_of world.new) (If (plain condition.now) (plain then_one.now) (plain else_one.now))) }
    ensures fault { IfErr result (FormFails base.now (graph_of world.old) locals.now
        (table_of world.new) (If (plain condition.now) (plain then_one.now) (plain else_one.now))) }
{
    let tested = check(base, world, locals, condition)?;
    need_at(world, tested, BOOL, Rule::Condition, condition.span.from)?;
    let one = check_side(base, world, locals, tested, true, then_one)?;
    let other = check_side(base, world, locals, tested, false, else_one)?;
    Ok(either(base, world, one, other)?)
}

/// `&&`, or `||`: the second operand is met where the first has this value.
#[cycle(check)]
pub(crate) fn check_short(
    base: &Base<'_, '_, '_>,
    world: &mut World,
    locals: &[(Name, NodeId)],
    first: NodeId,
    expr: &Expr,
    at: usize,
    met: bool,
) -> Result<NodeId, CheckError>
    requires ready { IsReady base.now (graph_of world.old) locals.now }
    requires first { first.0 < length (graph_of world.old) }
    requires sound { IsSound (program_of base.now) (names_seen base.now locals.now)
        (plain expr.now) }
    ensures gives { IfOk result (TailGives base.now (graph_of world.old) locals.now
        (graph_of world.new) first (Operand (short_op met) (plain expr.now))) }
    ensures after { IsAfter base.now locals.now world.old world.new }
    ensures least { IfOk result (TailLeast base.now (graph_of world.old) locals.now
        (graph_of world.new) first (Operand (short_op met) (plain expr.now))) }
    ensures fault { IfErr result (TailFails base.now (graph_of world.old) locals.now
        (table_of world.new) first at (Operand (short_op met) (plain expr.now))) }
{
    need_at(world, first, BOOL, Rule::Condition, at)?;
    let long = check_side(base, world, locals, first, met, expr)?;
    let short = short_side(base, world, first, !met)?;
    Ok(either(base, world, short, long)?)
}

// An expression, where what is tested may have this truth value.
#[cycle(check)]
fn check_side(
    base: &Base<'_, '_, '_>,
    world: &mut World,
    locals: &[(Name, NodeId)],
    tested: NodeId,
    value: bool,
    expr: &Expr,
) -> Result<Option<NodeId>, CheckError>
    requires ready { IsReady base.now (graph_of world.old) locals.now }
    requires tested { tested.0 < length (graph_of world.old) }
    requires sound { IsSound (program_of base.now) (names_seen base.now locals.now)
        (plain expr.now) }
    ensures gives { IfOk result (SideGives base.now (graph_of world.old) locals.now
        (graph_of world.new) tested value (plain expr.now)) }
    ensures after { IsAfter base.now locals.now world.old world.new }
    ensures least { IfOk result (SideLeast base.now (graph_of world.old) locals.now
        (graph_of world.new) tested value (plain expr.now)) }
    ensures fault { IfErr result (SideFails base.now (graph_of world.old) locals.now
        (table_of world.new) tested value (plain expr.now)) }
{
    if may_be(base, world, tested, truth(base, value))? {
        return Ok(Some(check(base, world, locals, expr)?));
    }
    Ok(None)
}

// The node of a truth value, where what is tested may have it.
fn short_side(
    base: &Base<'_, '_, '_>,
    world: &mut World,
    tested: NodeId,
    value: bool,
) -> Result<Option<NodeId>, AllocError>
    requires tested { tested.0 < length (graph_of world.old) }
    requires truth { (truth_node base.now value).0 < length (graph_of world.old) }
    ensures side { IfOk result
        (MaySkip (graph_of world.old) tested (truth_node base.now value)) }
    ensures may { IfOk result (λ found. IfSome found (λ id.
        AreTogether (elements_of (graph_of world.old) tested)
        (elements_of (graph_of world.old) (truth_node base.now value)))) }
    ensures graph { graph_of world.new ≡ graph_of world.old }
    ensures grows { Grows world.old world.new }
{
    let id = truth(base, value);
    if may_be(base, world, tested, id)? {
        return Ok(Some(id));
    }
    Ok(None)
}

// The node of a truth value.
fn truth(base: &Base<'_, '_, '_>, value: bool) -> NodeId
    ensures { result ≡ truth_node base.now value }
{
    if value { base.yes } else { base.no }
}

// Whether some element is in both nodes.
fn may_be(
    base: &Base<'_, '_, '_>,
    world: &mut World,
    one: NodeId,
    other: NodeId,
) -> Result<bool, AllocError>
    requires one { one.0 < length (graph_of world.old) }
    requires other { other.0 < length (graph_of world.old) }
    ensures apart { IfOk result (λ answer. answer ≡ false
        → AreDisjoint (elements_of (graph_of world.old) one)
        (elements_of (graph_of world.old) other)) }
    ensures together { IfOk result (λ answer. answer ≡ true
        → AreTogether (elements_of (graph_of world.old) one)
        (elements_of (graph_of world.old) other)) }
    ensures graph { graph_of world.new ≡ graph_of world.old }
    ensures grows { Grows world.old world.new }
{
    let both = question(base.alloc, &[one, other], &[])?;
    match world.decide(&both)? {
        Verdict::Empty => Ok(false),
        Verdict::Inhabited(_) => Ok(true),
    }
}

// A node of what is in one of the nodes that are there.
fn either(
    base: &Base<'_, '_, '_>,
    world: &mut World,
    one: Option<NodeId>,
    other: Option<NodeId>,
) -> Result<NodeId, AllocError>
    requires one { IfSome one (λ id. id.0 < length (graph_of world.old)) }
    requires other { IfSome other (λ id. id.0 < length (graph_of world.old)) }
    ensures one { IfOk result (λ id. HoldsSome (graph_of world.old) (graph_of world.new) one id) }
    ensures other { IfOk result
        (λ id. HoldsSome (graph_of world.old) (graph_of world.new) other id) }
    ensures only { IfOk result (λ id. elements_of (graph_of world.new) id
        ⊆ IsInEither (graph_of world.old) one other) }
    ensures node { IfOk result (λ id. id.0 < length (graph_of world.new)) }
    ensures sound { IsGraph (graph_of world.new) }
    ensures grows { Grows world.old world.new }
{
    // The contract of this call says that the graph is sound and begins with the built-in nodes.
    world.graph();
    match (one, other) {
        (Some(one), Some(other)) => union(base.alloc, world, &[one, other]),
        (Some(id), None) | (None, Some(id)) => Ok(id),
        (None, None) => Ok(EMPTY),
    }
}
