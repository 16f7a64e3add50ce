//! The walk over a regular expression, whose items are trees.
ghost use Rattle.std.specs.Prelude.{◌≡◌, IfOk, []};
ghost use Rattle.cd_syntax.specs.TypeTree.{Sequence};
ghost use Rattle.cd_syntax.specs.PlainTree.{plain_regular, plain_regular_kind, plain_regulars};
ghost use Rattle.cd_syntax.specs.WellMadePattern.{IsWellMadePatternRegular};
ghost use Rattle.cd_syntax.specs.WellMadePattern.{IsWellMadePatternRegularKind};
ghost use Rattle.cd_syntax.specs.WellMadePattern.{AreWellMadePatternRegulars};
ghost use Rattle.cd_regex.specs.PlainRegular.{plain as plain_reg, plain_list as plain_regs};
ghost use Rattle.cd_regex.specs.Regular.{Alt, NoRegular};
ghost use Rattle.cd_shared.specs.Equation.{plain_equations};
ghost use Rattle.cd_resolve.specs.Inner.Finding.{innermost, found_in_regular};
ghost use Rattle.cd_resolve.specs.Inner.Finding.{found_in_regular_kind, found_in_regulars};
ghost use Rattle.cd_resolve.specs.Inner.PlainBase.{names_outside, lists_seen};
ghost use Rattle.cd_resolve.specs.Inner.PlainFound.{plain_found};
ghost use Rattle.cd_resolve.specs.Inner.PlainState.{plain_levels};
ghost use Rattle.cd_resolve.specs.Inner.Repeated.{repeated as repeated_plain};
ghost use Rattle.cd_resolve.specs.Inner.Walk.{walked_kind, walked_regular, walked_regular_kind};
ghost use Rattle.cd_resolve.specs.Inner.Walk.{walked_regulars};

use crate::base::Base;
use crate::found::Found;
use crate::scope_level::ScopeLevel;
use crate::state::State;
use crate::walk::walk;
use cd_regex::{Reg, Regs};
use cd_sets::node_id::NodeId;
use cd_syntax::type_tree::{Post, RegKind, RegTree, RegTrees};
use std::alloc::{AllocError, Global};

/// A sequence, whose items are walked over in turn.
#[cycle(walk)]
pub(crate) fn walk_sequence<'t>(
    base: &Base<'_, '_>,
    expression: &'t RegTree,
    levels: &[ScopeLevel<'t>],
    state: &mut State,
    found: &mut Found<'t>,
) -> Result<NodeId, AllocError>
    requires { IsWellMadePatternRegular (plain_regular expression.now) }
    ensures found { IfOk result (λ _. plain_found found.new
        ≡ found_in_regular innermost (lists_seen base.now levels.now)
        (plain_regular expression.now) (plain_found found.old)) }
    ensures equations { IfOk result (λ id. (id, plain_equations state.new.equations.items)
        ≡ walked_kind base.now.first (names_outside base.now) (plain_levels levels.now)
        (Sequence (plain_regular expression.now)) (plain_equations state.old.equations.items)) }
{
    let regular = walk_regular(base, expression, levels, state, found)?;
    state.sequence(base, &regular)
}

// An expression over the nodes of its items.
#[cycle(walk)]
fn walk_regular<'t>(
    base: &Base<'_, '_>,
    expression: &'t RegTree,
    levels: &[ScopeLevel<'t>],
    state: &mut State,
    found: &mut Found<'t>,
) -> Result<Reg, AllocError>
    requires { IsWellMadePatternRegular (plain_regular expression.now) }
    ensures found { IfOk result (λ _. plain_found found.new
        ≡ found_in_regular innermost (lists_seen base.now levels.now)
        (plain_regular expression.now) (plain_found found.old)) }
    ensures equations { IfOk result (λ regular.
        (plain_reg regular, plain_equations state.new.equations.items)
        ≡ walked_regular base.now.first (names_outside base.now) (plain_levels levels.now)
        (plain_regular expression.now) (plain_equations state.old.equations.items)) }
{
    walk_regular_kind(base, &expression.kind, levels, state, found)
}

// The same, without the expression's place in the text.
#[cycle(walk)]
fn walk_regular_kind<'t>(
    base: &Base<'_, '_>,
    kind: &'t RegKind,
    levels: &[ScopeLevel<'t>],
    state: &mut State,
    found: &mut Found<'t>,
) -> Result<Reg, AllocError>
    requires { IsWellMadePatternRegularKind (plain_regular_kind kind.now) }
    ensures found { IfOk result (λ _. plain_found found.new
        ≡ found_in_regular_kind innermost (lists_seen base.now levels.now)
        (plain_regular_kind kind.now) (plain_found found.old)) }
    ensures equations { IfOk result (λ regular.
        (plain_reg regular, plain_equations state.new.equations.items)
        ≡ walked_regular_kind base.now.first (names_outside base.now) (plain_levels levels.now)
        (plain_regular_kind kind.now) (plain_equations state.old.equations.items)) }
{
    match kind {
        RegKind::Nothing => Ok(Reg::nothing()),
        RegKind::Item(tree) => {
            let id = walk(base, tree, levels, None, state, found)?;
            Ok(Reg::item(id))
        }
        RegKind::Seq(all) => {
            let all = walk_regulars(base, all, levels, state, found)?;
            Ok(Reg::seq(all))
        }
        RegKind::Alt(all) => {
            let all = walk_regulars(base, all, levels, state, found)?;
            Ok(Reg::alt(all))
        }
        RegKind::Repeat(inner, post) => {
            let part = walk_regular(base, inner, levels, state, found)?;
            repeated(base.alloc, part, *post)
        }
        RegKind::Capture(_, inner) => walk_capture(base, inner, levels, found),
    }
}

// A capture, of which no equations are made: it is walked over for the faults in it alone.
#[cycle(walk)]
fn walk_capture<'t>(
    base: &Base<'_, '_>,
    inner: &'t RegTree,
    levels: &[ScopeLevel<'t>],
    found: &mut Found<'t>,
) -> Result<Reg, AllocError>
    requires { IsWellMadePatternRegular (plain_regular inner.now) }
    ensures found { IfOk result (λ _. plain_found found.new
        ≡ found_in_regular innermost (lists_seen base.now levels.now)
        (plain_regular inner.now) (plain_found found.old)) }
    ensures nothing { IfOk result (λ regular. plain_reg regular ≡ Alt NoRegular) }
{
    let mut aside = State::new(base.alloc);
    walk_regular(base, inner, levels, &mut aside, found)?;
    Ok(Reg::alt(Regs::of(Vec::new(base.alloc))))
}

// Expressions, which are walked over in turn.
#[cycle(walk)]
fn walk_regulars<'t>(
    base: &Base<'_, '_>,
    all: &'t RegTrees,
    levels: &[ScopeLevel<'t>],
    state: &mut State,
    found: &mut Found<'t>,
) -> Result<Regs, AllocError>
    requires { AreWellMadePatternRegulars (plain_regulars all.now) }
    ensures found { IfOk result (λ _. plain_found found.new
        ≡ found_in_regulars innermost (lists_seen base.now levels.now)
        (plain_regulars all.now) (plain_found found.old)) }
    ensures equations { IfOk result (λ made.
        (plain_regs made, plain_equations state.new.equations.items)
        ≡ walked_regulars base.now.first (names_outside base.now) (plain_levels levels.now)
        (plain_regulars all.now) [] (plain_equations state.old.equations.items)) }
{
    let mut made = Vec::new(base.alloc);
    for expression in all.items() {
        made.push(walk_regular(base, expression, levels, state, found)?)?;
    }
    Ok(Regs::of(made))
}

// An expression under a postfix.
fn repeated(alloc: Global, part: Reg, post: Post) -> Result<Reg, AllocError>
    ensures { IfOk result (λ regular. plain_reg regular ≡ repeated_plain post (plain_reg part)) }
{
    let part = Box::new(alloc, part)?;
    Ok(match post {
        Post::Star | Post::LazyStar => Reg::star(part),
        Post::Plus | Post::LazyPlus => Reg::plus(part),
        Post::Opt | Post::LazyOpt => Reg::opt(part),
    })
}
