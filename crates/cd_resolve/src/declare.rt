//! The walk over lists of declarations, whose names have nodes that follow one another.
ghost use Rattle.std.specs.Prelude.{◌≡◌, ◌∷◌, [], IfOk, OnOk};
ghost use Rattle.cd_syntax.specs.TypeTree.{Where};
ghost use Rattle.cd_syntax.specs.PlainTree.{plain, plain_declarations};
ghost use Rattle.cd_syntax.specs.WellMadePattern.{IsWellMadePattern};
ghost use Rattle.cd_syntax.specs.WellMadePattern.{AreWellMadePatternDeclarations};
ghost use Rattle.cd_shared.specs.Equation.{plain_equations};
ghost use Rattle.cd_resolve.specs.Inner.Finding.{innermost, found_in_kind, found_in_declared};
ghost use Rattle.cd_resolve.specs.Inner.Finding.{found_in_list, entered as entered_list};
ghost use Rattle.cd_resolve.specs.Inner.PlainBase.{names_outside, lists_seen, lists_outside};
ghost use Rattle.cd_resolve.specs.Inner.PlainFound.{list_level, list_levels, list_after};
ghost use Rattle.cd_resolve.specs.Inner.PlainFound.{plain_found, plain_start};
ghost use Rattle.cd_resolve.specs.Inner.PlainState.{plain_level, plain_levels};
ghost use Rattle.cd_resolve.specs.Inner.Walk.{walked_kind, walked_declared, walked_list};
ghost use Rattle.cd_resolve.specs.Inner.Walk.{entered, level_after};

use crate::base::Base;
use crate::found::{Found, Id, start_of};
use crate::scope::under;
use crate::scope_level::ScopeLevel;
use crate::state::State;
use crate::taken::is_taken;
use crate::walk::walk;
use cd_sets::node_id::NodeId;
use cd_syntax::type_tree::{Declarations, Tree};
use std::alloc::AllocError;

/// Walks over a list of declarations that stands under no other, and gives its level: the nodes
/// of its names follow those that are there, and each holds what the name's tree does.
pub(crate) fn walk_list<'t>(
    base: &Base<'_, '_>,
    declarations: &'t Declarations,
    state: &mut State,
    found: &mut Found<'t>,
) -> Result<ScopeLevel<'t>, AllocError>
    requires { AreWellMadePatternDeclarations (plain_declarations declarations.now) }
    ensures nodes { IfOk result (λ level. plain_level level
        ≡ level_after base.now.first (plain_declarations declarations.now)
        (plain_equations state.old.equations.items)) }
    ensures list { IfOk result (λ level. list_level level
        ≡ list_after (plain_declarations declarations.now) (plain_found found.old)) }
    ensures found { IfOk result (λ _. plain_found found.new
        ≡ found_in_list innermost (lists_outside base.now)
        (plain_declarations declarations.now) (plain_found found.old)) }
    ensures equations { IfOk result (λ _. plain_equations state.new.equations.items
        ≡ walked_list base.now.first (names_outside base.now) []
        (plain_declarations declarations.now) (plain_equations state.old.equations.items)) }
{
    let number = state.equations.len();
    let level = enter(base, declarations, state, found)?;
    let levels = under(base.alloc, &level, &[])?;
    walk_declared(base, number, &level, levels.as_slice(), state, found)?;
    Ok(level)
}

/// A tree under its own declarations, whose trees are walked over before it.
#[cycle(walk)]
pub(crate) fn walk_where<'t>(
    base: &Base<'_, '_>,
    body: &'t Tree,
    declarations: &'t Declarations,
    outer: &[ScopeLevel<'t>],
    start: Option<Id<'t>>,
    state: &mut State,
    found: &mut Found<'t>,
) -> Result<NodeId, AllocError>
    requires body { IsWellMadePattern (plain body.now) }
    requires declarations { AreWellMadePatternDeclarations (plain_declarations declarations.now) }
    ensures found { IfOk result (λ _. plain_found found.new
        ≡ found_in_kind innermost (lists_seen base.now outer.now) (plain_start start.entry) 0
        (Where (plain body.now) (plain_declarations declarations.now)) (plain_found found.old)) }
    ensures equations { IfOk result (λ id. (id, plain_equations state.new.equations.items)
        ≡ walked_kind base.now.first (names_outside base.now) (plain_levels outer.now)
        (Where (plain body.now) (plain_declarations declarations.now))
        (plain_equations state.old.equations.items)) }
{
    let levels = walk_under(base, declarations, outer, state, found)?;
    walk(base, body, levels.as_slice(), start, state, found)
}

// Walks over a list of declarations, and gives its level with those round it.
#[cycle(walk)]
fn walk_under<'t>(
    base: &Base<'_, '_>,
    declarations: &'t Declarations,
    outer: &[ScopeLevel<'t>],
    state: &mut State,
    found: &mut Found<'t>,
) -> Result<Vec<ScopeLevel<'t>>, AllocError>
    requires { AreWellMadePatternDeclarations (plain_declarations declarations.now) }
    ensures nodes { IfOk result (λ levels. plain_levels levels.items
        ≡ level_after base.now.first (plain_declarations declarations.now)
        (plain_equations state.old.equations.items) ∷ plain_levels outer.now) }
    ensures lists { IfOk result (λ levels. list_levels levels.items
        ≡ list_after (plain_declarations declarations.now) (plain_found found.old)
        ∷ list_levels outer.now) }
    ensures found { IfOk result (λ _. plain_found found.new
        ≡ found_in_list innermost (lists_seen base.now outer.now)
        (plain_declarations declarations.now) (plain_found found.old)) }
    ensures equations { IfOk result (λ _. plain_equations state.new.equations.items
        ≡ walked_list base.now.first (names_outside base.now) (plain_levels outer.now)
        (plain_declarations declarations.now) (plain_equations state.old.equations.items)) }
{
    let number = state.equations.len();
    let level = enter(base, declarations, state, found)?;
    let levels = under(base.alloc, &level, outer)?;
    walk_declared(base, number, &level, levels.as_slice(), state, found)?;
    Ok(levels)
}

// Enters a list of declarations, whose trees are not read yet, and gives its level.
fn enter<'t>(
    base: &Base<'_, '_>,
    declarations: &'t Declarations,
    state: &mut State,
    found: &mut Found<'t>,
) -> Result<ScopeLevel<'t>, AllocError>
    ensures nodes { IfOk result (λ level. plain_level level
        ≡ level_after base.now.first (plain_declarations declarations.now)
        (plain_equations state.old.equations.items)) }
    ensures list { IfOk result (λ level. list_level level
        ≡ list_after (plain_declarations declarations.now) (plain_found found.old)) }
    ensures found { IfOk result (λ _. plain_found found.new
        ≡ entered_list (plain_declarations declarations.now) (plain_found found.old)) }
    ensures equations { IfOk result (λ _. plain_equations state.new.equations.items
        ≡ entered (plain_declarations declarations.now)
        (plain_equations state.old.equations.items)) }
{
    let first = state.next(base)?;
    let list = found.enter(declarations)?;
    state.enter(declarations)?;
    ScopeLevel::of(base.alloc, declarations, first, list)
}

// Walks over the trees of a scope level, which is the innermost of these, and whose names have the
// equations from this number on.
#[cycle(walk)]
fn walk_declared<'t>(
    base: &Base<'_, '_>,
    from: usize,
    level: &ScopeLevel<'t>,
    levels: &[ScopeLevel<'t>],
    state: &mut State,
    found: &mut Found<'t>,
) -> Result<(), AllocError>
    requires { AreWellMadePatternDeclarations (plain_declarations level.now.declarations.now) }
    ensures found { IfOk result (λ _. plain_found found.new
        ≡ found_in_declared innermost (lists_seen base.now levels.now) level.now.list []
        (plain_declarations level.now.declarations.now) (plain_found found.old)) }
    ensures equations { OnOk result (plain_equations state.new.equations.items
        ≡ walked_declared base.now.first (names_outside base.now) (plain_levels levels.now) from
        (plain_declarations level.now.declarations.now)
        (plain_equations state.old.equations.items)) }
{
    let items = level.declarations.items();
    let mut number = from;
    for (place, declaration) in items.iter().enumerate() {
        let name = &declaration.name;
        let again = level.declares_before(place, name);
        found.report_twice(is_taken(again, name), name, declaration.at)?;
        let start = start_of(again, level.list, name);
        let root = walk(base, &declaration.tree, levels, start, state, found)?;
        state.settle(number, root);
        // No graph is so long.
        let Some(next) = number.checked_add(1) else {
            return Err(AllocError);
        };
        number = next;
    }
    Ok(())
}
