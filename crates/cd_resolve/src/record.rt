//! The walk over a record type.
ghost use Rattle.std.specs.Prelude.{◌≡◌, IfOk, [], None};
ghost use Rattle.cd_syntax.specs.TypeTree.{Record};
ghost use Rattle.cd_syntax.specs.PlainTree.{plain_fields, plain_rest};
ghost use Rattle.cd_syntax.specs.WellMadePattern.{AreWellMadePatternFields};
ghost use Rattle.cd_syntax.specs.WellMadePattern.{IsWellMadePatternRest};
ghost use Rattle.cd_graph.specs.PlainFormula.{plain_named};
ghost use Rattle.cd_shared.specs.Equation.{plain_equations};
ghost use Rattle.cd_resolve.specs.Inner.Finding.{innermost, labelled, found_in_kind};
ghost use Rattle.cd_resolve.specs.Inner.Finding.{found_in_fields, found_in_rest};
ghost use Rattle.cd_resolve.specs.Inner.PlainBase.{names_outside, lists_seen};
ghost use Rattle.cd_resolve.specs.Inner.PlainFound.{plain_found};
ghost use Rattle.cd_resolve.specs.Inner.PlainState.{plain_levels};
ghost use Rattle.cd_resolve.specs.Inner.Walk.{walked_kind, walked_fields, walked_rest};

use crate::base::Base;
use crate::found::Found;
use crate::name_index::NameIndex;
use crate::scope_level::ScopeLevel;
use crate::state::State;
use crate::walk::walk;
use cd_graph::built_in::{ANY, EMPTY};
use cd_graph::fields::Field;
use cd_sets::node_id::NodeId;
use cd_syntax::name::Name;
use cd_syntax::type_tree::{FieldTrees, Rest};
use std::alloc::{AllocError, Global};

/// A record type, of which the labels that stand twice are reported first, and whose fields are
/// walked over in turn.
#[cycle(walk)]
pub(crate) fn walk_record<'t>(
    base: &Base<'_, '_>,
    fields: &'t FieldTrees,
    rest: &'t Rest,
    levels: &[ScopeLevel<'t>],
    state: &mut State,
    found: &mut Found<'t>,
) -> Result<NodeId, AllocError>
    requires fields { AreWellMadePatternFields (plain_fields fields.now) }
    requires rest { IsWellMadePatternRest (plain_rest rest.now) }
    ensures found { IfOk result (λ _. plain_found found.new
        ≡ found_in_kind innermost (lists_seen base.now levels.now) None 0
        (Record (plain_fields fields.now) (plain_rest rest.now)) (plain_found found.old)) }
    ensures equations { IfOk result (λ id. (id, plain_equations state.new.equations.items)
        ≡ walked_kind base.now.first (names_outside base.now) (plain_levels levels.now)
        (Record (plain_fields fields.now) (plain_rest rest.now))
        (plain_equations state.old.equations.items)) }
{
    report_labels(base.alloc, fields, found)?;
    let made = walk_fields(base, fields, levels, state, found)?;
    let other = walk_rest(base, rest, levels, state, found)?;
    state.record(base, made, other)
}

// The node of what stands after the fields.
#[cycle(walk)]
fn walk_rest<'t>(
    base: &Base<'_, '_>,
    rest: &'t Rest,
    levels: &[ScopeLevel<'t>],
    state: &mut State,
    found: &mut Found<'t>,
) -> Result<NodeId, AllocError>
    requires { IsWellMadePatternRest (plain_rest rest.now) }
    ensures found { IfOk result (λ _. plain_found found.new
        ≡ found_in_rest innermost (lists_seen base.now levels.now)
        (plain_rest rest.now) (plain_found found.old)) }
    ensures equations { IfOk result (λ id. (id, plain_equations state.new.equations.items)
        ≡ walked_rest base.now.first (names_outside base.now) (plain_levels levels.now)
        (plain_rest rest.now) (plain_equations state.old.equations.items)) }
{
    match rest {
        Rest::Closed => Ok(EMPTY),
        Rest::Open => Ok(ANY),
        Rest::Typed(tree) => walk(base, tree, levels, None, state, found),
    }
}

// The fields of a record type in the order in which they are written, with the nodes of their
// trees.
#[cycle(walk)]
fn walk_fields<'t>(
    base: &Base<'_, '_>,
    fields: &'t FieldTrees,
    levels: &[ScopeLevel<'t>],
    state: &mut State,
    found: &mut Found<'t>,
) -> Result<Vec<(Name, Field)>, AllocError>
    requires { AreWellMadePatternFields (plain_fields fields.now) }
    ensures found { IfOk result (λ _. plain_found found.new
        ≡ found_in_fields innermost (lists_seen base.now levels.now)
        (plain_fields fields.now) (plain_found found.old)) }
    ensures equations { IfOk result (λ made.
        (plain_named made.items, plain_equations state.new.equations.items)
        ≡ walked_fields base.now.first (names_outside base.now) (plain_levels levels.now)
        (plain_fields fields.now) [] (plain_equations state.old.equations.items)) }
{
    let mut made = Vec::new(base.alloc);
    for field in fields.items() {
        let node = walk(base, &field.tree, levels, None, state, found)?;
        let optional = field.optional;
        made.push((field.label.copy()?, Field { optional, node }))?;
    }
    Ok(made)
}

// Reports the labels that stand twice.
fn report_labels<'t>(
    alloc: Global,
    fields: &'t FieldTrees,
    found: &mut Found<'t>,
) -> Result<(), AllocError>
    ensures { IfOk result (λ _.
        plain_found found.new ≡ labelled [] (plain_fields fields.now) (plain_found found.old)) }
{
    let mut seen = NameIndex::new(alloc);
    for field in fields.items() {
        let again = seen.add(&field.label)?;
        found.report_twice(again, &field.label, field.at)?;
    }
    Ok(())
}
