//! The walk over what sees the variables of a pattern.
ghost use Rattle.std.specs.Prelude.{◌≡◌, ◌++◌, [], ◌∷◌, map, IfOk, OnOk};
ghost use Rattle.cd_syntax.specs.PlainTree.{plain as plain_tree};
ghost use Rattle.cd_program.specs.Expr.{branches_of};
ghost use Rattle.cd_program.specs.PlainExpr.{plain, plain_branch, plain_branches};
ghost use Rattle.cd_variables.specs.Occurrences.{bound};
ghost use Rattle.cd_names.specs.ProgramFaults.{names_of};
ghost use Rattle.cd_names.specs.Inner.FindingInPrograms.{found_in_expr, found_in_branches};
ghost use Rattle.cd_names.specs.Inner.FindingInPrograms.{with_pattern};
ghost use Rattle.cd_names.specs.Inner.PlainFound.{plain_found};
ghost use Rattle.cd_variables.specs.PlainOccurrences.{plain_occurrence};

use crate::base::Base;
use crate::expr::walk;
use crate::found::Found;
use crate::locals::Locals;
use cd_program::expr::{Branch, Branches, Expr};
use cd_syntax::type_tree::Tree;
use cd_variables::check_variables;
use cd_variables::occurrence::Occurrence;
use std::alloc::{AllocError, Global};

/// Walks over a value and the branches that it goes to.
#[cycle(walk)]
pub(crate) fn walk_matching<'t>(
    base: &Base<'_, 't>,
    value: &'t Expr,
    branches: &'t Branches,
    locals: &mut Locals<'t>,
    found: &mut Found<'t>,
) -> Result<(), AllocError>
    ensures locals { OnOk result (locals.new ≡ locals.old) }
    ensures found { OnOk result (plain_found found.new
        ≡ found_in_branches (locals.old ++ base.now.functions.now) (plain_branches branches.now)
        (found_in_expr (locals.old ++ base.now.functions.now) (plain value.now)
        (plain_found found.old))) }
{
    walk(base, value, locals, found)?;
    walk_branches(base, branches, locals, found)
}

/// Walks over branches in turn.
#[cycle(walk)]
pub(crate) fn walk_branches<'t>(
    base: &Base<'_, 't>,
    branches: &'t Branches,
    locals: &mut Locals<'t>,
    found: &mut Found<'t>,
) -> Result<(), AllocError>
    ensures locals { OnOk result (locals.new ≡ locals.old) }
    ensures found { OnOk result (plain_found found.new
        ≡ found_in_branches (locals.old ++ base.now.functions.now) (plain_branches branches.now)
        (plain_found found.old)) }
{
    for branch in branches.items() {
        walk_branch(base, branch, locals, found)?;
    }
    Ok(())
}

#[cycle(walk)]
fn walk_branch<'t>(
    base: &Base<'_, 't>,
    branch: &'t Branch,
    locals: &mut Locals<'t>,
    found: &mut Found<'t>,
) -> Result<(), AllocError>
    ensures locals { OnOk result (locals.new ≡ locals.old) }
    ensures found { OnOk result (plain_found found.new
        ≡ found_in_branches (locals.old ++ base.now.functions.now)
        (branches_of (plain_branch branch.now ∷ [])) (plain_found found.old)) }
{
    walk_under(base, &branch.pattern, &branch.body, locals, found)
}

/// Walks over a value, and then over the rest, which also sees what the pattern binds.
#[cycle(walk)]
pub(crate) fn walk_let<'t>(
    base: &Base<'_, 't>,
    pattern: &'t Tree,
    value: &'t Expr,
    rest: &'t Expr,
    locals: &mut Locals<'t>,
    found: &mut Found<'t>,
) -> Result<(), AllocError>
    ensures locals { OnOk result (locals.new ≡ locals.old) }
    ensures found { OnOk result (plain_found found.new
        ≡ found_in_expr
        (names_of (plain_tree pattern.now) ++ (locals.old ++ base.now.functions.now))
        (plain rest.now) (with_pattern (plain_tree pattern.now)
        (found_in_expr (locals.old ++ base.now.functions.now) (plain value.now)
        (plain_found found.old)))) }
{
    walk(base, value, locals, found)?;
    walk_under(base, pattern, rest, locals, found)
}

// Walks over an expression that also sees what the pattern binds.
#[cycle(walk)]
fn walk_under<'t>(
    base: &Base<'_, 't>,
    pattern: &'t Tree,
    body: &'t Expr,
    locals: &mut Locals<'t>,
    found: &mut Found<'t>,
) -> Result<(), AllocError>
    ensures locals { OnOk result (locals.new ≡ locals.old) }
    ensures found { OnOk result (plain_found found.new
        ≡ found_in_expr
        (names_of (plain_tree pattern.now) ++ (locals.old ++ base.now.functions.now))
        (plain body.now) (with_pattern (plain_tree pattern.now) (plain_found found.old))) }
{
    let outside = locals.len();
    let bound = look_at(base.alloc, pattern, found)?;
    locals.enter_all(bound)?;
    walk(base, body, locals, found)?;
    locals.cut(outside);
    Ok(())
}

// The variables that a pattern binds. Its faults are reported, and it is kept.
fn look_at<'t>(
    alloc: Global,
    pattern: &'t Tree,
    found: &mut Found<'t>,
) -> Result<Vec<Occurrence<'t>>, AllocError>
    ensures bound { IfOk result (λ all.
        map plain_occurrence all.items ≡ bound (plain_tree pattern.now)) }
    ensures found { OnOk result (plain_found found.new
        ≡ with_pattern (plain_tree pattern.now) (plain_found found.old)) }
{
    let mut bound = Vec::new(alloc);
    check_variables(alloc, pattern, &mut bound, &mut found.faults)?;
    found.add_tree(pattern)?;
    Ok(bound)
}
