//! The walk over patterns and what sees their variables.
ghost use Rattle.std.specs.Prelude.{◌≡◌, [], ◌∷◌, OnOk};
ghost use Rattle.cd_syntax.specs.PlainTree.{plain as plain_tree};
ghost use Rattle.cd_program.specs.Expr.{branches_of};
ghost use Rattle.cd_program.specs.PlainExpr.{plain, plain_branch, plain_branches};
ghost use Rattle.cd_typing.specs.Sites.{Closed};
ghost use Rattle.cd_resolved.specs.PlainSite.{plain_site};
ghost use Rattle.cd_resolved.specs.Inner.Collecting.{with_expr, with_branches, with_pattern};
ghost use Rattle.cd_resolved.specs.Inner.Collecting.{with_site};
ghost use Rattle.cd_resolved.specs.Inner.PlainParts.{plain_parts};

use crate::parts::collected::Parts;
use crate::parts::expr::walk;
use crate::site_tree::SiteTree;
use cd_program::expr::{Branch, Branches, Expr};
use cd_syntax::type_tree::Tree;
use std::alloc::AllocError;

/// Adds a site, and what stands in a value and in the branches that it goes to.
#[cycle(walk)]
pub(crate) fn walk_matching<'p>(
    site: SiteTree<'p>,
    value: &'p Expr,
    branches: &'p Branches,
    parts: &mut Parts<'p>,
) -> Result<(), AllocError>
    ensures { OnOk result (plain_parts parts.new
        ≡ with_branches (plain_branches branches.now) (with_expr (plain value.now)
        (with_site (plain_site site.entry) (plain_parts parts.old)))) }
{
    parts.add_site(site)?;
    walk(value, parts)?;
    walk_branches(branches, parts)
}

/// Adds those of branches in turn.
#[cycle(walk)]
pub(crate) fn walk_branches<'p>(
    branches: &'p Branches,
    parts: &mut Parts<'p>,
) -> Result<(), AllocError>
    ensures { OnOk result (plain_parts parts.new
        ≡ with_branches (plain_branches branches.now) (plain_parts parts.old)) }
{
    for branch in branches.items() {
        walk_branch(branch, parts)?;
    }
    Ok(())
}

#[cycle(walk)]
fn walk_branch<'p>(branch: &'p Branch, parts: &mut Parts<'p>) -> Result<(), AllocError>
    ensures { OnOk result (plain_parts parts.new
        ≡ with_branches (branches_of (plain_branch branch.now ∷ [])) (plain_parts parts.old)) }
{
    parts.add_pattern(&branch.pattern)?;
    walk(&branch.body, parts)
}

/// Adds the site and the pattern of a `let`, and what stands in the value and in the rest.
#[cycle(walk)]
pub(crate) fn walk_let<'p>(
    pattern: &'p Tree,
    value: &'p Expr,
    rest: &'p Expr,
    parts: &mut Parts<'p>,
) -> Result<(), AllocError>
    ensures { OnOk result (plain_parts parts.new
        ≡ with_expr (plain rest.now) (with_expr (plain value.now)
        (with_pattern (plain_tree pattern.now)
        (with_site (record { kind = Closed; patterns = plain_tree pattern.now ∷ [] })
        (plain_parts parts.old))))) }
{
    parts.add_site(SiteTree::Let(pattern))?;
    parts.add_pattern(pattern)?;
    walk(value, parts)?;
    walk(rest, parts)
}
