//! The walk over a function.
ghost use Rattle.std.specs.Prelude.{◌≡◌, OnOk};
ghost use Rattle.cd_program.specs.PlainExpr.{plain_function};
ghost use Rattle.cd_resolved.specs.Inner.Collecting.{with_function, with_parts_of};
ghost use Rattle.cd_resolved.specs.Inner.PlainParts.{plain_parts};

use crate::parts::branches::walk_branches;
use crate::parts::collected::Parts;
use crate::site_tree::SiteTree;
use cd_program::expr::FunctionTree;
use std::alloc::AllocError;

/// Adds a function that stands in an expression, its site, and then what stands in it.
#[cycle(walk)]
pub(crate) fn walk_inner<'p>(
    function: &'p FunctionTree,
    parts: &mut Parts<'p>,
) -> Result<(), AllocError>
    ensures { OnOk result (plain_parts parts.new
        ≡ with_parts_of (plain_function function.now)
        (with_function (plain_function function.now) (plain_parts parts.old))) }
{
    parts.add_function(function)?;
    parts.add_site(SiteTree::Branches(&function.branches))?;
    walk_branches(&function.branches, parts)
}

/// Adds the site of a function, and then what stands in it.
pub(crate) fn walk_function<'p>(
    function: &'p FunctionTree,
    parts: &mut Parts<'p>,
) -> Result<(), AllocError>
    ensures { OnOk result (plain_parts parts.new
        ≡ with_parts_of (plain_function function.now) (plain_parts parts.old)) }
{
    parts.add_site(SiteTree::Branches(&function.branches))?;
    walk_branches(&function.branches, parts)
}
