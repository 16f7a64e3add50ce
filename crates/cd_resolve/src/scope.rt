//! The scope levels that a tree stands under, from the innermost.
ghost use Rattle.std.specs.Prelude.{◌≡◌, ◌∷◌, ◌++◌, IfOk, OnOk};
ghost use Rattle.cd_resolve.specs.Inner.PlainFound.{list_level, list_levels};
ghost use Rattle.cd_resolve.specs.Inner.PlainState.{plain_level, plain_levels};

use crate::scope_level::ScopeLevel;
use std::alloc::{AllocError, Global};

/// The scope levels with one more, which is the innermost.
pub(crate) fn under<'t>(
    alloc: Global,
    level: &ScopeLevel<'t>,
    outer: &[ScopeLevel<'t>],
) -> Result<Vec<ScopeLevel<'t>>, AllocError>
    ensures nodes { IfOk result (λ levels.
        plain_levels levels.items ≡ plain_level level.now ∷ plain_levels outer.now) }
    ensures lists { IfOk result (λ levels.
        list_levels levels.items ≡ list_level level.now ∷ list_levels outer.now) }
{
    let mut levels = Vec::new(alloc);
    levels.push(level.copy()?)?;
    add_all(&mut levels, outer)?;
    Ok(levels)
}

// Adds the levels after those that are there.
fn add_all<'t>(levels: &mut Vec<ScopeLevel<'t>>, more: &[ScopeLevel<'t>]) -> Result<(), AllocError>
    ensures nodes { OnOk result (plain_levels levels.new.items
        ≡ plain_levels levels.old.items ++ plain_levels more.now) }
    ensures lists { OnOk result (list_levels levels.new.items
        ≡ list_levels levels.old.items ++ list_levels more.now) }
{
    for level in more {
        levels.push(level.copy()?)?;
    }
    Ok(())
}
