ghost use Rattle.std.specs.Prelude.{◌≡◌};

use crate::scope_level::ScopeLevel;

/// The names of type declarations, with nodes that follow one another.
#[derive(Drop)]
pub struct Names<'t> {
    // Its list is the first, and seen from outside of all others.
    pub(crate) level: ScopeLevel<'t>,
    ghost first: { level.list ≡ 0 },
}
