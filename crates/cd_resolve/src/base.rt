//! What a walk goes by.
use crate::scope_level::ScopeLevel;
use std::alloc::Global;

/// What a walk goes by and never changes: the number of the node of the first equation, and the
/// scope level that is seen from outside, if there is one.
#[derive(Drop)]
pub(crate) struct Base<'t, 'n> {
    pub(crate) alloc: Global,
    pub(crate) first: usize,
    pub(crate) outer: Option<&'n ScopeLevel<'t>>,
}
