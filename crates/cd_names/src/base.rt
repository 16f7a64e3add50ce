//! What a walk goes by.
use cd_resolve::NameIndex;
use std::alloc::Global;

/// What a walk goes by and never changes: the functions that are declared.
#[derive(Clone, Copy)]
pub(crate) struct Base<'n, 't> {
    pub(crate) alloc: Global,
    pub(crate) functions: &'n NameIndex<'t>,
}
