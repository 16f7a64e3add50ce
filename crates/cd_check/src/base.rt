//! What a check goes by.
use crate::sites::Sited;
use cd_operators::tools::Tools;
use cd_resolve::NameIndex;
use cd_resolved::Resolved;
use cd_sets::node_id::NodeId;
use std::alloc::Global;

/// What a check goes by and never changes.
#[derive(Clone, Copy)]
pub(crate) struct Base<'b, 'k, 't> {
    pub(crate) alloc: Global,
    /// The program.
    pub(crate) resolved: &'k Resolved<'t>,
    /// The sites of its patterns, in the order of their numbers.
    pub(crate) sites: &'b [Sited<'k, 't>],
    /// The functions that are declared.
    pub(crate) functions: &'b NameIndex<'t>,
    /// The types of their interfaces, one by one.
    pub(crate) interfaces: &'b [NodeId],
    pub(crate) tools: Tools,
    /// The nodes of the truth values.
    pub(crate) yes: NodeId,
    pub(crate) no: NodeId,
}
