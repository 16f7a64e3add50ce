//! What formulas are made from.
use crate::explore::Explored;
use cd_graph::Graph;
use std::alloc::Global;

/// What formulas are made from.
#[derive(Drop)]
pub struct Plan<'p, 'k> {
    pub alloc: Global,
    /// The graph that the places ask of.
    pub graph: &'p Graph,
    /// The places, and their steps.
    pub explored: &'p Explored<'k>,
    /// The text of the constant of each node of the kernel.
    pub texts: &'p [Vec<char>],
    /// The number of the node of what is wanted first.
    pub first: usize,
}
