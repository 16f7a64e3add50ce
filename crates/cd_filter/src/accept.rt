//! Nodes that hold what a kernel takes.
ghost use Rattle.std.specs.Prelude.{◌≡◌, ◌<◌, ◌++◌, length, IfOk, OnOk, OnErr};
ghost use Rattle.cd_model.specs.Formula.{Graph, IsGraph, in_node};
ghost use Rattle.cd_model.specs.Interfaces.{Interfaces, value_in_node};
ghost use Rattle.cd_model.specs.Thing.{IsElement, IsValue};
ghost use Rattle.cd_matching.specs.Kernel.{IsSound};
ghost use Rattle.cd_matching.specs.PlainKernel.{plain_kernel};
ghost use Rattle.cd_empty.specs.Growth.{Grows};
ghost use Rattle.cd_empty.specs.Seen.{graph_of, table_of, kept};
ghost use Rattle.cd_filter.specs.Accepting.{place, HoldsTaken, IsAcceptedFrom};

use crate::batch::batch_of;
use crate::own::place;
use cd_empty::World;
use cd_graph::Formulas;
use cd_matching::kernel::Kernel;
use cd_sets::node_id::NodeId;
use std::alloc::{AllocError, Global};

/// Nodes that hold what the nodes of a kernel take.
#[derive(Clone, Copy)]
pub struct AcceptedNodes {
    /// The number of the first: a node of the kernel has the one that is so many after it.
    pub first: usize,
    /// The node of the root.
    pub root: NodeId,
}

/// A node that holds exactly what a kernel takes, and one for each node of the kernel. They are put
/// in as one batch.
///
/// # Errors
///
/// Want of memory. The graph stays as it was.
pub fn accepted(
    alloc: Global,
    world: &mut World,
    kernel: &Kernel,
) -> Result<AcceptedNodes, AllocError>
    requires { IsSound (λ id. id.0 < length (graph_of world.old)) (plain_kernel kernel.now) }
    ensures first { IfOk result (λ accepted. accepted.first ≡ length (graph_of world.old)) }
    ensures root { IfOk result
        (λ accepted. accepted.root ≡ place accepted.first kernel.now.root) }
    ensures elements { IfOk result (λ accepted. HoldsTaken (in_node (graph_of world.new)) IsElement
        accepted.first (plain_kernel kernel.now) accepted.root) }
    ensures values { IfOk result (λ accepted. (interfaces : Interfaces)
        → HoldsTaken (value_in_node (graph_of world.new) interfaces) IsValue
        accepted.first (plain_kernel kernel.now) accepted.root) }
    ensures nodes { IfOk result (λ accepted.
        IsAcceptedFrom (graph_of world.new) (plain_kernel kernel.now) accepted.first) }
    ensures added { OnOk result ((batch : Graph)
        × (graph_of world.new ≡ graph_of world.old ++ batch)
        × (length batch ≡ length kernel.now.nodes.items)) }
    ensures unchanged { OnErr result (graph_of world.new ≡ graph_of world.old) }
    ensures sound { IsGraph (graph_of world.new) }
    ensures settled { kept world.new ≡ kept world.old }
    ensures table { table_of world.new ≡ table_of world.old }
    ensures grows { Grows world.old world.new }
{
    let graph = world.graph();
    let first = graph.len();
    let batch = batch_of(alloc, graph, kernel, first)?;
    let root = place(first, kernel.root)?;
    world.extend(Formulas::of(batch)?)?;
    Ok(AcceptedNodes { first, root })
}
