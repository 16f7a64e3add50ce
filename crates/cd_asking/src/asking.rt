//! Whether a value is in a node of a graph.
ghost use Rattle.std.specs.Prelude.{◌≡◌, ◌<◌, IfOk, length};
ghost use Rattle.cd_cells.specs.Cells.{thing_at};
ghost use Rattle.cd_cells.specs.Table.{table, names};
ghost use Rattle.cd_graph.specs.Nodes.{nodes};
ghost use Rattle.cd_model.specs.Interfaces.{Interfaces, value_in_node};
ghost use Rattle.cd_model.specs.Thing.{EachClosure};
ghost use Rattle.cd_asking.specs.Known.{KnowsOf};
ghost use Rattle.cd_asking.specs.MappedArrows.{maps_at, MapsRight};
ghost use Rattle.cd_asking.specs.Inner.Shapes.{is_in as is_in_plain};

use crate::asker::Asker;
use crate::maps::Maps;
use crate::running::members_with;
use crate::shape::contains;
use cd_cells::{ValueId, Values};
use cd_graph::Graph;
use cd_sets::node_id::NodeId;
use std::alloc::{AllocError, Global};

/// Whether a value is in a node of a graph, where the table of arrows is right of the closures that
/// the value holds. Who asks more than once keeps an `Asker`.
///
/// # Errors
///
/// Want of memory.
pub fn is_in(
    alloc: Global,
    graph: &Graph,
    maps: &Maps,
    values: &Values,
    id: ValueId,
    node: NodeId,
) -> Result<bool, AllocError>
    requires value { id.0 < length (table values.now) }
    requires node { node.0 < length (nodes graph.now) }
    ensures { let v = thing_at (table values.now) id.0 in
        IfOk result (λ answer. (interfaces : Interfaces)
        → EachClosure (MapsRight (nodes graph.now) interfaces maps.now) v
        → value_in_node (nodes graph.now) interfaces v node answer) }
{
    let mut asker = Asker::new(alloc);
    asker.is_in(graph, maps, values, id, node)
}

impl Asker {
    /// Whether a value is in a node of the graph, where the table of arrows is right of the
    /// closures that the value holds. What is found on the way is known from then on, and speaks
    /// of no closure.
    ///
    /// # Errors
    ///
    /// Want of memory. What is known stays right.
    pub fn is_in(
        &mut self,
        graph: &Graph,
        maps: &Maps,
        values: &Values,
        id: ValueId,
        node: NodeId,
    ) -> Result<bool, AllocError>
        requires value { id.0 < length (table values.now) }
        requires node { node.0 < length (nodes graph.now) }
        requires knows { KnowsOf (nodes graph.now) (names values.now) self.old }
        ensures answer { let v = thing_at (table values.now) id.0 in
            IfOk result (λ answer. (interfaces : Interfaces)
            → EachClosure (MapsRight (nodes graph.now) interfaces maps.now) v
            → value_in_node (nodes graph.now) interfaces v node answer) }
        ensures knows { KnowsOf (nodes graph.now) (names values.now) self.new }
    {
        values.knows();
        self.holds(graph, maps, values, id, node)
    }

    // The same, as a test that computes.
    fn holds(
        &mut self,
        graph: &Graph,
        maps: &Maps,
        values: &Values,
        id: ValueId,
        node: NodeId,
    ) -> Result<bool, AllocError>
        requires value { id.0 < length (table values.now) }
        requires node { node.0 < length (nodes graph.now) }
        requires right { KnowsOf (nodes graph.now) (names values.now) self.old }
        ensures answer { let v = thing_at (table values.now) id.0 in
            IfOk result
            (λ answer. answer ≡ is_in_plain (nodes graph.now) (maps_at maps.now) v node) }
        ensures right { KnowsOf (nodes graph.now) (names values.now) self.new }
    {
        let set = self.one(graph, values, node)?;
        let answer = members_with(self, graph, maps, values, id, set)?;
        Ok(contains(self.sets.get(answer), node))
    }
}
