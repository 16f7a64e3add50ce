//! The steps in turn.
ghost use Rattle.std.specs.Prelude.{◌≡◌, ◌<◌, IfOk, length};
ghost use Rattle.cd_cells.specs.Cells.{thing_at};
ghost use Rattle.cd_cells.specs.Table.{table, names};
ghost use Rattle.cd_graph.specs.Nodes.{nodes};
ghost use Rattle.cd_asking.specs.MappedArrows.{maps_at};
ghost use Rattle.cd_asking.specs.Known.{KnowsOf};
ghost use Rattle.cd_asking.specs.Inner.Shapes.{shape_of};
ghost use Rattle.cd_asking.specs.Inner.Asked.{set_at, Grows, Found};

use crate::asker::Asker;
use crate::maps::Maps;
use crate::node_sets::SetId;
use crate::step::{ask, go_on};
use crate::task::{Next, Task};
use crate::tasks::put;
use cd_cells::{ValueId, Values};
use cd_graph::Graph;
use std::alloc::AllocError;

/// The set of those nodes of a set that hold a value.
pub(crate) fn members_with(
    asker: &mut Asker,
    graph: &Graph,
    maps: &Maps,
    values: &Values,
    id: ValueId,
    set: SetId,
) -> Result<SetId, AllocError>
    requires value { id.0 < length (table values.now) }
    requires set { set.0 < length asker.old.sets }
    requires right { KnowsOf (nodes graph.now) (names values.now) asker.old }
    ensures found { let is = thing_at (table values.now) id.0 in
        let shape = shape_of (nodes graph.now) (maps_at maps.now) is in
        IfOk result (Found (nodes graph.now) shape (set_at asker.old.sets set) asker.new.sets) }
    ensures right { KnowsOf (nodes graph.now) (names values.now) asker.new }
    ensures grows { Grows asker.old asker.new }
{
    values.knows();
    let mut tasks = Vec::new(asker.sets.allocator());
    let mut next = ask(asker, graph, maps, values, id, set)?;
    loop {
        match next {
            Next::Ask(id, set, task) => {
                put(&mut tasks, task)?;
                next = ask(asker, graph, maps, values, id, set)?;
            }
            Next::Answer(answer) => match tasks.pop() {
                Some(task) => next = go_on(asker, graph, maps, values, task, answer)?,
                None => return Ok(answer),
            },
        }
    }
}
