//! Tests of types.
ghost use Rattle.std.specs.Prelude.{◌<◌, length, IfOk};
ghost use Rattle.cd_graph.specs.Nodes.{nodes};
ghost use Rattle.cd_cells.specs.Cells.{thing_at};
ghost use Rattle.cd_cells.specs.Table.{table, names};
ghost use Rattle.cd_asking.specs.Known.{KnowsOf};
ghost use Rattle.cd_taking.specs.Inner.Stepping.{Asked, TestsStay};

use crate::type_tests::Tests;
use cd_cells::{ValueId, Values};
use cd_sets::node_id::NodeId;
use std::alloc::AllocError;

/// Whether a value is in a type.
#[inline]
pub(crate) fn ask(
    tests: &mut Tests,
    values: &Values,
    id: ValueId,
    type_id: NodeId,
) -> Result<bool, AllocError>
    requires value { id.0 < length (table values.now) }
    requires node { type_id.0 < length (nodes tests.old.graph) }
    requires knows { KnowsOf (nodes tests.old.graph) (names values.now) tests.old.asker }
    ensures asked { let v = thing_at (table values.now) id.0 in
        IfOk result (Asked (nodes tests.old.graph) tests.old.maps type_id v) }
    ensures stays { TestsStay tests.old tests.new values.now values.now }
{
    values.knows();
    tests
        .asker
        .is_in(&tests.graph, &tests.maps, values, id, type_id)
}
