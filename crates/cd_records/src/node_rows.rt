//! The rows of nodes.
ghost use Rattle.std.specs.Prelude.{◌≡◌, ◌<◌, length, map, IfOk};
ghost use Rattle.cd_model.specs.AllOf.{AllOf};
ghost use Rattle.cd_needs.specs.RecordTypes.{plain_row};
ghost use Rattle.cd_empty.specs.Growth.{Grows};
ghost use Rattle.cd_empty.specs.Seen.{graph_of};
ghost use Rattle.cd_rows.specs.RecordRows.{RowAsksNodes};
ghost use Rattle.cd_records.specs.Inner.Rows.{AreRowsOf};

use cd_empty::World;
use cd_needs::asking::question;
use cd_needs::row::Row;
use cd_rows::record_rows;
use cd_sets::node_id::NodeId;
use std::alloc::{AllocError, Global};

/// The rows of the records of a node.
pub(crate) fn rows_of(alloc: Global, world: &mut World, id: NodeId) -> Result<Vec<Row>, AllocError>
    requires { id.0 < length (graph_of world.old) }
    ensures rows { IfOk result (λ rows.
        AreRowsOf (graph_of world.old) id (map plain_row rows.items)) }
    ensures asks { IfOk result (λ rows.
        AllOf (RowAsksNodes (length (graph_of world.old))) (map plain_row rows.items)) }
    ensures graph { graph_of world.new ≡ graph_of world.old }
    ensures grows { Grows world.old world.new }
{
    let question = question(alloc, &[id], &[])?;
    record_rows(alloc, world, &question)
}
