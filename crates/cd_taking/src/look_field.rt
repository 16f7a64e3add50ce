//! How the fields of a node look at a record, one by one.
ghost use Rattle.std.specs.Prelude.{◌≡◌, ◌<◌, Bool, IfOk, length, slice_get};
ghost use Rattle.cd_matching.specs.PlainKernel.{plain_nodes};
ghost use Rattle.cd_graph.specs.Nodes.{nodes};
ghost use Rattle.cd_cells.specs.Cells.{thing_at};
ghost use Rattle.cd_cells.specs.Table.{table, names};
ghost use Rattle.cd_asking.specs.Known.{KnowsOf};
ghost use Rattle.cd_taking.specs.declared.frame.Next.TheVariants.{Fields};
ghost use Rattle.cd_taking.specs.Inner.Coded.{IsWithin};
ghost use Rattle.cd_taking.specs.Inner.Stepping.{IsKernelOf, Steps, TestsStay};

use crate::ask::ask;
use crate::fields::{FieldTask, field_task};
use crate::frame::{Frame, Next};
use crate::taker::Taker;
use crate::type_tests::Tests;
use cd_cells::{ValueId, Values};
use cd_matching::kernel::Kernel;
use std::alloc::AllocError;

/// The field of a node that is at this place looks at a record.
pub(crate) fn look_at_field(
    taker: &mut Taker,
    kernel: &Kernel,
    tests: &mut Tests,
    values: &Values,
    value: ValueId,
    node: usize,
    index: usize,
) -> Result<Next, AllocError>
    requires kernel { IsKernelOf tests.old kernel.now }
    requires value { value.0 < length (table values.now) }
    requires within { IsWithin (length (table values.now)) taker.old }
    requires knows { KnowsOf (nodes tests.old.graph) (names values.now) tests.old.asker }
    ensures step { IfOk result (Steps (nodes tests.old.graph) tests.old.maps
        (plain_nodes kernel.now.nodes.items) (table values.now) (table values.now) taker.old
        taker.new (Fields value node index)) }
    ensures stays { TestsStay tests.old tests.new values.now values.now }
{
    match field_task(kernel, values, value, node, index) {
        FieldTask::Ends => Ok(Next::Yes),
        FieldTask::Lacks => Ok(Next::No),
        FieldTask::Passes => Ok(Next::Fields(value, node, index + 1)),
        FieldTask::Asks(type_id, id) => {
            if ask(tests, values, id, type_id)? {
                return Ok(Next::Fields(value, node, index + 1));
            }
            Ok(Next::No)
        }
        FieldTask::Looks(id, number) => {
            taker.push(Frame::Field(value, node, index + 1))?;
            Ok(Next::Look(id, number))
        }
    }
}
