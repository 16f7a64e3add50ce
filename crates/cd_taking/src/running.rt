//! One step after another.
ghost use Rattle.std.specs.Prelude.{◌<◌, IfOk, length};
ghost use Rattle.cd_matching.specs.PlainKernel.{plain_nodes};
ghost use Rattle.cd_graph.specs.Nodes.{nodes};
ghost use Rattle.cd_cells.specs.Table.{table, names, Grows};
ghost use Rattle.cd_asking.specs.Known.{KnowsOf};
ghost use Rattle.cd_taking.specs.declared.frame.Next.TheVariants.{Yes, No};
ghost use Rattle.cd_taking.specs.Inner.Coded.{IsWithin, IsNextWithin};
ghost use Rattle.cd_taking.specs.Inner.Running.{Acts, IsDoing};
ghost use Rattle.cd_taking.specs.Inner.Stepping.{IsKernelOf, TestsStay};

use crate::frame::{Doing, Next};
use crate::look::look;
use crate::look_field::look_at_field;
use crate::resume::{fall_back, go_on};
use crate::taker::Taker;
use crate::type_tests::Tests;
use cd_cells::Values;
use cd_matching::kernel::Kernel;
use std::alloc::AllocError;

/// The next step.
pub(crate) fn step(
    taker: &mut Taker,
    kernel: &Kernel,
    tests: &mut Tests,
    values: &mut Values,
    next: Next,
) -> Result<Doing, AllocError>
    requires kernel { IsKernelOf tests.old kernel.now }
    requires within { IsWithin (length (table values.old)) taker.old }
    requires next { IsNextWithin (length (table values.old)) next }
    requires knows { KnowsOf (nodes tests.old.graph) (names values.old) tests.old.asker }
    ensures doing { IfOk result (IsDoing (nodes tests.old.graph) tests.old.maps
        (plain_nodes kernel.now.nodes.items) (table values.old) (table values.new) taker.old
        taker.new next) }
    ensures stays { TestsStay tests.old tests.new values.old values.new }
{
    match next {
        Next::Look(value, node) => {
            let then = look(taker, kernel, tests, values, value, node)?;
            Ok(Doing::Goes(then))
        }
        Next::Fields(value, node, index) => {
            let then = look_at_field(taker, kernel, tests, values, value, node, index)?;
            Ok(Doing::Goes(then))
        }
        Next::Yes => after_yes(taker, kernel, values),
        Next::No => after_no(taker, kernel, values),
    }
}

// What was looked at is taken.
fn after_yes(taker: &mut Taker, kernel: &Kernel, values: &mut Values) -> Result<Doing, AllocError>
    requires within { IsWithin (length (table values.old)) taker.old }
    ensures doing { IfOk result (Acts kernel.now (table values.old) (table values.new) taker.old
        taker.new Yes) }
    ensures grows { Grows values.old values.new }
{
    match taker.pop() {
        Some(frame) => {
            let then = go_on(taker, kernel, values, frame)?;
            Ok(Doing::Goes(then))
        }
        None => Ok(Doing::Ends(true)),
    }
}

// What was looked at is not taken.
fn after_no(taker: &mut Taker, kernel: &Kernel, values: &Values) -> Result<Doing, AllocError>
    requires { IsWithin (length (table values.now)) taker.old }
    ensures { IfOk result (Acts kernel.now (table values.now) (table values.now) taker.old
        taker.new No) }
{
    match taker.pop() {
        Some(frame) => {
            let then = fall_back(taker, kernel, values, frame)?;
            Ok(Doing::Goes(then))
        }
        None => Ok(Doing::Ends(false)),
    }
}
