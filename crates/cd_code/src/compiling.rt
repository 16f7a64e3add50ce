//! From a program to its code.
ghost use Rattle.std.specs.Prelude.{◌≡◌, IfOk};
ghost use Rattle.cd_cells.specs.Table.{names as names_in, Grows as GrowsTo};
ghost use Rattle.cd_empty.specs.Growth.{Grows};
ghost use Rattle.cd_empty.specs.Seen.{graph_of};
ghost use Rattle.cd_resolved.specs.Resolved.{program_of as program_in, IsResolved, Extends};
ghost use Rattle.cd_code.specs.Compiled.{program_of, IsReady};

use crate::code::Code;
use crate::patterns::bindings_of_each;
use crate::tests::tests_of;
use cd_cells::Values;
use cd_empty::World;
use cd_resolved::Resolved;
use cd_taking::Taker;
use std::alloc::{AllocError, Global};

/// The code of a program that is resolved, for the values of a table. The world's graph begins with
/// the program's nodes, and grows by nodes of arrows: each arrow of the nodes that values are asked
/// for is asked of each function.
///
/// # Errors
///
/// Want of memory.
pub fn compile<'p>(
    alloc: Global,
    world: &mut World,
    program: Resolved<'p>,
    values: &mut Values,
) -> Result<Code<'p>, AllocError>
    requires resolved { IsResolved program }
    requires begins { Extends program (graph_of world.old) }
    ensures program { IfOk result (λ code. program_of code ≡ program_in program.entry) }
    ensures ready { IfOk result (λ code. IsReady (names_in values.new) code) }
    ensures values { GrowsTo values.old values.new }
    ensures grows { Grows world.old world.new }
{
    let bindings = bindings_of_each(alloc, values, program.kernels())?;
    let tests = tests_of(alloc, world, &program)?;
    Ok(Code {
        program,
        bindings,
        tests,
        taker: Taker::new(alloc),
        captured: Vec::new(alloc),
    })
}
