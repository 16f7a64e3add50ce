//! Runs of a program with types on a value.
ghost use Rattle.std.specs.Prelude.{◌<◌, length, option_map, IfOk, IfSome};
ghost use Rattle.cd_cells.specs.Cells.{thing_at};
ghost use Rattle.cd_cells.specs.Table.{table};
ghost use Rattle.cd_empty.specs.Seen.{graph_of};
ghost use Rattle.cd_machine.specs.PlainRan.{plain_ran, IsOutcome};
ghost use Rattle.cd_program.specs.Expr.{FunctionTree as AFunction};
ghost use Rattle.cd_resolved.specs.Resolved.{program_of, IsResolved, Extends};
ghost use Rattle.cd_safety.specs.SafeProgram.{IsDocument, IsMain, ComesTo};
ghost use Rattle.cd_running.specs.RunsOn.{RunsOn};
ghost use Rattle.cd_running.specs.TypedProgram.{IsTypedProgram};

use crate::input::is_input;
use cd_cells::{ValueId, Values};
use cd_code::compile;
use cd_empty::World;
use cd_machine::{Ran, run};
use cd_resolved::Resolved;
use cd_safety::laws::typed_programs_have_main;
use cd_texts::laws::written_programs_are_safe;
use std::alloc::{AllocError, Global};

/// What a program that has types comes to on a value, with so many units, if it takes the value.
/// The world begins with the nodes of the program, and the value stands in a table to which the
/// values of the run are added.
///
/// # Errors
///
/// Want of memory.
pub(crate) fn run_on(
    alloc: Global,
    world: &mut World,
    program: Resolved<'_>,
    values: &mut Values,
    value: ValueId,
    units: u64,
) -> Result<Option<Ran>, AllocError>
    requires typed { IsTypedProgram (program_of program) }
    requires resolved { IsResolved program }
    requires begins { Extends program (graph_of world.old) }
    requires value { value.0 < length (table values.old) }
    requires document { IsDocument (thing_at (table values.old) value.0) }
    ensures runs { IfOk result (λ ran. RunsOn (program_of program.entry)
        (thing_at (table values.old) value.0) units
        (option_map (plain_ran (table values.new)) ran)) }
    ensures within { IfOk result
        (λ ran. IfSome ran (λ ran. IsOutcome (length (table values.new)) ran.outcome)) }
{
    // The contract of this call says that a program which a text reads as, and that has types, is
    // safe.
    written_programs_are_safe();
    if is_input(alloc, &program, values, value)? {
        let ran = run_by_code(alloc, world, program, values, value, units)?;
        Ok(Some(ran))
    } else {
        Ok(None)
    }
}

// What a run comes to, by the code of the program.
fn run_by_code(
    alloc: Global,
    world: &mut World,
    program: Resolved<'_>,
    values: &mut Values,
    value: ValueId,
    units: u64,
) -> Result<Ran, AllocError>
    requires typed { IsTypedProgram (program_of program) }
    requires resolved { IsResolved program }
    requires begins { Extends program (graph_of world.old) }
    requires value { value.0 < length (table values.old) }
    ensures comes { IfOk result (λ ran. (main : AFunction) → IsMain (program_of program.entry) main
        → ComesTo (program_of program.entry) main (thing_at (table values.old) value.0) units
        (plain_ran (table values.new) ran)) }
    ensures within { IfOk result (λ ran. IsOutcome (length (table values.new)) ran.outcome) }
{
    // The contract of this call says that the program has a `main`.
    typed_programs_have_main();
    let mut code = compile(alloc, world, program, values)?;
    run(alloc, &mut code, values, value, units)
}
