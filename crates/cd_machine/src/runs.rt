//! Runs of programs.
ghost use Rattle.std.specs.Prelude.{◌≡◌, ◌<◌, ℕ, Some, codes, length, IfOk};
ghost use Rattle.cd_model.specs.Thing.{Closure, NoField};
ghost use Rattle.cd_program.specs.Expr.{FunctionTree};
ghost use Rattle.cd_program.specs.WellMade.{IsWellMadeProgram};
ghost use Rattle.cd_cells.specs.Cells.{thing_at};
ghost use Rattle.cd_cells.specs.Table.{table, names, Grows};
ghost use Rattle.cd_code.specs.Compiled.{program_of, IsReady};
ghost use Rattle.cd_evaluation.specs.Code.{place_of};
ghost use Rattle.cd_evaluation.specs.Meaning.{Meaning};
ghost use Rattle.cd_evaluation.specs.ProgramCode.{code_of};
ghost use Rattle.cd_evaluation.specs.ProgramFunctions.{declared_at};
ghost use Rattle.cd_machine.specs.PlainRan.{plain_ran, IsOutcome};

use crate::machine::Machine;
use crate::outcome::{Outcome, Ran};
use crate::turn::Control;
use cd_cells::{ValueId, Values};
use cd_code::Code;
use std::alloc::{AllocError, Global};

/// Runs a program: applies its function `main` to a document, with so many units. The code is of
/// the names of the table.
///
/// # Errors
///
/// Want of memory.
pub fn run<'p>(
    alloc: Global,
    code: &mut Code<'p>,
    values: &mut Values,
    document: ValueId,
    units: u64,
) -> Result<Ran, AllocError>
    requires document { document.0 < length (table values.old) }
    requires ready { IsReady (names values.old) code.old }
    requires well_made { IsWellMadeProgram (program_of code.old) }
    requires main { (at : ℕ) × (declared_at (program_of code.old) (codes "main") ≡ Some at) }
    ensures means { IfOk result (λ ran. (main : FunctionTree)
        → declared_at (program_of code.old) (codes "main") ≡ Some (place_of main)
        → Meaning (code_of (program_of code.old)) (Closure (place_of main) NoField)
        (thing_at (table values.old) document.0) units (plain_ran (table values.new) ran)) }
    ensures within { IfOk result (λ ran. IsOutcome (length (table values.new)) ran.outcome) }
    ensures ready { IsReady (names values.new) code.new }
    ensures program { program_of code.new ≡ program_of code.old }
    ensures grows { Grows values.old values.new }
{
    let Some(at) = code.declared("main") else {
        unreachable!();
    };
    let main = values.closure(at, &[])?;
    let mut machine = Machine::of(alloc, main)?;
    let control = Control::Returning(Outcome::Done(document));
    Ok(machine.go(code, values, control, units)?)
}
